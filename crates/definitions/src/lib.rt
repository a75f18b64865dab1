// What the calls must answer (docs/SPECIFICATION.md): the definitions in specs/, which every
// contract cites, and laws about them in proofs/. There is no code here.
#![tactic(auto)]
