// Integers: what the definitions do with signed numbers (specs/Integers.antt), and the laws by which
// `omega` proves linear facts about them (proofs/Laws.antt, with examples in proofs/Examples.antt).
// There is no code here.
#![tactic(auto)]
