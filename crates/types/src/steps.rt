// What lookups take (SPECIFICATION, Lookup): how many glyph records had their code looked at, and how
// many entries of the jump table were read. The largest sums over a text fit: crate definitions, proofs/SumsLaws.antt.
#[derive(Clone, Copy, Debug, Default, PartialEq, Eq)]
pub struct LookupSteps {
    pub records: u32,
    pub entries: u32,
}
