// The record of counts: "one record of counts for up to five strings"; and the catalogue, which is the areas of a tree with its record.
#![tactic(auto)]

// The nodes; the bits of each of five strings; the bytes, middle entries and large entries of each of four dictionaries.
// What a level does not have is zero. Lists side by side, as C sees them (include/oscjardum.h).
#[derive(Clone, Copy)]
pub struct Counts {
    pub nodes: usize,
    pub bits: [usize; 5],
    pub bytes: [usize; 4],
    pub middles: [usize; 4],
    pub larges: [usize; 4],
}

// What a question is lent: areas 0 to 4 and the record of counts.
#[derive(Clone, Copy)]
pub struct Catalogue<'a> {
    pub words: &'a [u64],
    pub bytes: &'a [u8],
    pub middles: &'a [u16],
    pub larges: &'a [u64],
    pub labels: &'a [u32],
    pub counts: Counts,
}
