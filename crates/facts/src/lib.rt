// The lines of a heap file, each kept as two numbers: a key, which its word and its subject make,
// and the value that it gives.
#![tactic(auto)]

pub mod checks;
pub mod fields;
pub mod keys;
pub mod reading;

// The lines of 60,000 bytes, each of 13 at least, and one to spare.
pub const FACTS: usize = 4616;

#[derive(Clone, Copy)]
pub struct StoredFact {
    pub key: u64,
    pub value: u8,
}

// The sizes that the first line gives; 0 before it.
#[derive(Clone, Copy)]
pub struct Sizes {
    pub references: usize,
    pub fields: usize,
    pub classes: usize,
}
