//! What may be another than before.
use term_core::Entry;
use value_core::{ListOf, Triple};

/// The sources that may have changed: inputs by their numbers in file order, and triples. One
/// that didn't change is compared, and not counted.
#[derive(Drop)]
pub struct Changes {
    pub inputs: ListOf<u32>,
    pub triples: ListOf<Triple>,
}

/// A triple with its entry, as it is now.
#[derive(Drop)]
pub struct Looked {
    pub triple: Triple,
    pub entry: Entry,
}
