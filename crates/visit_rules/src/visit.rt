//! The tree of the visits of an evaluation.
ghost use Rattle.std.specs.Prelude.{◌≡◌, IfOk};

use std::alloc::Global;
use term_core::Entry;
use value_core::{ListOf, NoMemory, State, Triple, Value};

/// What a visit read of the world.
#[derive(Drop)]
pub enum Read {
    Nothing,
    Input { place: u32, value: Value },
    Node { place: u32, state: State },
    Lookup { triple: Triple, entry: Entry },
}

impl Read {
    /// An equal one.
    pub fn copy(&self, alloc: Global) -> Result<Read, NoMemory>
        ensures { IfOk result (λ r. r ≡ self.now) }
    {
        match self {
            Read::Nothing => Ok(Read::Nothing),
            Read::Input { place, value } => Ok(Read::Input {
                place: *place,
                value: value.copy(alloc)?,
            }),
            Read::Node { place, state } => Ok(Read::Node {
                place: *place,
                state: state.copy(alloc)?,
            }),
            Read::Lookup { triple, entry } => Ok(Read::Lookup {
                triple: triple.copy(alloc)?,
                entry: entry.copy(alloc)?,
            }),
        }
    }
}

/// A visit of a term: its state, what it read, the items that its bodies are for, and the visits
/// below it.
#[derive(Drop)]
pub struct Visit {
    pub state: State,
    pub read: Read,
    pub items: ListOf<Value>,
    pub parts: ListOf<Visit>,
    pub bodies: ListOf<Visit>,
}
