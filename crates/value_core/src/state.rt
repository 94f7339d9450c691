//! States of terms, and what operations are looked up by.
ghost use Rattle.std.specs.Prelude.{◌≡◌, IfOk};

use crate::NoMemory;
use crate::list_of::ListOf;
use crate::text::Text;
use crate::value::Value;
use std::alloc::Global;

/// How far the job of an operation has come.
#[derive(Clone, Copy, Debug, PartialEq, Eq)]
pub enum Stage {
    /// It may be taken by a worker.
    Ready,
    /// It waits to be confirmed.
    Waiting,
    /// A worker has taken it.
    Running,
}

/// What a term evaluates to. The origin is the number of the node in whose term the state arose,
/// counted from 0 in file order.
#[derive(Drop)]
pub enum State {
    Fine(Value),
    Failed { origin: u32, message: Text },
    Active { origin: u32, stage: Stage },
}

/// An operation by its number, with its key and value.
#[derive(PartialEq, Eq, PartialOrd, Ord, Drop)]
pub struct Triple {
    pub op: u32,
    pub key: Text,
    pub value: Text,
}

/// The nodes' names and states at a version, in the same order.
#[derive(Drop)]
pub struct Published {
    pub version: u64,
    pub names: ListOf<Text>,
    pub states: ListOf<State>,
}

impl State {
    /// An equal state.
    pub fn copy(&self, alloc: Global) -> Result<State, NoMemory>
        ensures { IfOk result (λ s. s ≡ self.now) }
    {
        match self {
            State::Fine(v) => Ok(State::Fine(v.copy(alloc)?)),
            State::Failed { origin, message } => Ok(State::Failed {
                origin: *origin,
                message: message.copy(alloc)?,
            }),
            State::Active { origin, stage } => Ok(State::Active {
                origin: *origin,
                stage: *stage,
            }),
        }
    }
}

impl Triple {
    /// An equal triple.
    pub fn copy(&self, alloc: Global) -> Result<Triple, NoMemory>
        ensures { IfOk result (λ t. t ≡ self.now) }
    {
        Ok(Triple {
            op: self.op,
            key: self.key.copy(alloc)?,
            value: self.value.copy(alloc)?,
        })
    }
}
