//! The states of several terms, gathered one after the other.
ghost use Rattle.std.specs.Prelude.{◌≡◌, IfOk, OnOk};
ghost use Rattle.term_core.specs.Gathering.{added, finished, made_by, start};

use crate::states::limited_state;
use std::alloc::Global;
use value_core::{ListOf, NoMemory, State, Value};

/// What the values of several terms become if all of them are fine.
#[derive(Clone, Copy, Debug, PartialEq, Eq)]
pub enum Collected {
    /// Their list, within the limit of weight.
    List,
    Unit,
}

/// The states so far of terms that are evaluated one after the other.
#[derive(Drop)]
pub struct StateFold {
    /// The first that failed.
    pub failed: Option<State>,
    /// The first that is active.
    pub active: Option<State>,
    /// The values of those that are fine.
    pub values: ListOf<Value>,
}

impl StateFold {
    /// No state yet.
    pub fn new(alloc: Global) -> StateFold
        ensures { result ≡ start }
    {
        StateFold {
            failed: None,
            active: None,
            values: ListOf::new(alloc),
        }
    }

    /// One state more.
    pub fn add(&mut self, state: State) -> Result<(), NoMemory>
        ensures { OnOk result (self.new ≡ added self.old state) }
    {
        match state {
            State::Fine(value) => self.values.push(value),
            State::Failed { origin, message } => {
                if self.failed.is_none() {
                    self.failed = Some(State::Failed { origin, message });
                }
                Ok(())
            }
            State::Active { origin, stage } => {
                if self.active.is_none() {
                    self.active = Some(State::Active { origin, stage });
                }
                Ok(())
            }
        }
    }

    /// The first that failed, else the first that is active, else what the values become.
    pub fn finish(self, alloc: Global, node: u32, collected: Collected) -> Result<State, NoMemory>
        ensures { IfOk result (λ s. s ≡ finished self (made_by collected node)) }
    {
        let StateFold {
            failed,
            active,
            values,
        } = self;
        if let Some(state) = failed {
            return Ok(state);
        }
        if let Some(state) = active {
            return Ok(state);
        }
        match collected {
            Collected::List => limited_state(alloc, node, Value::List(values)),
            Collected::Unit => Ok(State::Fine(Value::Unit)),
        }
    }
}
