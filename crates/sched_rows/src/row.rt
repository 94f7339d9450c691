//! A result that is kept.
ghost use Rattle.std.specs.Prelude.{◌≡◌, IfOk};

use std::alloc::Global;
use value_core::{NoMemory, Text};

/// The result of an operation for a key.
#[derive(Drop)]
pub struct Row {
    /// The operation's name.
    pub op: Text,
    pub key: Text,
    /// What the key was set to; empty where the key gives a value.
    pub value: Text,
    /// Whether it succeeded.
    pub fine: bool,
    /// The value that it gave, or why it failed. Empty where a key was set.
    pub result: Text,
    /// When it finished, in milliseconds since 1970.
    pub finished: u64,
    /// The number of its job.
    pub job: u64,
    /// Whether it is to be made anew.
    pub rebuild: bool,
}

impl Row {
    /// An equal row.
    pub fn copy(&self, alloc: Global) -> Result<Row, NoMemory>
        ensures { IfOk result (λ r. r ≡ self.now) }
    {
        Ok(Row {
            op: self.op.copy(alloc)?,
            key: self.key.copy(alloc)?,
            value: self.value.copy(alloc)?,
            fine: self.fine,
            result: self.result.copy(alloc)?,
            finished: self.finished,
            job: self.job,
            rebuild: self.rebuild,
        })
    }
}
