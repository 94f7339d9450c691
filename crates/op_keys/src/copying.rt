//! Copies of orders and exits.
ghost use Rattle.std.specs.Prelude.{◌≡◌, IfOk};

use crate::order::{Exit, Order, Word};
use std::alloc::Global;
use value_core::{ListOf, NoMemory};

fn copied_words(alloc: Global, words: &ListOf<Word>) -> Result<ListOf<Word>, NoMemory>
    ensures { IfOk result (λ copies. copies ≡ words.now) }
{
    let mut copies = ListOf::new(alloc);
    for word in words.as_slice() {
        copies.push(word.copy(alloc)?)?;
    }
    Ok(copies)
}

impl Word {
    /// An equal word.
    pub fn copy(&self, alloc: Global) -> Result<Word, NoMemory>
        ensures { IfOk result (λ w. w ≡ self.now) }
    {
        Word::of(alloc, self.as_str())
    }
}

impl Order {
    /// An equal order.
    pub fn copy(&self, alloc: Global) -> Result<Order, NoMemory>
        ensures { IfOk result (λ o. o ≡ self.now) }
    {
        Ok(Order {
            job: self.job,
            worker: self.worker,
            op: self.op,
            key: self.key.copy(alloc)?,
            value: self.value.copy(alloc)?,
            words: copied_words(alloc, &self.words)?,
        })
    }
}

impl Exit {
    /// An equal exit.
    pub fn copy(&self, alloc: Global) -> Result<Exit, NoMemory>
        ensures { IfOk result (λ e. e ≡ self.now) }
    {
        match self {
            Exit::Ended { code, output } => Ok(Exit::Ended {
                code: *code,
                output: ListOf::from_vec(Vec::from_slice(alloc, output.as_slice())?),
            }),
            Exit::Fault => Ok(Exit::Fault),
        }
    }
}
