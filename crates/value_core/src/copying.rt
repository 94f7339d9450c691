//! Copies of values and kinds.
ghost use Rattle.std.specs.Prelude.{◌≡◌, IfOk};

use crate::NoMemory;
use crate::list_of::ListOf;
use crate::value::{Kind, Outcome, Value};
use sqlite_items::Boxed;
use std::alloc::Global;

impl Value {
    /// An equal value.
    #[cycle(copying)]
    pub fn copy(&self, alloc: Global) -> Result<Value, NoMemory>
        ensures { IfOk result (λ v. v ≡ self.now) }
    {
        match self {
            Value::Words(text) => Ok(Value::Words(text.copy(alloc)?)),
            Value::Num(n) => Ok(Value::Num(*n)),
            Value::Unit => Ok(Value::Unit),
            Value::Pair(a, b) => {
                let first = Boxed::new(alloc, a.get().copy(alloc)?)?;
                let second = Boxed::new(alloc, b.get().copy(alloc)?)?;
                Ok(Value::Pair(first, second))
            }
            Value::List(items) => {
                let mut copies = ListOf::new(alloc);
                for item in items.as_slice() {
                    copies.push(item.copy(alloc)?)?;
                }
                Ok(Value::List(copies))
            }
            Value::Out(outcome) => Ok(Value::Out(outcome.copy(alloc)?)),
        }
    }
}

impl Outcome {
    /// An equal outcome.
    #[cycle(copying)]
    pub fn copy(&self, alloc: Global) -> Result<Outcome, NoMemory>
        ensures { IfOk result (λ o. o ≡ self.now) }
    {
        match self {
            Outcome::Fine(v) => Ok(Outcome::Fine(Boxed::new(alloc, v.get().copy(alloc)?)?)),
            Outcome::Bad(message) => Ok(Outcome::Bad(message.copy(alloc)?)),
            Outcome::Going => Ok(Outcome::Going),
        }
    }
}

impl Kind {
    /// An equal kind.
    pub fn copy(&self, alloc: Global) -> Result<Kind, NoMemory>
        ensures { IfOk result (λ k. k ≡ self.now) }
    {
        match self {
            Kind::Text => Ok(Kind::Text),
            Kind::Num => Ok(Kind::Num),
            Kind::Unit => Ok(Kind::Unit),
            Kind::Pair(a, b) => {
                let first = Boxed::new(alloc, a.get().copy(alloc)?)?;
                let second = Boxed::new(alloc, b.get().copy(alloc)?)?;
                Ok(Kind::Pair(first, second))
            }
            Kind::List(item) => Ok(Kind::List(Boxed::new(alloc, item.get().copy(alloc)?)?)),
            Kind::Out(value) => Ok(Kind::Out(Boxed::new(alloc, value.get().copy(alloc)?)?)),
        }
    }
}
