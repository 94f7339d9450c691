//! What a visit keeps, apart from the visits below it.
ghost use Rattle.std.specs.Prelude.{◌≡◌, IfOk};

use crate::visit::Read;
use std::alloc::Global;
use value_core::{ListOf, NoMemory, State, Value};

/// A term that is kept evaluated: its state, what it reads, and the items that its bodies are for.
#[derive(Drop)]
pub struct Instance {
    pub state: State,
    pub read: Read,
    pub items: ListOf<Value>,
}

/// Equal values.
pub fn copy_values(alloc: Global, values: &[Value]) -> Result<ListOf<Value>, NoMemory>
    ensures { IfOk result (λ vs. vs ≡ values.now) }
{
    let mut copies = ListOf::new(alloc);
    for value in values {
        copies.push(value.copy(alloc)?)?;
    }
    Ok(copies)
}

impl Instance {
    /// An equal instance.
    pub fn copy(&self, alloc: Global) -> Result<Instance, NoMemory>
        ensures { IfOk result (λ i. i ≡ self.now) }
    {
        Ok(Instance {
            state: self.state.copy(alloc)?,
            read: self.read.copy(alloc)?,
            items: copy_values(alloc, self.items.as_slice())?,
        })
    }
}
