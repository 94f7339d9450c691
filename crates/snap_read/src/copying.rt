//! Copies of what is published.
ghost use Rattle.std.specs.Prelude.{◌≡◌, IfOk};

use std::alloc::Global;
use value_core::{ListOf, NoMemory, Published, State, Text};

fn copy_of_names(alloc: Global, names: &ListOf<Text>) -> Result<ListOf<Text>, NoMemory>
    ensures { IfOk result (λ copy. copy ≡ names.now) }
{
    let mut copies = ListOf::new(alloc);
    for name in names.as_slice() {
        copies.push(name.copy(alloc)?)?;
    }
    Ok(copies)
}

fn copy_of_states(alloc: Global, states: &ListOf<State>) -> Result<ListOf<State>, NoMemory>
    ensures { IfOk result (λ copy. copy ≡ states.now) }
{
    let mut copies = ListOf::new(alloc);
    for state in states.as_slice() {
        copies.push(state.copy(alloc)?)?;
    }
    Ok(copies)
}

/// An equal value.
pub(crate) fn copy_of(alloc: Global, published: &Published) -> Result<Published, NoMemory>
    ensures { IfOk result (λ copy. copy ≡ published.now) }
{
    Ok(Published {
        version: published.version,
        names: copy_of_names(alloc, &published.names)?,
        states: copy_of_states(alloc, &published.states)?,
    })
}
