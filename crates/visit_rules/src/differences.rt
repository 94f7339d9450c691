//! The nodes whose state is another than before.
ghost use Rattle.std.specs.Prelude.{◌≡◌, ◌<◌, ◌^◌, ◌++◌, ◌∷◌, [], false, get_or};
ghost use Rattle.std.specs.Prelude.{if◌then◌else◌, length, IfOk, OnOk};
ghost use Rattle.visit_rules.specs.Differences.{changed_of};

use std::alloc::Global;
use value_core::{ListOf, NoMemory, State};

fn is_set(flags: &[bool], i: usize) -> bool
    ensures { result ≡ get_or flags.now i false }
{
    i < flags.len() && flags[i]
}

/// Adds a node with its state, if it has moved.
fn add_moved(
    alloc: Global,
    moved: bool,
    node: usize,
    state: &State,
    changed: &mut ListOf<(u32, State)>,
) -> Result<(), NoMemory>
    requires { node < 2 ^ 32 }
    ensures { OnOk result (changed.new ≡
        (if moved then changed.old ++ (node, state.now) ∷ [] else changed.old)) }
{
    if moved {
        let state = state.copy(alloc)?;
        changed.push((node as u32, state))?;
    }
    Ok(())
}

/// The nodes whose state is another, each with its new state.
pub fn changed_nodes(
    alloc: Global,
    moved: &[bool],
    states: &[State],
) -> Result<ListOf<(u32, State)>, NoMemory>
    requires few { length states.now < 2 ^ 32 }
    ensures { IfOk result (λ ns. ns ≡ changed_of moved.now states.now) }
{
    let mut changed = ListOf::new(alloc);
    for i in 0..states.len() {
        add_moved(alloc, is_set(moved, i), i, &states[i], &mut changed)?;
    }
    Ok(changed)
}
