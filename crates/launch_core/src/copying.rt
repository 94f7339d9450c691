//! Copies of lists of exits and of runs.
ghost use Rattle.std.specs.Prelude.{◌≡◌, IfOk};

use op_keys::{Exit, Order};
use std::alloc::Global;
use value_core::{ListOf, NoMemory};

/// Equal exits.
pub(crate) fn copy_of_exits(alloc: Global, exits: &[Exit]) -> Result<Vec<Exit>, NoMemory>
    ensures { IfOk result (λ copy. copy.items ≡ exits.now) }
{
    let mut copies = Vec::new(alloc);
    for exit in exits {
        copies.push(exit.copy(alloc)?)?;
    }
    Ok(copies)
}

/// Equal runs.
pub(crate) fn copy_of_runs(
    alloc: Global,
    runs: &[(Order, Exit)],
) -> Result<ListOf<(Order, Exit)>, NoMemory>
    ensures { IfOk result (λ copy. copy ≡ runs.now) }
{
    let mut copies = ListOf::new(alloc);
    for run in runs {
        let copy = (run.0.copy(alloc)?, run.1.copy(alloc)?);
        copies.push(copy)?;
    }
    Ok(copies)
}
