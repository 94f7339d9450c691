//! A step before it is made: what it will change, and its reply.
ghost use Rattle.std.specs.Prelude.{◌≡◌};
ghost use Rattle.std.specs.Option.{option_copied};
ghost use Rattle.engine_core.specs.Plans.{delta_planned};

use core_rules::{Delta, Done, RowChange};
use engine_rules::InputChange;
use incr_eval::EvalPlan;
use job_core::JobsPlan;
use value_core::{ListOf, State, Text};

/// What a step changes.
#[derive(Drop)]
pub(crate) struct StepChange {
    /// The moment of the step.
    pub(crate) moment: u64,
    pub(crate) row: RowChange,
    pub(crate) input: InputChange,
    pub(crate) jobs: JobsPlan,
    pub(crate) evaluation: EvalPlan,
}

/// What settling will make of the jobs, and what is answered of it.
#[derive(Drop)]
pub(crate) struct Settled {
    pub(crate) jobs: JobsPlan,
    /// The nodes whose states change.
    pub(crate) changed: ListOf<(u32, State)>,
    /// The operations and keys that are wanted with two values from now on.
    pub(crate) conflicts: ListOf<(u32, Text)>,
}

/// A step that is planned. All memory that it takes is in here, or was made room for.
#[derive(Drop)]
pub struct Planned {
    /// The reply, but for the jobs that the step marks.
    pub(crate) done: Done,
    /// What the step changes, if the event changes something.
    pub(crate) change: Option<StepChange>,
}

impl Planned {
    /// What the step stores; `None` if it changes nothing. Takes no memory.
    pub fn delta(&self) -> Option<&Delta>
        ensures { option_copied result ≡ delta_planned self.now }
    {
        match self.change {
            Some(_) => Some(&self.done.delta),
            None => None,
        }
    }
}
