//! What is planned before anything changes.
use core_rules::Own;
use value_core::{ListOf, Text, Triple};

/// A job that is to be created.
#[derive(Drop)]
pub(crate) struct NewJob {
    pub(crate) triple: Triple,
    /// The hint of its order.
    pub(crate) hint: Option<Text>,
}

/// An own change and what settling makes of the jobs after it, each job by its number. All memory
/// that this takes is in here or was made room for.
#[derive(Drop)]
pub struct JobsPlan {
    pub(crate) own: Own,
    pub(crate) moment: u64,
    /// Queued jobs that go.
    pub(crate) drops: ListOf<u64>,
    /// Running jobs that get the automatic mark.
    pub(crate) lost: ListOf<u64>,
    pub(crate) news: ListOf<NewJob>,
    /// The jobs that are marked, in rising order.
    pub(crate) signals: ListOf<u64>,
    /// The number of the next job afterwards.
    pub(crate) next: u64,
}

impl JobsPlan {
    ghost use Rattle.std.specs.Prelude.{◌≡◌};
    ghost use Rattle.job_core.specs.Plans.{plan_next};

    /// The number of the next job after the plan is installed. Takes no memory.
    pub fn next_number(&self) -> u64
        ensures { result ≡ plan_next self.now }
    {
        self.next
    }
}
