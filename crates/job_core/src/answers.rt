//! What the calls of the jobs answer.
use core_rules::Job;
use value_core::{NoMemory, Stage};

/// Why a job stays as it is.
#[derive(Clone, Copy, Debug, PartialEq, Eq)]
pub enum JobFault {
    /// No live job has the number.
    UnknownJob,
    /// The stage of a job that is to be confirmed and isn't waiting.
    NotWaiting(Stage),
    /// The job has a mark.
    AlreadyCancelling,
}

/// What became of a job that was cancelled.
#[derive(Drop)]
pub enum Cancelled {
    /// It was queued, and is no longer live.
    Queued(Job),
    /// It runs on, and its result will be thrown away.
    Marked,
}

/// Why jobs aren't settled.
#[derive(Clone, Copy, Debug, PartialEq, Eq)]
pub enum SettleFault {
    /// A job of the number 2^62 would be needed.
    NumbersUsed,
    NoMemory,
}

impl From<NoMemory> for SettleFault {
    ghost use Rattle.std.specs.Prelude.{◌≡◌};
    ghost use Rattle.job_core.specs.declared.answers.SettleFault.TheVariants as fault;

    ghost from_gives = { λ _ e. e ≡ fault.NoMemory };

    fn from(_e: NoMemory) -> SettleFault {
        SettleFault::NoMemory
    }
}
