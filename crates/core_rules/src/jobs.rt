//! Jobs of operations.
ghost use Rattle.std.specs.Prelude.{◌≡◌, IfOk};
ghost use Rattle.core_rules.specs.Settling.{new_job};

use std::alloc::Global;
use value_core::{NoMemory, Triple};

/// How the result of a job is thrown away.
#[derive(Clone, Copy, Debug, PartialEq, Eq)]
pub enum Mark {
    /// It isn't: the result is kept.
    Unmarked,
    /// Nothing refers to the job any more: no row is left.
    Automatic,
    /// It was cancelled: a failed row is left.
    User,
}

/// A live job: it is queued until a worker takes it, and then runs.
#[derive(Drop)]
pub struct Job {
    /// Counted from 1, and never used again.
    pub number: u64,
    pub triple: Triple,
    /// Whether it may start in spite of its operation's level.
    pub confirmed: bool,
    /// The worker that took it, by its number in file order.
    pub worker: Option<u32>,
    pub mark: Mark,
}

impl Job {
    /// A queued job of a triple, which isn't confirmed.
    pub fn new(number: u64, triple: Triple) -> Job
        ensures { result ≡ new_job number triple }
    {
        Job {
            number,
            triple,
            confirmed: false,
            worker: None,
            mark: Mark::Unmarked,
        }
    }

    /// An equal job.
    pub fn copy(&self, alloc: Global) -> Result<Job, NoMemory>
        ensures { IfOk result (λ j. j ≡ self.now) }
    {
        Ok(Job {
            number: self.number,
            triple: self.triple.copy(alloc)?,
            confirmed: self.confirmed,
            worker: self.worker,
            mark: self.mark,
        })
    }
}
