//! What is kept of a queued job, and of a hint.
ghost use Rattle.std.specs.Prelude.{◌≡◌, IfOk};
ghost use Rattle.fair_pool.specs.Kept.{rank_of, rank_before};

use std::alloc::Global;
use value_core::{NoMemory, Text};

/// What a queued job waits with.
#[derive(Drop)]
pub struct Ticket {
    pub job: u64,
    /// The pool's number in file order.
    pub pool: u32,
    pub urgent: bool,
    /// Where it is known to be cheaper: on the worker that last took a job of this hint.
    pub hint: Option<Text>,
    /// The earlier it is, the earlier the job is taken; nobody waits for it. In milliseconds.
    pub start: u64,
    /// When the job was submitted, in milliseconds.
    pub created: u64,
}

/// The worker that last took a job of a hint in a pool.
#[derive(Drop)]
pub struct HintWorker {
    /// The pool's number in file order.
    pub pool: u32,
    pub hint: Text,
    /// The worker's number in file order.
    pub worker: u32,
}

/// What of a ticket decides its rank in a queue.
#[derive(Clone, Copy, Debug, PartialEq, Eq)]
pub(crate) struct Rank {
    pub(crate) urgent: bool,
    pub(crate) start: u64,
    pub(crate) job: u64,
}

fn copy_of_hint(alloc: Global, hint: &Option<Text>) -> Result<Option<Text>, NoMemory>
    ensures { IfOk result (λ h. h ≡ hint.now) }
{
    match hint {
        Some(hint) => Ok(Some(hint.copy(alloc)?)),
        None => Ok(None),
    }
}

impl Ticket {
    /// A ticket of no job, where one was taken.
    pub(crate) fn blank() -> Ticket {
        Ticket {
            job: 0,
            pool: 0,
            urgent: false,
            hint: None,
            start: 0,
            created: 0,
        }
    }

    /// An equal ticket.
    pub fn copy(&self, alloc: Global) -> Result<Ticket, NoMemory>
        ensures { IfOk result (λ k. k ≡ self.now) }
    {
        Ok(Ticket {
            job: self.job,
            pool: self.pool,
            urgent: self.urgent,
            hint: copy_of_hint(alloc, &self.hint)?,
            start: self.start,
            created: self.created,
        })
    }

    pub(crate) fn rank(&self) -> Rank
        ensures { result ≡ rank_of self.now }
    {
        Rank {
            urgent: self.urgent,
            start: self.start,
            job: self.job,
        }
    }
}

impl HintWorker {
    /// An equal one.
    pub fn copy(&self, alloc: Global) -> Result<HintWorker, NoMemory>
        ensures { IfOk result (λ h. h ≡ self.now) }
    {
        Ok(HintWorker {
            pool: self.pool,
            hint: self.hint.copy(alloc)?,
            worker: self.worker,
        })
    }
}

impl Rank {
    /// Urgent before not urgent, then the smaller start, then the smaller job.
    pub(crate) fn comes_before(&self, other: &Rank) -> bool
        ensures { result ≡ rank_before self.now other.now }
    {
        if self.urgent == other.urgent {
            self.start < other.start || self.start == other.start && self.job < other.job
        } else {
            self.urgent
        }
    }
}
