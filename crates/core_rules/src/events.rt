//! What happens to the core, and what refuses it.
ghost use Rattle.std.specs.Prelude.{◌≡◌, IfOk};

use op_keys::{Exit, Level};
use std::alloc::Global;
use value_core::{NoMemory, Stage, Text, Value};

/// What happens.
#[derive(Drop)]
pub enum What {
    /// An input has another value.
    SetInput { name: Text, value: Value },
    /// Time passes.
    Tick,
    /// Operations at or above the level wait to be confirmed; without a level none does.
    SetLevel(Option<Level>),
    /// A waiting job may start.
    Confirm(u64),
    /// A job's result isn't wanted.
    Cancel(u64),
    /// The result of an operation and key is to be made anew.
    Rebuild { op: Text, key: Text },
    /// A worker takes no more jobs.
    Pause(Text),
    /// A worker takes jobs again.
    Resume(Text),
    /// A client of a pool has another rate.
    Rate { pool: Text, client: Text, rate: u64 },
    /// The worker of this number in file order takes its next job.
    Take(u32),
    /// A running job has ended.
    Finish { job: u64, exit: Exit },
}

impl What {
    /// An equal one.
    pub fn copy(&self, alloc: Global) -> Result<What, NoMemory>
        ensures { IfOk result (λ w. w ≡ self.now) }
    {
        match self {
            What::SetInput { name, value } => Ok(What::SetInput {
                name: name.copy(alloc)?,
                value: value.copy(alloc)?,
            }),
            What::Tick => Ok(What::Tick),
            What::SetLevel(threshold) => Ok(What::SetLevel(*threshold)),
            What::Confirm(job) => Ok(What::Confirm(*job)),
            What::Cancel(job) => Ok(What::Cancel(*job)),
            What::Rebuild { op, key } => Ok(What::Rebuild {
                op: op.copy(alloc)?,
                key: key.copy(alloc)?,
            }),
            What::Pause(worker) => Ok(What::Pause(worker.copy(alloc)?)),
            What::Resume(worker) => Ok(What::Resume(worker.copy(alloc)?)),
            What::Rate { pool, client, rate } => Ok(What::Rate {
                pool: pool.copy(alloc)?,
                client: client.copy(alloc)?,
                rate: *rate,
            }),
            What::Take(worker) => Ok(What::Take(*worker)),
            What::Finish { job, exit } => Ok(What::Finish {
                job: *job,
                exit: exit.copy(alloc)?,
            }),
        }
    }
}

/// What happens, at a reading of the clock in milliseconds since 1970.
#[derive(Drop)]
pub struct Event {
    pub at: u64,
    pub what: What,
}

impl Event {
    /// An equal event.
    pub fn copy(&self, alloc: Global) -> Result<Event, NoMemory>
        ensures { IfOk result (λ e. e ≡ self.now) }
    {
        Ok(Event {
            at: self.at,
            what: self.what.copy(alloc)?,
        })
    }
}

/// Why an event changes nothing.
#[derive(Clone, Copy, Debug, PartialEq, Eq)]
pub enum Refusal {
    UnknownInput,
    /// The value isn't of the kind that the input is declared with.
    WrongKind,
    UnknownJob,
    UnknownOp,
    UnknownWorker,
    UnknownClient,
    /// The job's stage, where it is to be confirmed and isn't waiting.
    NotWaiting(Stage),
    AlreadyCancelling,
    /// The live job of the operation and key.
    Busy(u64),
    /// There is no row of the operation and key.
    NoRow,
    /// The rate, where it is 0 or above 1,000.
    RateOutOfRange(u64),
    /// The numbers of jobs or of versions are used up.
    NumbersUsed,
    NoMemory,
}

impl From<NoMemory> for Refusal {
    ghost use Rattle.std.specs.Prelude.{◌≡◌};
    ghost use Rattle.core_rules.specs.declared.events.Refusal.TheVariants as refusal;

    ghost from_gives = { λ _ e. e ≡ refusal.NoMemory };

    fn from(_e: NoMemory) -> Refusal {
        Refusal::NoMemory
    }
}
