//! What an event changes by itself, as data.
use op_keys::Level;
use sched_rows::Row;
use value_core::Text;

/// What an event changes among the jobs and in what they go by. Workers and clients are identified
/// by their numbers in file order.
#[derive(Clone, Copy, Debug, PartialEq, Eq)]
pub enum Own {
    None,
    /// Operations at or above the level wait to be confirmed; without a level none does.
    Level(Option<Level>),
    /// The waiting job of this number may start.
    Confirm(u64),
    /// The result of the job of this number isn't wanted.
    Cancel(u64),
    /// The worker takes its next job.
    Take(u32),
    /// The running job of this number has ended.
    Finish(u64),
    /// The worker takes no more jobs.
    Pause(u32),
    /// The worker takes jobs again.
    Resume(u32),
    /// The client of the first number has the second as its rate.
    Rate(u32, u64),
}

/// What an event changes among the rows.
#[derive(Drop)]
pub enum RowChange {
    None,
    /// The row replaces the one of its operation and key.
    Put(Row),
    /// The row of the operation of this name and of this key goes.
    Void(Text, Text),
    /// The row of the operation of this name and of this key is to be made anew.
    Mark(Text, Text),
}
