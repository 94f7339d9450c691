//! What is answered to an event that isn't refused.
use op_keys::Order;
use value_core::Text;

/// How a job ended.
#[derive(Drop)]
pub enum Ending {
    /// With a result.
    Fine,
    /// With a message.
    Failed(Text),
    /// It was cancelled while it ran.
    Cancelled,
    /// Nothing referred to it any more, and its result was thrown away.
    Dropped,
}

/// What an event came to, beside what it changed.
#[derive(Drop)]
pub enum Note {
    Plain,
    /// A worker has taken a job.
    Started(Order),
    /// A job has ended.
    Ended { job: u64, ending: Ending },
    /// The worker has no job to take; nothing has changed.
    Nothing,
    /// The job isn't running; nothing has changed.
    Ignored,
}
