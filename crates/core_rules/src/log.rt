//! What is kept of a session's events, so that they can be replayed.
use crate::events::{Event, Refusal};

/// An event, with the answer that it met.
#[derive(Drop)]
pub enum Logged {
    Accepted(Event),
    Refused { event: Event, refusal: Refusal },
    /// The end of a job that wasn't running.
    Ignored(Event),
}
