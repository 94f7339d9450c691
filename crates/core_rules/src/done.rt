//! The answer to an event that isn't refused, and what is stored of it.
use crate::notes::Note;
use sched_rows::Row;
use value_core::{ListOf, State, Text};

/// What a step stores.
#[derive(Drop)]
pub struct Delta {
    /// An input's name and its printed value.
    pub input: Option<(Text, ListOf<u8>)>,
    /// A row that replaces the one of its operation and key.
    pub put: Option<Row>,
    /// An operation's name and a key whose row goes.
    pub void: Option<(Text, Text)>,
    /// A job's number and its log.
    pub log: Option<(u64, ListOf<u8>)>,
    /// The number of the next job.
    pub next: u64,
}

/// The answer to an event that isn't refused.
#[derive(Drop)]
pub struct Done {
    /// The version that the state has now.
    pub version: u64,
    pub note: Note,
    /// The nodes whose state changed, in file order, with their new states.
    pub changed: ListOf<(u32, State)>,
    /// The operations and keys that are wanted with two or more values now and weren't before.
    pub conflicts: ListOf<(u32, Text)>,
    /// The jobs that were marked, in rising order.
    pub signals: ListOf<u64>,
    pub delta: Delta,
}
