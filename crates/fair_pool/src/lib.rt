//! Pools of workers: which job a worker takes next, fair between the clients of its pool.
//!
//! `pools` has the pools as a whole and `pools::picking` the choice of a job. They stand on
//! `layout`, the declarations by names and numbers, `waiting`, the tickets of queued jobs with a
//! `queue` of the ready ones for each pool, and `hints`, which worker has which hint.
#![tactic(auto)]

mod hints;
mod layout;
mod pools;
mod queue;
mod room;
mod ticket;
mod tickets;
mod waiting;

pub use pools::{Pools, RateOutOfRange};
pub use room::{insert_within, put_at, take_at};
pub use ticket::{HintWorker, Ticket};
