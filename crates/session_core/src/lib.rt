//! A session over a desk: its events, and the orders that workers take.
//!
//! A `session` has the desk and the last reading of the clock, and is handed its `ends` at each
//! call. `steps` makes events: the desk commits, and then the lines are written. `orders` runs what
//! workers take, each from the first worker of `picks` on, and `stop` says why a session stops.
//! By `numbering`, lines may end with the number of evaluations.
#![tactic(auto)]

mod controls;
mod ends;
mod jobs;
mod lines;
mod numbering;
mod orders;
mod picks;
mod running;
mod session;
mod steps;
mod stop;
mod watching;

pub use ends::Ends;
pub use numbering::{Numbered, Numbering, Unnumbered};
pub use running::{Start, run_session};
pub use session::Session;
pub use stop::Stop;
