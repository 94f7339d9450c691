//! The engine: the core's state with all that it needs to make the core's steps.
//!
//! `engine` keeps the state in its parts: the jobs, the rows, the inputs, and the evaluation of all
//! nodes. A step is planned before it is made: `parts` shows the state at the event's moment,
//! `storing` has what the event changes and stores by itself, `evaluation` what becomes of the
//! nodes, and a `planned` step is installed or given up. `stored` reads what an opening is given.
#![tactic(auto)]

mod core_copy;
mod engine;
mod evaluation;
mod parts;
mod planned;
mod rows;
mod stored;
mod storing;

pub use core_copy::CoreCopy;
pub use core_rules::{
    Delta, Done, Durable, Ending, Event, Job, Mark, Note, Own, Refusal, RowChange, What,
};
pub use engine::{Engine, engine_law};
pub use planned::Planned;
