//! The rules of the core: what its state is, what an event makes of it, and the laws that follow.
//!
//! `jobs` has the jobs, `events` what happens to the core and what refuses it, `notes` what is
//! answered, `own` what an event changes by itself as data, and `log` what a replay goes by. The
//! definitions over them are in specs/, and `laws` has the laws. `lookups` answers small questions
//! that the crates above ask.
#![tactic(auto)]

mod done;
mod durable;
mod events;
mod jobs;
mod laws;
mod log;
mod lookups;
mod notes;
mod own;

pub use done::{Delta, Done};
pub use durable::Durable;
pub use events::{Event, Refusal, What};
pub use jobs::{Job, Mark};
pub use laws::{
    changes_make_states, invariant_after_replays, invariant_along_events, invariant_at_opening,
    invariant_through_steps, lawful_after_replays, lawful_at_opening, lawful_through_steps,
    replays_are_one, settling_keeps_states, settling_refers, starts_are_picks, steps_store_deltas,
    world_is_entries,
};
pub use log::Logged;
pub use lookups::{goes_on, is_latched, least_on, lesser, may_start, stage_under, when_allowed};
pub use notes::{Ending, Note};
pub use own::{Own, RowChange};
