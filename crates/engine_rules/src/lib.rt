//! What an engine that keeps the core's state in parts goes by: events as data, and laws over the
//! core's rules.
//!
//! `edits` has what an event changes by itself, as data. `lookups` has the look-ups that the parts
//! offer; from these alone `tests` decides what refuses an event, `making` makes its change,
//! `noting` its note, `touching` what its change may alter, and `finding` what a triple is found to
//! be after it. `edited_state` is the changed state as an evaluation looks it up. `conflicts` finds
//! the keys that are wanted with two values, in one pass over the wanted triples. The definitions
//! stand in specs/, and `laws` has the laws.
#![tactic(auto)]

mod conflicts;
mod edited_state;
mod edits;
mod exits;
mod finding;
mod laws;
mod lookups;
mod making;
mod noting;
mod tests;
mod touching;

pub use conflicts::new_conflicts;
pub use edited_state::{EditedState, Stages};
pub use edits::{Edit, InputChange};
pub use exits::ExitResult;
pub use finding::entry_after;
pub use laws::{
    accepted_are_news, accepted_by_parts, agreement_lasts, answers_by_tests, bounds_where_reached,
    changed_are_touched, changed_inputs_are_set, conflicts_by_order, due_by_operations,
    entries_are_found, idles_keep, kept_through_changes, moments_are_times, opened_by_parts,
    opening_before, own_by_work, own_is_change, passed_may_own, puts_now, replies_before,
    running_by_events, states_are_proper, tests_decide, used_by_parts, wants_are_counted,
    wants_are_declared,
};
pub use lookups::Lookups;
pub use making::edit_of;
pub use noting::note_of;
pub use tests::{Tested, test_event};
pub use touching::{set_inputs, touched};
