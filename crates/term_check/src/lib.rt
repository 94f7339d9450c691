//! Which pipelines are sound, and what a sound one reads.
//!
//! `check` goes through a program in the order of its file and gives the first fault: a name that
//! isn't declared, a term of another kind than is wanted, lists that nest too deep, a kind that is
//! too large. `fault` has the faults, `wanted` the kinds that are wanted, `functions` the kinds of
//! the functions, `verdict` what the check of one term gives, `names` the names in terms, `typing`
//! the check of terms, `checking` that of whole programs, `checked` the sound ones, `report` what
//! they read.
#![tactic(auto)]

mod checked;
mod checking;
mod context;
mod fault;
mod functions;
mod laws;
mod names;
mod report;
mod typing;
mod verdict;
mod wanted;

pub use checked::Checked;
pub use checking::check;
pub use fault::{CheckFault, CheckWhat, FaultPlace};
pub use laws::{
    functions_take_what_they_want, only_reported_things_are_read, only_short_triples_are_wanted,
    sound_states_have_their_kinds, sound_without_fault,
};
pub use report::Report;
pub use wanted::{Wanted, write_kind, write_wanted};
