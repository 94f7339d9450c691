//! The desk: the engine with the keeper of what its steps store.
//!
//! A `desk` opens the engine on what its keeper has. Each step that raises the version is one
//! commit, which comes before the step is made. `faults` has the answers of a desk that doesn't do
//! what it is asked, and `laws` what the keeper's tables hold of the state.
#![tactic(auto)]

mod desk;
mod faults;
mod laws;

pub use desk::Desk;
pub use faults::{ClosedBy, DeskFault};
pub use laws::{desk_openings_follow, desk_steps_are_held};
