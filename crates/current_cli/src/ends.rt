//! All that the program meets.
use session_core::Ends;

/// The input, the keepers by their paths, and what a session writes to and reads of.
#[derive(Drop)]
pub struct ProgramEnds<S, M, O, L, C, F> {
    pub input: S,
    pub keepers: M,
    pub ends: Ends<O, L, C, F>,
}
