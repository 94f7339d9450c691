//! The ends of a session.

/// What a session writes to, what runs its orders, its clock, and the files of its inputs.
#[derive(Drop)]
pub struct Ends<O, L, C, F> {
    pub out: O,
    pub launcher: L,
    pub clock: C,
    pub files: F,
}
