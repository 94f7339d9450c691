//! Whether a session shows how many terms it evaluates.
ghost use Rattle.std.specs.Prelude.{◌≡◌, Bool, false, true};
ghost use Rattle.session_core.specs.Numbers.{number};

/// Whether the lines of a version end with the number of evaluations.
pub trait Numbering {
    ghost shows: { Bool };

    /// What is shown of that number.
    fn number(evaluated: u64) -> Option<u64>
        ensures { result ≡ number shows evaluated };
}

/// The number is left out.
#[derive(Drop)]
pub struct Unnumbered;

/// The number is shown.
#[derive(Drop)]
pub struct Numbered;

impl Numbering for Unnumbered {
    ghost shows = { false };

    fn number(_evaluated: u64) -> Option<u64> {
        None
    }
}

impl Numbering for Numbered {
    ghost shows = { true };

    fn number(evaluated: u64) -> Option<u64> {
        Some(evaluated)
    }
}
