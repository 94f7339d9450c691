//! Levels of operations, and which of them may start.
ghost use Rattle.std.specs.Prelude.{◌≡◌};
ghost use Rattle.op_keys.specs.Levels.{rank, permitted};

/// How much an operation may harm, from the least on.
#[derive(Clone, Copy, Debug, PartialEq, Eq)]
pub enum Level {
    Harmless,
    MostlyHarmless,
    Average,
    AboveAverage,
    Dangerous,
}

fn rank(level: Level) -> u8
    ensures { result ≡ rank level }
{
    match level {
        Level::Harmless => 0,
        Level::MostlyHarmless => 1,
        Level::Average => 2,
        Level::AboveAverage => 3,
        Level::Dangerous => 4,
    }
}

/// Whether an operation of this level may start without being confirmed. Allocates nothing.
pub fn permitted(threshold: Option<Level>, level: Level) -> bool
    ensures { result ≡ permitted threshold level }
{
    match threshold {
        None => true,
        Some(least_held) => rank(level) < rank(least_held),
    }
}
