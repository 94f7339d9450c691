//! A clock in memory.

ghost use Rattle.std.specs.Prelude.{◌≡◌, drop, Some};

use crate::ends::Clock;

/// Readings in order. After the last one it goes on with that, and with no reading it reads 0.
#[derive(Clone, Debug, Drop)]
pub struct ClockInMemory {
    readings: Vec<u64>,
    at: usize,
}

impl ClockInMemory {
    /// The readings, in milliseconds since 1970.
    pub fn new(readings: Vec<u64>) -> ClockInMemory
        ensures { ⟦<ClockInMemory as Clock>⟧.readings result ≡ Some readings.items }
    {
        ClockInMemory { readings, at: 0 }
    }
}

impl Clock for ClockInMemory {
    ghost readings = { λ s. Some (drop s.at s.readings.items) };

    fn read_ms(&mut self) -> u64 {
        let Some(now) = self.readings.as_slice().get(self.at).copied() else {
            return 0;
        };
        if self.at + 1 < self.readings.len() {
            self.at += 1;
        }
        now
    }
}
