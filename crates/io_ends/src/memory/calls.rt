//! Calls that are to fail.

ghost use Rattle.std.specs.Prelude.{◌≡◌, ◌↔◌, ◌≤◌, IsTrue, Contains};
ghost use Rattle.io_ends.specs.Causes.{raised};
ghost use Rattle.std.specs.Bool.{OnTrue, OnFalse};

/// Counts the calls of an end, and knows which of them are to fail.
#[derive(Debug, Drop)]
pub struct FailingCalls {
    pub numbers: Vec<u64>,
    pub calls: u64,
    pub faults: u64,
}

impl FailingCalls {
    /// No call was made. The calls with these numbers, counted from 1, are to fail.
    pub fn new(numbers: Vec<u64>) -> FailingCalls
        ensures { result ≡ record { numbers = numbers; calls = 0; faults = 0 } }
    {
        FailingCalls {
            numbers,
            calls: 0,
            faults: 0,
        }
    }

    /// Counts one more call. Where it is to fail, that is one more fault.
    pub fn next_fails(&mut self) -> bool
        ensures counted { self.new.calls ≡ raised self.old.calls }
        ensures listed { IsTrue result ↔ Contains self.old.numbers.items self.new.calls }
        ensures same { self.new.numbers ≡ self.old.numbers }
        ensures later { self.old.faults ≤ self.new.faults }
        ensures fault { OnTrue result (self.new.faults ≡ raised self.old.faults) }
        ensures none { OnFalse result (self.new.faults ≡ self.old.faults) }
    {
        self.calls = self.calls.saturating_add(1);
        let fails = self.numbers.contains(&self.calls);
        if fails {
            self.count_fault();
        }
        fails
    }

    /// Counts a fault.
    pub fn count_fault(&mut self)
        ensures later { self.old.faults ≤ self.new.faults }
        ensures counted { self.new ≡ record self.old { faults = raised self.old.faults } }
    {
        self.faults = self.faults.saturating_add(1);
    }
}
