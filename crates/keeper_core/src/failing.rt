//! Calls that are to fail.
ghost use Rattle.std.specs.Prelude.{◌≡◌, ◌≤◌};
ghost use Rattle.io_ends.specs.Causes.{Rose, raised};
ghost use Rattle.keeper_core.specs.inside.FailingCalls.{failure_at, no_calls};

/// What a call that fails has done.
#[derive(Clone, Copy, Debug, PartialEq, Eq)]
pub enum Failure {
    /// Nothing.
    Before,
    /// All that it was to do.
    After,
}

/// A call that is to fail: calls are counted from 1.
#[derive(Clone, Copy, Debug, PartialEq, Eq)]
pub struct FailingCall {
    pub number: u64,
    pub failure: Failure,
}

/// How the call of a number is to fail.
fn failure_at(failing: &[FailingCall], number: u64) -> Option<Failure>
    ensures { result ≡ failure_at failing.now number }
{
    for call in failing {
        if call.number == number {
            return Some(call.failure);
        }
    }
    None
}

/// Counts calls and faults, and knows which calls are to fail.
#[derive(Debug, Drop)]
pub struct Calls {
    pub failing: Vec<FailingCall>,
    pub made: u64,
    pub faults: u64,
}

impl Calls {
    /// No call was made.
    pub fn new(failing: Vec<FailingCall>) -> Calls
        ensures { result ≡ no_calls failing }
    {
        Calls {
            failing,
            made: 0,
            faults: 0,
        }
    }

    /// Counts one more call, and says how it is to fail.
    pub fn next(&mut self) -> Option<Failure>
        ensures counted { self.new ≡ record self.old { made = raised self.old.made } }
        ensures failure { result ≡ failure_at self.old.failing.items self.new.made }
        ensures same { self.new.faults ≡ self.old.faults }
    {
        self.made = self.made.saturating_add(1);
        failure_at(self.failing.as_slice(), self.made)
    }

    /// Counts a fault.
    pub fn fail(&mut self)
        ensures counted { self.new ≡ record self.old { faults = raised self.old.faults } }
        ensures later { self.old.faults ≤ self.new.faults }
        ensures rose { Rose self.old.faults self.new.faults }
    {
        self.faults = self.faults.saturating_add(1);
    }
}
