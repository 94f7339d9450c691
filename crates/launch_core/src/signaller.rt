//! The trait of signallers.
ghost use Rattle.std.specs.Prelude.{ℕ, List, Option};
ghost use Rattle.launch_core.specs.Launching.{AddsJob};

/// Tells jobs to stop. A job may obey or not.
pub trait Signaller {
    /// The jobs that were signalled, in order, if they are known.
    ghost signalled: { Self → Option (List ℕ) };

    /// Tells the job of this number, if it runs. There is no answer. A list that has no room for one
    /// more is known no longer.
    fn signal(&mut self, job: u64)
        ensures { AddsJob (signalled self.old) job (signalled self.new) };
}
