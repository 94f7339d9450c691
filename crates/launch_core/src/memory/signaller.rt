//! A signaller in memory.
ghost use Rattle.std.specs.Prelude.{◌≡◌, [], Some, IfOk, option_copied};
ghost use Rattle.launch_core.specs.Memory.{kept_with};

use crate::signaller::Signaller;
use std::alloc::Global;
use std::marker::Model;
use value_core::NoMemory;

/// Keeps the jobs that it signals, while its room lasts.
#[derive(Debug, Drop)]
pub struct SignallerInMemory {
    jobs: Vec<u64>,
    room: usize,
    is_whole: bool,
}

impl Model for SignallerInMemory {
    ghost use Rattle.std.specs.Prelude.{Some, None, if◌then◌else◌, ◌≤◌, vec_len, vec_capacity};
    ghost use Rattle.launch_core.specs.Memory.{Kept};

    ghost Value = { Kept };

    ghost view = { λ s. record {
      jobs = if s.is_whole then Some s.jobs.items else None;
      room = s.room;
    } };

    ghost invariant = { λ s. (vec_len s.jobs ≤ s.room) × (s.room ≤ vec_capacity s.jobs) };
}

impl SignallerInMemory {
    /// Room for so many jobs. None was signalled.
    pub fn new(alloc: Global, room: usize) -> Result<SignallerInMemory, NoMemory>
        ensures { IfOk result (λ s. s ≡ record { jobs = Some []; room = room }) }
    {
        Ok(SignallerInMemory {
            jobs: Vec::with_capacity(alloc, room)?,
            room,
            is_whole: true,
        })
    }

    /// The jobs that were signalled, unless they are more than there is room for.
    pub fn jobs(&self) -> Option<&[u64]>
        ensures { option_copied result ≡ self.now.jobs }
    {
        self.is_whole.then_some(self.jobs.as_slice())
    }
}

impl Signaller for SignallerInMemory {
    ghost signalled = { λ s. s.jobs };

    fn signal(&mut self, job: u64)
        ensures { self.new ≡ record self.old { jobs = kept_with self.old job } }
    {
        self.is_whole = self.is_whole && self.jobs.len() < self.room && self.jobs.push(job).is_ok();
    }
}
