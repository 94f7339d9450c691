//! Sinks in memory.

ghost use Rattle.std.specs.Prelude.{◌≡◌, ◌<◌, [], length, Ok, Some, None, IfOk, option_copied};
ghost use Rattle.io_ends.specs.Memory.{kept_with};

use super::calls::FailingCalls;
use crate::ends::{Failed, Sink};
use std::alloc::{AllocError, Global};
use std::marker::Model;

/// Keeps what is written while its room lasts, with a list of the calls that are to fail. Once its
/// room is used up, a call fails too.
#[derive(Debug, Drop)]
pub struct SinkInMemory {
    bytes: Vec<u8>,
    piece: usize,
    calls: FailingCalls,
    ghost some: { 0 < piece },
}

impl SinkInMemory {
    /// Room for `room` bytes, taken in pieces of at most `piece`. The calls with these numbers,
    /// counted from 1, fail.
    pub fn new(
        alloc: Global,
        room: usize,
        piece: usize,
        fails: Vec<u64>,
    ) -> Result<SinkInMemory, AllocError>
        requires { 0 < piece }
        ensures written { IfOk result (λ sink. ⟦<SinkInMemory as Sink>⟧.written sink ≡ Some []) }
        ensures faults { IfOk result (λ sink. ⟦<SinkInMemory as Sink>⟧.faults sink ≡ 0) }
    {
        Ok(SinkInMemory {
            bytes: Vec::with_capacity(alloc, room)?,
            piece,
            calls: FailingCalls::new(fails),
        })
    }

    /// What was written.
    pub fn bytes(&self) -> &[u8]
        ensures { ⟦<SinkInMemory as Sink>⟧.written self.now ≡ Some result.now }
    {
        self.bytes.as_slice()
    }
}

impl Sink for SinkInMemory {
    ghost written = { λ s. Some s.bytes.items };

    ghost faults = { λ s. s.calls.faults };

    fn write(&mut self, piece: &[u8]) -> Result<usize, Failed> {
        if self.calls.next_fails() {
            return Err(Failed);
        }
        let room = self.bytes.capacity() - self.bytes.len();
        let count = piece.len().min(self.piece).min(room);
        if count > 0 || piece.is_empty() {
            if self.bytes.extend_from_slice(&piece[..count]).is_ok() {
                return Ok(count);
            }
        }
        self.calls.count_fault();
        Err(Failed)
    }
}

/// Takes all that is written and never fails. It keeps the bytes while its room lasts. Since that
/// may end, it has no ghost record for a caller of `Sink`; what it has kept is asked of itself.
#[derive(Debug, Drop)]
pub struct SteadySink {
    bytes: Vec<u8>,
    room: usize,
    is_whole: bool,
}

impl Model for SteadySink {
    ghost use Rattle.std.specs.Prelude.{Some, None, if◌then◌else◌, ◌≤◌, vec_len, vec_capacity};
    ghost use Rattle.io_ends.specs.Memory.{Kept};

    ghost Value = { Kept };

    ghost view = { λ s. record {
      bytes = if s.is_whole then Some s.bytes.items else None;
      room = s.room;
    } };

    ghost invariant = { λ s. (vec_len s.bytes ≤ s.room) × (s.room ≤ vec_capacity s.bytes) };
}

impl SteadySink {
    /// Room for `room` bytes.
    pub fn new(alloc: Global, room: usize) -> Result<SteadySink, AllocError>
        ensures { IfOk result (λ sink. sink ≡ record { bytes = Some []; room = room }) }
    {
        Ok(SteadySink {
            bytes: Vec::with_capacity(alloc, room)?,
            room,
            is_whole: true,
        })
    }

    /// What was written, unless it was more than there is room for.
    pub fn bytes(&self) -> Option<&[u8]>
        ensures { option_copied result ≡ self.now.bytes }
    {
        self.is_whole.then_some(self.bytes.as_slice())
    }
}

impl Sink for SteadySink {
    ghost written = { λ _. None };

    ghost faults = { λ _. 0 };

    fn write(&mut self, piece: &[u8]) -> Result<usize, Failed>
        ensures whole { result ≡ Ok (length piece.now) }
        ensures kept { self.new ≡ record self.old { bytes = kept_with self.old piece.now } }
    {
        self.is_whole = self.is_whole
            && piece.len() <= self.room - self.bytes.len()
            && self.bytes.extend_from_slice(piece).is_ok();
        Ok(piece.len())
    }
}
