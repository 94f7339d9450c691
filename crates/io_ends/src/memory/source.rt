//! Sources in memory.

ghost use Rattle.std.specs.Prelude.{◌≡◌, ◌<◌, ◌≤◌, length, take, drop, Some};

use super::calls::FailingCalls;
use crate::ends::{Failed, Source};

/// Bytes that come in pieces. It never fails.
#[derive(Debug, Drop)]
pub struct SteadySource {
    bytes: Vec<u8>,
    at: usize,
    piece: usize,
    ghost in_bytes: { at ≤ length bytes.items },
    ghost some: { 0 < piece },
}

impl SteadySource {
    /// The bytes, in pieces of at most `piece`.
    pub fn new(bytes: Vec<u8>, piece: usize) -> SteadySource
        requires { 0 < piece }
        ensures left { ⟦<SteadySource as Source>⟧.left result ≡ Some bytes.items }
        ensures budget { ⟦<SteadySource as Source>⟧.budget result ≡ length bytes.items }
        ensures faults { ⟦<SteadySource as Source>⟧.faults result ≡ 0 }
    {
        SteadySource {
            bytes,
            at: 0,
            piece,
        }
    }
}

/// Puts a front of the bytes into the room, of at most so many.
fn give(rest: &[u8], most: usize, room: &mut [u8]) -> usize
    ensures in_rest { result ≤ length rest.now }
    ensures in_room { result ≤ length room.new }
    ensures front { take result room.new ≡ take result rest.now }
    ensures some { 0 < most → 0 < length room.new → result ≡ 0 → length rest.now ≡ 0 }
{
    let count = room.len().min(most).min(rest.len());
    room[..count].copy_from_slice(&rest[..count]);
    count
}

impl Source for SteadySource {
    ghost left = { λ s. Some (drop s.at s.bytes.items) };

    ghost budget = { λ s. length (drop s.at s.bytes.items) };

    ghost faults = { λ _. 0 };

    fn read(&mut self, room: &mut [u8]) -> Result<usize, Failed> {
        let (_, rest) = self.bytes.as_slice().split_at(self.at);
        let count = give(rest, self.piece, room);
        self.at += count;
        Ok(count)
    }
}

/// Bytes that come in pieces, with a list of the calls that are to fail.
#[derive(Debug, Drop)]
pub struct SourceInMemory {
    source: SteadySource,
    calls: FailingCalls,
}

impl SourceInMemory {
    /// The bytes, in pieces of at most `piece`. The calls with these numbers, counted from 1, fail.
    pub fn new(bytes: Vec<u8>, piece: usize, fails: Vec<u64>) -> SourceInMemory
        requires { 0 < piece }
        ensures left { ⟦<SourceInMemory as Source>⟧.left result ≡ Some bytes.items }
        ensures budget { ⟦<SourceInMemory as Source>⟧.budget result ≡ length bytes.items }
        ensures faults { ⟦<SourceInMemory as Source>⟧.faults result ≡ 0 }
    {
        SourceInMemory {
            source: SteadySource::new(bytes, piece),
            calls: FailingCalls::new(fails),
        }
    }
}

impl Source for SourceInMemory {
    ghost left = { λ s. Some (drop s.source.at s.source.bytes.items) };

    ghost budget = { λ s. length (drop s.source.at s.source.bytes.items) };

    ghost faults = { λ s. s.calls.faults };

    fn read(&mut self, room: &mut [u8]) -> Result<usize, Failed> {
        if self.calls.next_fails() {
            return Err(Failed);
        }
        self.source.read(room)
    }
}
