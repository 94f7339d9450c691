//! A piece of a source, which is taken front by front.

ghost use Rattle.std.specs.Prelude.{◌≡◌, ◌+◌, ◌<◌, ◌≤◌, [], length, take, drop, Ok, true, false};
ghost use Rattle.std.specs.Io.KnownBytes.{IsAtEnd};
ghost use Rattle.io_ends.specs.Causes.{HasCause, Refills};

use crate::ends::{Failed, Source};
use std::marker::Model;

/// The bytes that were read of a source and not yet taken.
#[derive(Drop)]
pub struct Piece {
    bytes: [u8; 4096],
    start: usize,
    end: usize,
}

impl Model for Piece {
    ghost use Rattle.std.specs.Prelude.{ℕ, List, ◌≤◌, take, drop};

    ghost Value = { List ℕ };

    ghost view = { λ p. drop p.start (take p.end p.bytes) };

    ghost invariant = { λ p. (p.start ≤ p.end) × (p.end ≤ 4096) };
}

impl Piece {
    /// Nothing was read.
    pub fn new() -> Piece
        ensures { result ≡ [] }
    {
        Piece {
            bytes: [0; 4096],
            start: 0,
            end: 0,
        }
    }

    /// What is left of the piece.
    pub fn rest(&self) -> &[u8]
        ensures { result.now ≡ self.now }
    {
        &self.bytes[self.start..self.end]
    }

    /// Takes so many bytes from the front.
    pub fn advance(&mut self, count: usize)
        requires { count ≤ length self.old }
        ensures { self.new ≡ drop count self.old }
    {
        self.start += count;
    }

    /// Drops what is left of the piece, and reads the next one. False is the end of the source.
    pub fn refill<S: Source>(&mut self, source: &mut S) -> Result<bool, Failed>
        ensures same { Refills (S.left source.old) result self.new (S.left source.new) }
        ensures more { result ≡ Ok true → S.budget source.new < S.budget source.old }
        ensures end { result ≡ Ok false → (self.new ≡ []) × IsAtEnd (S.left source.new) }
        ensures spent { S.budget source.new + length self.new ≤ S.budget source.old }
        ensures cause { HasCause (S.faults source.old) (S.faults source.new) result }
        ensures sink_side { S.sink_side source.new ≡ S.sink_side source.old }
    {
        self.start = 0;
        self.end = 0;
        self.end = source.read(&mut self.bytes)?;
        Ok(self.end > 0)
    }
}
