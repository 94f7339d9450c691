//! The real ends. What a real file or stream does is outside what is proved.

ghost use Rattle.std.specs.Prelude.{◌≡◌, ◌+◌, ◌≤◌, length, None, IfOk};

use crate::ends::{Clock, Failed, FileFault, FileRead, Files, Sink, Source};
use std::alloc::Global;
use std::io::{self, Read, Write};
use std::time::{SystemTime, UNIX_EPOCH};
use std::{fs, rt};

/// Bytes of a reader of std. It reads at most 2^62 of them, and then fails.
#[derive(Drop)]
pub struct Reading<R: Read> {
    inner: R,
    budget: u64,
    faults: u64,
}

impl<R: Read> Reading<R> {
    /// The bytes that the reader has from here on. No call has failed.
    pub fn new(inner: R) -> Reading<R>
        ensures left { ⟦<Reading<R> as Source>⟧.left result ≡ R.remaining inner }
        ensures faults { ⟦<Reading<R> as Source>⟧.faults result ≡ 0 }
    {
        Reading {
            inner,
            budget: 1 << 62,
            faults: 0,
        }
    }
}

impl<R: Read> Source for Reading<R> {
    ghost left = { λ s. R.remaining s.inner };

    ghost budget = { λ s. s.budget };

    ghost faults = { λ s. s.faults };

    fn read(&mut self, room: &mut [u8]) -> Result<usize, Failed> {
        if room.len() as u64 <= self.budget {
            if let Ok(count) = self.inner.read(room) {
                self.budget -= count as u64;
                return Ok(count);
            }
        }
        self.faults = self.faults.saturating_add(1);
        Err(Failed)
    }
}

/// Bytes to a writer of std, which must keep no buffer, since nothing flushes it. A writer that
/// takes none of a piece is a fault.
#[derive(Drop)]
pub struct Writing<W: Write> {
    inner: W,
    faults: u64,
}

impl<W: Write> Writing<W> {
    /// What is written goes to the writer. No call has failed.
    pub fn new(inner: W) -> Writing<W>
        ensures written { ⟦<Writing<W> as Sink>⟧.written result ≡ W.contents inner }
        ensures faults { ⟦<Writing<W> as Sink>⟧.faults result ≡ 0 }
    {
        Writing { inner, faults: 0 }
    }
}

impl<W: Write> Sink for Writing<W> {
    ghost written = { λ s. W.contents s.inner };

    ghost faults = { λ s. s.faults };

    fn write(&mut self, piece: &[u8]) -> Result<usize, Failed> {
        if let Ok(count) = self.inner.write(piece) {
            if count > 0 || piece.is_empty() {
                return Ok(count);
            }
        }
        self.faults = self.faults.saturating_add(1);
        Err(Failed)
    }
}

/// The files of the system, which have no ghost record of their contents.
#[derive(Drop)]
pub struct RealFiles<R: rt::Files + Drop> {
    rt: R,
    faults: u64,
    misses: u64,
}

impl<R: rt::Files + Drop> RealFiles<R> {
    /// No call has failed, and no file was missing.
    pub fn new(rt: R) -> RealFiles<R>
        ensures held { ⟦<RealFiles<R> as Files>⟧.held result ≡ None }
        ensures faults { ⟦<RealFiles<R> as Files>⟧.faults result ≡ 0 }
        ensures misses { ⟦<RealFiles<R> as Files>⟧.misses result ≡ 0 }
    {
        RealFiles {
            rt,
            faults: 0,
            misses: 0,
        }
    }
}

/// The first bytes of a file, one more than the limit at most.
fn read_front<R: rt::Files>(rt: &R, alloc: Global, path: &str, limit: usize) -> io::Result<Vec<u8>>
    ensures { IfOk result (λ bytes. length bytes.items ≤ limit + 1) }
{
    let most = limit.saturating_add(1);
    let mut bytes = Vec::new(alloc);
    fs::open(rt, path)?
        .take(most as u64)
        .read_to_end(&mut bytes)?;
    // No more bytes were read; this shows it to the proof.
    bytes.truncate(most);
    Ok(bytes)
}

impl<R: rt::Files + Drop> Files for RealFiles<R> {
    ghost held = { λ _. None };

    ghost faults = { λ s. s.faults };

    ghost misses = { λ s. s.misses };

    fn read_file(
        &mut self,
        alloc: Global,
        path: &str,
        limit: usize,
    ) -> Result<FileRead, FileFault> {
        match read_front(&self.rt, alloc, path, limit) {
            Ok(bytes) => Ok(FileRead::Found(bytes)),
            Err(fault) => match fault.kind() {
                io::ErrorKind::NotFound => {
                    self.misses = self.misses.saturating_add(1);
                    Ok(FileRead::Missing)
                }
                io::ErrorKind::OutOfMemory => Err(FileFault::NoMemory),
                _ => {
                    self.faults = self.faults.saturating_add(1);
                    Err(FileFault::Failed)
                }
            },
        }
    }
}

/// The clock of the system, which has no ghost record of its readings.
#[derive(Clone, Drop)]
pub struct RealClock<R: rt::Clock + Drop> {
    rt: R,
    last: u64,
}

impl<R: rt::Clock + Drop> RealClock<R> {
    /// A clock that can't be read at first reads 0.
    pub fn new(rt: R) -> RealClock<R>
        ensures { ⟦<RealClock<R> as Clock>⟧.readings result ≡ None }
    {
        RealClock { rt, last: 0 }
    }
}

impl<R: rt::Clock + Drop> Clock for RealClock<R> {
    ghost readings = { λ _. None };

    fn read_ms(&mut self) -> u64 {
        if let Ok(now) = SystemTime::now(&self.rt) {
            self.last = match now.duration_since(UNIX_EPOCH) {
                Ok(since) => u64::try_from(since.as_millis()).unwrap_or(u64::MAX),
                Err(_) => 0,
            };
        }
        self.last
    }
}
