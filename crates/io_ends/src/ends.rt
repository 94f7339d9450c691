//! The traits of the ends.

ghost use Rattle.std.specs.Prelude.{◌≡◌, ℕ, ◌+◌, ◌<◌, ◌≤◌, List, length, Option, IfOk, OnOk, OnErr};
ghost use Rattle.std.specs.Io.{ReadsAtMost, WritesAtMost};
ghost use Rattle.std.specs.Io.KnownBytes.{ReadConsumes, WriteAppends};
ghost use Rattle.io_ends.specs.Causes.{HasCause, Spends, SinkSide, SourceSide, no_sink, no_source};
ghost use Rattle.io_ends.specs.Known.{Contents, ReadsContent, TakesContent, HasAtMost, HasFileCause, CountsMiss, TakesReading};
ghost use Rattle.io_ends.specs.declared.ends.FileFault.TheVariants.{NoMemory};

use std::alloc::{AllocError, Global};

/// A call of an end failed.
#[derive(Clone, Copy, Debug, PartialEq, Eq)]
pub struct Failed;

/// Where bytes come from.
pub trait Source {
    /// The bytes that are left, if they are known.
    ghost left: { Self → Option (List ℕ) };
    /// How many bytes can still be read.
    ghost budget: { Self → ℕ };
    /// How often a call has failed.
    ghost faults: { Self → ℕ };
    /// What this object has as a sink, if it is one too.
    ghost sink_side: { Self → SinkSide } = { λ _. no_sink };

    /// Reads the first bytes of what is left. None, for a room that isn't empty, is the end.
    fn read(&mut self, room: &mut [u8]) -> Result<usize, Failed>
        ensures bound { ReadsAtMost result room.new }
        ensures bytes { ReadConsumes (left self.old) (left self.new) result room.new }
        ensures spent { Spends (budget self.old) (budget self.new) result }
        ensures cause { HasCause (faults self.old) (faults self.new) result }
        ensures sink_side { sink_side self.new ≡ sink_side self.old };
}

/// Where bytes go.
pub trait Sink {
    /// What was written, if it is known.
    ghost written: { Self → Option (List ℕ) };
    /// How often a call has failed.
    ghost faults: { Self → ℕ };
    /// What this object has as a source, if it is one too.
    ghost source_side: { Self → SourceSide } = { λ _. no_source };

    /// Writes a front of the piece, of at least one byte if the piece has one.
    fn write(&mut self, piece: &[u8]) -> Result<usize, Failed>
        ensures bound { WritesAtMost result piece.now }
        ensures some { IfOk result (λ n. 0 < length piece.now → 0 < n) }
        ensures bytes { WriteAppends (written self.old) (written self.new) result piece.now }
        ensures cause { HasCause (faults self.old) (faults self.new) result }
        ensures source_side { source_side self.new ≡ source_side self.old };
}

/// What a file had.
#[derive(Debug, Drop)]
pub enum FileRead {
    /// The first bytes of its content, one more than the limit at most.
    Found(Vec<u8>),
    /// There is no such file.
    Missing,
}

/// Why a file was not read.
#[derive(Clone, Copy, Debug, PartialEq, Eq)]
pub enum FileFault {
    /// The file could not be opened or read.
    Failed,
    /// Out of memory for its bytes.
    NoMemory,
}

impl From<AllocError> for FileFault {
    ghost from_gives = { λ _ e. e ≡ NoMemory };

    fn from(_e: AllocError) -> FileFault {
        FileFault::NoMemory
    }
}

/// Files by their paths.
pub trait Files {
    /// The contents that the reads of each path will find, in order, if they are known.
    ghost held: { Self → Option Contents };
    /// How often a call has failed.
    ghost faults: { Self → ℕ };
    /// How often a file was missing.
    ghost misses: { Self → ℕ };

    /// The content of a file, or its first `limit + 1` bytes if it is longer. The path is text as
    /// the system takes it. `NoMemory` is out of memory for the bytes, and no fault of the files.
    fn read_file(&mut self, alloc: Global, path: &str, limit: usize) -> Result<FileRead, FileFault>
        ensures content { ReadsContent (held self.old) path.now limit result }
        ensures taken { OnOk result (TakesContent (held self.old) path.now (held self.new)) }
        ensures untaken { OnErr result (held self.new ≡ held self.old) }
        ensures bound { IfOk result (λ read. HasAtMost (limit + 1) read) }

        ensures cause { HasFileCause (faults self.old) (faults self.new) result }
        ensures missed { CountsMiss (misses self.old) (misses self.new) result };
}

/// A clock, in milliseconds since 1970.
pub trait Clock {
    /// The readings that come, if they are known; the last one stays.
    ghost readings: { Self → Option (List ℕ) };

    /// Takes the next reading. There is no refusal: a clock that can't be read returns its last
    /// reading, or 0, and a moment before 1970 reads 0.
    fn read_ms(&mut self) -> u64
        ensures { TakesReading (readings self.old) result (readings self.new) };
}
