//! A connection in memory.

ghost use Rattle.std.specs.Prelude.{◌≡◌, Some};

use super::sink::SinkInMemory;
use super::source::SourceInMemory;
use crate::connections::Duplex;
use crate::ends::{Failed, Sink, Source};

/// Bytes that were sent to this side, and what is written to the other, each with a list of the
/// calls that are to fail.
#[derive(Debug, Drop)]
pub struct ConnInMemory {
    source: SourceInMemory,
    sink: SinkInMemory,
}

impl ConnInMemory {
    /// The source and the sink as they are.
    pub fn new(source: SourceInMemory, sink: SinkInMemory) -> ConnInMemory
        ensures { result ≡ record { source = source; sink = sink } }
    {
        ConnInMemory { source, sink }
    }

    /// What was written.
    pub fn bytes(&self) -> &[u8]
        ensures { ⟦<ConnInMemory as Sink>⟧.written self.now ≡ Some result.now }
    {
        self.sink.bytes()
    }
}

impl Source for ConnInMemory {
    ghost left = { λ s. ⟦<SourceInMemory as Source>⟧.left s.source };

    ghost budget = { λ s. ⟦<SourceInMemory as Source>⟧.budget s.source };

    ghost faults = { λ s. ⟦<SourceInMemory as Source>⟧.faults s.source };

    ghost sink_side = { λ s. record {
      written = ⟦<SinkInMemory as Sink>⟧.written s.sink;
      faults = ⟦<SinkInMemory as Sink>⟧.faults s.sink;
    } };

    fn read(&mut self, room: &mut [u8]) -> Result<usize, Failed> {
        self.source.read(room)
    }
}

impl Sink for ConnInMemory {
    ghost written = { λ s. ⟦<SinkInMemory as Sink>⟧.written s.sink };

    ghost faults = { λ s. ⟦<SinkInMemory as Sink>⟧.faults s.sink };

    ghost source_side = { λ s. record {
      left = ⟦<SourceInMemory as Source>⟧.left s.source;
      budget = ⟦<SourceInMemory as Source>⟧.budget s.source;
      faults = ⟦<SourceInMemory as Source>⟧.faults s.source;
    } };

    fn write(&mut self, piece: &[u8]) -> Result<usize, Failed> {
        self.sink.write(piece)
    }
}

impl Duplex for ConnInMemory {
    ghost use Rattle.std.specs.Prelude.{refl};

    ghost reads_keep = { λ _. refl };

    ghost writes_keep = { λ _. refl };
}
