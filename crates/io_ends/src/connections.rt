//! Connections and what they come from.

ghost use Rattle.std.specs.Prelude.{◌≡◌, ℕ, List, Option, OnErr};
ghost use Rattle.io_ends.specs.Causes.{HasCause};
ghost use Rattle.io_ends.specs.Connections.{Texts, TakesNext, IsFresh, Grows};

use crate::ends::{Failed, Sink, Source};

/// A source and a sink in one object, as a connection is. A read leaves what was written and the
/// count of failed writes as they were, and a write leaves what is left to read and its counts.
pub trait Duplex: Source + Sink {
    ghost reads_keep: { (x : Self) → Self.sink_side x ≡ record {
      written = Self.written x;
      faults = Self.Sink.faults x;
    } };

    ghost writes_keep: { (x : Self) → Self.source_side x ≡ record {
      left = Self.left x;
      budget = Self.budget x;
      faults = Self.Source.faults x;
    } };
}

/// What a listener answered.
#[derive(Debug, Drop)]
pub enum Accepted<S> {
    Conn(S),
    /// No connection comes any more.
    End,
}

/// Accepts connections, and takes them back once they are served.
pub trait Listener {
    type Conn: Duplex;

    /// The bytes that each connection to come holds, in order, if they are known.
    ghost to_come: { Self → Option Texts };
    /// What was written on each connection that was given back, in order, if it is known.
    ghost given_back: { Self → Option Texts };
    /// How often a call has failed.
    ghost faults: { Self → ℕ };

    /// Waits for the next connection.
    fn accept(&mut self) -> Result<Accepted<Self::Conn>, Failed>
        ensures next { TakesNext (to_come self.old) result (to_come self.new) }
        ensures fresh { IsFresh Self.Conn.left Self.Conn.written (to_come self.old) result }
        ensures failed { OnErr result (to_come self.new ≡ to_come self.old) }
        ensures given_back { given_back self.new ≡ given_back self.old }
        ensures cause { HasCause (faults self.old) (faults self.new) result };

    /// Takes a connection back, which closes it. There is no answer.
    fn give_back(&mut self, conn: Self::Conn)
        ensures back { Grows (given_back self.old) (Self.Conn.written conn) (given_back self.new) }
        ensures to_come { to_come self.new ≡ to_come self.old }
        ensures faults { faults self.new ≡ faults self.old };
}
