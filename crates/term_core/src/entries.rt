//! What is known of triples.
ghost use Rattle.std.specs.Prelude.{◌≡◌, ◌↔◌, IsTrue, IfOk};
ghost use Rattle.value_core.specs.Same.{same};
ghost use Rattle.term_core.specs.Codes.{entry_code};

use std::alloc::Global;
use value_core::{NoMemory, Stage, Text, Triple};

/// What a triple is found to be.
#[derive(Drop)]
pub enum Entry {
    /// Its row is fine, with this result; of an output the result is not looked at.
    Fine(Text),
    /// Its row failed, with this message.
    Bad(Text),
    /// It has no row that counts, and its job is at this stage.
    Active(Stage),
}

impl Entry {
    /// An equal entry.
    pub fn copy(&self, alloc: Global) -> Result<Entry, NoMemory>
        ensures { IfOk result (λ e. e ≡ self.now) }
    {
        match self {
            Entry::Fine(text) => Ok(Entry::Fine(text.copy(alloc)?)),
            Entry::Bad(message) => Ok(Entry::Bad(message.copy(alloc)?)),
            Entry::Active(stage) => Ok(Entry::Active(*stage)),
        }
    }

    /// Whether the two are equal.
    pub fn is(&self, other: &Entry) -> bool
        ensures equal { IsTrue result ↔ (self.now ≡ other.now) }
        ensures decided { result ≡ same entry_code self.now other.now }
    {
        are_equal(self, other)
    }
}

fn are_equal(entry: &Entry, other: &Entry) -> bool
    ensures { IsTrue result ↔ (entry.now ≡ other.now) }
{
    match entry {
        Entry::Fine(a) => match other {
            Entry::Fine(b) => a.is(b),
            _ => false,
        },
        Entry::Bad(a) => match other {
            Entry::Bad(b) => a.is(b),
            _ => false,
        },
        Entry::Active(a) => match other {
            Entry::Active(b) => *a == *b,
            _ => false,
        },
    }
}

/// A finite map from triples, and for each operation the stage of every other triple.
pub trait Entries {
    ghost use Rattle.std.specs.Prelude.{◌≡◌, IfOk};
    ghost use Rattle.term_core.specs.World.{World, entry_of};

    /// The map, as plain data.
    ghost world: { Self → World };

    fn entry(&self, alloc: Global, triple: &Triple) -> Result<Entry, NoMemory>
        ensures { IfOk result (λ e. e ≡ entry_of (world self.now) triple.now) };
}
