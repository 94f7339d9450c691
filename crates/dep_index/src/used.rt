//! What an instance reads.
ghost use Rattle.std.specs.Prelude.{◌≡◌, ◌↔◌, IfOk, IsTrue};
ghost use Rattle.dep_index.specs.Pairs.{used_cmp, used_code};
ghost use Rattle.value_core.specs.Orders.{triple_cmp};
ghost use Rattle.value_core.specs.Same.{same};

use std::alloc::Global;
use std::cmp::Ordering;
use value_core::{NoMemory, Triple};

/// What an instance reads: an input, a node's state, or the entry of a triple.
#[derive(PartialEq, Eq, Drop)]
pub enum Used {
    Input(u32),
    Node(u32),
    Key(Triple),
}

/// By operations, then by the keys' bytes, then by the values'.
fn compare_triples(a: &Triple, b: &Triple) -> Ordering
    ensures { result ≡ triple_cmp a.now b.now }
{
    let texts = a.key.cmp(&b.key).then(a.value.cmp(&b.value));
    a.op.cmp(&b.op).then(texts)
}

impl Used {
    /// An equal source.
    pub(crate) fn copy(&self, alloc: Global) -> Result<Used, NoMemory>
        ensures { IfOk result (λ u. u ≡ self.now) }
    {
        match self {
            Used::Input(n) => Ok(Used::Input(*n)),
            Used::Node(n) => Ok(Used::Node(*n)),
            Used::Key(triple) => Ok(Used::Key(triple.copy(alloc)?)),
        }
    }

    /// Inputs come first, then nodes, then triples.
    pub(crate) fn compare(&self, other: &Used) -> Ordering
        ensures { result ≡ used_cmp self.now other.now }
    {
        match self {
            Used::Input(a) => match other {
                Used::Input(b) => a.cmp(b),
                Used::Node(_) | Used::Key(_) => Ordering::Less,
            },
            Used::Node(a) => match other {
                Used::Input(_) => Ordering::Greater,
                Used::Node(b) => a.cmp(b),
                Used::Key(_) => Ordering::Less,
            },
            Used::Key(a) => match other {
                Used::Input(_) | Used::Node(_) => Ordering::Greater,
                Used::Key(b) => compare_triples(a, b),
            },
        }
    }

    /// Whether the two are equal.
    pub(crate) fn is(&self, other: &Used) -> bool
        ensures { result ≡ same used_code self.now other.now }
    {
        self.equals(other)
    }

    fn equals(&self, other: &Used) -> bool
        ensures { IsTrue result ↔ (self.now ≡ other.now) }
    {
        *self == *other
    }
}
