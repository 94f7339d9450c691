//! Faults of a program.
use crate::wanted::Wanted;
use value_core::{Kind, Text};

/// Where a fault is. A declaration is identified by its number in its list.
#[derive(Clone, Copy, Debug, PartialEq, Eq)]
pub enum FaultPlace {
    Client(u32),
    Worker(u32),
    Op(u32),
    /// A term of a node, by its number in pre-order within the node.
    Node { node: u32, term: u32 },
}

/// What is wrong there.
#[derive(Drop)]
pub enum CheckWhat {
    /// No such thing is declared or bound.
    UnknownName(Text),
    /// The node isn't above the one that names it.
    ForwardName(Text),
    /// The term is of the kind `found`.
    KindMismatch { found: Kind, wanted: Wanted },
    /// A list term in two list bodies, or one term too many there.
    ListNesting,
    /// The term's kind has so many parts.
    KindTooLarge(u64),
    /// Out of memory; the place says nothing.
    NoMemory,
}

/// The first fault of a program.
#[derive(Drop)]
pub struct CheckFault {
    pub place: FaultPlace,
    pub what: CheckWhat,
}
