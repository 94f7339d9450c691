//! How a session ends.
use keeper_core::Table;

/// How a session ends.
#[derive(Clone, Copy, Debug, PartialEq, Eq)]
pub enum SessionEnd {
    /// The input was read to its end, or to the word that ends it.
    Quit,
    ReadFault,
    WriteFault,
    KeeperFault,
    NoMemory,
    /// All lines that a session takes were taken, or the numbers of jobs or versions are used up.
    LimitReached,
    /// A stored row isn't well formed: its table, and its number from 1 on.
    BadRow(Table, u64),
}
