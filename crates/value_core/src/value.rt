//! Values and their kinds.
use crate::list_of::ListOf;
use crate::text::Text;
use sqlite_items::Boxed;

/// The greatest number of items of a list in a value of a pipeline.
pub const LIST_LIMIT: usize = 256;

/// What a term evaluates to, what an input holds, and what an operation takes.
#[cycle(value)]
#[derive(Drop)]
pub enum Value {
    /// At most `TEXT_LIMIT` bytes in a value of a pipeline.
    Words(Text),
    Num(u64),
    Unit,
    Pair(Boxed<Value>, Boxed<Value>),
    /// At most `LIST_LIMIT` items in a value of a pipeline.
    List(ListOf<Value>),
    Out(Outcome),
}

/// A state as a value, without where it arose.
#[cycle(value)]
#[derive(Drop)]
pub enum Outcome {
    Fine(Boxed<Value>),
    Bad(Text),
    Going,
}

/// The shape of a value.
#[derive(Drop)]
pub enum Kind {
    Text,
    Num,
    Unit,
    Pair(Boxed<Kind>, Boxed<Kind>),
    /// Of items of one kind.
    List(Boxed<Kind>),
    /// Of a value of this kind, if it is fine.
    Out(Boxed<Kind>),
}
