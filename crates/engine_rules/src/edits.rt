//! What an event changes by itself, as data.
use core_rules::{Own, RowChange};
use value_core::Value;

/// What changes among the values of the inputs.
#[derive(Drop)]
pub enum InputChange {
    None,
    /// The input of this number in file order has this value.
    Set(u32, Value),
}

/// What an event changes by itself.
#[derive(Drop)]
pub struct Edit {
    pub own: Own,
    pub row: RowChange,
    pub input: InputChange,
}
