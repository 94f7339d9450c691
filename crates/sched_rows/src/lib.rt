//! Rows: the results that are kept, at most one for an operation's name and a key.
//!
//! `row` has a row, `validity` says until when it is valid, `schedule` finds the next instant of a
//! daily or monthly one. `rows` keeps rows with their expiries: `holding` has one of them, `places`
//! changes their list, and `expiry_index` has their ends in order.
#![tactic(auto)]

mod expiry_index;
mod holding;
mod places;
mod row;
mod rows;
mod schedule;
#[cfg(test)]
mod tests;
mod validity;

pub use holding::Held;
pub use row::Row;
pub use rows::{NoRow, Rows, rows_law};
pub use validity::{expires, valid, validity_law};
