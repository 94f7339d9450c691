//! A keeper of the tables over a database.
//!
//! `keeper` has the keeper, over a connection that `adopting` opens anew: `known` compares its
//! schema, and `making` makes the tables of a store that has none. `commits` makes a delta in one
//! transaction of the statements of `statements`; `reads` reads the tables, and `first` those of
//! the first schema, whose rows `columns` takes apart. `moving` moves a store of the first schema
//! under the second. `opening` is the keeper over a file.
#![tactic(auto)]

mod adopting;
mod columns;
mod commits;
mod first;
mod keeper;
mod known;
mod making;
mod moving;
mod opening;
mod reads;
mod statements;

pub use keeper::SqlKeeper;
