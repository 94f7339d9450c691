//! Which instances read a source, so that those can be found whose source has changed.
//!
//! `used` has the sources, `pair` a pair and the two orders of pairs, `slot_index` numbers of
//! pairs in one of these orders, `pairs` the pairs with an index of each order, `deps` the whole.
#![tactic(auto)]

mod deps;
mod pair;
mod pairs;
mod slot_index;
#[cfg(test)]
mod tests;
mod used;

pub use deps::Deps;
pub use used::Used;
