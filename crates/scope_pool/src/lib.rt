//! A pool of items in scopes: a scope is given up at once, with all that are nested in it and all
//! their items.
//!
//! `pool` has the pool as a whole. It stands on `scopes`, the open scopes in the order in which
//! they were opened, and `slots`, the items with a stack of the slots that are vacant.
#![tactic(auto)]

mod pool;
mod scopes;
mod slots;
#[cfg(test)]
mod tests;

pub use pool::{Place, Pool, ScopeId, scopes_law};
