//! The keepers of the program: of a fresh store in memory, or over a SQLite file.
//!
//! `store_keeper` has the keeper of either kind, `noted` a keeper that remembers whether a call of
//! it has failed, and `store_keepers` what opens them and takes them back.
#![tactic(auto)]

mod noted;
mod store_keeper;
mod store_keepers;

pub use noted::NotedKeeper;
pub use store_keeper::StoreKeeper;
pub use store_keepers::{FileKeeper, StoreKeepers, open_store};
