//! Keepers of what is stored between sessions: inputs, rows, logs and the next number.
//!
//! `tables` has the tables as they are loaded, and `keeper` the traits of what keeps them. `reading`
//! turns loaded tables into what a session opens with, by the tests of `checking`. `mem_tables` and
//! `old_tables` are tables in memory, over the entries of `sorted`; `mem_keeper` and `mem_keepers`
//! are keepers over them, with the calls of `failing` that are to fail. `edits` is what a delta
//! changes, ready to be made; `laws` has the laws, and `texts` what they ask of real values.
#![tactic(auto)]

mod checking;
mod copying;
mod edits;
mod failing;
mod hashing;
mod keeper;
mod keys;
mod laws;
mod mem_keeper;
mod mem_keepers;
mod mem_tables;
mod old_tables;
mod reading;
mod rows;
mod sorted;
mod stored;
mod tables;
mod texts;

pub use failing::{FailingCall, Failure};
pub use hashing::key_hash;
pub use keeper::{KeepFault, Keeper, Keepers, MigrateFault, Migrated};
pub use laws::{
    commits_keep_tables, fresh_is_well_formed, next_opening_follows, openings_are_held,
    printed_is_read, steps_are_held, steps_may_be_stored,
};
pub use mem_keeper::{MemKeeper, SteadyKeeper};
pub use mem_keepers::{HeldTables, MemKeepers};
pub use mem_tables::MemTables;
pub use old_tables::OldMemTables;
pub use reading::{TableFault, old_first_bad, read_tables};
pub use stored::Stored;
pub use tables::{
    CacheKey, CacheRow, CacheValue, InputRow, MetaRow, OldCacheKey, OldCacheRow, OldTables, Table,
    Tables,
};
pub use texts::{keeps_texts, texts_may_be_stored};
