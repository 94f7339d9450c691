//! The rules of evaluation that is kept: what a visit of a term is, what the tree of all visits of
//! an evaluation has, and what becomes of it in another world.
//!
//! `visit` has the tree and `changes` what may be another than before; `setting` is what terms are
//! visited in. One visit is made of `terms`, the parts of a term, `reads`, what it reads, and
//! `states`, the items of its bodies and its state; `instance` is what it keeps. `matches` finds
//! which body an item takes over, `looking` the entries that may have changed, `differences` the
//! nodes that have moved, and `counting` how often triples are wanted. proofs/ has what follows of
//! whole trees: over those of any old world only what differs is visited again, and they become
//! those of a fresh evaluation.
#![tactic(auto)]

mod changes;
mod counting;
mod differences;
mod instance;
mod looking;
mod matches;
mod reads;
mod setting;
mod states;
mod terms;
mod visit;

pub use changes::{Changes, Looked};
pub use counting::{counted, tallied};
pub use differences::changed_nodes;
pub use instance::Instance;
pub use looking::look_at;
pub use matches::{find_unused, none_used, take_body};
pub use reads::{is_changed, reading};
pub use setting::{Changed, Pass, Setting};
pub use states::{Below, Visitor, items_for};
pub use terms::{part_count, part_of};
pub use visit::{Read, Visit};
