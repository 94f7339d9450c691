//! Evaluation that is kept under changes, by the rules of `visit_rules`.
//!
//! `live` keeps the trees of all nodes' visits in a pool and plans the trees of a changed world.
//! `old` shows a tree that is in the pool, `dirty` whether what it read is known to differ, and
//! `renew` finds by a `patch` what becomes of it. `next` shows the tree to come, which `plant` puts
//! into a pool. A `forest` is the trees of all nodes in one pool, `nodes` goes through them in
//! order, and `gathering` finds what they want.
#![tactic(auto)]

mod dirty;
mod forest;
mod gathering;
mod live;
mod next;
mod nodes;
mod old;
mod patch;
mod plant;
mod renew;
mod twig;

pub use live::{EvalPlan, Live};
pub use visit_rules::{Changes, Instance, Read, Visit};
