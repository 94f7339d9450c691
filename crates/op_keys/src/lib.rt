//! Declarations of operations, and the orders for their workers.
//!
//! `declarations` has what a pipeline file declares beside its inputs and nodes, `names` finds them,
//! `level` says which levels may start, `order` has the words of a child process, filled from an
//! operation's templates.
#![tactic(auto)]

mod copying;
mod declarations;
mod filling;
mod level;
mod names;
mod order;

pub use declarations::{ClientDecl, Expiry, OpDecl, PoolDecl, WorkerDecl};
pub use level::{Level, permitted};
pub use names::{Named, index_of};
pub use order::{Exit, ORDER_WORD_LIMIT, Order, OrderFault, Word, hint_of, order_fits, words_of};
