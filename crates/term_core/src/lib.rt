//! Pipelines as data, and the states of their terms.
//!
//! `program` has the declarations and terms of a pipeline file, `entries` what is known of the
//! triples that terms look up, `evaluation` the state of a term with the triples that it wants,
//! and `fresh` the states of all nodes. Evaluation keeps nothing: faster evaluators above are
//! proved equal to it.
#![tactic(auto)]

mod context;
mod copying;
mod entries;
mod evaluation;
mod fresh;
mod gathering;
mod laws;
mod lookup;
mod names;
mod program;
mod reading;
mod states;

pub use context::{Binding, Context};
pub use entries::{Entries, Entry};
pub use fresh::{Evaluated, Fresh, eval_node, fresh_states};
pub use gathering::{Collected, StateFold};
pub use laws::{fresh_is_local, node_is_local};
pub use lookup::{OpKind, has_short_words, state_of_entry};
pub use program::{FailKind, InputDecl, NodeDecl, Program, Term};
pub use states::{caught_state, gated_state, observed_state, pair_state, state_of_applied};
