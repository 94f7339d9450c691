//! A session on a made pipeline of N nodes, over ends in memory, and the summary of it.
//!
//! `digits` makes lists of numbers as texts, `program` the pipeline of N nodes, `script` the lines
//! of its input. `echoes` has the launcher, which counts its orders, `summary` the text of the
//! numbers, and `making` the session.
#![tactic(auto)]

mod digits;
mod echoes;
mod making;
mod program;
mod script;
mod summary;

pub use making::make;
