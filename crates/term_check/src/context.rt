//! What a term is checked in.
use std::alloc::Global;
use term_core::Program;
use value_core::Kind;

/// The pipeline, and the kinds of the nodes before the term's own.
#[derive(Clone, Copy)]
pub(crate) struct Context<'a> {
    pub(crate) alloc: Global,
    pub(crate) program: &'a Program,
    pub(crate) earlier: &'a [Kind],
}
