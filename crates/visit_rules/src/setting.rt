//! What terms are renewed in.
use crate::changes::Looked;
use term_core::{Context, Program};
use value_core::Value;

/// What is known of the sources that may have changed.
#[derive(Clone, Copy)]
pub struct Changed<'a> {
    /// The numbers of the inputs that may have changed.
    pub inputs: &'a [u32],
    /// The entries of the triples that may have changed.
    pub looked: &'a [Looked],
    /// Of each earlier node, whether its state is another than before.
    pub moved: &'a [bool],
}

/// What all nodes are renewed in.
#[derive_where(Clone, Copy)]
pub struct Pass<'a, E> {
    pub program: &'a Program,
    /// A value for each input.
    pub inputs: &'a [Value],
    pub entries: &'a E,
    /// The numbers of the inputs that may have changed.
    pub named: &'a [u32],
    /// The entries of the triples that may have changed.
    pub looked: &'a [Looked],
}

/// What the term of one node is renewed in.
#[derive_where(Clone, Copy)]
pub struct Setting<'a, E> {
    pub context: Context<'a, E>,
    pub changed: Changed<'a>,
}
