//! Laws of evaluation. A law's function does nothing: its contract is the law.
ghost use Rattle.term_core.specs.Laws.{FreshIsLocal, NodeIsLocal};

/// What a node comes to depends only on the inputs, on the earlier states, and on the entries of
/// the triples that it wants.
pub fn node_is_local()
    ensures { NodeIsLocal }
{}

/// What all nodes come to depends only on the inputs and on the entries of the triples that they
/// want.
pub fn fresh_is_local()
    ensures { FreshIsLocal }
{}
