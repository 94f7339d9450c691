//! The places of the visits of a tree.
use scope_pool::{Place, ScopeId};
use value_core::ListOf;

/// The place of a visit in the pool, and those of the visits below it.
#[derive(Drop)]
pub(crate) struct Twig {
    pub(crate) place: Place,
    /// The scope that it is in.
    pub(crate) scope: ScopeId,
    pub(crate) parts: ListOf<Twig>,
    pub(crate) bodies: ListOf<Twig>,
}
