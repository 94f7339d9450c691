//! What becomes of a tree.
ghost use Rattle.std.specs.Prelude.{◌≡◌, ◌<◌, length, slice_get, Some};

use value_core::ListOf;
use visit_rules::Instance;

/// What becomes of the tree of a term. It says nothing of what stays.
#[derive(Drop)]
pub(crate) enum Patch {
    /// The tree stays.
    Kept,
    /// The term was visited, over the tree that there was if there was one.
    Grown {
        instance: Instance,
        /// In the order of the parts.
        parts: ListOf<Patch>,
        /// Of each body the place of the one that becomes it.
        from: ListOf<Option<usize>>,
        /// In the order of the items.
        bodies: ListOf<Patch>,
    },
}

pub(crate) fn patch_at(patches: &[Patch], i: usize) -> &Patch
    requires { i < length patches.now }
    ensures { slice_get patches.now i ≡ Some result.now }
{
    &patches[i]
}
