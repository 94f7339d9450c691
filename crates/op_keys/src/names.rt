//! Declarations by their names.
ghost use Rattle.std.specs.Prelude.{◌≡◌, ℕ, ◌≤◌, map, length, List};
ghost use Rattle.op_keys.specs.Names.{index_named};

use crate::declarations::{OpDecl, PoolDecl, WorkerDecl};
use value_core::Text;

/// What is identified by a name.
pub trait Named {
    /// Its name.
    ghost named: { Self → List ℕ };

    fn name(&self) -> &Text
        ensures { result.now ≡ named self.now };
}

impl Named for OpDecl {
    ghost named = { λ d. d.name };

    fn name(&self) -> &Text {
        &self.name
    }
}

impl Named for PoolDecl {
    ghost named = { λ d. d.name };

    fn name(&self) -> &Text {
        &self.name
    }
}

impl Named for WorkerDecl {
    ghost named = { λ d. d.name };

    fn name(&self) -> &Text {
        &self.name
    }
}

/// The index of the first declaration of this name, or how many there are if none has it.
pub fn index_of<D: Named>(decls: &[D], name: &str) -> usize
    ensures index { result ≡ index_named 0 (map D.named decls.now) name.now }
    ensures within { result ≤ length decls.now }
{
    for (i, decl) in decls.iter().enumerate() {
        if decl.name().as_str() == name {
            return i;
        }
    }
    decls.len()
}
