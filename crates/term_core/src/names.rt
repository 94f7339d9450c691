//! Declarations by their names.
use crate::program::{InputDecl, NodeDecl};
use op_keys::Named;
use value_core::Text;

impl Named for InputDecl {
    ghost named = { λ d. d.name };

    fn name(&self) -> &Text {
        &self.name
    }
}

impl Named for NodeDecl {
    ghost named = { λ d. d.name };

    fn name(&self) -> &Text {
        &self.name
    }
}
