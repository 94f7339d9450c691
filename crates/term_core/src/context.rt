//! What a term is evaluated in.
ghost use Rattle.std.specs.Prelude.{◌≡◌, IfOk};
ghost use Rattle.term_core.specs.Evaluation.{input_named, node_named};

use crate::program::Program;
use op_keys::index_of;
use std::alloc::Global;
use value_core::{NoMemory, State, Text, Value};

/// The pipeline, the node, and what the node's term can read.
#[derive_where(Clone, Copy)]
pub struct Context<'a, E> {
    pub program: &'a Program,
    /// The index of the node.
    pub node: u32,
    /// A value for each input.
    pub inputs: &'a [Value],
    /// The states of the nodes before it.
    pub earlier: &'a [State],
    pub entries: &'a E,
}

impl<'a, E> Context<'a, E> {
    /// The value of an input.
    pub(crate) fn input(&self, alloc: Global, name: &Text) -> Result<Value, NoMemory>
        ensures { IfOk result (λ v. v ≡
            input_named self.now.program.now.inputs self.now.inputs.now name.now) }
    {
        let index = index_of(self.program.inputs.as_slice(), name.as_str());
        if index < self.inputs.len() {
            self.inputs[index].copy(alloc)
        } else {
            Ok(Value::Unit)
        }
    }

    /// The state of an earlier node.
    pub(crate) fn state_of(&self, alloc: Global, name: &Text) -> Result<State, NoMemory>
        ensures { IfOk result (λ s. s ≡
            node_named self.now.program.now.nodes self.now.earlier.now name.now) }
    {
        let index = index_of(self.program.nodes.as_slice(), name.as_str());
        if index < self.earlier.len() {
            self.earlier[index].copy(alloc)
        } else {
            Ok(State::Fine(Value::Unit))
        }
    }
}

/// A value under a name.
#[derive(Drop)]
pub struct Binding {
    pub name: Text,
    pub value: Value,
}
