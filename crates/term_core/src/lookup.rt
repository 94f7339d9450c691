//! The lookup of a triple.
ghost use Rattle.std.specs.Prelude.{◌≡◌, ◌^◌, ◌<◌, [], length, IfOk, slice_get};
ghost use Rattle.value_core.specs.Parts.{text_in};
ghost use Rattle.term_core.specs.declared.lookup.OpKind.TheVariants as kinds;
ghost use Rattle.term_core.specs.Evaluation.{entry_state, fits, looked_up, triple_of};
ghost use Rattle.term_core.specs.Evaluators.{Runs, within};
ghost use Rattle.term_core.specs.Runs.{follow, follow_both};
ghost use Rattle.term_core.specs.Views.{value_for};

use crate::entries::{Entries, Entry};
use crate::evaluation::Evaluator;
use crate::reading::text_of;
use op_keys::{OpDecl, index_of, order_fits};
use value_core::{NoMemory, State, Text, Triple, Value};

/// The two kinds of operations, which differ in the value of a fine row.
#[derive(Clone, Copy, Debug, PartialEq, Eq)]
pub enum OpKind {
    /// Its value is the row's text.
    Build,
    /// Its value is unit.
    Output,
}

/// The state of a triple with this entry.
pub fn state_of_entry(node: u32, kind: OpKind, entry: Entry) -> State
    ensures { result ≡ entry_state node (value_for kind) entry }
{
    match entry {
        Entry::Fine(text) => match kind {
            OpKind::Build => State::Fine(Value::Words(text)),
            OpKind::Output => State::Fine(Value::Unit),
        },
        Entry::Bad(message) => State::Failed {
            origin: node,
            message,
        },
        Entry::Active(stage) => State::Active {
            origin: node,
            stage,
        },
    }
}

/// Whether each word of the triple's order is short enough.
pub fn has_short_words(ops: &[OpDecl], triple: &Triple) -> bool
    ensures { result ≡ fits (slice_get ops.now triple.now.op) triple.now }
{
    let op = triple.op as usize;
    if op < ops.len() {
        order_fits(&ops[op], &triple.key, &triple.value)
    } else {
        true
    }
}

impl<'a, E: Entries> Evaluator<'a, E> {
    /// The state of a triple, which is wanted once more.
    #[tactic(auto, unfolding(crate::specs::Evaluation::looked_up))]
    fn look_up(&mut self, kind: OpKind, triple: Triple) -> Result<State, NoMemory>
        ensures { IfOk result (Runs
            (within E.world self.old (λ c _. looked_up c (value_for kind) triple))
            self.old self.new 0 0) }
    {
        if !has_short_words(self.context.program.ops.as_slice(), &triple) {
            return Ok(State::Failed {
                origin: self.context.node,
                message: Text::of(self.alloc, "order too long")?,
            });
        }
        let entry = self.context.entries.entry(self.alloc, &triple)?;
        self.wants.push(triple)?;
        Ok(state_of_entry(self.context.node, kind, entry))
    }

    /// The lookup of a build's key, if its state is fine.
    pub(crate) fn look_up_build(&mut self, op: &Text, key: State) -> Result<State, NoMemory>
        requires { length self.old.context.program.now.ops < 2 ^ 32 }
        ensures { IfOk result (Runs
            (within E.world self.old (λ c _. follow key (λ k.
            looked_up c (value_for kinds.Build) (triple_of c op.now (text_in k) []))))
            self.old self.new 0 0) }
    {
        match key {
            State::Fine(key) => {
                let op = index_of(self.context.program.ops.as_slice(), op.as_str()) as u32;
                let key = text_of(self.alloc, key);
                let value = Text::new(self.alloc);
                self.look_up(OpKind::Build, Triple { op, key, value })
            }
            State::Failed { origin, message } => Ok(State::Failed { origin, message }),
            State::Active { origin, stage } => Ok(State::Active { origin, stage }),
        }
    }

    /// The lookup of an output's key and value, if both states are fine.
    pub(crate) fn look_up_output(
        &mut self,
        op: &Text,
        key: State,
        value: State,
    ) -> Result<State, NoMemory>
        requires { length self.old.context.program.now.ops < 2 ^ 32 }
        ensures { IfOk result (Runs
            (within E.world self.old (λ c _. follow_both key value (λ k v.
            looked_up c (value_for kinds.Output) (triple_of c op.now (text_in k) (text_in v)))))
            self.old self.new 0 0) }
    {
        match key {
            State::Fine(key) => match value {
                State::Fine(value) => {
                    let op = index_of(self.context.program.ops.as_slice(), op.as_str()) as u32;
                    let key = text_of(self.alloc, key);
                    let value = text_of(self.alloc, value);
                    self.look_up(OpKind::Output, Triple { op, key, value })
                }
                other => Ok(other),
            },
            State::Failed { origin, message } => Ok(State::Failed { origin, message }),
            State::Active { origin, stage } => match value {
                State::Failed { origin, message } => Ok(State::Failed { origin, message }),
                _ => Ok(State::Active { origin, stage }),
            },
        }
    }
}
