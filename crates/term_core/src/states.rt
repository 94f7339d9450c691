//! States put together, and turned into others.
ghost use Rattle.std.specs.Prelude.{◌≡◌, [], ◌∷◌, IfOk};
ghost use Rattle.term_core.specs.States.{applied_state, both, caught, gated, limited, observed, paired};

use sqlite_items::Boxed;
use std::alloc::Global;
use value_core::{Applied, NoMemory, Outcome, State, Text, Value, WEIGHT_LIMIT, outweighs};

/// The state of a value that may weigh too much.
pub(crate) fn limited_state(alloc: Global, node: u32, value: Value) -> Result<State, NoMemory>
    ensures { IfOk result (λ s. s ≡ limited node value) }
{
    if outweighs(&value, WEIGHT_LIMIT) {
        Ok(State::Failed {
            origin: node,
            message: Text::of(alloc, "value too large")?,
        })
    } else {
        Ok(State::Fine(value))
    }
}

/// Both states, as a pair.
pub fn pair_state(alloc: Global, node: u32, first: State, second: State) -> Result<State, NoMemory>
    ensures { IfOk result (λ s. s ≡ both (first ∷ second ∷ []) (paired node)) }
{
    match first {
        State::Fine(a) => match second {
            State::Fine(b) => {
                let pair = Value::Pair(Boxed::new(alloc, a)?, Boxed::new(alloc, b)?);
                limited_state(alloc, node, pair)
            }
            other => Ok(other),
        },
        State::Failed { origin, message } => Ok(State::Failed { origin, message }),
        State::Active { origin, stage } => match second {
            State::Failed { origin, message } => Ok(State::Failed { origin, message }),
            _ => Ok(State::Active { origin, stage }),
        },
    }
}

/// The second state, if the first is fine.
pub fn gated_state(on: State, state: State) -> State
    ensures { result ≡ gated on state }
{
    match on {
        State::Fine(_) => state,
        State::Failed { origin, message } => State::Failed { origin, message },
        State::Active { origin, stage } => State::Active { origin, stage },
    }
}

/// The result of a function, as a state.
pub fn state_of_applied(node: u32, applied: Applied) -> State
    ensures { result ≡ applied_state node applied }
{
    match applied {
        Applied::Fine(value) => State::Fine(value),
        Applied::Bad(message) => State::Failed {
            origin: node,
            message,
        },
    }
}

/// A value or a message as an outcome.
pub fn caught_state(alloc: Global, state: State) -> Result<State, NoMemory>
    ensures { IfOk result (λ s. s ≡ caught state) }
{
    match state {
        State::Fine(value) => {
            let fine = Outcome::Fine(Boxed::new(alloc, value)?);
            Ok(State::Fine(Value::Out(fine)))
        }
        State::Failed { origin: _, message } => Ok(State::Fine(Value::Out(Outcome::Bad(message)))),
        State::Active { origin, stage } => Ok(State::Active { origin, stage }),
    }
}

/// The same, and an active state is an outcome too.
pub fn observed_state(alloc: Global, state: State) -> Result<State, NoMemory>
    ensures { IfOk result (λ s. s ≡ observed state) }
{
    match state {
        State::Active { .. } => Ok(State::Fine(Value::Out(Outcome::Going))),
        other => caught_state(alloc, other),
    }
}
