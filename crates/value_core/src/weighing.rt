//! How much a value weighs.
ghost use Rattle.std.specs.Prelude.{◌≡◌, ◌<◌, ◌-◌, ◌^◌, min, nat_lt};
ghost use Rattle.value_core.specs.Values.{weight_of, outcome_weight};

use crate::value::{Outcome, Value};

/// The greatest weight of a value of a pipeline.
pub const WEIGHT_LIMIT: u64 = 1048576;

/// The weight of a value, the sum of its parts.
#[cycle(weighing)]
pub fn weight(v: &Value) -> u64
    requires { weight_of v.now < 2 ^ 64 }
    ensures { result ≡ weight_of v.now }
{
    match v {
        Value::Words(text) => text.len() as u64 + 1,
        Value::Num(_) => 1,
        Value::Unit => 1,
        Value::Pair(a, b) => 1 + weight(a.get()) + weight(b.get()),
        Value::List(items) => {
            let mut sum = 1;
            for item in items.as_slice() {
                sum += weight(item);
            }
            sum
        }
        Value::Out(outcome) => weight_of_outcome(outcome),
    }
}

#[cycle(weighing)]
fn weight_of_outcome(o: &Outcome) -> u64
    requires { outcome_weight o.now < 2 ^ 64 }
    ensures { result ≡ outcome_weight o.now }
{
    match o {
        Outcome::Fine(v) => weight(v.get()),
        Outcome::Bad(message) => message.len() as u64 + 1,
        Outcome::Going => 1,
    }
}

/// The weight, or the greatest number if the weight is greater.
#[cycle(capping)]
fn capped_weight(v: &Value) -> u64
    ensures { result ≡ min (weight_of v.now) (2 ^ 64 - 1) }
{
    match v {
        Value::Words(text) => (text.len() as u64).saturating_add(1),
        Value::Num(_) => 1,
        Value::Unit => 1,
        Value::Pair(a, b) => capped_weight(a.get())
            .saturating_add(capped_weight(b.get()))
            .saturating_add(1),
        Value::List(items) => {
            let mut sum: u64 = 1;
            for item in items.as_slice() {
                sum = sum.saturating_add(capped_weight(item));
            }
            sum
        }
        Value::Out(outcome) => capped_outcome_weight(outcome),
    }
}

#[cycle(capping)]
fn capped_outcome_weight(o: &Outcome) -> u64
    ensures { result ≡ min (outcome_weight o.now) (2 ^ 64 - 1) }
{
    match o {
        Outcome::Fine(v) => capped_weight(v.get()),
        Outcome::Bad(message) => (message.len() as u64).saturating_add(1),
        Outcome::Going => 1,
    }
}

/// Whether the value weighs more than a limit, however much it weighs.
pub fn outweighs(v: &Value, limit: u64) -> bool
    requires { limit < 2 ^ 64 - 1 }
    ensures { result ≡ nat_lt limit (weight_of v.now) }
{
    limit < capped_weight(v)
}
