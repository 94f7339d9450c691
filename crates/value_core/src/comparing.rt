//! Whether two values, kinds or states are equal.
ghost use Rattle.std.specs.Prelude.{◌≡◌, ◌↔◌, IsTrue, true};
ghost use Rattle.value_core.specs.Codes.{kind_code, outcome_code, state_code, value_code};
ghost use Rattle.value_core.specs.Orders.{same_triple};
ghost use Rattle.value_core.specs.Same.{same};
ghost use Rattle.value_core.specs.declared.state.State.{State};
ghost use Rattle.value_core.specs.declared.value.Value.{Value};

use crate::state::{State, Triple};
use crate::value::{Kind, Outcome, Value};

impl Value {
    /// Whether the two are equal.
    pub fn is(&self, other: &Value) -> bool
        ensures equal { IsTrue result ↔ (self.now ≡ other.now) }
        ensures decided { result ≡ same value_code self.now other.now }
    {
        are_equal(self, other)
    }
}

#[cycle(comparing)]
fn are_equal(x: &Value, y: &Value) -> bool
    ensures { IsTrue result ↔ (x.now ≡ y.now) }
{
    match x {
        Value::Words(a) => match y {
            Value::Words(b) => a.is(b),
            _ => false,
        },
        Value::Num(a) => match y {
            Value::Num(b) => *a == *b,
            _ => false,
        },
        Value::Unit => match y {
            Value::Unit => true,
            _ => false,
        },
        Value::Pair(a, b) => match y {
            Value::Pair(c, d) => are_equal(a.get(), c.get()) && are_equal(b.get(), d.get()),
            _ => false,
        },
        Value::List(xs) => match y {
            Value::List(ys) => are_all_equal(xs.as_slice(), ys.as_slice()),
            _ => false,
        },
        Value::Out(a) => match y {
            Value::Out(b) => are_equal_outcomes(a, b),
            _ => false,
        },
    }
}

#[cycle(comparing)]
fn are_all_equal(xs: &[Value], ys: &[Value]) -> bool
    ensures { IsTrue result ↔ (xs.now ≡ ys.now) }
{
    if xs.len() != ys.len() {
        return false;
    }
    for (i, x) in xs.iter().enumerate() {
        if !are_equal(x, &ys[i]) {
            return false;
        }
    }
    true
}

#[cycle(comparing)]
fn are_equal_outcomes(x: &Outcome, y: &Outcome) -> bool
    ensures { IsTrue result ↔ (x.now ≡ y.now) }
{
    match x {
        Outcome::Fine(a) => match y {
            Outcome::Fine(b) => are_equal(a.get(), b.get()),
            _ => false,
        },
        Outcome::Bad(a) => match y {
            Outcome::Bad(b) => a.is(b),
            _ => false,
        },
        Outcome::Going => match y {
            Outcome::Going => true,
            _ => false,
        },
    }
}

impl Outcome {
    /// Whether the two are equal.
    pub fn is(&self, other: &Outcome) -> bool
        ensures equal { IsTrue result ↔ (self.now ≡ other.now) }
        ensures decided { result ≡ same outcome_code self.now other.now }
    {
        are_equal_outcomes(self, other)
    }
}

fn are_equal_kinds(x: &Kind, y: &Kind) -> bool
    ensures { IsTrue result ↔ (x.now ≡ y.now) }
{
    match (x, y) {
        (Kind::Text, Kind::Text) => true,
        (Kind::Num, Kind::Num) => true,
        (Kind::Unit, Kind::Unit) => true,
        (Kind::Pair(a, b), Kind::Pair(c, d)) => are_equal_kinds(a.get(), c.get())
            && are_equal_kinds(b.get(), d.get()),
        (Kind::List(a), Kind::List(b)) => are_equal_kinds(a.get(), b.get()),
        (Kind::Out(a), Kind::Out(b)) => are_equal_kinds(a.get(), b.get()),
        _ => false,
    }
}

impl Kind {
    /// Whether the two are equal.
    pub fn is(&self, other: &Kind) -> bool
        ensures equal { IsTrue result ↔ (self.now ≡ other.now) }
        ensures decided { result ≡ same kind_code self.now other.now }
    {
        are_equal_kinds(self, other)
    }
}

fn are_equal_states(x: &State, y: &State) -> bool
    ensures { IsTrue result ↔ (x.now ≡ y.now) }
{
    match x {
        State::Fine(a) => match y {
            State::Fine(b) => a.is(b),
            _ => false,
        },
        State::Failed { origin, message } => match y {
            State::Failed {
                origin: origin_2,
                message: message_2,
            } => *origin == *origin_2 && message.is(message_2),
            _ => false,
        },
        State::Active { origin, stage } => match y {
            State::Active {
                origin: origin_2,
                stage: stage_2,
            } => *origin == *origin_2 && *stage == *stage_2,
            _ => false,
        },
    }
}

impl Triple {
    /// Whether the two are equal.
    pub fn is(&self, other: &Triple) -> bool
        ensures { result ≡ same_triple self.now other.now }
    {
        self.op == other.op && self.key.is(&other.key) && self.value.is(&other.value)
    }
}

impl State {
    /// Whether the two are equal.
    pub fn is(&self, other: &State) -> bool
        ensures equal { IsTrue result ↔ (self.now ≡ other.now) }
        ensures decided { result ≡ same state_code self.now other.now }
    {
        are_equal_states(self, other)
    }
}

/// `same` is true exactly for equals.
pub fn same_law()
    ensures equal_values { (x y : Value) → same value_code x y ≡ true → x ≡ y }
    ensures reflexive_values { (x : Value) → same value_code x x ≡ true }
    ensures equal_states { (x y : State) → same state_code x y ≡ true → x ≡ y }
    ensures reflexive_states { (x : State) → same state_code x x ≡ true }
{}
