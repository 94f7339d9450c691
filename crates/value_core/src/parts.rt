//! What a function finds in a value.
ghost use Rattle.std.specs.Prelude.{◌≡◌};
ghost use Rattle.value_core.specs.Parts.{text_in, number_in, items_in, first_in, second_in};
ghost use Rattle.value_core.specs.Texts.{HasNoNul};

use crate::value::Value;

pub(crate) fn text_part(v: &Value) -> &str
    ensures bytes { result.now ≡ text_in v.now }
    ensures no_nul { HasNoNul result.now }
{
    match v {
        Value::Words(text) => text.as_str(),
        _ => "",
    }
}

pub(crate) fn number_part(v: &Value) -> u64
    ensures { result ≡ number_in v.now }
{
    match v {
        Value::Num(n) => *n,
        _ => 0,
    }
}

pub(crate) fn items_part(v: &Value) -> &[Value]
    ensures { result.now ≡ items_in v.now }
{
    match v {
        Value::List(items) => items.as_slice(),
        _ => &[],
    }
}

/// The texts of both parts.
pub(crate) fn text_parts(v: &Value) -> (&str, &str)
    ensures first { result.0.now ≡ text_in (first_in v.now) }
    ensures second { result.1.now ≡ text_in (second_in v.now) }
    ensures first_no_nul { HasNoNul result.0.now }
    ensures second_no_nul { HasNoNul result.1.now }
{
    match v {
        Value::Pair(a, b) => (text_part(a.get()), text_part(b.get())),
        _ => ("", ""),
    }
}

/// The numbers of both parts.
pub(crate) fn number_parts(v: &Value) -> (u64, u64)
    ensures first { result.0 ≡ number_in (first_in v.now) }
    ensures second { result.1 ≡ number_in (second_in v.now) }
{
    match v {
        Value::Pair(a, b) => (number_part(a.get()), number_part(b.get())),
        _ => (0, 0),
    }
}
