//! What each function returns.
ghost use Rattle.std.specs.Prelude.{◌≡◌, ◌+◌, ◌∷◌, ◌++◌, nat_le, if◌then◌else◌, codes, map, IfOk, OnOk};
ghost use Rattle.std.specs.Fmt.{decimal};
ghost use Rattle.std.specs.Str.{bytes_eq};
ghost use Rattle.std.specs.String.{string_bytes};
ghost use Rattle.value_core.specs.declared.function.Applied.TheVariants as applied;
ghost use Rattle.value_core.specs.declared.value.Value.TheVariants as value;
ghost use Rattle.value_core.specs.declared.value.Outcome.{out-Outcome};
ghost use Rattle.value_core.specs.Cuts.{pieces_of, trimmed};
ghost use Rattle.value_core.specs.Functions.{limited_list, limited_text, limited_number, joined, spelled_number, unit_if, described, demanded};
ghost use Rattle.value_core.specs.Parts.{text_in, first_in, second_in, outcome_in};
ghost use Rattle.value_core.specs.Texts.{HasNoNul};
ghost use Rattle.value_core.specs.Tokens.{number_of};

use crate::NoMemory;
use crate::cutting::{Separator, pieces, trim};
use crate::function::Applied;
use crate::numerals::number;
use crate::parts::text_part;
use crate::text::{TEXT_LIMIT, Text};
use crate::value::{Outcome, Value};
use std::alloc::Global;

fn failure(alloc: Global, message: &str) -> Result<Applied, NoMemory>
    requires { HasNoNul message.now }
    ensures { IfOk result (λ a. a ≡ applied.Bad message.now) }
{
    Ok(Applied::Bad(Text::of(alloc, message)?))
}

fn success(alloc: Global, text: &str) -> Result<Applied, NoMemory>
    requires { HasNoNul text.now }
    ensures { IfOk result (λ a. a ≡ applied.Fine (value.Words text.now)) }
{
    Ok(Applied::Fine(Value::Words(Text::of(alloc, text)?)))
}

pub(crate) fn trim_text(alloc: Global, text: &str) -> Result<Applied, NoMemory>
    requires { HasNoNul text.now }
    ensures { IfOk result (λ a. a ≡ applied.Fine (value.Words (trimmed text.now))) }
{
    success(alloc, trim(text))
}

/// The list of a text's pieces.
pub(crate) fn cut(alloc: Global, text: &str, separator: Separator) -> Result<Applied, NoMemory>
    requires { HasNoNul text.now }
    ensures { IfOk result (λ a. a ≡ limited_list (pieces_of separator text.now)) }
{
    match pieces(alloc, text, separator)? {
        Some(items) => Ok(Applied::Fine(Value::List(items))),
        None => failure(alloc, "list too long"),
    }
}

/// Adds a line, after a newline unless it is the first.
#[tactic(auto, using(crate::proofs::Nuls::no_nul_both))]
fn add_line(text: &mut String, line: &str, is_first: bool) -> Result<(), NoMemory>
    requires line { HasNoNul line.now }
    requires text { HasNoNul (string_bytes text.old) }
    ensures bytes { let added = if is_first then line.now else 10 ∷ line.now in
        OnOk result (string_bytes text.new ≡ string_bytes text.old ++ added) }
    ensures no_nul { OnOk result (HasNoNul (string_bytes text.new)) }
{
    if !is_first {
        text.push('\n')?;
    }
    text.push_str(line)?;
    Ok(())
}

/// The items' texts with a newline between each two.
pub(crate) fn join(alloc: Global, items: &[Value]) -> Result<Applied, NoMemory>
    ensures { IfOk result (λ a. a ≡ limited_text (joined (map text_in items.now))) }
{
    let mut text = String::new(alloc);
    let mut is_first = true;
    for item in items {
        add_line(&mut text, text_part(item), is_first)?;
        is_first = false;
        if TEXT_LIMIT < text.len() {
            return failure(alloc, "text too large");
        }
    }
    Ok(Applied::Fine(Value::Words(Text::from_string(text))))
}

#[tactic(auto, using(crate::proofs::Nuls::no_nul_both))]
pub(crate) fn concat(alloc: Global, first: &str, second: &str) -> Result<Applied, NoMemory>
    requires first_no_nul { HasNoNul first.now }
    requires second_no_nul { HasNoNul second.now }
    ensures { IfOk result (λ a. a ≡ limited_text (first.now ++ second.now)) }
{
    if TEXT_LIMIT < first.len() || TEXT_LIMIT - first.len() < second.len() {
        return failure(alloc, "text too large");
    }
    let mut text = String::from_str(alloc, first)?;
    text.push_str(second)?;
    Ok(Applied::Fine(Value::Words(Text::from_string(text))))
}

pub(crate) fn read_number(alloc: Global, text: &str) -> Result<Applied, NoMemory>
    ensures { IfOk result (λ a. a ≡ spelled_number (number_of text.now)) }
{
    match number(text.as_bytes()) {
        Some(n) => Ok(Applied::Fine(Value::Num(n))),
        None => failure(alloc, "not a number"),
    }
}

#[tactic(auto, using(crate::proofs::Nuls::decimal_clean))]
pub(crate) fn show(alloc: Global, n: u64) -> Result<Applied, NoMemory>
    ensures { IfOk result (λ a. a ≡ applied.Fine (value.Words (decimal n))) }
{
    let text = format!(in alloc; "{n}")?;
    Ok(Applied::Fine(Value::Words(Text::from_string(text))))
}

pub(crate) fn add(alloc: Global, first: u64, second: u64) -> Result<Applied, NoMemory>
    ensures { IfOk result (λ a. a ≡ limited_number (first + second)) }
{
    match first.checked_add(second) {
        Some(sum) => Ok(Applied::Fine(Value::Num(sum))),
        None => failure(alloc, "number too large"),
    }
}

pub(crate) fn equal(alloc: Global, first: &str, second: &str) -> Result<Applied, NoMemory>
    ensures { IfOk result (λ a. a ≡ unit_if (bytes_eq first.now second.now) (codes "not equal")) }
{
    if first == second {
        Ok(Applied::Fine(Value::Unit))
    } else {
        failure(alloc, "not equal")
    }
}

pub(crate) fn at_most(alloc: Global, first: u64, second: u64) -> Result<Applied, NoMemory>
    ensures { IfOk result (λ a. a ≡ unit_if (nat_le first second) (codes "too large")) }
{
    if first <= second {
        Ok(Applied::Fine(Value::Unit))
    } else {
        failure(alloc, "too large")
    }
}

pub(crate) fn first(alloc: Global, v: &Value) -> Result<Applied, NoMemory>
    ensures { IfOk result (λ a. a ≡ applied.Fine (first_in v.now)) }
{
    match v {
        Value::Pair(first, _) => Ok(Applied::Fine(first.get().copy(alloc)?)),
        _ => Ok(Applied::Fine(Value::Unit)),
    }
}

pub(crate) fn second(alloc: Global, v: &Value) -> Result<Applied, NoMemory>
    ensures { IfOk result (λ a. a ≡ applied.Fine (second_in v.now)) }
{
    match v {
        Value::Pair(_, second) => Ok(Applied::Fine(second.get().copy(alloc)?)),
        _ => Ok(Applied::Fine(Value::Unit)),
    }
}

/// An outcome in words.
pub(crate) fn describe(alloc: Global, v: &Value) -> Result<Applied, NoMemory>
    ensures { IfOk result (λ a. a ≡ described (out-Outcome (outcome_in v.now))) }
{
    match v {
        Value::Out(Outcome::Fine(_)) => success(alloc, "ok"),
        Value::Out(Outcome::Bad(message)) => concat(alloc, "failed: ", message.as_str()),
        _ => success(alloc, "active"),
    }
}

/// The value of an outcome that is fine.
pub(crate) fn must(alloc: Global, v: &Value) -> Result<Applied, NoMemory>
    ensures { IfOk result (λ a. a ≡ demanded (out-Outcome (outcome_in v.now))) }
{
    match v {
        Value::Out(Outcome::Fine(value)) => Ok(Applied::Fine(value.get().copy(alloc)?)),
        Value::Out(Outcome::Bad(message)) => failure(alloc, message.as_str()),
        _ => failure(alloc, "active"),
    }
}
