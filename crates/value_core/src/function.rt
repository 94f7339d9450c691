//! The functions from one value to another.
ghost use Rattle.std.specs.Prelude.{◌≡◌, ◌+◌, ◌≤◌, IfOk, OnOk};
ghost use Rattle.value_core.specs.FunctionKinds.{KeepsKinds};
ghost use Rattle.value_core.specs.Functions.{fn_value};

use crate::NoMemory;
use crate::applying::{
    add, at_most, concat, cut, describe, equal, first, join, must, read_number, second, show,
    trim_text,
};
use crate::cutting::Separator;
use crate::parts::{items_part, number_part, number_parts, text_part, text_parts};
use crate::steps::Steps;
use crate::text::Text;
use crate::value::Value;
use std::alloc::Global;
use std::sync::ledger::Ledger;

/// A function that a term may map over its value. Its definition `fn_value` has a line for each.
#[derive(Clone, Copy, Debug, PartialEq, Eq)]
pub enum Fun {
    Trim,
    Lines,
    Words,
    Join,
    Concat,
    Length,
    Count,
    Number,
    Show,
    Add,
    Equal,
    AtMost,
    First,
    Second,
    Describe,
    Must,
}

/// What a function returns.
#[derive(Drop)]
pub enum Applied {
    Fine(Value),
    /// It fails, with this message.
    Bad(Text),
}

#[tactic(auto, unfolding(crate::specs::Functions::fn_value))]
fn value_of(alloc: Global, fun: Fun, v: &Value) -> Result<Applied, NoMemory>
    ensures { IfOk result (λ a. a ≡ fn_value fun v.now) }
{
    match fun {
        Fun::Trim => trim_text(alloc, text_part(v)),
        Fun::Lines => cut(alloc, text_part(v), Separator::Newline),
        Fun::Words => cut(alloc, text_part(v), Separator::White),
        Fun::Join => join(alloc, items_part(v)),
        Fun::Concat => {
            let (first, second) = text_parts(v);
            concat(alloc, first, second)
        }
        Fun::Length => Ok(Applied::Fine(Value::Num(text_part(v).len() as u64))),
        Fun::Count => Ok(Applied::Fine(Value::Num(items_part(v).len() as u64))),
        Fun::Number => read_number(alloc, text_part(v)),
        Fun::Show => show(alloc, number_part(v)),
        Fun::Add => {
            let (first, second) = number_parts(v);
            add(alloc, first, second)
        }
        Fun::Equal => {
            let (first, second) = text_parts(v);
            equal(alloc, first, second)
        }
        Fun::AtMost => {
            let (first, second) = number_parts(v);
            at_most(alloc, first, second)
        }
        Fun::First => first(alloc, v),
        Fun::Second => second(alloc, v),
        Fun::Describe => describe(alloc, v),
        Fun::Must => must(alloc, v),
    }
}

/// Applies a function, in one tick. In a value of another kind than the function's it finds the
/// empty text or list, 0, unit, or an outcome that is going.
pub fn apply_fn<L: Ledger>(
    alloc: Global,
    fun: Fun,
    v: &Value,
    steps: &mut Steps<L>,
) -> Result<Applied, NoMemory>
    ensures value { IfOk result (λ a. a ≡ fn_value fun v.now) }
    ensures ticks { OnOk result (steps.new ≡ steps.old + 1) }
    ensures not_fallen { steps.old ≤ steps.new }
{
    let applied = value_of(alloc, fun, v)?;
    steps.tick();
    Ok(applied)
}

/// A function over a value of a kind that it takes fails, or returns a value of the kind that it promises
/// for it.
pub fn kind_law()
    ensures { KeepsKinds }
{}
