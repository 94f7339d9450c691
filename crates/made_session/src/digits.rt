//! Lists of numbers as texts.
ghost use Rattle.std.specs.Prelude.{◌≡◌, ◌+◌, ◌<◌, ◌^◌, decimal, IfOk};
ghost use Rattle.value_core.specs.declared.value.Value.TheVariants as value;
ghost use Rattle.value_core.specs.Parts.{text_values};
ghost use Rattle.session_rules.specs.Commands.{digits_from};

use std::alloc::Global;
use value_core::{ListOf, NoMemory, Text, Value};

/// The digits of a number.
#[tactic(auto, using(value_core::proofs::Nuls::decimal_clean))]
fn digits_of(alloc: Global, n: u64) -> Result<Text, NoMemory>
    ensures { IfOk result (λ text. text ≡ decimal n) }
{
    Ok(Text::from_string(format!(in alloc; "{n}")?))
}

/// The list of so many numbers from one on.
pub(crate) fn digits_list(alloc: Global, first: u64, count: u64) -> Result<Value, NoMemory>
    requires { first + count < 2 ^ 64 }
    ensures { IfOk result (λ v. v ≡ value.List (text_values (digits_from first count))) }
{
    let mut items = ListOf::new(alloc);
    for i in 0..count {
        items.push(Value::Words(digits_of(alloc, first + i)?))?;
    }
    Ok(Value::List(items))
}
