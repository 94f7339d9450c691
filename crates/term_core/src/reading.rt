//! Bound values by their names, and the parts of values.
ghost use Rattle.std.specs.Prelude.{◌≡◌, IfOk};
ghost use Rattle.value_core.specs.declared.value.Value.TheVariants as value;
ghost use Rattle.term_core.specs.Evaluation.{innermost};
ghost use Rattle.value_core.specs.Parts.{items_in, text_in};

use crate::context::Binding;
use std::alloc::Global;
use value_core::{ListOf, NoMemory, Text, Value};

/// The value that was bound to the name last.
pub(crate) fn value_of(alloc: Global, bound: &[Binding], name: &Text) -> Result<Value, NoMemory>
    ensures { IfOk result (λ v. v ≡ innermost value.Unit bound.now name.now) }
{
    let unit = Value::Unit;
    let mut found = &unit;
    for binding in bound {
        if binding.name.is(name) {
            found = &binding.value;
        }
    }
    found.copy(alloc)
}

/// The items of a list, none of any other value.
pub(crate) fn items_of(alloc: Global, value: Value) -> ListOf<Value>
    ensures { result ≡ items_in value }
{
    match value {
        Value::List(items) => items,
        _ => ListOf::new(alloc),
    }
}

/// A text, the empty one of any other value.
pub(crate) fn text_of(alloc: Global, value: Value) -> Text
    ensures { result ≡ text_in value }
{
    match value {
        Value::Words(text) => text,
        _ => Text::new(alloc),
    }
}
