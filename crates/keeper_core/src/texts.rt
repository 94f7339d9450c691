//! What the type of a text keeps, as the laws of stored tables ask it of real values.
ghost use Rattle.std.specs.Prelude.{◌≡◌, true};
ghost use Rattle.value_core.specs.declared.value.Value.{out-Value};
ghost use Rattle.value_core.specs.Texts.{HasNoNul, is_text};
ghost use Rattle.keeper_core.specs.Chains.{AreTextsStorable, AreTextsWithin, IsRowWithin};
ghost use Rattle.keeper_core.specs.Laws.{AreRowTexts};
ghost use Rattle.keeper_core.specs.Printables.{has_texts, is_text_item};

use core_rules::Delta;
use sched_rows::Row;
use value_core::{Text, Value};

fn keeps_utf8(text: &str)
    requires { HasNoNul text.now }
    ensures { is_text text.now ≡ true }
{
    let _len = text.len();
}

fn keeps_text(text: &Text)
    ensures { is_text text.now ≡ true }
{
    keeps_utf8(text.as_str());
}

fn keeps_item(item: &Value)
    ensures { is_text_item (out-Value item.now) ≡ true }
{
    match item {
        Value::Words(text) => keeps_text(text),
        _ => {}
    }
}

/// The texts of an input's value are UTF-8 without NUL. Does nothing.
pub fn keeps_texts(value: &Value)
    ensures { has_texts value.now ≡ true }
{
    match value {
        Value::Words(text) => keeps_text(text),
        Value::List(items) => {
            for item in items.as_slice() {
                keeps_item(item);
            }
        }
        _ => {}
    }
}

fn keeps_row(row: &Row)
    requires { IsRowWithin row.now }
    ensures { AreRowTexts row.now }
{
    keeps_text(&row.key);
    keeps_text(&row.value);
    keeps_text(&row.result);
}

/// The texts of a delta within the limits may be stored. Does nothing.
pub fn texts_may_be_stored(delta: &Delta)
    requires { AreTextsWithin delta.now }
    ensures { AreTextsStorable delta.now }
{
    match &delta.put {
        Some(row) => keeps_row(row),
        None => {}
    }
}
