//! Printed forms.
ghost use Rattle.std.specs.Prelude.{◌≡◌, ◌++◌, ◌<◌, IfOk, OnOk, codes, map};
ghost use Rattle.std.specs.Fmt.{decimal};
ghost use Rattle.std.specs.String.{string_bytes};
ghost use Rattle.std.specs.Char.{encode_utf8};
ghost use Rattle.value_core.specs.Texts.{HasNoNul, KeepsNoNul};
ghost use Rattle.value_core.specs.Printed.{escaped, hex_escape, list_text, pair_text, quoted, printed, printed_outcome};

use crate::NoMemory;
use crate::text::Text;
use crate::value::{Outcome, Value};
use std::alloc::Global;

#[tactic(auto, using(std::proofs::lemmas::Fmt::hex_byte))]
fn write_control(out: &mut String, code: u32) -> Result<(), NoMemory>
    requires { code < 128 }
    ensures { OnOk result (string_bytes out.new ≡ string_bytes out.old ++ hex_escape code) }
{
    write!(out, "\\x{code:02x}")
}

#[tactic(auto, using(crate::proofs::Escapes::escaped_control, crate::proofs::Escapes::escaped_encode))]
fn write_escaped(out: &mut String, c: char) -> Result<(), NoMemory>
    ensures { OnOk result (string_bytes out.new ≡ string_bytes out.old ++ escaped (encode_utf8 c)) }
{
    if c == '"' {
        out.push_str("\\\"")
    } else if c == '\\' {
        out.push_str("\\\\")
    } else if c == '\n' {
        out.push_str("\\n")
    } else if c == '\t' {
        out.push_str("\\t")
    } else if c == '\r' {
        out.push_str("\\r")
    } else if c < ' ' || c == '\u{7f}' {
        write_control(out, c as u32)
    } else {
        out.push(c)
    }
}

fn write_all_escaped(out: &mut String, text: &str) -> Result<(), NoMemory>
    ensures { OnOk result (string_bytes out.new ≡ string_bytes out.old ++ escaped text.now) }
{
    for c in text.chars() {
        write_escaped(out, c)?;
    }
    Ok(())
}

/// Writes a text without NUL as it is.
#[tactic(auto, using(crate::proofs::Nuls::no_nul_grown))]
fn write_mark(out: &mut String, mark: &str) -> Result<(), NoMemory>
    requires { HasNoNul mark.now }
    ensures bytes { OnOk result (string_bytes out.new ≡ string_bytes out.old ++ mark.now) }
    ensures no_nul { OnOk result (KeepsNoNul (string_bytes out.old) (string_bytes out.new)) }
{
    out.push_str(mark)?;
    Ok(())
}

/// Writes a text as a string token, in quotes.
#[tactic(auto, using(crate::proofs::Nuls::no_nul_both, crate::proofs::Nuls::no_nul_grown, crate::proofs::Nuls::escaped_clean))]
pub fn write_text(out: &mut String, text: &Text) -> Result<(), NoMemory>
    ensures bytes { OnOk result (string_bytes out.new ≡ string_bytes out.old ++ quoted text.now) }
    ensures no_nul { OnOk result (KeepsNoNul (string_bytes out.old) (string_bytes out.new)) }
{
    let text = text.as_str();
    write_mark(out, "\"")?;
    write_all_escaped(out, text)?;
    write_mark(out, "\"")?;
    Ok(())
}

#[tactic(auto, using(crate::proofs::Nuls::no_nul_grown, crate::proofs::Nuls::decimal_clean))]
fn write_number(out: &mut String, n: u64) -> Result<(), NoMemory>
    ensures bytes { OnOk result (string_bytes out.new ≡ string_bytes out.old ++ decimal n) }
    ensures no_nul { OnOk result (KeepsNoNul (string_bytes out.old) (string_bytes out.new)) }
{
    write!(out, "{n}")?;
    Ok(())
}

/// Writes the printed form of a value.
#[cycle(printing)]
pub fn write_value(out: &mut String, v: &Value) -> Result<(), NoMemory>
    ensures bytes { OnOk result (string_bytes out.new ≡ string_bytes out.old ++ printed v.now) }
    ensures no_nul { OnOk result (KeepsNoNul (string_bytes out.old) (string_bytes out.new)) }
{
    match v {
        Value::Words(text) => write_text(out, text),
        Value::Num(n) => write_number(out, *n),
        Value::Unit => write_mark(out, "()"),
        Value::Pair(a, b) => write_pair(out, a.get(), b.get()),
        Value::List(items) => write_list(out, items.as_slice()),
        Value::Out(outcome) => write_outcome(out, outcome),
    }
}

#[cycle(printing)]
fn write_pair(out: &mut String, a: &Value, b: &Value) -> Result<(), NoMemory>
    ensures bytes { let text = pair_text (printed a.now) (printed b.now) in
        OnOk result (string_bytes out.new ≡ string_bytes out.old ++ text) }
    ensures no_nul { OnOk result (KeepsNoNul (string_bytes out.old) (string_bytes out.new)) }
{
    write_mark(out, "(")?;
    write_value(out, a)?;
    write_mark(out, ", ")?;
    write_value(out, b)?;
    write_mark(out, ")")?;
    Ok(())
}

#[cycle(printing)]
fn write_list(out: &mut String, items: &[Value]) -> Result<(), NoMemory>
    ensures bytes { let text = list_text (map printed items.now) in
        OnOk result (string_bytes out.new ≡ string_bytes out.old ++ text) }
    ensures no_nul { OnOk result (KeepsNoNul (string_bytes out.old) (string_bytes out.new)) }
{
    write_mark(out, "[")?;
    let mut is_first = true;
    for item in items {
        if is_first {
            is_first = false;
        } else {
            write_mark(out, ", ")?;
        }
        write_value(out, item)?;
    }
    write_mark(out, "]")?;
    Ok(())
}

#[cycle(printing)]
fn write_outcome(out: &mut String, o: &Outcome) -> Result<(), NoMemory>
    ensures bytes { let text = printed_outcome o.now in
        OnOk result (string_bytes out.new ≡ string_bytes out.old ++ text) }
    ensures no_nul { OnOk result (KeepsNoNul (string_bytes out.old) (string_bytes out.new)) }
{
    match o {
        Outcome::Fine(v) => {
            write_mark(out, "ok(")?;
            write_value(out, v.get())?;
            write_mark(out, ")")?;
            Ok(())
        }
        Outcome::Bad(message) => {
            write_mark(out, "failed(")?;
            write_text(out, message)?;
            write_mark(out, ")")?;
            Ok(())
        }
        Outcome::Going => write_mark(out, "active"),
    }
}

/// The printed form of a value. It has no bound of length.
pub fn text_of(alloc: Global, v: &Value) -> Result<Text, NoMemory>
    ensures { IfOk result (λ t. t ≡ printed v.now) }
{
    let mut out = String::new(alloc);
    write_value(&mut out, v)?;
    Ok(Text::from_string(out))
}
