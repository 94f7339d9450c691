//! Kinds that are wanted of a term, and printed kinds.
ghost use Rattle.std.specs.Prelude.{◌≡◌, ◌++◌, OnOk};
ghost use Rattle.std.specs.String.{string_bytes};
ghost use Rattle.term_check.specs.Printed.{kind_text, wanted_text};

use sqlite_items::Boxed;
use value_core::{Kind, NoMemory};

/// The kind that is wanted of a term, with open parts.
#[derive(Drop)]
pub enum Wanted {
    /// Every kind will do.
    Any,
    Text,
    Num,
    Unit,
    Pair(Boxed<Wanted>, Boxed<Wanted>),
    List(Boxed<Wanted>),
    Out(Boxed<Wanted>),
}

/// Writes the printed form of a kind.
pub fn write_kind(out: &mut String, kind: &Kind) -> Result<(), NoMemory>
    ensures { OnOk result (string_bytes out.new ≡ string_bytes out.old ++ kind_text kind.now) }
{
    match kind {
        Kind::Text => out.push_str("text"),
        Kind::Num => out.push_str("num"),
        Kind::Unit => out.push_str("unit"),
        Kind::Pair(a, b) => {
            out.push_str("(")?;
            write_kind(out, a.get())?;
            out.push_str(", ")?;
            write_kind(out, b.get())?;
            out.push_str(")")
        }
        Kind::List(item) => {
            out.push_str("[")?;
            write_kind(out, item.get())?;
            out.push_str("]")
        }
        Kind::Out(value) => {
            out.push_str("out(")?;
            write_kind(out, value.get())?;
            out.push_str(")")
        }
    }
}

/// Writes the printed form of a kind that is wanted, with `any` for its open parts.
pub fn write_wanted(out: &mut String, wanted: &Wanted) -> Result<(), NoMemory>
    ensures { OnOk result (string_bytes out.new ≡ string_bytes out.old ++ wanted_text wanted.now) }
{
    match wanted {
        Wanted::Any => out.push_str("any"),
        Wanted::Text => out.push_str("text"),
        Wanted::Num => out.push_str("num"),
        Wanted::Unit => out.push_str("unit"),
        Wanted::Pair(a, b) => {
            out.push_str("(")?;
            write_wanted(out, a.get())?;
            out.push_str(", ")?;
            write_wanted(out, b.get())?;
            out.push_str(")")
        }
        Wanted::List(item) => {
            out.push_str("[")?;
            write_wanted(out, item.get())?;
            out.push_str("]")
        }
        Wanted::Out(value) => {
            out.push_str("out(")?;
            write_wanted(out, value.get())?;
            out.push_str(")")
        }
    }
}
