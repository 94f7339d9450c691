//! Which kind a value is of.
ghost use Rattle.std.specs.Prelude.{◌≡◌, IfOk};
ghost use Rattle.value_core.specs.Kinds.{literal_kind};
ghost use Rattle.value_core.specs.Values.{fits_kind};

use crate::NoMemory;
use crate::value::{Kind, Outcome, Value};
use sqlite_items::Boxed;
use std::alloc::Global;

/// Whether the value is of the kind.
pub fn is_kind(v: &Value, k: &Kind) -> bool
    ensures { result ≡ fits_kind k.now v.now }
{
    match (v, k) {
        (Value::Words(_), Kind::Text) => true,
        (Value::Num(_), Kind::Num) => true,
        (Value::Unit, Kind::Unit) => true,
        (Value::Pair(a, b), Kind::Pair(f, g)) => is_kind(a.get(), f.get())
            && is_kind(b.get(), g.get()),
        (Value::List(items), Kind::List(f)) => {
            for item in items.as_slice() {
                if !is_kind(item, f.get()) {
                    return false;
                }
            }
            true
        }
        (Value::Out(Outcome::Fine(v)), Kind::Out(f)) => is_kind(v.get(), f.get()),
        (Value::Out(Outcome::Bad(_)), Kind::Out(_)) => true,
        (Value::Out(Outcome::Going), Kind::Out(_)) => true,
        _ => false,
    }
}

/// The kind of a literal.
pub fn literal_kind(alloc: Global, v: &Value) -> Result<Kind, NoMemory>
    ensures { IfOk result (λ k. k ≡ literal_kind v.now) }
{
    match v {
        Value::Words(_) => Ok(Kind::Text),
        Value::Num(_) => Ok(Kind::Num),
        Value::List(_) => Ok(Kind::List(Boxed::new(alloc, Kind::Text)?)),
        _ => Ok(Kind::Unit),
    }
}
