//! What the check of a term gives, and what is made of it.
ghost use Rattle.std.specs.Prelude.{◌≡◌, ◌+◌, ◌^◌, ◌<◌, ◌≤◌, IfOk};
ghost use Rattle.value_core.specs.FunctionKinds.{kind_given};
ghost use Rattle.value_core.specs.declared.value.Kind.TheVariants as kinds;
ghost use Rattle.term_core.specs.Soundness.{kind_parts, wanted_kind};
ghost use Rattle.term_check.specs.Functions.{fun_wanted};
ghost use Rattle.term_check.specs.Typing.{items_of};
ghost use Rattle.term_check.specs.Verdicts.{behind, expected, in_body, inside, is_nested, kind_in, sized, turned_kind};

use crate::fault::CheckWhat;
use crate::functions::{kind_given, wanted_by};
use crate::wanted::Wanted;
use sqlite_items::Boxed;
use std::alloc::{AllocError, Global};
use value_core::{Fun, Kind, NoMemory};

/// A kind has at most so many parts.
const PARTS_LIMIT: u64 = 64;

/// At most so many terms of a file stand in two list bodies.
const DEEP_LIMIT: u32 = 64;

/// A term's position.
#[derive(Clone, Copy, Debug, PartialEq, Eq)]
pub(crate) struct Position {
    /// How many list bodies are round it.
    pub(crate) bodies: u32,
    /// How many terms of the file stood in two list bodies before it.
    pub(crate) deep: u32,
    /// Its number in its node.
    pub(crate) at: u32,
}

/// What the check of a term gives.
#[derive(Drop)]
pub(crate) enum Verdict {
    /// The term's kind, how many terms of the file stood in two list bodies up to its end, and the
    /// number of the next term.
    Typed { kind: Kind, deep: u32, next: u32 },
    /// The first fault, at the term of this number.
    Faulty { term: u32, what: CheckWhat },
}

/// What a term makes of its part's kind.
#[derive(Clone, Copy, Debug, PartialEq, Eq)]
pub(crate) enum Wrapping {
    List,
    Outcome,
}

impl Position {
    /// Whether a term is too deep in lists here.
    pub(crate) fn is_nested(self, is_list: bool) -> bool
        ensures { result ≡ is_nested is_list self }
    {
        self.bodies >= 2 && (is_list || self.deep >= DEEP_LIMIT)
    }

    /// The position of the term's first part.
    pub(crate) fn inside(self) -> Position
        requires room { self.at + 1 < 2 ^ 32 }
        requires few { 2 ≤ self.bodies → self.deep < 64 }
        ensures { result ≡ inside self }
    {
        let deep = if self.bodies >= 2 {
            self.deep + 1
        } else {
            self.deep
        };
        Position {
            bodies: self.bodies,
            deep,
            at: self.at + 1,
        }
    }

    /// The position after a part.
    pub(crate) fn behind(self, deep: u32, next: u32) -> Position
        ensures { result ≡ behind self deep next }
    {
        Position {
            bodies: self.bodies,
            deep,
            at: next,
        }
    }

    /// The position of a list term's body.
    pub(crate) fn in_body(self, deep: u32, next: u32) -> Position
        requires { self.bodies < 2 }
        ensures { result ≡ in_body self deep next }
    {
        Position {
            bodies: self.bodies + 1,
            deep,
            at: next,
        }
    }
}

fn sum_of(a: u64, b: u64) -> Result<u64, NoMemory>
    ensures { IfOk result (λ n. n ≡ a + b) }
{
    a.checked_add(b).ok_or(AllocError)
}

/// How many parts a kind has. No memory has room for a kind of 2^64 parts.
fn parts_of(kind: &Kind) -> Result<u64, NoMemory>
    ensures { IfOk result (λ n. n ≡ kind_parts kind.now) }
{
    match kind {
        Kind::Text => Ok(1),
        Kind::Num => Ok(1),
        Kind::Unit => Ok(1),
        Kind::Pair(a, b) => sum_of(1, sum_of(parts_of(a.get())?, parts_of(b.get())?)?),
        Kind::List(item) => sum_of(1, parts_of(item.get())?),
        Kind::Out(value) => sum_of(1, parts_of(value.get())?),
    }
}

/// Tests the size of the kind of the term of this number.
pub(crate) fn sized(at: u32, verdict: Verdict) -> Result<Verdict, NoMemory>
    ensures { IfOk result (λ v. v ≡ sized at verdict) }
{
    match verdict {
        Verdict::Typed { kind, deep, next } => {
            let parts = parts_of(&kind)?;
            if parts > PARTS_LIMIT {
                return Ok(Verdict::Faulty {
                    term: at,
                    what: CheckWhat::KindTooLarge(parts),
                });
            }
            Ok(Verdict::Typed { kind, deep, next })
        }
        Verdict::Faulty { term, what } => Ok(Verdict::Faulty { term, what }),
    }
}

fn mismatch(at: u32, found: Kind, wanted: Wanted) -> Verdict
    ensures { result ≡ Verdict.Faulty at (CheckWhat.KindMismatch found wanted) }
{
    Verdict::Faulty {
        term: at,
        what: CheckWhat::KindMismatch { found, wanted },
    }
}

/// The part of this number, which is wanted to be of one kind.
pub(crate) fn of_kind(at: u32, verdict: Verdict, kind: &Kind, wanted: Wanted) -> Verdict
    ensures { result ≡ expected (wanted_kind kind.now) wanted at verdict }
{
    match verdict {
        Verdict::Typed {
            kind: found,
            deep,
            next,
        } => {
            if found.is(kind) {
                Verdict::Typed {
                    kind: found,
                    deep,
                    next,
                }
            } else {
                mismatch(at, found, wanted)
            }
        }
        Verdict::Faulty { term, what } => Verdict::Faulty { term, what },
    }
}

/// A function of the part of this number.
pub(crate) fn mapped(
    alloc: Global,
    at: u32,
    verdict: Verdict,
    fun: Fun,
) -> Result<Verdict, NoMemory>
    ensures { IfOk result (λ v. v ≡ expected (kind_given fun) (fun_wanted fun) at verdict) }
{
    match verdict {
        Verdict::Typed { kind, deep, next } => match kind_given(alloc, fun, &kind)? {
            Some(kind) => Ok(Verdict::Typed { kind, deep, next }),
            None => Ok(mismatch(at, kind, wanted_by(alloc, fun)?)),
        },
        Verdict::Faulty { term, what } => Ok(Verdict::Faulty { term, what }),
    }
}

/// The kind of the items of the part of this number, which is wanted to be a list.
pub(crate) fn items_in(alloc: Global, at: u32, verdict: Verdict) -> Result<Verdict, NoMemory>
    ensures { IfOk result (λ v. v ≡ items_of at verdict) }
{
    match verdict {
        Verdict::Typed { kind, deep, next } => match kind {
            Kind::List(item) => {
                let kind = item.into_inner();
                Ok(Verdict::Typed { kind, deep, next })
            }
            found => {
                let any = Boxed::new(alloc, Wanted::Any)?;
                Ok(mismatch(at, found, Wanted::List(any)))
            }
        },
        Verdict::Faulty { term, what } => Ok(Verdict::Faulty { term, what }),
    }
}

/// The pair of a first kind and a part's.
pub(crate) fn paired(alloc: Global, first: Kind, verdict: Verdict) -> Result<Verdict, NoMemory>
    ensures { IfOk result (λ v. v ≡ turned_kind (kinds.Pair first) verdict) }
{
    match verdict {
        Verdict::Typed { kind, deep, next } => {
            let first = Boxed::new(alloc, first)?;
            let second = Boxed::new(alloc, kind)?;
            let kind = Kind::Pair(first, second);
            Ok(Verdict::Typed { kind, deep, next })
        }
        Verdict::Faulty { term, what } => Ok(Verdict::Faulty { term, what }),
    }
}

/// A list or an outcome of a part's kind.
pub(crate) fn wrapped(
    alloc: Global,
    wrapping: Wrapping,
    verdict: Verdict,
) -> Result<Verdict, NoMemory>
    ensures { IfOk result (λ v. v ≡ turned_kind (kind_in wrapping) verdict) }
{
    match verdict {
        Verdict::Typed { kind, deep, next } => {
            let kind = Boxed::new(alloc, kind)?;
            let kind = match wrapping {
                Wrapping::List => Kind::List(kind),
                Wrapping::Outcome => Kind::Out(kind),
            };
            Ok(Verdict::Typed { kind, deep, next })
        }
        Verdict::Faulty { term, what } => Ok(Verdict::Faulty { term, what }),
    }
}

/// This kind, after a part.
pub(crate) fn as_kind(verdict: Verdict, kind: Kind) -> Verdict
    ensures { result ≡ turned_kind (λ _. kind) verdict }
{
    match verdict {
        Verdict::Typed {
            kind: _,
            deep,
            next,
        } => Verdict::Typed { kind, deep, next },
        Verdict::Faulty { term, what } => Verdict::Faulty { term, what },
    }
}
