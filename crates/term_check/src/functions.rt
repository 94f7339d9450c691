//! The kinds that functions want and give.
ghost use Rattle.std.specs.Prelude.{◌≡◌, Some, IfOk};
ghost use Rattle.value_core.specs.FunctionKinds.{counted_kind, demanded_kind, described_kind, first_kind, given_for, kind_given, second_kind};
ghost use Rattle.value_core.specs.declared.value.Kind.TheVariants as kinds;
ghost use Rattle.value_core.specs.declared.value.Kind.{out-Kind};
ghost use Rattle.term_check.specs.declared.wanted.Wanted.TheVariants as wanteds;
ghost use Rattle.term_check.specs.Functions.{fun_wanted};

use crate::wanted::Wanted;
use sqlite_items::Boxed;
use std::alloc::Global;
use value_core::{Fun, Kind, NoMemory};

fn list_of(alloc: Global, item: Kind) -> Result<Kind, NoMemory>
    ensures { IfOk result (λ k. k ≡ kinds.List item) }
{
    Ok(Kind::List(Boxed::new(alloc, item)?))
}

fn pair_of(alloc: Global, first: Kind, second: Kind) -> Result<Kind, NoMemory>
    ensures { IfOk result (λ k. k ≡ kinds.Pair first second) }
{
    let first = Boxed::new(alloc, first)?;
    let second = Boxed::new(alloc, second)?;
    Ok(Kind::Pair(first, second))
}

fn given_for(kind: &Kind, wanted: &Kind, given: Kind) -> Option<Kind>
    ensures { result ≡ given_for wanted.now given kind.now }
{
    if kind.is(wanted) { Some(given) } else { None }
}

fn counted(kind: &Kind) -> Option<Kind>
    ensures { result ≡ counted_kind (out-Kind kind.now) }
{
    match kind {
        Kind::List(_) => Some(Kind::Num),
        _ => None,
    }
}

fn first_part(alloc: Global, kind: &Kind) -> Result<Option<Kind>, NoMemory>
    ensures { IfOk result (λ k. k ≡ first_kind (out-Kind kind.now)) }
{
    match kind {
        Kind::Pair(first, _) => Ok(Some(first.get().copy(alloc)?)),
        _ => Ok(None),
    }
}

fn second_part(alloc: Global, kind: &Kind) -> Result<Option<Kind>, NoMemory>
    ensures { IfOk result (λ k. k ≡ second_kind (out-Kind kind.now)) }
{
    match kind {
        Kind::Pair(_, second) => Ok(Some(second.get().copy(alloc)?)),
        _ => Ok(None),
    }
}

fn described(kind: &Kind) -> Option<Kind>
    ensures { result ≡ described_kind (out-Kind kind.now) }
{
    match kind {
        Kind::Out(_) => Some(Kind::Text),
        _ => None,
    }
}

fn demanded(alloc: Global, kind: &Kind) -> Result<Option<Kind>, NoMemory>
    ensures { IfOk result (λ k. k ≡ demanded_kind (out-Kind kind.now)) }
{
    match kind {
        Kind::Out(value) => Ok(Some(value.get().copy(alloc)?)),
        _ => Ok(None),
    }
}

/// The kind that a function gives for a kind, where it takes that kind.
#[tactic(auto, unfolding(value_core::specs::FunctionKinds::kind_given))]
pub(crate) fn kind_given(alloc: Global, fun: Fun, kind: &Kind) -> Result<Option<Kind>, NoMemory>
    ensures { IfOk result (λ k. k ≡ kind_given fun kind.now) }
{
    match fun {
        Fun::Trim => Ok(given_for(kind, &Kind::Text, Kind::Text)),
        Fun::Lines => Ok(given_for(kind, &Kind::Text, list_of(alloc, Kind::Text)?)),
        Fun::Words => Ok(given_for(kind, &Kind::Text, list_of(alloc, Kind::Text)?)),
        Fun::Join => Ok(given_for(kind, &list_of(alloc, Kind::Text)?, Kind::Text)),
        Fun::Concat => {
            let wanted = pair_of(alloc, Kind::Text, Kind::Text)?;
            Ok(given_for(kind, &wanted, Kind::Text))
        }
        Fun::Length => Ok(given_for(kind, &Kind::Text, Kind::Num)),
        Fun::Count => Ok(counted(kind)),
        Fun::Number => Ok(given_for(kind, &Kind::Text, Kind::Num)),
        Fun::Show => Ok(given_for(kind, &Kind::Num, Kind::Text)),
        Fun::Add => {
            let wanted = pair_of(alloc, Kind::Num, Kind::Num)?;
            Ok(given_for(kind, &wanted, Kind::Num))
        }
        Fun::Equal => {
            let wanted = pair_of(alloc, Kind::Text, Kind::Text)?;
            Ok(given_for(kind, &wanted, Kind::Unit))
        }
        Fun::AtMost => {
            let wanted = pair_of(alloc, Kind::Num, Kind::Num)?;
            Ok(given_for(kind, &wanted, Kind::Unit))
        }
        Fun::First => first_part(alloc, kind),
        Fun::Second => second_part(alloc, kind),
        Fun::Describe => Ok(described(kind)),
        Fun::Must => demanded(alloc, kind),
    }
}

fn wanted_list(alloc: Global, item: Wanted) -> Result<Wanted, NoMemory>
    ensures { IfOk result (λ w. w ≡ wanteds.List item) }
{
    Ok(Wanted::List(Boxed::new(alloc, item)?))
}

fn wanted_pair(alloc: Global, first: Wanted, second: Wanted) -> Result<Wanted, NoMemory>
    ensures { IfOk result (λ w. w ≡ wanteds.Pair first second) }
{
    let first = Boxed::new(alloc, first)?;
    let second = Boxed::new(alloc, second)?;
    Ok(Wanted::Pair(first, second))
}

fn wanted_outcome(alloc: Global) -> Result<Wanted, NoMemory>
    ensures { IfOk result (λ w. w ≡ wanteds.Out wanteds.Any) }
{
    Ok(Wanted::Out(Boxed::new(alloc, Wanted::Any)?))
}

/// The kind that a function wants.
pub(crate) fn wanted_by(alloc: Global, fun: Fun) -> Result<Wanted, NoMemory>
    ensures { IfOk result (λ w. w ≡ fun_wanted fun) }
{
    match fun {
        Fun::Trim => Ok(Wanted::Text),
        Fun::Lines => Ok(Wanted::Text),
        Fun::Words => Ok(Wanted::Text),
        Fun::Join => wanted_list(alloc, Wanted::Text),
        Fun::Concat => wanted_pair(alloc, Wanted::Text, Wanted::Text),
        Fun::Length => Ok(Wanted::Text),
        Fun::Count => wanted_list(alloc, Wanted::Any),
        Fun::Number => Ok(Wanted::Text),
        Fun::Show => Ok(Wanted::Num),
        Fun::Add => wanted_pair(alloc, Wanted::Num, Wanted::Num),
        Fun::Equal => wanted_pair(alloc, Wanted::Text, Wanted::Text),
        Fun::AtMost => wanted_pair(alloc, Wanted::Num, Wanted::Num),
        Fun::First => wanted_pair(alloc, Wanted::Any, Wanted::Any),
        Fun::Second => wanted_pair(alloc, Wanted::Any, Wanted::Any),
        Fun::Describe => wanted_outcome(alloc),
        Fun::Must => wanted_outcome(alloc),
    }
}
