//! Terms, each after its opening bracket.
ghost use Rattle.std.specs.Prelude.{◌≡◌, ◌+◌, ◌<◌, ◌≤◌, ◌-◌, ◌^◌, IfOk, IfSome};
ghost use Rattle.pipe_text.specs.inside.Readers.{Takes, TakesCounted};
ghost use Rattle.pipe_text.specs.inside.Rooms.{term_in, two_in, part_in, parts_in, body_in, TakesTwo};

use crate::fault::TakeError;
use crate::literals::take_literal;
use crate::taking::{is_at_mark, take_mark, take_name, take_open, take_text, take_word};
use crate::words::BodyWord;
use sqlite_items::Boxed;
use std::alloc::Global;
use term_core::{FailKind, Term};
use value_core::{Fun, ListOf, Stop, TokenAt};

/// How many brackets may be open inside one another, and for how many terms there is room.
#[derive(Clone, Copy, Debug, PartialEq, Eq)]
pub struct Room {
    pub depth: u8,
    pub left: u32,
}

impl Room {
    /// The room after so many terms.
    fn without(self, used: u32) -> Room
        requires { used ≤ self.left }
        ensures { result ≡ record { depth = self.depth; left = self.left - used } }
    {
        Room {
            depth: self.depth,
            left: self.left - used,
        }
    }

    /// The room inside one more bracket.
    fn inside(self) -> Room
        requires depth { 0 < self.depth }
        requires left { 0 < self.left }
        ensures { result ≡ record { depth = self.depth - 1; left = self.left - 1 } }
    {
        Room {
            depth: self.depth - 1,
            left: self.left - 1,
        }
    }
}

/// Two terms.
#[derive(Drop)]
pub struct TermPair {
    pub first: Boxed<Term>,
    pub second: Boxed<Term>,
}

/// The part of a term after its word.
#[cycle(terms)]
#[tactic(auto, unfolding(crate::specs::inside::TermReading::body_at))]
fn take_body(
    alloc: Global,
    word: BodyWord,
    room: Room,
    stop: Stop,
    tokens: &[TokenAt],
) -> Result<(Term, u32, &[TokenAt]), TakeError>
    requires { room.left < 2 ^ 31 }
    ensures gives { TakesCounted result (body_in room word stop tokens.now) }
    ensures used { IfOk result (λ x. (0 < x.1) × (x.1 ≤ room.left + 1)) }
{
    match word {
        BodyWord::Return => {
            let (value, rest) = take_literal(alloc, stop, tokens)?;
            Ok((Term::Return(value), 1, rest))
        }
        BodyWord::Fail => {
            let (kind, rest) = take_word::<FailKind>(stop, tokens)?;
            let (message, rest) = take_text(alloc, stop, rest)?;
            Ok((Term::Fail { kind, message }, 1, rest))
        }
        BodyWord::Input => {
            let (name, rest) = take_name(alloc, stop, tokens)?;
            Ok((Term::Input(name), 1, rest))
        }
        BodyWord::Node => {
            let (name, rest) = take_name(alloc, stop, tokens)?;
            Ok((Term::Node(name), 1, rest))
        }
        BodyWord::Var => {
            let (name, rest) = take_name(alloc, stop, tokens)?;
            Ok((Term::Var(name), 1, rest))
        }
        BodyWord::Map => {
            let (fun, rest) = take_word::<Fun>(stop, tokens)?;
            let (inner, used, rest) = take_term(alloc, room, stop, rest)?;
            let inner = Boxed::new(alloc, inner)?;
            Ok((Term::Map { fun, term: inner }, 1 + used, rest))
        }
        BodyWord::Pair => {
            let (two, used, rest) = take_two(alloc, room, stop, tokens)?;
            let TermPair { first, second } = two;
            Ok((Term::Pair(first, second), 1 + used, rest))
        }
        BodyWord::Bind => {
            let (name, rest) = take_name(alloc, stop, tokens)?;
            let (two, used, rest) = take_two(alloc, room, stop, rest)?;
            let TermPair { first, second } = two;
            Ok((
                Term::Bind {
                    name,
                    left: first,
                    body: second,
                },
                1 + used,
                rest,
            ))
        }
        BodyWord::ListMap => {
            let (name, rest) = take_name(alloc, stop, tokens)?;
            let (two, used, rest) = take_two(alloc, room, stop, rest)?;
            let TermPair { first, second } = two;
            Ok((
                Term::ListMap {
                    name,
                    list: first,
                    body: second,
                },
                1 + used,
                rest,
            ))
        }
        BodyWord::ListIter => {
            let (name, rest) = take_name(alloc, stop, tokens)?;
            let (two, used, rest) = take_two(alloc, room, stop, rest)?;
            let TermPair { first, second } = two;
            Ok((
                Term::ListIter {
                    name,
                    list: first,
                    body: second,
                },
                1 + used,
                rest,
            ))
        }
        BodyWord::Catch => {
            let (inner, used, rest) = take_term(alloc, room, stop, tokens)?;
            Ok((Term::Catch(Boxed::new(alloc, inner)?), 1 + used, rest))
        }
        BodyWord::State => {
            let (inner, used, rest) = take_term(alloc, room, stop, tokens)?;
            Ok((Term::State(Boxed::new(alloc, inner)?), 1 + used, rest))
        }
        BodyWord::Gate => {
            let (two, used, rest) = take_two(alloc, room, stop, tokens)?;
            let TermPair { first, second } = two;
            Ok((Term::Gate(first, second), 1 + used, rest))
        }
        BodyWord::All => {
            let (parts, used, rest) = take_parts(alloc, room, stop, tokens)?;
            Ok((Term::All(parts), 1 + used, rest))
        }
        BodyWord::Build => {
            let (op, rest) = take_name(alloc, stop, tokens)?;
            let (key, used, rest) = take_term(alloc, room, stop, rest)?;
            let key = Boxed::new(alloc, key)?;
            Ok((Term::Build { op, key }, 1 + used, rest))
        }
        BodyWord::Output => {
            let (op, rest) = take_name(alloc, stop, tokens)?;
            let (two, used, rest) = take_two(alloc, room, stop, rest)?;
            let TermPair { first, second } = two;
            Ok((
                Term::Output {
                    op,
                    key: first,
                    value: second,
                },
                1 + used,
                rest,
            ))
        }
    }
}

/// Two terms, with the room for both.
#[cycle(terms)]
#[tactic(auto, unfolding(crate::specs::inside::TermReading::two_at))]
fn take_two(
    alloc: Global,
    room: Room,
    stop: Stop,
    tokens: &[TokenAt],
) -> Result<(TermPair, u32, &[TokenAt]), TakeError>
    requires { room.left < 2 ^ 31 }
    ensures gives { TakesTwo result (two_in room stop tokens.now) }
    ensures used { IfOk result (λ x. x.1 ≤ room.left) }
{
    let (first, used, rest) = take_term(alloc, room, stop, tokens)?;
    let (second, more, rest) = take_term(alloc, room.without(used), stop, rest)?;
    let first = Boxed::new(alloc, first)?;
    let second = Boxed::new(alloc, second)?;
    let two = TermPair { first, second };
    Ok((two, used + more, rest))
}

/// One more term, if an opening bracket is next.
#[cycle(terms)]
#[tactic(auto, unfolding(crate::specs::inside::TermReading::part_at))]
fn take_part(
    alloc: Global,
    room: Room,
    stop: Stop,
    tokens: &[TokenAt],
) -> Result<(Option<(Term, u32)>, &[TokenAt]), TakeError>
    requires { room.left < 2 ^ 31 }
    ensures gives { Takes result (part_in room stop tokens.now) }
    ensures used { IfOk result (λ x. IfSome x.0 (λ a. (0 < a.1) × (a.1 ≤ room.left))) }
{
    if !is_at_mark(b'(', tokens) {
        return Ok((None, tokens));
    }
    let (part, used, rest) = take_term(alloc, room, stop, tokens)?;
    Ok((Some((part, used)), rest))
}

/// Terms, as long as there are some.
#[cycle(terms)]
fn take_parts(
    alloc: Global,
    room: Room,
    stop: Stop,
    tokens: &[TokenAt],
) -> Result<(ListOf<Term>, u32, &[TokenAt]), TakeError>
    requires { room.left < 2 ^ 31 }
    ensures gives { TakesCounted result (parts_in room stop tokens.now) }
    ensures used { IfOk result (λ x. x.1 ≤ room.left) }
{
    let mut parts = ListOf::new(alloc);
    let mut used = 0;
    let mut tokens = tokens;
    'parts: loop {
        match take_part(alloc, room.without(used), stop, tokens) {
            Err(fault) => return Err(fault),
            Ok((part, rest)) => match part {
                None => return Ok((parts, used, rest)),
                Some((term, more)) => {
                    parts.push(term)?;
                    used += more;
                    tokens = rest;
                }
            },
        }
    }
}

/// A term within this room, and how many terms it is made of.
#[cycle(terms)]
#[tactic(auto, unfolding(crate::specs::inside::TermReading::term_at))]
pub(crate) fn take_term(
    alloc: Global,
    room: Room,
    stop: Stop,
    tokens: &[TokenAt],
) -> Result<(Term, u32, &[TokenAt]), TakeError>
    requires { room.left < 2 ^ 31 }
    ensures gives { TakesCounted result (term_in room stop tokens.now) }
    ensures used { IfOk result (λ x. (0 < x.1) × (x.1 ≤ room.left)) }
{
    let rest = match take_open(room.depth, room.left, stop, tokens) {
        Err(fault) => return Err(fault),
        Ok(rest) => rest,
    };
    let (word, rest) = take_word::<BodyWord>(stop, rest)?;
    let (term, used, rest) = take_body(alloc, word, room.inside(), stop, rest)?;
    let rest = take_mark(b')', stop, rest)?;
    Ok((term, used, rest))
}
