//! Lists of texts, commands, and literals.
ghost use Rattle.std.specs.Prelude.{◌<◌, IfOk, IfSome};
ghost use Rattle.pipe_text.specs.inside.Readers.{Takes, seq, give};
ghost use Rattle.pipe_text.specs.Grammar.{list_of};
ghost use Rattle.pipe_text.specs.Files.{file_limits};
ghost use Rattle.pipe_text.specs.inside.TermReading.{item_at, items_from, command_word_at, words_from, items_at, literal_at};

use crate::fault::{LimitName, TakeError};
use crate::taking::{
    is_at_mark, is_at_string, limit_at, syntax_at, take_mark, take_room, take_text, take_token,
};
use std::alloc::Global;
use value_core::{ListOf, Stop, Text, Token, TokenAt, Value};

/// One more text of a list, or none if the bracket closes.
#[tactic(auto, unfolding(crate::specs::inside::TermReading::item_at))]
fn take_item(
    alloc: Global,
    room: u64,
    stop: Stop,
    tokens: &[TokenAt],
) -> Result<(Option<Text>, &[TokenAt]), TakeError>
    ensures gives { Takes result (item_at file_limits room stop tokens.now) }
    ensures room { IfOk result (λ x. IfSome x.0 (λ t. 0 < room)) }
{
    let (token, rest) = take_token(stop, tokens)?;
    match &token.token {
        Token::Mark(m) => {
            if *m == b']' {
                Ok((None, rest))
            } else if *m != b',' {
                Err(syntax_at(token.offset))
            } else {
                let (text, rest) = take_room(alloc, LimitName::List, room, stop, rest)?;
                Ok((Some(text), rest))
            }
        }
        _ => Err(syntax_at(token.offset)),
    }
}

/// The texts of a list, from its first on, which was read.
fn take_more_items(
    alloc: Global,
    first: Text,
    stop: Stop,
    tokens: &[TokenAt],
) -> Result<(ListOf<Value>, &[TokenAt]), TakeError>
    ensures { Takes result (items_from file_limits first stop tokens.now) }
{
    let mut items = ListOf::new(alloc);
    items.push(Value::Words(first))?;
    let mut room = LimitName::List.number() - 1;
    let mut tokens = tokens;
    'more: loop {
        match take_item(alloc, room, stop, tokens) {
            Err(fault) => return Err(fault),
            Ok((item, rest)) => match item {
                None => return Ok((items, rest)),
                Some(text) => {
                    items.push(Value::Words(text))?;
                    room -= 1;
                    tokens = rest;
                }
            },
        }
    }
}

/// The list after its opening bracket.
#[tactic(auto, unfolding(crate::specs::inside::TermReading::items_at))]
pub(crate) fn take_items(
    alloc: Global,
    stop: Stop,
    tokens: &[TokenAt],
) -> Result<(Value, &[TokenAt]), TakeError>
    ensures { Takes result (seq (items_at file_limits) (λ ts. give (list_of ts)) stop tokens.now) }
{
    if is_at_mark(b']', tokens) {
        let rest = take_mark(b']', stop, tokens)?;
        return Ok((Value::List(ListOf::new(alloc)), rest));
    }
    let (first, rest) = take_text(alloc, stop, tokens)?;
    let (items, rest) = take_more_items(alloc, first, stop, rest)?;
    Ok((Value::List(items), rest))
}

/// A text, a number, unit or a list of texts.
#[tactic(auto, unfolding(crate::specs::inside::TermReading::literal_at))]
pub(crate) fn take_literal(
    alloc: Global,
    stop: Stop,
    tokens: &[TokenAt],
) -> Result<(Value, &[TokenAt]), TakeError>
    ensures { Takes result (literal_at file_limits stop tokens.now) }
{
    let (token, rest) = take_token(stop, tokens)?;
    match &token.token {
        Token::Words(text) => Ok((Value::Words(text.copy(alloc)?), rest)),
        Token::LongText => Err(limit_at(LimitName::Text, token.offset)),
        Token::Number(n) => Ok((Value::Num(*n), rest)),
        Token::Name(name) => {
            if name.as_str() == "unit" {
                Ok((Value::Unit, rest))
            } else {
                Err(syntax_at(token.offset))
            }
        }
        Token::Mark(m) => {
            if *m == b'[' {
                take_items(alloc, stop, rest)
            } else {
                Err(syntax_at(token.offset))
            }
        }
        Token::LongName => Err(syntax_at(token.offset)),
    }
}

/// One more word of a command, if a string is next.
#[tactic(auto, unfolding(crate::specs::inside::TermReading::command_word_at))]
fn take_command_word(
    alloc: Global,
    room: u64,
    stop: Stop,
    tokens: &[TokenAt],
) -> Result<(Option<Text>, &[TokenAt]), TakeError>
    ensures gives { Takes result (command_word_at file_limits room stop tokens.now) }
    ensures room { IfOk result (λ x. IfSome x.0 (λ t. 0 < room)) }
{
    if !is_at_string(tokens) {
        return Ok((None, tokens));
    }
    let (text, rest) = take_room(alloc, LimitName::Words, room, stop, tokens)?;
    Ok((Some(text), rest))
}

/// The words of a command, from the first on, which was read.
pub(crate) fn take_more_words(
    alloc: Global,
    first: Text,
    stop: Stop,
    tokens: &[TokenAt],
) -> Result<(ListOf<Text>, &[TokenAt]), TakeError>
    ensures { Takes result (words_from file_limits first stop tokens.now) }
{
    let mut words = ListOf::new(alloc);
    words.push(first)?;
    let mut room = LimitName::Words.number() - 1;
    let mut tokens = tokens;
    'more: loop {
        match take_command_word(alloc, room, stop, tokens) {
            Err(fault) => return Err(fault),
            Ok((word, rest)) => match word {
                None => return Ok((words, rest)),
                Some(text) => {
                    words.push(text)?;
                    room -= 1;
                    tokens = rest;
                }
            },
        }
    }
}
