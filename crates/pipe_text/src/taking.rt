//! Single tokens, taken from the front.
ghost use Rattle.std.specs.Prelude.{◌≡◌, ◌<◌, ◌≤◌, IfOk};
ghost use Rattle.value_core.specs.Literals.{is_mark_of};
ghost use Rattle.pipe_text.specs.LimitTable.{number_of};
ghost use Rattle.pipe_text.specs.inside.Readers.{Returns, Takes, Passes, fault_of, token_at, mark_at, word_at, keyword_at, is_keyword, is_string, next_passes};
ghost use Rattle.pipe_text.specs.Files.{file_limits};
ghost use Rattle.pipe_text.specs.inside.TermReading.{beyond, name_at, text_at, number_at, room_at, open_at};
ghost use Rattle.pipe_text.specs.inside.FileReading.{any_number_at};

use crate::fault::{Fault, LimitName, TakeError};
use crate::words::Keyword;
use std::alloc::Global;
use value_core::{Stop, Text, Token, TokenAt};

/// The fault if a token is wanted and the tokens stop.
pub(crate) fn stop_fault(stop: Stop) -> TakeError
    ensures { result ≡ TakeError.At (fault_of stop) }
{
    match stop {
        Stop::Lex(offset) => TakeError::At(Fault::Lex(offset)),
        Stop::End(offset) => TakeError::At(Fault::Syntax(offset)),
    }
}

pub(crate) fn syntax_at(offset: usize) -> TakeError
    ensures { result ≡ TakeError.At (Fault.Syntax offset) }
{
    TakeError::At(Fault::Syntax(offset))
}

pub(crate) fn limit_at(what: LimitName, offset: usize) -> TakeError
    ensures { result ≡ TakeError.At (beyond what offset) }
{
    TakeError::At(Fault::Limit(what, what.number(), offset))
}

pub(crate) fn take_token(
    stop: Stop,
    tokens: &[TokenAt],
) -> Result<(&TokenAt, &[TokenAt]), TakeError>
    ensures { Returns (λ x. (x.0.now, x.1.now)) result (token_at stop tokens.now) }
{
    match tokens {
        [] => Err(stop_fault(stop)),
        [first, rest @ ..] => Ok((first, rest)),
    }
}

/// Whether this mark is next.
pub(crate) fn is_at_mark(mark: u8, tokens: &[TokenAt]) -> bool
    ensures { result ≡ next_passes (is_mark_of mark) tokens.now }
{
    match tokens {
        [] => false,
        [first, ..] => match &first.token {
            Token::Mark(m) => *m == mark,
            _ => false,
        },
    }
}

/// Whether a string is next.
pub(crate) fn is_at_string(tokens: &[TokenAt]) -> bool
    ensures { result ≡ next_passes is_string tokens.now }
{
    match tokens {
        [] => false,
        [first, ..] => matches!(&first.token, Token::Words(_) | Token::LongText),
    }
}

/// Whether the keyword with these letters is next.
pub(crate) fn is_at_keyword(letters: &str, tokens: &[TokenAt]) -> bool
    ensures { result ≡ next_passes (is_keyword letters.now) tokens.now }
{
    match tokens {
        [] => false,
        [first, ..] => match &first.token {
            Token::Name(name) => name.as_str() == letters,
            _ => false,
        },
    }
}

pub(crate) fn take_mark(mark: u8, stop: Stop, tokens: &[TokenAt]) -> Result<&[TokenAt], TakeError>
    ensures { Passes result (mark_at mark stop tokens.now) }
{
    let (token, rest) = take_token(stop, tokens)?;
    match &token.token {
        Token::Mark(m) => {
            if *m == mark {
                Ok(rest)
            } else {
                Err(syntax_at(token.offset))
            }
        }
        _ => Err(syntax_at(token.offset)),
    }
}

/// The keyword with these letters.
pub(crate) fn take_keyword<'a>(
    letters: &str,
    stop: Stop,
    tokens: &'a [TokenAt],
) -> Result<&'a [TokenAt], TakeError>
    ensures { Passes result (keyword_at letters.now stop tokens.now) }
{
    let (token, rest) = take_token(stop, tokens)?;
    match &token.token {
        Token::Name(name) => {
            if name.as_str() == letters {
                Ok(rest)
            } else {
                Err(syntax_at(token.offset))
            }
        }
        _ => Err(syntax_at(token.offset)),
    }
}

/// What the next word spells.
pub(crate) fn take_word<W: Keyword>(
    stop: Stop,
    tokens: &[TokenAt],
) -> Result<(W, &[TokenAt]), TakeError>
    ensures { Takes result (word_at W.parsed stop tokens.now) }
{
    let (token, rest) = take_token(stop, tokens)?;
    match &token.token {
        Token::Name(name) => match W::parse(name) {
            Some(word) => Ok((word, rest)),
            None => Err(syntax_at(token.offset)),
        },
        _ => Err(syntax_at(token.offset)),
    }
}

pub(crate) fn take_name(
    alloc: Global,
    stop: Stop,
    tokens: &[TokenAt],
) -> Result<(Text, &[TokenAt]), TakeError>
    ensures { Takes result (name_at file_limits stop tokens.now) }
{
    let (token, rest) = take_token(stop, tokens)?;
    match &token.token {
        Token::Name(name) => Ok((name.copy(alloc)?, rest)),
        Token::LongName => Err(limit_at(LimitName::Name, token.offset)),
        _ => Err(syntax_at(token.offset)),
    }
}

pub(crate) fn take_text(
    alloc: Global,
    stop: Stop,
    tokens: &[TokenAt],
) -> Result<(Text, &[TokenAt]), TakeError>
    ensures { Takes result (text_at file_limits stop tokens.now) }
{
    let (token, rest) = take_token(stop, tokens)?;
    match &token.token {
        Token::Words(text) => Ok((text.copy(alloc)?, rest)),
        Token::LongText => Err(limit_at(LimitName::Text, token.offset)),
        _ => Err(syntax_at(token.offset)),
    }
}

/// A text, if there is room for `room` more under a limit.
pub(crate) fn take_room(
    alloc: Global,
    what: LimitName,
    room: u64,
    stop: Stop,
    tokens: &[TokenAt],
) -> Result<(Text, &[TokenAt]), TakeError>
    ensures gives { Takes result (room_at file_limits what room stop tokens.now) }
    ensures room { IfOk result (λ x. 0 < room) }
{
    let (token, rest) = take_token(stop, tokens)?;
    match &token.token {
        Token::Words(text) => {
            if room == 0 {
                Err(limit_at(what, token.offset))
            } else {
                Ok((text.copy(alloc)?, rest))
            }
        }
        Token::LongText => Err(limit_at(LimitName::Text, token.offset)),
        _ => Err(syntax_at(token.offset)),
    }
}

pub(crate) fn take_any_number(
    stop: Stop,
    tokens: &[TokenAt],
) -> Result<(u64, &[TokenAt]), TakeError>
    ensures { Takes result (any_number_at stop tokens.now) }
{
    let (token, rest) = take_token(stop, tokens)?;
    match &token.token {
        Token::Number(n) => Ok((*n, rest)),
        _ => Err(syntax_at(token.offset)),
    }
}

/// A number within a limit.
pub(crate) fn take_number(
    what: LimitName,
    stop: Stop,
    tokens: &[TokenAt],
) -> Result<(u64, &[TokenAt]), TakeError>
    ensures gives { Takes result (number_at file_limits what stop tokens.now) }
    ensures within { IfOk result (λ x. x.0 ≤ number_of what) }
{
    let (token, rest) = take_token(stop, tokens)?;
    match &token.token {
        Token::Number(n) => {
            let number = *n;
            if what.least() <= number && number <= what.number() {
                Ok((number, rest))
            } else {
                Err(limit_at(what, token.offset))
            }
        }
        _ => Err(syntax_at(token.offset)),
    }
}

/// The opening bracket of a term, with room for `depth` brackets inside one another and for
/// `left` terms.
pub(crate) fn take_open(
    depth: u8,
    left: u32,
    stop: Stop,
    tokens: &[TokenAt],
) -> Result<&[TokenAt], TakeError>
    ensures gives { Passes result (open_at depth left stop tokens.now) }
    ensures room { IfOk result (λ x. (0 < depth) × (0 < left)) }
{
    let (token, rest) = take_token(stop, tokens)?;
    match &token.token {
        Token::Mark(m) => {
            if *m != b'(' {
                Err(syntax_at(token.offset))
            } else if left == 0 {
                Err(limit_at(LimitName::Terms, token.offset))
            } else if depth == 0 {
                Err(limit_at(LimitName::Depth, token.offset))
            } else {
                Ok(rest)
            }
        }
        _ => Err(syntax_at(token.offset)),
    }
}
