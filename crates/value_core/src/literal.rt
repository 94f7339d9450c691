//! Literals, read from their bytes.
ghost use Rattle.std.specs.Prelude.{◌≡◌, IfOk};
ghost use Rattle.std.specs.Option.{option_map};
ghost use Rattle.value_core.specs.Literals.{ReturnsLiteral, is_mark_of, item_texts, tokens_in, list_literal, list_texts, literal_of, literal_read, single_literal};
ghost use Rattle.value_core.specs.Parts.{text_values};

use crate::NoMemory;
use crate::lexing::{Stop, TokenAt, Tokens, tokens_of};
use crate::list_of::ListOf;
use crate::token::Token;
use crate::value::{LIST_LIMIT, Value};
use crate::weighing::{WEIGHT_LIMIT, outweighs};
use std::alloc::{AllocError, Global};

/// Why bytes aren't a literal.
#[derive(Debug, Drop)]
pub enum LiteralFault {
    /// They aren't one string, one number or one list of strings within the limits.
    NotLiteral,
    NoMemory,
}

impl From<AllocError> for LiteralFault {
    ghost use Rattle.value_core.specs.declared.literal.LiteralFault.TheVariants as fault;

    ghost from_gives = { λ _ e. e ≡ fault.NoMemory };

    fn from(_e: AllocError) -> LiteralFault {
        LiteralFault::NoMemory
    }
}

fn is_the_mark(token: &Token, mark: u8) -> bool
    ensures { result ≡ is_mark_of mark token.now }
{
    match token {
        Token::Mark(b) => *b == mark,
        _ => false,
    }
}

fn take_single(alloc: Global, token: &Token) -> Result<Option<Value>, NoMemory>
    ensures { IfOk result (λ o. o ≡ single_literal token.now) }
{
    match token {
        Token::Words(text) => Ok(Some(Value::Words(text.copy(alloc)?))),
        Token::Number(n) => Ok(Some(Value::Num(*n))),
        _ => Ok(None),
    }
}

/// The texts of strings with a comma between each two, up to a closing bracket at the end.
fn take_items(alloc: Global, tokens: &[TokenAt]) -> Result<Option<ListOf<Value>>, NoMemory>
    ensures { IfOk result (λ o. o ≡ option_map text_values (item_texts (tokens_in tokens.now))) }
{
    let mut items = ListOf::new(alloc);
    let mut rest = tokens;
    'items: loop {
        let [item, mark, more @ ..] = rest else {
            return Ok(None);
        };
        let Token::Words(text) = &item.token else {
            return Ok(None);
        };
        items.push(Value::Words(text.copy(alloc)?))?;
        if !is_the_mark(&mark.token, b',') {
            let is_closed = is_the_mark(&mark.token, b']') && more.is_empty();
            return Ok(if is_closed { Some(items) } else { None });
        }
        rest = more;
    }
}

/// The texts of a list after its opening bracket.
fn take_list_items(alloc: Global, tokens: &[TokenAt]) -> Result<Option<ListOf<Value>>, NoMemory>
    ensures { IfOk result (λ o. o ≡ option_map text_values (list_texts (tokens_in tokens.now))) }
{
    match tokens {
        [] => Ok(None),
        [only] => {
            let is_closed = is_the_mark(&only.token, b']');
            Ok(if is_closed {
                Some(ListOf::new(alloc))
            } else {
                None
            })
        }
        _ => take_items(alloc, tokens),
    }
}

/// The list after its opening bracket.
fn take_list(alloc: Global, tokens: &[TokenAt]) -> Result<Option<Value>, NoMemory>
    ensures { IfOk result (λ o. o ≡ list_literal (list_texts (tokens_in tokens.now))) }
{
    match take_list_items(alloc, tokens)? {
        Some(items) => {
            let is_long = LIST_LIMIT < items.len();
            Ok(if is_long {
                None
            } else {
                Some(Value::List(items))
            })
        }
        None => Ok(None),
    }
}

/// The value that just these tokens spell: one string, one number, or one list of at most 256
/// strings.
pub fn literal_in(alloc: Global, tokens: &[TokenAt]) -> Result<Option<Value>, NoMemory>
    ensures { IfOk result (λ o. o ≡ literal_of (tokens_in tokens.now)) }
{
    match tokens {
        [] => Ok(None),
        [only] => take_single(alloc, &only.token),
        [first, rest @ ..] => {
            if is_the_mark(&first.token, b'[') {
                take_list(alloc, rest)
            } else {
                Ok(None)
            }
        }
    }
}

/// Reads a value from its bytes: one string, one number, or one list of strings. Blank space and
/// comments may surround its tokens.
pub fn read_literal(alloc: Global, bytes: &[u8]) -> Result<Value, LiteralFault>
    ensures { ReturnsLiteral result (literal_read bytes.now) }
{
    let Tokens { tokens, stop } = tokens_of(alloc, bytes)?;
    if let Stop::Lex(_) = stop {
        return Err(LiteralFault::NotLiteral);
    }
    match literal_in(alloc, tokens.as_slice())? {
        Some(v) => {
            if outweighs(&v, WEIGHT_LIMIT) {
                return Err(LiteralFault::NotLiteral);
            }
            Ok(v)
        }
        None => Err(LiteralFault::NotLiteral),
    }
}
