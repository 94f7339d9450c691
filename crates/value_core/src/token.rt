//! The next token of some bytes.
ghost use Rattle.std.specs.Prelude.{◌≡◌, ◌+◌, ◌<◌, ◌≤◌, length, IfOk, IfSome, MatchOption, true, false};
ghost use Rattle.std.specs.List.{prefix_len, list_all};
ghost use Rattle.std.specs.Str.{is_utf8};
ghost use Rattle.value_core.specs.declared.strings.Mode.TheVariants.{Plain};
ghost use Rattle.value_core.specs.Names.{is_word_byte};
ghost use Rattle.value_core.specs.Strings.{body_at};
ghost use Rattle.value_core.specs.Texts.{no_nul};
ghost use Rattle.value_core.specs.Tokens.{word_token, string_at, token_at, next_at, ReturnsNext, EndsWithin};

use crate::NoMemory;
use crate::blanks::past_blank;
use crate::bytes::{head, is_mark_byte, tail};
use crate::names::{is_in_word, is_lower};
use crate::numerals::number;
use crate::strings::take_body;
use crate::text::{TEXT_LIMIT, Text};
use std::alloc::{AllocError, Global};

/// The greatest number of bytes of a name.
pub const NAME_LIMIT: usize = 64;

/// A word, a string or a mark.
#[derive(Debug, Drop)]
pub enum Token {
    Name(Text),
    Number(u64),
    /// A string, by the text that it spells.
    Words(Text),
    /// One of the bytes `(`, `)`, `[`, `]` and `,`.
    Mark(u8),
    /// A name of more than `NAME_LIMIT` bytes.
    LongName,
    /// A string whose text has more than `TEXT_LIMIT` bytes.
    LongText,
}

/// What comes next.
#[derive(Debug, Drop)]
pub enum Next {
    /// A token, the offset of its first byte and the offset after its last.
    Found {
        token: Token,
        offset: usize,
        end: usize,
    },
    /// Only blank space and comments follow.
    End,
}

/// Why there is no next token.
#[derive(Clone, Copy, Debug, PartialEq, Eq)]
pub enum TokenFault {
    /// No token or comment begins at this offset.
    Lex(usize),
    NoMemory,
}

impl From<AllocError> for TokenFault {
    ghost use Rattle.value_core.specs.declared.token.TokenFault.TheVariants as fault;

    ghost from_gives = { λ _ e. e ≡ fault.NoMemory };

    fn from(_e: AllocError) -> TokenFault {
        TokenFault::NoMemory
    }
}

/// The text of these bytes, if they are UTF-8.
fn decoded_text(bytes: Vec<u8>) -> Option<Text>
    requires { no_nul bytes.items ≡ true }
    ensures { let is = is_utf8 bytes.items in
        MatchOption result (is ≡ false) (λ t. (t ≡ bytes.items) × (is ≡ true)) }
{
    match String::from_utf8(bytes) {
        Ok(text) => Some(Text::from_string(text)),
        Err(_) => None,
    }
}

#[tactic(auto, using(crate::proofs::Scans::body_no_nul))]
fn take_string(alloc: Global, bytes: &[u8]) -> Result<Option<(Token, usize)>, NoMemory>
    ensures token { IfOk result (λ o. o ≡ string_at (body_at Plain bytes.now)) }
    ensures within { IfOk result (λ o. IfSome o (λ x. (0 < x.1) × (x.1 ≤ length bytes.now + 1))) }
{
    let Some((text, len)) = take_body(alloc, bytes)? else {
        return Ok(None);
    };
    let is_long = TEXT_LIMIT < text.len();
    let Some(text) = decoded_text(text) else {
        return Ok(None);
    };
    let token = if is_long {
        Token::LongText
    } else {
        Token::Words(text)
    };
    Ok(Some((token, len + 1)))
}

/// How many bytes of a word are at the front.
fn word_len(bytes: &[u8]) -> usize
    ensures value { result ≡ prefix_len is_word_byte bytes.now }
    ensures within { result ≤ length bytes.now }
{
    bytes.iter().take_while(|b| is_in_word(**b)).count()
}

#[tactic(auto, using(crate::proofs::Scans::word_no_nul, crate::proofs::Scans::word_utf8))]
fn take_word(alloc: Global, word: &[u8]) -> Result<Option<Token>, NoMemory>
    requires { list_all is_word_byte word.now ≡ true }
    ensures { IfOk result (λ o. o ≡ word_token word.now) }
{
    let [first, ..] = word else {
        return Ok(None);
    };
    if is_lower(*first) {
        if NAME_LIMIT < word.len() {
            return Ok(Some(Token::LongName));
        }
        return Ok(match decoded_text(Vec::from_slice(alloc, word)?) {
            Some(name) => Some(Token::Name(name)),
            None => None,
        });
    }
    Ok(match number(word) {
        Some(n) => Some(Token::Number(n)),
        None => None,
    })
}

#[tactic(auto, using(crate::proofs::Scans::run_passes, crate::proofs::Scans::run_some))]
fn take_token(alloc: Global, bytes: &[u8]) -> Result<Option<(Token, usize)>, NoMemory>
    ensures token { IfOk result (λ o. o ≡ token_at bytes.now) }
    ensures within { IfOk result (λ o. IfSome o (λ x. (0 < x.1) × (x.1 ≤ length bytes.now))) }
{
    let [first, ..] = bytes else {
        return Ok(None);
    };
    if is_mark_byte(*first) {
        return Ok(Some((Token::Mark(*first), 1)));
    }
    if is_in_word(*first) {
        let len = word_len(bytes);
        return Ok(match take_word(alloc, head(bytes, len))? {
            Some(token) => Some((token, len)),
            None => None,
        });
    }
    if *first == b'"' {
        return take_string(alloc, tail(bytes, 1));
    }
    Ok(None)
}

/// The next token from an offset on; blank space and comments are passed over.
pub fn next_token(alloc: Global, bytes: &[u8], from: usize) -> Result<Next, TokenFault>
    requires { from ≤ length bytes.now }
    ensures next { ReturnsNext result (next_at bytes.now from) }
    ensures within { IfOk result (λ n. EndsWithin from (length bytes.now) n) }
{
    let offset = past_blank(bytes, from);
    let rest = tail(bytes, offset);
    if rest.is_empty() {
        return Ok(Next::End);
    }
    match take_token(alloc, rest)? {
        Some((token, len)) => Ok(Next::Found {
            token,
            offset,
            end: offset + len,
        }),
        None => Err(TokenFault::Lex(offset)),
    }
}
