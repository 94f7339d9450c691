//! Texts, cut at newlines or at white space.
ghost use Rattle.std.specs.Prelude.{◌≡◌, ◌+◌, ◌<◌, ◌≤◌, ◌∷◌, ◌++◌, [], length, IfOk, IfSome, OnOk, MatchOption};
ghost use Rattle.std.specs.List.{filter, position_or_len, prefix_len, slice_split, suffix_len};
ghost use Rattle.std.specs.Str.{IsCharBoundary};
ghost use Rattle.value_core.specs.Cuts.{separates, is_piece, pieces_of, trimmed, trimmed_front, trimmed_end};
ghost use Rattle.value_core.specs.Parts.{text_values};
ghost use Rattle.value_core.specs.inside.Cutting.{IsListOf};
ghost use Rattle.value_core.specs.Texts.{HasNoNul};
ghost use Rattle.value_core.specs.Tokens.{is_blank};

use crate::NoMemory;
use crate::bytes::is_blank_byte;
use crate::list_of::ListOf;
use crate::text::Text;
use crate::value::{LIST_LIMIT, Value};
use std::alloc::Global;

/// What separates two pieces of a text.
#[derive(Clone, Copy, Debug, PartialEq, Eq)]
pub enum Separator {
    Newline,
    /// Space, tab, newline or carriage return.
    White,
}

fn is_separator(separator: Separator, b: u8) -> bool
    ensures { result ≡ separates separator b }
{
    match separator {
        Separator::Newline => b == b'\n',
        Separator::White => is_blank_byte(b),
    }
}

/// The number of bytes before the first separator.
fn piece_len(text: &[u8], separator: Separator) -> usize
    ensures value { result ≡ position_or_len (separates separator) text.now }
    ensures within { result ≤ length text.now }
{
    text.iter()
        .take_while(|b| !is_separator(separator, **b))
        .count()
}

/// The text up to the first separator, and the text after it.
fn cut_first(text: &str, separator: Separator) -> (&str, Option<&str>)
    requires { HasNoNul text.now }
    ensures cut { let pieces = slice_split (separates separator) in
        MatchOption result.1 (pieces text.now ≡ result.0.now ∷ [])
        (λ rest. pieces text.now ≡ result.0.now ∷ pieces rest.now) }
    ensures shorter { IfSome result.1 (λ rest. length rest.now < length text.now) }
    ensures no_nul { HasNoNul result.0.now }
    ensures rest_no_nul { IfSome result.1 (λ rest. HasNoNul rest.now) }
{
    let len = piece_len(text.as_bytes(), separator);
    if len == text.len() {
        return (text, None);
    }
    let piece = text.split_at(len).0;
    let rest = text.split_at(len + 1).1;
    (piece, Some(rest))
}

/// Adds a piece, unless it is empty.
fn add_piece(alloc: Global, pieces: &mut ListOf<Value>, piece: &str) -> Result<(), NoMemory>
    requires { HasNoNul piece.now }
    ensures { let added = text_values (filter is_piece (piece.now ∷ [])) in
        OnOk result (pieces.new ≡ pieces.old ++ added) }
{
    if !piece.is_empty() {
        pieces.push(Value::Words(Text::of(alloc, piece)?))?;
    }
    Ok(())
}

/// The pieces between separators, or nothing if they are more than a list may have.
pub(crate) fn pieces(
    alloc: Global,
    text: &str,
    separator: Separator,
) -> Result<Option<ListOf<Value>>, NoMemory>
    requires { HasNoNul text.now }
    ensures { IfOk result (IsListOf (pieces_of separator text.now)) }
{
    let mut pieces = ListOf::new(alloc);
    let mut rest = text;
    'pieces: loop {
        let (piece, after) = cut_first(rest, separator);
        add_piece(alloc, &mut pieces, piece)?;
        if LIST_LIMIT < pieces.len() {
            return Ok(None);
        }
        match after {
            Some(more) => rest = more,
            None => return Ok(Some(pieces)),
        }
    }
}

/// The number of bytes of white space at the front.
fn blank_prefix(text: &[u8]) -> usize
    ensures value { result ≡ prefix_len is_blank text.now }
    ensures within { result ≤ length text.now }
{
    text.iter().take_while(|b| is_blank_byte(**b)).count()
}

/// The number of bytes of white space at the end.
fn blank_suffix(text: &[u8]) -> usize
    ensures value { result ≡ suffix_len is_blank text.now }
    ensures within { result ≤ length text.now }
{
    text.iter().rev().take_while(|b| is_blank_byte(**b)).count()
}

fn trim_front(text: &str) -> &str
    ensures { result.now ≡ trimmed_front text.now }
{
    text.split_at(blank_prefix(text.as_bytes())).1
}

fn trim_end(text: &str) -> &str
    ensures { result.now ≡ trimmed_end text.now }
{
    text.split_at(text.len() - blank_suffix(text.as_bytes())).0
}

/// The text without white space at both ends.
pub(crate) fn trim(text: &str) -> &str
    ensures { result.now ≡ trimmed text.now }
{
    trim_end(trim_front(text))
}
