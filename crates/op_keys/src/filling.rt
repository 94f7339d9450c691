//! Templates in which `{key}` and `{value}` are replaced.
ghost use Rattle.std.specs.Prelude.{◌≡◌, ◌<◌, ◌++◌, List, ℕ, [], length, IfOk, MatchOption};
ghost use Rattle.std.specs.String.{string_bytes};
ghost use Rattle.op_keys.specs.Filling.{filled};
ghost use Rattle.op_keys.specs.Orders.{capped};
ghost use Rattle.op_keys.specs.Pieces.{BeginsWith, put};

use std::alloc::Global;
use value_core::NoMemory;

/// What a template begins with.
pub(crate) enum Piece {
    Key,
    Value,
    Char(char),
}

/// What the template begins with, and the rest after it; `None` at its end.
pub(crate) fn first_piece(template: &str) -> Option<(Piece, &str)>
    ensures piece { MatchOption result (template.now ≡ [])
        (λ x. BeginsWith x.0 x.1.now template.now) }
    ensures shorter { MatchOption result (template.now ≡ [])
        (λ x. length x.1.now < length template.now) }
{
    if let Some(rest) = template.strip_prefix("{key}") {
        return Some((Piece::Key, rest));
    }
    if let Some(rest) = template.strip_prefix("{value}") {
        return Some((Piece::Value, rest));
    }
    let mut chars = template.chars();
    match chars.next() {
        Some(c) => Some((Piece::Char(c), chars.as_str())),
        None => None,
    }
}

/// The template with this key and this value.
pub(crate) fn fill(
    alloc: Global,
    template: &str,
    key: &str,
    value: &str,
) -> Result<String, NoMemory>
    ensures { IfOk result (λ text. string_bytes text ≡ filled key.now value.now template.now) }
{
    let mut text = String::new(alloc);
    let mut rest = template;
    while let Some((piece, after)) = first_piece(rest) {
        match piece {
            Piece::Key => text.push_str(key)?,
            Piece::Value => text.push_str(value)?,
            Piece::Char(c) => text.push(c)?,
        }
        rest = after;
    }
    Ok(text)
}

/// The number of bytes of the filled template, or the greatest number if there are more. Allocates
/// nothing.
pub(crate) fn filled_len(template: &str, key: &str, value: &str) -> usize
    ensures { result ≡ capped (length (filled key.now value.now template.now)) }
{
    let mut len: usize = 0;
    let mut rest = template;
    while let Some((piece, after)) = first_piece(rest) {
        let more = match piece {
            Piece::Key => key.len(),
            Piece::Value => value.len(),
            Piece::Char(c) => c.len_utf8(),
        };
        len = len.saturating_add(more);
        rest = after;
    }
    len
}
