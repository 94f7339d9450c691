//! The form of names, and of texts.
ghost use Rattle.std.specs.Prelude.{◌≡◌};
ghost use Rattle.std.specs.List.{list_all};
ghost use Rattle.value_core.specs.Names.{is_letter, is_name, is_word_byte};
ghost use Rattle.value_core.specs.Texts.{is_text};

use crate::bytes::{decoded, has_nul};
use crate::token::NAME_LIMIT;

pub(crate) fn is_lower(b: u8) -> bool
    ensures { result ≡ is_letter b }
{
    b'a' <= b && b <= b'z'
}

pub(crate) fn is_in_word(b: u8) -> bool
    ensures { result ≡ is_word_byte b }
{
    is_lower(b) || b'0' <= b && b <= b'9' || b == b'_' || b == b'-'
}

fn is_word(bytes: &[u8]) -> bool
    ensures { result ≡ list_all is_word_byte bytes.now }
{
    bytes.iter().all(|b| is_in_word(*b))
}

/// Whether the bytes have the form of a name.
pub fn is_name(bytes: &[u8]) -> bool
    ensures { result ≡ is_name bytes.now }
{
    let [first, rest @ ..] = bytes else {
        return false;
    };
    is_lower(*first) && is_word(rest) && bytes.len() <= NAME_LIMIT
}

/// Whether the bytes are UTF-8 without NUL.
pub fn is_text(bytes: &[u8]) -> bool
    ensures { result ≡ is_text bytes.now }
{
    decoded(bytes).is_some() && !has_nul(bytes)
}
