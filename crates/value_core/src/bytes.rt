//! Bytes, and runs of bytes.
ghost use Rattle.std.specs.Prelude.{◌≡◌, ◌<◌, ◌≤◌, length, drop, take, not, true, false, MatchOption};
ghost use Rattle.std.specs.Str.{is_utf8};
ghost use Rattle.value_core.specs.Strings.{is_hex, hex_value};
ghost use Rattle.value_core.specs.Texts.{no_nul};
ghost use Rattle.value_core.specs.Tokens.{is_blank, is_mark};

pub(crate) fn is_blank_byte(b: u8) -> bool
    ensures { result ≡ is_blank b }
{
    b == b' ' || b == b'\t' || b == b'\n' || b == b'\r'
}

pub(crate) fn is_mark_byte(b: u8) -> bool
    ensures { result ≡ is_mark b }
{
    b == b'(' || b == b')' || b == b'[' || b == b']' || b == b','
}

pub(crate) fn is_hex_digit(b: u8) -> bool
    ensures { result ≡ is_hex b }
{
    b'0' <= b && b <= b'9' || b'a' <= b && b <= b'f'
}

pub(crate) fn hex_digit_value(b: u8) -> u8
    requires { is_hex b ≡ true }
    ensures value { result ≡ hex_value b }
    ensures small { result < 16 }
{
    if b <= b'9' { b - b'0' } else { b - b'a' + 10 }
}

/// The bytes from an offset on.
pub(crate) fn tail(bytes: &[u8], at: usize) -> &[u8]
    requires { at ≤ length bytes.now }
    ensures { result.now ≡ drop at bytes.now }
{
    bytes.split_at(at).1
}

/// So many bytes at the front.
pub(crate) fn head(bytes: &[u8], len: usize) -> &[u8]
    requires { len ≤ length bytes.now }
    ensures { result.now ≡ take len bytes.now }
{
    bytes.split_at(len).0
}

/// Whether a byte is zero.
pub(crate) fn has_nul(bytes: &[u8]) -> bool
    ensures { result ≡ not (no_nul bytes.now) }
{
    bytes.contains(&0)
}

/// The text of these bytes, if they are UTF-8.
pub(crate) fn decoded(bytes: &[u8]) -> Option<&str>
    ensures { let is = is_utf8 bytes.now in
        MatchOption result (is ≡ false) (λ s. (is ≡ true) × (s.now ≡ bytes.now)) }
{
    match str::from_utf8(bytes) {
        Ok(text) => Some(text),
        Err(_) => None,
    }
}
