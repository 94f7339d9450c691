//! Blank space and comments.
ghost use Rattle.std.specs.Prelude.{◌≡◌, ◌+◌, ◌≤◌, length, drop};
ghost use Rattle.std.specs.List.{prefix_len};
ghost use Rattle.value_core.specs.Tokens.{in_line, gap};

use crate::bytes::{decoded, head, is_blank_byte, tail};

/// The number of bytes before a newline or the end.
fn line_len(bytes: &[u8]) -> usize
    ensures value { result ≡ prefix_len in_line bytes.now }
    ensures within { result ≤ length bytes.now }
{
    bytes.iter().take_while(|b| **b != b'\n').count()
}

/// How many bytes a blank byte or a comment takes at the front, 0 if there is none.
#[tactic(auto, using(crate::proofs::Scans::gap_comment_at))]
fn blank_len(bytes: &[u8]) -> usize
    ensures some { gap 0 bytes.now ≡ result + gap 0 (drop result bytes.now) }
    ensures none { result ≡ 0 → gap 0 bytes.now ≡ 0 }
    ensures within { result ≤ length bytes.now }
{
    let [first, ..] = bytes else {
        return 0;
    };
    if is_blank_byte(*first) {
        return 1;
    }
    if *first != b'#' {
        return 0;
    }
    let rest = tail(bytes, 1);
    let len = line_len(rest);
    if decoded(head(rest, len)).is_some() {
        len + 1
    } else {
        0
    }
}

/// The offset after blank space and comments.
pub(crate) fn past_blank(bytes: &[u8], from: usize) -> usize
    requires { from ≤ length bytes.now }
    ensures offset { result ≡ from + gap 0 (drop from bytes.now) }
    ensures within { result ≤ length bytes.now }
{
    let mut at = from;
    let mut len = blank_len(tail(bytes, at));
    while len != 0 {
        at += len;
        len = blank_len(tail(bytes, at));
    }
    at
}
