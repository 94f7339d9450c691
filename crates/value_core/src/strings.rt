//! The bytes between the quotes of a string.
ghost use Rattle.std.specs.Prelude.{◌≡◌, ◌++◌, ◌∷◌, map, ◌+◌, ◌≤◌, List, ℕ, length, IfOk, IfSome, MatchOption, Some, None, true};
ghost use Rattle.std.specs.List.{list_all, flat_map};
ghost use Rattle.value_core.specs.declared.strings.Mode.TheVariants.{Plain, Slash, Digit};
ghost use Rattle.value_core.specs.Pieces.{ReadsAllPieces, ReadsNoOther};
ghost use Rattle.value_core.specs.Strings.{step, body_at};

use crate::NoMemory;
use crate::bytes::{hex_digit_value, is_hex_digit};
use std::alloc::Global;

/// What was read of an escape before a byte inside a string.
#[derive(Clone, Copy, Debug, PartialEq, Eq)]
pub enum Mode {
    /// No escape has begun.
    Plain,
    /// A backslash.
    Slash,
    /// `\x`.
    Hex,
    /// `\x` and a digit of this value.
    Digit(u8),
}

/// What a byte does inside a string.
#[derive(Clone, Copy, Debug, PartialEq, Eq)]
pub enum Step {
    /// Ends the string.
    Ends,
    /// Adds a byte to its text.
    Adds(u8),
    /// Begins an escape, or goes on with one.
    Turns(Mode),
    /// Is wrong there.
    Wrong,
}

fn plain_step(b: u8) -> Step
    ensures { result ≡ step Plain b }
{
    if b == b'"' {
        Step::Ends
    } else if b == b'\\' {
        Step::Turns(Mode::Slash)
    } else if b < 32 || b == 127 {
        Step::Wrong
    } else {
        Step::Adds(b)
    }
}

fn escape_step(b: u8) -> Step
    ensures { result ≡ step Slash b }
{
    if b == b'"' || b == b'\\' {
        Step::Adds(b)
    } else if b == b'n' {
        Step::Adds(10)
    } else if b == b't' {
        Step::Adds(9)
    } else if b == b'r' {
        Step::Adds(13)
    } else if b == b'x' {
        Step::Turns(Mode::Hex)
    } else {
        Step::Wrong
    }
}

fn second_digit_step(high: u8, b: u8) -> Step
    ensures { result ≡ step (Digit high) b }
{
    if !is_hex_digit(b) || 8 <= high {
        return Step::Wrong;
    }
    let code = 16 * high + hex_digit_value(b);
    if 0 < code && code < 32 || code == 127 {
        Step::Adds(code)
    } else {
        Step::Wrong
    }
}

fn step_at(mode: Mode, b: u8) -> Step
    ensures { result ≡ step mode b }
{
    match mode {
        Mode::Plain => plain_step(b),
        Mode::Slash => escape_step(b),
        Mode::Hex => {
            if is_hex_digit(b) && hex_digit_value(b) < 8 {
                Step::Turns(Mode::Digit(hex_digit_value(b)))
            } else {
                Step::Wrong
            }
        }
        Mode::Digit(high) => second_digit_step(high, b),
    }
}

/// The text of a string, read from the byte after its opening quote, and how many bytes it takes with the
/// closing one.
pub(crate) fn take_body(alloc: Global, bytes: &[u8]) -> Result<Option<(Vec<u8>, usize)>, NoMemory>
    ensures text { let body = body_at Plain bytes.now in
        IfOk result (λ o. MatchOption o (body ≡ None) (λ x. body ≡ Some (x.0.items, x.1))) }
    ensures within { IfOk result (λ o. IfSome o (λ x. x.1 ≤ length bytes.now)) }
{
    let mut text = Vec::new(alloc);
    let mut mode = Mode::Plain;
    let mut len = 0;
    for b in bytes {
        len += 1;
        match step_at(mode, *b) {
            Step::Ends => return Ok(Some((text, len))),
            Step::Adds(c) => {
                text.push(c)?;
                mode = Mode::Plain;
            }
            Step::Turns(next) => mode = next,
            Step::Wrong => return Ok(None),
        }
    }
    Ok(None)
}

/// A string is read exactly as it is spelled: by pieces, each a byte as it is or an escape.
pub fn string_law()
    ensures found { ReadsNoOther }
    ensures all { ReadsAllPieces }
{}
