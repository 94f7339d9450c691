//! Texts, which contracts see as their bytes.
ghost use Rattle.std.specs.Prelude.{◌≡◌, ◌<◌, ◌≤◌, ◌↔◌, List, ℕ, [], length, IfOk, IfErr, OnOk, OnErr};
ghost use Rattle.std.specs.Io.BufRead.{strip_last};
ghost use Rattle.std.specs.String.{string_bytes};
ghost use Rattle.std.specs.Str.{bytes_eq};
ghost use Rattle.value_core.specs.Texts.{HasNoNul};

use crate::NoMemory;
use crate::bytes::{decoded, has_nul};
use std::alloc::{AllocError, Global};
use std::marker::Model;

/// The greatest number of bytes of a text in a value or a message. `Text` itself has no bound.
pub const TEXT_LIMIT: usize = 65536;

/// UTF-8 without NUL, of any length.
#[derive(Debug, Drop)]
pub struct Text {
    text: String,
}

impl Model for Text {
    ghost Value = { List ℕ };

    ghost view = { λ t. string_bytes t.text };

    ghost invariant = { λ t. HasNoNul (string_bytes t.text) };
}

/// The text without one final newline.
fn without_newline(text: &str) -> &str
    ensures { result.now ≡ strip_last 10 text.now }
{
    match text.strip_suffix('\n') {
        Some(front) => front,
        None => text,
    }
}

/// Why bytes aren't a text.
#[derive(Debug, Drop)]
pub enum TextFault {
    /// More bytes than `TEXT_LIMIT`, with their number.
    TooLarge(usize),
    /// A NUL among the bytes, or bytes that aren't UTF-8.
    NotText,
    NoMemory,
}

impl From<AllocError> for TextFault {
    ghost use Rattle.value_core.specs.declared.text.TextFault.TheVariants as fault;

    ghost from_gives = { λ _ e. e ≡ fault.NoMemory };

    fn from(_e: AllocError) -> TextFault {
        TextFault::NoMemory
    }
}

impl Text {
    ghost use Rattle.value_core.specs.Reading.{text_read, ReturnsText};

    /// The empty text.
    pub fn new(alloc: Global) -> Text
        ensures { result ≡ [] }
    {
        Text {
            text: String::new(alloc),
        }
    }

    /// A text with these bytes.
    pub fn of(alloc: Global, text: &str) -> Result<Text, NoMemory>
        requires { HasNoNul text.now }
        ensures { IfOk result (λ t. t ≡ text.now) }
    {
        let text = String::from_str(alloc, text)?;
        Ok(Text { text })
    }

    /// The text of a `String`. Allocates nothing.
    pub fn from_string(text: String) -> Text
        requires { HasNoNul (string_bytes text) }
        ensures { result ≡ string_bytes text }
    {
        Text { text }
    }

    /// Reads bytes from outside, such as a file, where a final newline belongs to no text.
    pub fn as_text(alloc: Global, bytes: &[u8]) -> Result<Text, TextFault>
        ensures { ReturnsText result (text_read bytes.now) }
    {
        if TEXT_LIMIT < bytes.len() {
            return Err(TextFault::TooLarge(bytes.len()));
        }
        if has_nul(bytes) {
            return Err(TextFault::NotText);
        }
        match decoded(bytes) {
            Some(text) => Ok(Text::of(alloc, without_newline(text))?),
            None => Err(TextFault::NotText),
        }
    }

    /// An equal text.
    pub fn copy(&self, alloc: Global) -> Result<Text, NoMemory>
        ensures { IfOk result (λ t. t ≡ self.now) }
    {
        let text = String::from_str(alloc, self.text.as_str())?;
        Ok(Text { text })
    }

    /// How many bytes there are.
    pub fn len(&self) -> usize
        ensures { result ≡ length self.now }
    {
        self.text.len()
    }

    /// Whether both have the same bytes.
    pub fn is(&self, other: &Text) -> bool
        ensures { result ≡ bytes_eq self.now other.now }
    {
        self.text.as_str() == other.text.as_str()
    }

    /// The text itself.
    pub fn as_str(&self) -> &str
        ensures bytes { result.now ≡ self.now }
        ensures no_nul { HasNoNul self.now }
    {
        self.text.as_str()
    }
}
