//! Lines of a source.

ghost use Rattle.std.specs.Prelude.{◌≡◌, ◌+◌, ◌≤◌, ◌<◌, [], length, IfSome, IfNone};
ghost use Rattle.io_ends.specs.Causes.{HasCause};
ghost use Rattle.io_ends.specs.Lines.{ReadsLine, Uses, DropsRest, HasLineCause, IsFirstNewline, HasNoNewline};
ghost use Rattle.io_ends.specs.declared.lines.LineFault.TheVariants.{NoMemory, Failed as ReadFailed};

use crate::ends::{Failed, Source};
use crate::piece::Piece;
use std::alloc::{AllocError, Global};
use std::marker::Model;

/// A line has at most so many bytes before its newline.
const LINE_LIMIT: usize = 131072;

/// What `next` found.
#[derive(Debug, Drop)]
pub enum Line {
    /// The bytes of a line without its newline, or of a last line that has none.
    Whole(Vec<u8>),
    /// A line of more than 131,072 bytes; it was read and dropped.
    TooLong,
    /// The source ended before a byte of a line.
    End,
}

/// Why no line was read.
#[derive(Clone, Copy, Debug, PartialEq, Eq)]
pub enum LineFault {
    /// A read of the source failed.
    Failed,
    /// Out of memory for the line.
    NoMemory,
}

impl From<AllocError> for LineFault {
    ghost from_gives = { λ _ e. e ≡ NoMemory };

    fn from(_e: AllocError) -> LineFault {
        LineFault::NoMemory
    }
}

impl From<Failed> for LineFault {
    ghost from_gives = { λ _ e. e ≡ ReadFailed };

    fn from(_e: Failed) -> LineFault {
        LineFault::Failed
    }
}

/// Where the first newline is.
fn newline_in(bytes: &[u8]) -> Option<usize>
    ensures found { IfSome result (IsFirstNewline bytes.now) }
    ensures none { IfNone result (HasNoNewline (length bytes.now) bytes.now) }
{
    bytes.iter().position(|b| *b == b'\n')
}

/// Drops the piece in hand, and what is left of a line after it.
fn skip_line<S: Source>(piece: &mut Piece, source: &mut S) -> Result<(), Failed>
    ensures rest { DropsRest (S.left source.old) result piece.new (S.left source.new) }
    ensures spent { S.budget source.new + length piece.new ≤ S.budget source.old }
    ensures cause { HasCause (S.faults source.old) (S.faults source.new) result }
    ensures sink_side { S.sink_side source.new ≡ S.sink_side source.old }
{
    while piece.refill(source)? {
        if let Some(at) = newline_in(piece.rest()) {
            piece.advance(at + 1);
            break;
        }
    }
    Ok(())
}

/// The next line.
fn next_line<S: Source>(alloc: Global, piece: &mut Piece, source: &mut S) -> Result<Line, LineFault>
    ensures line { ReadsLine piece.old (S.left source.old) result piece.new (S.left source.new) }
    ensures spent { Uses piece.old (S.budget source.old) result piece.new (S.budget source.new) }
    ensures cause { HasLineCause (S.faults source.old) (S.faults source.new) result }
    ensures sink_side { S.sink_side source.new ≡ S.sink_side source.old }
{
    let mut line = Vec::new(alloc);
    loop {
        if let Some(at) = newline_in(piece.rest()) {
            line.extend_from_slice(&piece.rest()[..at])?;
            piece.advance(at + 1);
            if line.len() > LINE_LIMIT {
                return Ok(Line::TooLong);
            }
            return Ok(Line::Whole(line));
        }
        line.extend_from_slice(piece.rest())?;
        if line.len() > LINE_LIMIT {
            skip_line(piece, source)?;
            return Ok(Line::TooLong);
        }
        if !piece.refill(source)? {
            if line.is_empty() {
                return Ok(Line::End);
            }
            return Ok(Line::Whole(line));
        }
    }
}

/// Cuts what is read of a source into lines. Contracts see the bytes that it has read and not yet
/// returned. One reader serves one source. After an `Err` nothing is said of the lines that
/// come.
#[derive(Drop)]
pub struct LineReader {
    alloc: Global,
    piece: Piece,
}

impl Model for LineReader {
    ghost use Rattle.std.specs.Prelude.{ℕ, List};

    ghost Value = { List ℕ };

    ghost view = { λ r. r.piece };
}

impl LineReader {
    /// A reader that has read nothing. It takes no memory.
    pub fn new(alloc: Global) -> LineReader
        ensures { result ≡ [] }
    {
        LineReader {
            alloc,
            piece: Piece::new(),
        }
    }

    /// The next line. Of a line that is too long the rest is read and dropped.
    pub fn next<S: Source>(&mut self, source: &mut S) -> Result<Line, LineFault>
        ensures line { ReadsLine self.old (S.left source.old) result self.new (S.left source.new) }

        // A line takes bytes, so a loop over lines ends.
        ensures spent { Uses self.old (S.budget source.old) result self.new (S.budget source.new) }

        ensures cause { HasLineCause (S.faults source.old) (S.faults source.new) result }
        ensures sink_side { S.sink_side source.new ≡ S.sink_side source.old }
    {
        next_line(self.alloc, &mut self.piece, source)
    }
}
