//! The lines of the input.
ghost use Rattle.std.specs.Prelude.{◌≡◌, IfOk, not};
ghost use Rattle.io_ends.specs.Lines.{text_line};
ghost use Rattle.session_rules.specs.Transcripts.{is_quit, line_part};
ghost use Rattle.session_core.specs.Doing.{Causes, Plays, counts, seen};
ghost use Rattle.session_core.specs.Lines.{CountsLines, DoesLines, LinesCause};
ghost use Rattle.session_core.specs.Numbers.{counting};
ghost use Rattle.session_core.specs.inside.ReadLines.{goes_on, line_stop, read_part};

use crate::controls::refuse_line;
use crate::ends::Ends;
use crate::numbering::Numbering;
use crate::session::Session;
use crate::stop::Stop;
use io_ends::{Clock, Files, Line, LineFault, LineReader, Sink, Source};
use keeper_core::Keeper;
use launch_core::Launcher;
use std::sync::ledger::Ledger;

/// So many lines are taken at most.
const LINE_LIMIT: u32 = 1_000_000;

/// A line has so many bytes at most.
const LINE_LENGTH: usize = 131_072;

impl From<LineFault> for Stop {
    ghost from_gives = { λ f e. e ≡ line_stop f };

    fn from(fault: LineFault) -> Stop {
        match fault {
            LineFault::Failed => Stop::ReadFault,
            LineFault::NoMemory => Stop::NoMemory,
        }
    }
}

impl<K: Keeper, G: Ledger, N: Numbering> Session<K, G, N> {
    /// Does what the bytes of a line ask for. False if the session ends with it. The reader
    /// promises their number only if the bytes of its source are known, so it is looked at here.
    fn whole_line<O: Sink, L: Launcher, C: Clock, F: Files>(
        &mut self,
        ends: &mut Ends<O, L, C, F>,
        line: &[u8],
    ) -> Result<bool, Stop>
        ensures part { let see = seen K.known O.written L.runs C.readings F.held in
            Plays (line_part (counting N.shows) (text_line line.now))
            (see self.old ends.old) (see self.new ends.new) result }
        ensures more { IfOk result (λ more. more ≡ not (is_quit (text_line line.now))) }
        ensures cause { let count = counts K.faults O.faults F.faults in
            Causes (count self.old ends.old) (count self.new ends.new) result }
    {
        if line.len() > LINE_LENGTH {
            return refuse_line(&mut ends.out, b"refused line too long\n");
        }
        self.one_line(ends, line)
    }

    /// Does what is asked for by a line that was read. False if the session ends with it, or if
    /// the input has ended.
    fn next_line<O: Sink, L: Launcher, C: Clock, F: Files>(
        &mut self,
        ends: &mut Ends<O, L, C, F>,
        line: &Line,
    ) -> Result<bool, Stop>
        ensures part { let see = seen K.known O.written L.runs C.readings F.held in
            Plays (read_part (counting N.shows) line.now)
            (see self.old ends.old) (see self.new ends.new) result }
        ensures more { IfOk result (λ more. more ≡ goes_on line.now) }
        ensures cause { let count = counts K.faults O.faults F.faults in
            Causes (count self.old ends.old) (count self.new ends.new) result }
    {
        match line {
            Line::End => Ok(false),
            Line::TooLong => refuse_line(&mut ends.out, b"refused line too long\n"),
            Line::Whole(bytes) => self.whole_line(ends, bytes.as_slice()),
        }
    }

    /// Does what the lines of the input ask for, up to its end or to the word that ends it.
    pub(crate) fn all_lines<S: Source, O: Sink, L: Launcher, C: Clock, F: Files>(
        &mut self,
        ends: &mut Ends<O, L, C, F>,
        input: &mut S,
    ) -> Result<(), Stop>
        ensures lines { let see = seen K.known O.written L.runs C.readings F.held in
            DoesLines (counting N.shows) (S.left input.old)
            (see self.old ends.old) (see self.new ends.new) result }
        ensures version { let see = seen K.known O.written L.runs C.readings F.held in
            IfOk result (λ _. CountsLines (counting N.shows) (S.left input.old)
            (see self.old ends.old) (see self.new ends.new) self.new.desk.engine.core.version) }
        ensures cause { let count = counts K.faults O.faults F.faults in
            LinesCause (S.faults input.old) (S.faults input.new)
            (count self.old ends.old) (count self.new ends.new) result }
    {
        let mut reader = LineReader::new(self.alloc);
        let mut left = LINE_LIMIT;
        // The label names the loop for the proofs.
        'lines: loop {
            let line = reader.next(input)?;
            if !self.next_line(ends, &line)? {
                return Ok(());
            }
            left -= 1;
            if left == 0 {
                return Err(Stop::LimitReached);
            }
        }
    }
}
