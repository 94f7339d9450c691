//! The events of a session.
ghost use Rattle.std.specs.Prelude.{◌≡◌, None, IfErr, IfOk, IfSome, OnErr};
ghost use Rattle.engine_rules.specs.Proper.{IsProperWhat};
ghost use Rattle.report_text.specs.Lines.{refusal_words, refused_line, reply_text};
ghost use Rattle.session_rules.specs.Steps as part;
ghost use Rattle.session_core.specs.Numbers.{CountsSince, counting, number};
ghost use Rattle.session_core.specs.Doing.{Causes, Plays, counts, seen};
ghost use Rattle.session_core.specs.Printing.{IsUnprinted, PrintCause, Writes};
ghost use Rattle.session_core.specs.Answers.{accepted_note, answer_of, news};
ghost use Rattle.session_core.specs.Watched.{KeepsProgram};

use crate::ends::Ends;
use crate::numbering::Numbering;
use crate::session::Session;
use crate::stop::Stop;
use core_rules::{Done, Event, Note, Refusal, What};
use desk_core::DeskFault;
use io_ends::{Clock, Files, Sink, write_all};
use keeper_core::Keeper;
use launch_core::Launcher;
use report_text::{refusal_line, version_lines};
use std::alloc::Global;
use std::sync::ledger::Ledger;

/// Writes a text.
pub(crate) fn print<O: Sink>(out: &mut O, text: &[u8]) -> Result<(), Stop>
    ensures text { Writes text.now (O.written out.old) (O.written out.new) result }
    ensures cause { PrintCause (O.faults out.old) (O.faults out.new) result }
{
    Ok(write_all(out, text)?)
}

/// Writes the line of a refusal, or stops if it has none. There is no note.
fn refuse<O: Sink>(alloc: Global, out: &mut O, refusal: Refusal) -> Result<Option<Note>, Stop>
    ensures line { IfSome (refusal_words refusal) (λ why.
        Writes (refused_line why) (O.written out.old) (O.written out.new) result) }
    ensures none { refusal_words refusal ≡ None → IsUnprinted out.old out.new result }
    ensures note { IfOk result (λ note. note ≡ None) }
    ensures cause { PrintCause (O.faults out.old) (O.faults out.new) result }
{
    match refusal {
        Refusal::NumbersUsed | Refusal::NoMemory => Err(Stop::LimitReached),
        refusal => {
            print(out, refusal_line(alloc, refusal)?.as_slice())?;
            Ok(None)
        }
    }
}

/// The note, unless it says that nothing changed.
fn news(note: Note) -> Option<Note>
    ensures { result ≡ news note }
{
    match note {
        Note::Nothing | Note::Ignored => None,
        note => Some(note),
    }
}

impl<K: Keeper, G: Ledger, N: Numbering> Session<K, G, N> {
    /// How many terms were evaluated since the counter showed a number. A counter that is full
    /// can't tell.
    pub(crate) fn evaluated_since(&self, before: u64) -> Result<u64, Stop>
        ensures ok { IfOk result (CountsSince before self.now.ticks) }
        ensures only { IfErr result (λ stop. stop ≡ Stop.NoMemory) }
    {
        match self.ticks.shown() {
            u64::MAX => Err(Stop::NoMemory),
            now => Ok(now.saturating_sub(before)),
        }
    }

    /// Writes the lines of a step that evaluated so many terms. Returns its note, unless nothing
    /// changed.
    pub(crate) fn show<O: Sink>(
        &self,
        out: &mut O,
        done: Done,
        evaluated: u64,
    ) -> Result<Option<Note>, Stop>
        ensures text { let program = self.now.desk.engine.core.program in
            let text = reply_text program done (number N.shows evaluated) in
            Writes text (O.written out.old) (O.written out.new) result }
        ensures note { IfOk result (λ note. note ≡ news done.note) }
        ensures cause { PrintCause (O.faults out.old) (O.faults out.new) result }
    {
        let program = self.desk.engine().program();
        let Ok(text) = version_lines(self.alloc, program, &done, N::number(evaluated)) else {
            return Err(Stop::NoMemory);
        };
        print(out, text.as_slice())?;
        Ok(news(done.note))
    }

    /// Makes an event at the last reading: its commit, and its lines. Returns the note of an
    /// accepted event.
    pub(crate) fn make_step<O: Sink, L: Launcher, C: Clock, F: Files>(
        &mut self,
        ends: &mut Ends<O, L, C, F>,
        what: What,
    ) -> Result<Option<Note>, Stop>
        requires { IsProperWhat what }
        ensures part { let see = seen K.known O.written L.runs C.readings F.held in
            Plays (part.event (counting N.shows) what)
            (see self.old ends.old) (see self.new ends.new) result }
        ensures program { KeepsProgram self.old self.new }
        ensures note { let answer = answer_of self.old.desk self.old.last what in
            IfOk result (λ note. note ≡ accepted_note answer) }
        ensures cause { let count = counts K.faults O.faults F.faults in
            Causes (count self.old ends.old) (count self.new ends.new) result }
    {
        let event = Event {
            at: self.last,
            what,
        };
        let before = self.ticks.shown();
        match self.desk.apply(event, &mut self.ticks) {
            Ok(done) => {
                let evaluated = self.evaluated_since(before)?;
                self.show(&mut ends.out, done, evaluated)
            }
            Err(DeskFault::Refused(refusal)) => refuse(self.alloc, &mut ends.out, refusal),
            Err(DeskFault::NoMemory) => Err(Stop::NoMemory),
            Err(DeskFault::Keeper) => Err(Stop::KeeperFault),
            Err(DeskFault::Closed(_)) => Err(Stop::KeeperFault),
            Err(DeskFault::BadRow(..)) => Err(Stop::KeeperFault),
        }
    }
}
