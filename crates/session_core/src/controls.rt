//! What a line asks for.
ghost use Rattle.std.specs.Prelude.{◌≡◌, ◌≤◌, IfOk, Some, length, not, true};
ghost use Rattle.io_ends.specs.Lines.{Bytes, line_limit};
ghost use Rattle.engine_rules.specs.Proper.{IsProperWhat};
ghost use Rattle.report_text.specs.declared.controls.Control.TheVariants as control;
ghost use Rattle.session_rules.specs.Transcripts.{asked_part, event_now, is_end, is_quit, line_part};
ghost use Rattle.session_core.specs.Doing.{Causes, Plays, counts, seen};
ghost use Rattle.session_core.specs.Numbers.{counting};
ghost use Rattle.session_core.specs.Printing.{PrintCause, Writes};
ghost use Rattle.session_core.specs.inside.ReadLines.{IsProperControl, noted_orders, watched_part};

use crate::ends::Ends;
use crate::numbering::Numbering;
use crate::session::Session;
use crate::steps::print;
use crate::stop::Stop;
use core_rules::{Note, What};
use io_ends::{Clock, Files, Sink};
use keeper_core::Keeper;
use launch_core::Launcher;
use report_text::{Control, ControlFault, read_control};
use std::sync::ledger::Ledger;

/// Writes the line of a refusal, after which the session goes on.
pub(crate) fn refuse_line<O: Sink>(out: &mut O, text: &[u8]) -> Result<bool, Stop>
    ensures text { Writes text.now (O.written out.old) (O.written out.new) result }
    ensures more { IfOk result (λ more. more ≡ true) }
    ensures cause { PrintCause (O.faults out.old) (O.faults out.new) result }
{
    print(out, text)?;
    Ok(true)
}

/// Whether the session goes on after a control.
fn goes_on(control: &Control) -> bool
    ensures { result ≡ not (is_end (Some control.now)) }
{
    match control {
        Control::Quit => false,
        Control::Empty => true,
        Control::Event(_) => true,
        Control::Poll => true,
        Control::Jobs => true,
    }
}

impl<K: Keeper, G: Ledger, N: Numbering> Session<K, G, N> {
    /// Runs the orders after an event, if it has a note since it was accepted.
    fn follow<O: Sink, L: Launcher, C: Clock, F: Files>(
        &mut self,
        ends: &mut Ends<O, L, C, F>,
        note: &Option<Note>,
    ) -> Result<(), Stop>
        ensures part { let see = seen K.known O.written L.runs C.readings F.held in
            Plays (noted_orders (counting N.shows) note.now)
            (see self.old ends.old) (see self.new ends.new) result }
        ensures cause { let count = counts K.faults O.faults F.faults in
            Causes (count self.old ends.old) (count self.new ends.new) result }
    {
        match note {
            Some(_) => self.all_orders(ends),
            None => Ok(()),
        }
    }

    /// Makes an event at the last reading, and runs the orders after it if it was accepted.
    fn event_now<O: Sink, L: Launcher, C: Clock, F: Files>(
        &mut self,
        ends: &mut Ends<O, L, C, F>,
        what: What,
    ) -> Result<(), Stop>
        requires { IsProperWhat what }
        ensures part { let see = seen K.known O.written L.runs C.readings F.held in
            Plays (event_now (counting N.shows) what)
            (see self.old ends.old) (see self.new ends.new) result }
        ensures cause { let count = counts K.faults O.faults F.faults in
            Causes (count self.old ends.old) (count self.new ends.new) result }
    {
        let note = self.make_step(ends, what)?;
        self.follow(ends, &note)
    }

    /// Makes the event of a line, at the next reading.
    fn asked_event<O: Sink, L: Launcher, C: Clock, F: Files>(
        &mut self,
        ends: &mut Ends<O, L, C, F>,
        what: What,
    ) -> Result<(), Stop>
        requires { IsProperWhat what }
        ensures part { let see = seen K.known O.written L.runs C.readings F.held in
            Plays (asked_part (counting N.shows) (Some (control.Event what)))
            (see self.old ends.old) (see self.new ends.new) result }
        ensures cause { let count = counts K.faults O.faults F.faults in
            Causes (count self.old ends.old) (count self.new ends.new) result }
    {
        self.last = ends.clock.read_ms();
        self.event_now(ends, what)
    }

    /// Looks at the watched files at the last reading, and runs the orders after that.
    fn watch_now<O: Sink, L: Launcher, C: Clock, F: Files>(
        &mut self,
        ends: &mut Ends<O, L, C, F>,
    ) -> Result<(), Stop>
        ensures part { let see = seen K.known O.written L.runs C.readings F.held in
            Plays (watched_part (counting N.shows))
            (see self.old ends.old) (see self.new ends.new) result }
        ensures cause { let count = counts K.faults O.faults F.faults in
            Causes (count self.old ends.old) (count self.new ends.new) result }
    {
        self.watch_all(ends)?;
        self.all_orders(ends)
    }

    /// Looks at the watched files at the next reading.
    fn poll<O: Sink, L: Launcher, C: Clock, F: Files>(
        &mut self,
        ends: &mut Ends<O, L, C, F>,
    ) -> Result<(), Stop>
        ensures part { let see = seen K.known O.written L.runs C.readings F.held in
            Plays (asked_part (counting N.shows) (Some control.Poll))
            (see self.old ends.old) (see self.new ends.new) result }
        ensures cause { let count = counts K.faults O.faults F.faults in
            Causes (count self.old ends.old) (count self.new ends.new) result }
    {
        self.last = ends.clock.read_ms();
        self.watch_now(ends)
    }

    /// Does what a control asks for. The one that ends the session does nothing.
    fn do_control<O: Sink, L: Launcher, C: Clock, F: Files>(
        &mut self,
        ends: &mut Ends<O, L, C, F>,
        control: Control,
    ) -> Result<(), Stop>
        requires { IsProperControl control }
        ensures part { let see = seen K.known O.written L.runs C.readings F.held in
            Plays (asked_part (counting N.shows) (Some control))
            (see self.old ends.old) (see self.new ends.new) result }
        ensures cause { let count = counts K.faults O.faults F.faults in
            Causes (count self.old ends.old) (count self.new ends.new) result }
    {
        match control {
            Control::Event(what) => self.asked_event(ends, what),
            Control::Poll => self.poll(ends),
            Control::Jobs => self.list_jobs(&mut ends.out),
            Control::Empty => Ok(()),
            Control::Quit => Ok(()),
        }
    }

    /// Does what a line asks for. False if the session ends with it.
    pub(crate) fn one_line<O: Sink, L: Launcher, C: Clock, F: Files>(
        &mut self,
        ends: &mut Ends<O, L, C, F>,
        line: &[u8],
    ) -> Result<bool, Stop>
        requires { length line.now ≤ line_limit }
        ensures part { let see = seen K.known O.written L.runs C.readings F.held in
            Plays (line_part (counting N.shows) (Bytes line.now))
            (see self.old ends.old) (see self.new ends.new) result }
        ensures more { IfOk result (λ more. more ≡ not (is_quit (Bytes line.now))) }
        ensures cause { let count = counts K.faults O.faults F.faults in
            Causes (count self.old ends.old) (count self.new ends.new) result }
    {
        match read_control(self.alloc, line) {
            Ok(control) => {
                let more = goes_on(&control);
                self.do_control(ends, control)?;
                Ok(more)
            }
            Err(ControlFault::Syntax) => refuse_line(&mut ends.out, b"refused syntax\n"),
            Err(ControlFault::NoMemory) => Err(Stop::NoMemory),
        }
    }
}
