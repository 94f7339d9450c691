//! The orders that workers take.
ghost use Rattle.std.specs.Prelude.{◌≡◌, None, Some, IfSome};
ghost use Rattle.core_rules.specs.declared.notes.Note.TheVariants as note;
ghost use Rattle.launch_core.specs.Launching.{HasWords};
ghost use Rattle.session_rules.specs.Steps as part;
ghost use Rattle.session_core.specs.Numbers.{counting};
ghost use Rattle.session_core.specs.Doing.{Causes, Plays, counts, seen};
ghost use Rattle.session_core.specs.Orders.{HasNoteWords, run_noted};

use crate::ends::Ends;
use crate::numbering::Numbering;
use crate::session::Session;
use crate::steps::print;
use crate::stop::Stop;
use core_rules::{Note, What};
use engine_core::engine_law;
use io_ends::{Clock, Files, Sink};
use keeper_core::Keeper;
use launch_core::Launcher;
use op_keys::{Exit, Order};
use report_text::paused_line;
use std::sync::ledger::Ledger;

/// So many orders are run for one line at most.
const ORDER_LIMIT: u32 = 1000;

impl<K: Keeper, G: Ledger, N: Numbering> Session<K, G, N> {
    /// The end of an order, at the next reading.
    fn end_order<O: Sink, L: Launcher, C: Clock, F: Files>(
        &mut self,
        ends: &mut Ends<O, L, C, F>,
        job: u64,
        exit: Exit,
    ) -> Result<(), Stop>
        ensures part { let see = seen K.known O.written L.runs C.readings F.held in
            Plays (part.end_of (counting N.shows) job exit)
            (see self.old ends.old) (see self.new ends.new) result }
        ensures cause { let count = counts K.faults O.faults F.faults in
            Causes (count self.old ends.old) (count self.new ends.new) result }
    {
        self.last = ends.clock.read_ms();
        let _note = self.make_step(ends, What::Finish { job, exit })?;
        Ok(())
    }

    /// Runs an order to its end.
    fn run_order<O: Sink, L: Launcher, C: Clock, F: Files>(
        &mut self,
        ends: &mut Ends<O, L, C, F>,
        order: &Order,
    ) -> Result<(), Stop>
        requires { HasWords order.now }
        ensures part { let see = seen K.known O.written L.runs C.readings F.held in
            Plays (part.run_of (counting N.shows) (note.Started order.now))
            (see self.old ends.old) (see self.new ends.new) result }
        ensures cause { let count = counts K.faults O.faults F.faults in
            Causes (count self.old ends.old) (count self.new ends.new) result }
    {
        let exit = ends.launcher.run(self.alloc, order)?;
        self.end_order(ends, order.job, exit)
    }

    /// Runs what a note says that a worker took.
    fn run_noted<O: Sink, L: Launcher, C: Clock, F: Files>(
        &mut self,
        ends: &mut Ends<O, L, C, F>,
        note: &Note,
    ) -> Result<(), Stop>
        requires { HasNoteWords note.now }
        ensures part { let see = seen K.known O.written L.runs C.readings F.held in
            Plays (part.run_of (counting N.shows) note.now)
            (see self.old ends.old) (see self.new ends.new) result }
        ensures cause { let count = counts K.faults O.faults F.faults in
            Causes (count self.old ends.old) (count self.new ends.new) result }
    {
        match note {
            Note::Started(order) => self.run_order(ends, order),
            Note::Plain => Ok(()),
            Note::Ended { .. } => Ok(()),
            Note::Nothing => Ok(()),
            Note::Ignored => Ok(()),
        }
    }

    /// Runs what a worker took, if its event was accepted.
    fn run_taken<O: Sink, L: Launcher, C: Clock, F: Files>(
        &mut self,
        ends: &mut Ends<O, L, C, F>,
        note: &Option<Note>,
    ) -> Result<(), Stop>
        requires { IfSome note.now HasNoteWords }
        ensures part { let see = seen K.known O.written L.runs C.readings F.held in
            Plays (run_noted (counting N.shows) note.now)
            (see self.old ends.old) (see self.new ends.new) result }
        ensures cause { let count = counts K.faults O.faults F.faults in
            Causes (count self.old ends.old) (count self.new ends.new) result }
    {
        match note {
            Some(note) => self.run_noted(ends, note),
            None => Ok(()),
        }
    }

    /// The worker takes its pick, which is run to its end.
    fn one_order<O: Sink, L: Launcher, C: Clock, F: Files>(
        &mut self,
        ends: &mut Ends<O, L, C, F>,
        worker: u32,
    ) -> Result<(), Stop>
        ensures part { let see = seen K.known O.written L.runs C.readings F.held in
            Plays (part.one_order (counting N.shows) worker)
            (see self.old ends.old) (see self.new ends.new) result }
        ensures cause { let count = counts K.faults O.faults F.faults in
            Causes (count self.old ends.old) (count self.new ends.new) result }
    {
        engine_law(self.desk.engine());
        let note = self.make_step(ends, What::Take(worker))?;
        self.run_taken(ends, &note)
    }

    /// Says that orders are left for later, if a worker still has a pick.
    fn pause<O: Sink, L: Launcher, C: Clock, F: Files>(
        &mut self,
        ends: &mut Ends<O, L, C, F>,
    ) -> Result<(), Stop>
        ensures part { let see = seen K.known O.written L.runs C.readings F.held in
            Plays (part.orders (counting N.shows) 0)
            (see self.old ends.old) (see self.new ends.new) result }
        ensures cause { let count = counts K.faults O.faults F.faults in
            Causes (count self.old ends.old) (count self.new ends.new) result }
    {
        match self.free_worker() {
            Some(_) => print(&mut ends.out, paused_line()),
            None => Ok(()),
        }
    }

    /// Orders one after the other, each of the first worker that has a pick: 1,000 at most.
    pub fn all_orders<O: Sink, L: Launcher, C: Clock, F: Files>(
        &mut self,
        ends: &mut Ends<O, L, C, F>,
    ) -> Result<(), Stop>
        ensures part { let see = seen K.known O.written L.runs C.readings F.held in
            Plays (part.all_orders (counting N.shows))
            (see self.old ends.old) (see self.new ends.new) result }
        ensures cause { let count = counts K.faults O.faults F.faults in
            Causes (count self.old ends.old) (count self.new ends.new) result }
    {
        let mut left = ORDER_LIMIT;
        while left > 0 {
            let Some(worker) = self.free_worker() else {
                return Ok(());
            };
            self.one_order(ends, worker)?;
            left -= 1;
        }
        self.pause(ends)
    }
}
