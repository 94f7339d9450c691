//! A whole session.
ghost use Rattle.std.specs.Prelude.{◌≡◌, ◌<◌, Err, Ok, IfOk, MatchResult};
ghost use Rattle.core_rules.specs.Entries.{fresh_of};
ghost use Rattle.core_rules.specs.Openings.{opening_reply};
ghost use Rattle.session_core.specs.Doing.{Causes, Plays, counts, seen};
ghost use Rattle.session_core.specs.Lines.{LinesCause};
ghost use Rattle.session_core.specs.Numbers.{counting};
ghost use Rattle.session_core.specs.Runs.{IsCountedOn, IsEndCaused, IsSessionOn};
ghost use Rattle.session_core.specs.Runs.{Subject, faults_of, given_by, outside};
ghost use Rattle.session_core.specs.inside.Opening as opening;

use crate::ends::Ends;
use crate::numbering::Numbering;
use crate::session::Session;
use crate::stop::Stop;
use core_rules::Done;
use desk_core::{Desk, DeskFault};
use io_ends::{Clock, Files, Sink, Source};
use keeper_core::Keeper;
use launch_core::Launcher;
use op_keys::Level;
use session_rules::SessionEnd;
use std::alloc::Global;
use std::marker::{Brand, PhantomData};
use std::sync::ledger::{Blank, Ledger};
use term_check::Checked;
use value_core::Steps;

/// What a session begins with.
#[derive(Drop)]
pub struct Start<K> {
    pub checked: Checked,
    pub keeper: K,
    /// Operations from this level on wait to be confirmed; without it none does.
    pub threshold: Option<Level>,
}

/// The end of a session whose desk wasn't opened.
fn end_of_fault(fault: DeskFault) -> SessionEnd
    ensures { result ≡ opening.end_of_fault fault }
{
    match fault {
        DeskFault::Refused(_) => SessionEnd::LimitReached,
        DeskFault::Keeper => SessionEnd::KeeperFault,
        DeskFault::BadRow(table, n) => SessionEnd::BadRow(table, n),
        DeskFault::Closed(_) => SessionEnd::KeeperFault,
        DeskFault::NoMemory => SessionEnd::NoMemory,
    }
}

/// The end of a session that was run, or stopped.
fn end_of_run(run: Result<(), Stop>) -> SessionEnd
    ensures { MatchResult run (λ _. result ≡ SessionEnd.Quit)
        (λ stop. result ≡ opening.end_of_stop stop) }
{
    match run {
        Ok(()) => SessionEnd::Quit,
        Err(Stop::ReadFault) => SessionEnd::ReadFault,
        Err(Stop::WriteFault) => SessionEnd::WriteFault,
        Err(Stop::KeeperFault) => SessionEnd::KeeperFault,
        Err(Stop::NoMemory) => SessionEnd::NoMemory,
        Err(Stop::LimitReached) => SessionEnd::LimitReached,
    }
}

impl<K: Keeper, G: Ledger, N: Numbering> Session<K, G, N> {
    /// Writes the lines of version 1.
    fn show_opening<O: Sink, L: Launcher, C: Clock, F: Files>(
        &self,
        ends: &mut Ends<O, L, C, F>,
        done: Done,
    ) -> Result<(), Stop>
        requires reply { done ≡ opening_reply self.now.desk.engine.core }
        requires ticks { self.now.ticks ≡ (fresh_of self.now.desk.engine.core).ticks }
        ensures part { let see = seen K.known O.written L.runs C.readings F.held in
            Plays (opening.opening_lines (counting N.shows))
            (see self.now ends.old) (see self.now ends.new) result }
        ensures cause { let count = counts K.faults O.faults F.faults in
            Causes (count self.now ends.old) (count self.now ends.new) result }
    {
        let evaluated = self.evaluated_since(0)?;
        let _note = self.show(&mut ends.out, done, evaluated)?;
        Ok(())
    }

    /// Writes the lines of version 1, sets the inputs that have files, and runs orders.
    fn begin<O: Sink, L: Launcher, C: Clock, F: Files>(
        &mut self,
        ends: &mut Ends<O, L, C, F>,
        done: Done,
    ) -> Result<(), Stop>
        requires reply { done ≡ opening_reply self.old.desk.engine.core }
        requires ticks { self.old.ticks ≡ (fresh_of self.old.desk.engine.core).ticks }
        ensures part { let see = seen K.known O.written L.runs C.readings F.held in
            Plays (opening.after_commit (counting N.shows))
            (see self.old ends.old) (see self.new ends.new) result }
        ensures cause { let count = counts K.faults O.faults F.faults in
            Causes (count self.old ends.old) (count self.new ends.new) result }
    {
        self.show_opening(ends, done)?;
        self.watch_all(ends)?;
        self.all_orders(ends)
    }

    /// Does all that follows the commit of the opening.
    fn run<S: Source, O: Sink, L: Launcher, C: Clock, F: Files>(
        &mut self,
        ends: &mut Ends<O, L, C, F>,
        input: &mut S,
        done: Done,
    ) -> Result<(), Stop>
        requires reply { done ≡ opening_reply self.old.desk.engine.core }
        requires ticks { self.old.ticks ≡ (fresh_of self.old.desk.engine.core).ticks }
        ensures script { let see = seen K.known O.written L.runs C.readings F.held in
            opening.DoesCommitted (counting N.shows) (S.left input.old)
            (see self.old ends.old) (see self.new ends.new) result }
        ensures version { let see = seen K.known O.written L.runs C.readings F.held in
            IfOk result (λ _. opening.CountsCommitted (counting N.shows) (S.left input.old)
            (see self.old ends.old) (see self.new ends.new) self.new.desk.engine.core.version) }
        ensures cause { let count = counts K.faults O.faults F.faults in
            LinesCause (S.faults input.old) (S.faults input.new)
            (count self.old ends.old) (count self.new ends.new) result }
    {
        self.begin(ends, done)?;
        self.all_lines(ends, input)
    }
}

/// A session that counts its evaluations in a ledger.
fn counted_session<
    S: Source,
    K: Keeper,
    O: Sink,
    L: Launcher,
    C: Clock,
    F: Files,
    N: Numbering,
    G: Ledger,
>(
    start: Start<K>,
    input: &mut S,
    ends: &mut Ends<O, L, C, F>,
    alloc: Global,
    blank: Blank,
) -> (K, SessionEnd, u64)
    requires name { blank.name ≡ G.name }
    requires parts { blank.parts ≡ G.parts }
    requires some { 0 < blank.parts }
    ensures session { let out = outside K.known O.written L.runs in
        let given = given_by S.left C.readings F.held input.old ends.old in
        let subject : Subject = record {
          program = start.checked;
          threshold = start.threshold;
          counting = counting N.shows;
        } in
        IsSessionOn subject given result.1 (out start.keeper ends.old) (out result.0 ends.new) }
    ensures version { let out = outside K.known O.written L.runs in
        let given = given_by S.left C.readings F.held input.old ends.old in
        let subject : Subject = record {
          program = start.checked;
          threshold = start.threshold;
          counting = counting N.shows;
        } in
        IsCountedOn subject given result.1 result.2
        (out start.keeper ends.old) (out result.0 ends.new) }
    ensures cause { let faults = faults_of S.faults K.faults O.faults F.faults in
        IsEndCaused result.1 (faults input.old start.keeper ends.old)
        (faults input.new result.0 ends.new) }
{
    let Start {
        checked,
        keeper,
        threshold,
    } = start;
    let mut ticks: Steps<G> = Steps::new(blank);
    let last = ends.clock.read_ms();
    match Desk::open(alloc, checked, keeper, threshold, last, &mut ticks) {
        Ok((desk, done)) => {
            let mut session: Session<K, G, N> = Session {
                alloc,
                desk,
                ticks,
                last,
                numbering: PhantomData,
            };
            let run = session.run(ends, input, done);
            let version = session.desk.engine().version();
            (session.desk.into_keeper(), end_of_run(run), version)
        }
        Err((keeper, fault)) => (keeper, end_of_fault(fault), 0),
    }
}

/// Opens the desk, and then does what the lines of the input ask for. At each end it hands the
/// keeper back, with the version of the desk; without a desk that is 0.
pub fn run_session<S: Source, K: Keeper, O: Sink, L: Launcher, C: Clock, F: Files, N: Numbering>(
    alloc: Global,
    start: Start<K>,
    input: &mut S,
    ends: &mut Ends<O, L, C, F>,
) -> (K, SessionEnd, u64)
    ensures session { let out = outside K.known O.written L.runs in
        let given = given_by S.left C.readings F.held input.old ends.old in
        let subject : Subject = record {
          program = start.checked;
          threshold = start.threshold;
          counting = counting N.shows;
        } in
        IsSessionOn subject given result.1 (out start.keeper ends.old) (out result.0 ends.new) }
    ensures version { let out = outside K.known O.written L.runs in
        let given = given_by S.left C.readings F.held input.old ends.old in
        let subject : Subject = record {
          program = start.checked;
          threshold = start.threshold;
          counting = counting N.shows;
        } in
        IsCountedOn subject given result.1 result.2
        (out start.keeper ends.old) (out result.0 ends.new) }
    ensures cause { let faults = faults_of S.faults K.faults O.faults F.faults in
        IsEndCaused result.1 (faults input.old start.keeper ends.old)
        (faults input.new result.0 ends.new) }
{
    counted_session::<S, K, O, L, C, F, N, Brand>(start, input, ends, alloc, Blank::new(1))
}
