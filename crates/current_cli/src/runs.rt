//! The command `run`.
ghost use Rattle.std.specs.Prelude.{◌≡◌, ◌≢◌, option_map};
ghost use Rattle.io_ends.specs.Causes.{Rose};
ghost use Rattle.session_core.specs.Numbers.{counting};
ghost use Rattle.session_core.specs.Runs.{IsEndCaused, IsSessionOn, Subject, faults_of, outside};
ghost use Rattle.session_core.specs.Runs.{given_by as session_given};
ghost use Rattle.session_rules.specs.Commands.{Sound};
ghost use Rattle.session_rules.specs.Runs.{IsRun, IsRunOn};
ghost use Rattle.store_reports.specs.Causes.{IsCaused};
ghost use Rattle.store_reports.specs.Ends.{side_of};
ghost use Rattle.current_cli.specs.Calls.{counts_by, given_by, seen_by};
ghost use Rattle.current_cli.specs.Files.{IsFile};
ghost use Rattle.current_cli.specs.inside.Parts.{TellsEnd};

use crate::ends::ProgramEnds;
use crate::programs::find_program;
use command_words::PathText;
use io_ends::{Clock, Files, Sink, Source};
use keeper_core::{Keeper, Keepers};
use launch_core::Launcher;
use op_keys::Level;
use report_text::limit_line;
use session_core::{Ends, Numbered, Start, Unnumbered, run_session};
use session_rules::SessionEnd;
use std::alloc::Global;
use store_reports::{fault_status, tell, tell_bad_row};
use term_check::Checked;

/// How a session is run.
#[derive(Drop)]
pub(crate) struct RunOptions {
    /// The path of the store; without one, one in memory.
    pub store: Option<PathText>,
    /// Operations from this level on wait to be confirmed.
    pub threshold: Option<Level>,
    /// Each version ends with the number of evaluations.
    pub count: bool,
}

impl RunOptions {
    fn path(&self) -> Option<&str>
        ensures { option_map (λ s. s.now) result ≡ self.now.store }
    {
        match &self.store {
            Some(path) => Some(path.as_str()),
            None => None,
        }
    }
}

/// Tells the end of a session, and answers its status.
fn tell_end<O: Sink>(alloc: Global, end: SessionEnd, out: &mut O) -> u8
    ensures { let side = side_of O.written O.faults in
        TellsEnd end result (side out.old) (side out.new) }
{
    match end {
        SessionEnd::Quit => 0,
        SessionEnd::ReadFault => 4,
        SessionEnd::WriteFault => 5,
        SessionEnd::KeeperFault => 6,
        SessionEnd::NoMemory => 7,
        SessionEnd::LimitReached => tell(out, limit_line(), 8),
        SessionEnd::BadRow(table, number) => tell_bad_row(alloc, table, number, out),
    }
}

/// A session that shows its numbers of evaluations, or leaves them out.
fn counted_session<S: Source, K: Keeper, O: Sink, L: Launcher, C: Clock, F: Files>(
    alloc: Global,
    start: Start<K>,
    count: bool,
    input: &mut S,
    ends: &mut Ends<O, L, C, F>,
) -> (K, SessionEnd, u64)
    ensures session { let subject : Subject = record {
      program = start.checked;
      threshold = start.threshold;
      counting = counting count;
    } in
        let given = session_given S.left C.readings F.held input.old ends.old in
        let see = outside K.known O.written L.runs in
        IsSessionOn subject given result.1 (see start.keeper ends.old) (see result.0 ends.new) }
    ensures cause { let count = faults_of S.faults K.faults O.faults F.faults in
        IsEndCaused result.1 (count input.old start.keeper ends.old)
        (count input.new result.0 ends.new) }
{
    if count {
        run_session::<_, _, _, _, _, _, Numbered>(alloc, start, input, ends)
    } else {
        run_session::<_, _, _, _, _, _, Unnumbered>(alloc, start, input, ends)
    }
}

impl<S: Source, M: Keepers, O: Sink, L: Launcher, C: Clock, F: Files> ProgramEnds<
    S,
    M,
    O,
    L,
    C,
    F,
> {
    /// Runs a session on a program, over its store, which is given back before the end is reported.
    fn run_program(&mut self, alloc: Global, checked: Checked, options: RunOptions) -> u8
        ensures run { let given = given_by S.left M.held C.readings F.held self.old in
            let see = seen_by M.knows_left M.left O.written L.runs in
            IsRunOn (Sound checked) options.store options.threshold (counting options.count)
            given result (see self.old) (see self.new) }
        ensures cause { let count = counts_by S.faults M.faults O.faults F.faults in
            IsCaused result (count self.old) (count self.new) }
        ensures no_usage { result ≢ 2 }
        ensures no_refusal { result ≢ 3 }
    {
        let keeper = match self.keepers.open(alloc, options.path()) {
            Ok(keeper) => keeper,
            Err(fault) => return fault_status(fault),
        };
        let start = Start {
            checked,
            keeper,
            threshold: options.threshold,
        };
        let (keeper, end, _version) = counted_session(
            alloc,
            start,
            options.count,
            &mut self.input,
            &mut self.ends,
        );
        self.keepers.give_back(keeper);
        tell_end(alloc, end, &mut self.ends.out)
    }

    /// Runs a session on the pipeline of a file.
    pub(crate) fn run(&mut self, alloc: Global, path: &str, options: RunOptions) -> u8
        ensures run { let given = given_by S.left M.held C.readings F.held self.old in
            let see = seen_by M.knows_left M.left O.written L.runs in
            IsRun IsFile path.now options.store options.threshold (counting options.count)
            given result (see self.old) (see self.new) }
        ensures cause { let count = counts_by S.faults M.faults O.faults F.faults in
            IsCaused result (count self.old) (count self.new) }
        ensures missing { result ≡ 2 →
            Rose (F.misses self.old.ends.files) (F.misses self.new.ends.files) }
    {
        match find_program(alloc, path, &mut self.ends) {
            Ok(checked) => self.run_program(alloc, checked, options),
            Err(status) => status,
        }
    }
}
