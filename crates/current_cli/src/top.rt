//! All that the program does.
ghost use Rattle.std.specs.Prelude.{◌≡◌, ◌≢◌, ◌⊎◌, None, Some, Ok, IsTrue, map, string_bytes};
ghost use Rattle.command_words.specs.Commands.{IsInRange, command_of};
ghost use Rattle.command_words.specs.declared.command.Command.TheVariants as command;
ghost use Rattle.session_rules.specs.Runs.{IsReport};
ghost use Rattle.store_reports.specs.Causes.{IsCaused};
ghost use Rattle.store_reports.specs.Questions.{LacksLogAt, question_plan};
ghost use Rattle.current_cli.specs.Calls.{CanBeDone, IsCall, IsWhole, NoneRose, OpensStore};
ghost use Rattle.current_cli.specs.Calls.{ReadsFile, RunsSession, UsageCause};
ghost use Rattle.current_cli.specs.Calls.{counts_by, given_by, seen_by};

use crate::ends::ProgramEnds;
use crate::programs::check;
use crate::runs::RunOptions;
use command_words::{Command, PathText, read_words};
use io_ends::{Clock, Files, Sink, Source};
use keeper_core::Keepers;
use launch_core::Launcher;
use made_session::make;
use std::alloc::Global;
use store_reports::{Question, migrate, report, tell};

impl<S: Source, M: Keepers, O: Sink, L: Launcher, C: Clock, F: Files> ProgramEnds<
    S,
    M,
    O,
    L,
    C,
    F,
> {
    fn usage(&mut self) -> u8
        ensures run { let given = given_by S.left M.held C.readings F.held self.old in
            let see = seen_by M.knows_left M.left O.written L.runs in
            IsCall None given result (see self.old) (see self.new) }
        ensures cause { let count = counts_by S.faults M.faults O.faults F.faults in
            IsCaused result (count self.old) (count self.new) }
        ensures misses { F.misses self.new.ends.files ≡ F.misses self.old.ends.files }
        ensures only { (result ≡ 2) ⊎ (result ≡ 5) }
    {
        tell(&mut self.ends.out, b"error: usage\n", 2)
    }

    /// Answers a question from the store of a path.
    fn answer(&mut self, alloc: Global, question: Question, store: &PathText) -> u8
        ensures run { let given = given_by S.left M.held C.readings F.held self.old in
            let see = seen_by M.knows_left M.left O.written L.runs in
            IsReport (question_plan question) store.now given result
            (see self.old) (see self.new) }
        ensures cause { let count = counts_by S.faults M.faults O.faults F.faults in
            IsCaused result (count self.old) (count self.new) }
        ensures no_log { result ≡ 2 → LacksLogAt question store.now
            (M.held self.old.keepers) (M.knows_left self.new.keepers) }
        ensures misses { F.misses self.new.ends.files ≡ F.misses self.old.ends.files }
        ensures no_refusal { result ≢ 3 }
    {
        let path = store.as_str();
        report(alloc, question, path, &mut self.keepers, &mut self.ends.out)
    }

    /// Does what a command asks for.
    fn perform(&mut self, alloc: Global, command: Command) -> u8
        requires range { IsInRange command }
        ensures run { let given = given_by S.left M.held C.readings F.held self.old in
            let see = seen_by M.knows_left M.left O.written L.runs in
            IsCall (Some command) given result (see self.old) (see self.new) }
        ensures cause { let count = counts_by S.faults M.faults O.faults F.faults in
            IsCaused result (count self.old) (count self.new) }
        ensures usage { result ≡ 2 → UsageCause (Some command)
            (F.misses self.old.ends.files) (F.misses self.new.ends.files)
            (M.held self.old.keepers) (M.knows_left self.new.keepers) }
        ensures missing { RunsSession (Some command)
            ⊎ ((F.misses self.new.ends.files ≡ F.misses self.old.ends.files)
            ⊎ ((result ≡ 2) ⊎ (result ≡ 5))) }
        ensures refused { result ≡ 3 → ReadsFile (Some command) }
        ensures bad_row { result ≡ 9 → OpensStore (Some command) }
    {
        match command {
            Command::Run {
                file,
                store,
                confirm,
                count,
            } => {
                let options = RunOptions {
                    store,
                    threshold: confirm,
                    count,
                };
                self.run(alloc, file.as_str(), options)
            }
            Command::Check { file } => check(alloc, file.as_str(), &mut self.ends),
            Command::Jobs { store } => self.answer(alloc, Question::Jobs, &store),
            Command::Stats { store } => self.answer(alloc, Question::Stats, &store),
            Command::Log { job, store } => self.answer(alloc, Question::Log(job), &store),
            Command::Make { nodes } => make(alloc, nodes, &mut self.ends.out),
            Command::Migrate { store } => {
                migrate(alloc, store.as_str(), &mut self.keepers, &mut self.ends.out)
            }
        }
    }
}

/// Does what the words of the command line ask for, and answers the status.
///
/// `run FILE` runs a session on the pipeline of a file, `check FILE` prints what the pipeline can
/// use, `jobs`, `stats`, `log` and `migrate` work on a store alone, and `make N` runs a session on a
/// made pipeline of N nodes and prints its summary. The words come without the program's own name.
/// Each keeper that is opened is given back.
pub fn top<S: Source, M: Keepers, O: Sink, L: Launcher, C: Clock, F: Files>(
    alloc: Global,
    words: &[String],
    program: &mut ProgramEnds<S, M, O, L, C, F>,
) -> u8
    // What the command asks for is done; or its first n outputs and perhaps a part of the next, and
    // the status is that of a fault.
    ensures run { let command = command_of (map string_bytes words.now) in
        let given = given_by S.left M.held C.readings F.held program.old in
        let see = seen_by M.knows_left M.left O.written L.runs in
        IsCall command given result (see program.old) (see program.new) }
    // A command that can be done is, if no call fails, and the store that it opens is known to the
    // end.
    ensures complete { let command = command_of (map string_bytes words.now) in
        let given = given_by S.left M.held C.readings F.held program.old in
        let count = counts_by S.faults M.faults O.faults F.faults in
        CanBeDone command given → NoneRose (count program.old) (count program.new)
        → (OpensStore command → IsTrue (M.knows_left program.new.keepers))
        → IsWhole command result }
    // Status 0 comes only if no call failed, and each status of a fault only if its count rose.
    ensures cause { let count = counts_by S.faults M.faults O.faults F.faults in
        IsCaused result (count program.old) (count program.new) }
    // Status 2 comes for no other cause than the words, a missing file or a missing log, and in its
    // place only a fault of the sink, or memory that ran out.
    ensures usage { result ≡ 2 → UsageCause (command_of (map string_bytes words.now))
        (F.misses program.old.ends.files) (F.misses program.new.ends.files)
        (M.held program.old.keepers) (M.knows_left program.new.keepers) }
    ensures wrong_words { command_of (map string_bytes words.now) ≡ None →
        (result ≡ 2) ⊎ ((result ≡ 5) ⊎ (result ≡ 7)) }
    ensures missing { RunsSession (command_of (map string_bytes words.now))
        ⊎ ((F.misses program.new.ends.files ≡ F.misses program.old.ends.files)
        ⊎ ((result ≡ 2) ⊎ (result ≡ 5))) }
    // Only a pipeline file is refused, and only a stored row is bad.
    ensures refused { result ≡ 3 → ReadsFile (command_of (map string_bytes words.now)) }
    ensures bad_row { result ≡ 9 → OpensStore (command_of (map string_bytes words.now)) }
{
    match read_words(alloc, words) {
        Ok(Some(command)) => program.perform(alloc, command),
        Ok(None) => program.usage(),
        Err(_) => 7,
    }
}
