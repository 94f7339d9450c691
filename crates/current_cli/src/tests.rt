//! Statuses over ends in memory that fail. What a run prints stands in the repository's tests/.
use crate::ends::ProgramEnds;
use crate::top::top;
use io_ends::{ClockInMemory, FilesInMemory, HeldFile, SinkInMemory, SourceInMemory};
use keeper_core::{FailingCall, Failure, MemKeepers};
use launch_core::LauncherInMemory;
use op_keys::Exit;
use session_core::Ends;
use std::alloc::{AllocError, Global};
use std::test::Fail;
use value_core::ListOf;

const FILE: &str = "pipeline 1\ninput head text \"a\"\nnode tip (input head)\n";

const LINES: &str = "set head \"b\"\n";

const OPENING: &str = "version 1\ntip: ok \"a\"\n";

const WHOLE: &str = "version 1\ntip: ok \"a\"\nversion 2\ntip: ok \"b\"\n";

/// The input is built, one job for each of its values.
const BUILDING: &str =
    "pipeline 1\ninput head text \"a\"\npool p hold 0\nclient c p 1\nworker w p 1\nop f build pool p client c cost 1 0 run \"f\" \"{key}\"\nnode tip (build f (input head))\n";

/// What a run wrote, and its status.
#[derive(Drop)]
struct Outcome {
    status: u8,
    written: Vec<u8>,
}

/// Which call of each end fails, counted from 1. No call has the number 0.
#[derive(Clone, Copy)]
struct Failing {
    files: u64,
    source: u64,
    sink: u64,
    opens: u64,
    keeper: u64,
    launcher: u64,
}

const NONE: Failing = Failing {
    files: 0,
    source: 0,
    sink: 0,
    opens: 0,
    keeper: 0,
    launcher: 0,
};

fn held_file(alloc: Global, path: &str, text: &str) -> Result<HeldFile, AllocError> {
    let content = Vec::from_slice(alloc, text.as_bytes())?;
    Ok(HeldFile {
        path: String::from_str(alloc, path)?,
        contents: vec![in alloc; content]?,
    })
}

fn files_of(alloc: Global, failing: u64) -> Result<FilesInMemory, AllocError> {
    let nodes = held_file(alloc, "p", FILE)?;
    let building = held_file(alloc, "q", BUILDING)?;
    let files = vec![in alloc; nodes, building]?;
    Ok(FilesInMemory::new(files, vec![in alloc; failing]?))
}

/// Two runs print `one`, but for the one that fails.
fn launcher_of(alloc: Global, failing: u64) -> Result<LauncherInMemory, AllocError> {
    let mut exits = Vec::new(alloc);
    for run in 1..3u64 {
        let output = ListOf::from_vec(Vec::from_slice(alloc, b"one")?);
        let ended = Exit::Ended {
            code: Some(0),
            output,
        };
        exits.push(if run == failing { Exit::Fault } else { ended })?;
    }
    Ok(LauncherInMemory::new(alloc, exits))
}

fn keepers_of(alloc: Global, failing: Failing) -> Result<MemKeepers, AllocError> {
    let open = FailingCall {
        number: failing.opens,
        failure: Failure::Before,
    };
    let call = FailingCall {
        number: failing.keeper,
        failure: Failure::Before,
    };
    let opens = vec![in alloc; open]?;
    let calls = vec![in alloc; call]?;
    Ok(MemKeepers::new(alloc, Vec::new(alloc), opens, calls))
}

/// Runs a command over ends that give a byte and take five bytes at a time.
fn run_with(alloc: Global, words: &[&str], failing: Failing) -> Result<Outcome, AllocError> {
    let mut given = Vec::new(alloc);
    for word in words {
        given.push(String::from_str(alloc, word)?)?;
    }
    let lines = Vec::from_slice(alloc, LINES.as_bytes())?;
    let mut program = ProgramEnds {
        input: SourceInMemory::new(lines, 1, vec![in alloc; failing.source]?),
        keepers: keepers_of(alloc, failing)?,
        ends: Ends {
            out: SinkInMemory::new(alloc, 1 << 10, 5, vec![in alloc; failing.sink]?)?,
            launcher: launcher_of(alloc, failing.launcher)?,
            clock: ClockInMemory::new(Vec::new(alloc)),
            files: files_of(alloc, failing.files)?,
        },
    };
    let status = top(alloc, given.as_slice(), &mut program);
    let written = Vec::from_slice(alloc, program.ends.out.bytes())?;
    Ok(Outcome { status, written })
}

#[test]
fn an_end_that_fails_has_its_status(rt: HostRuntime) -> Result<(), Fail> {
    // A keeper loads its tables, and then commits the opening and each version before it is shown.
    let table: [(Failing, u8, &str); 6] = [
        (Failing { files: 1, ..NONE }, 4, ""),
        (Failing { opens: 1, ..NONE }, 6, ""),
        (Failing { keeper: 1, ..NONE }, 6, ""),
        (Failing { keeper: 2, ..NONE }, 6, ""),
        (Failing { keeper: 3, ..NONE }, 6, OPENING),
        (NONE, 0, WHOLE),
    ];
    for (failing, status, expected) in table {
        let outcome = run_with(rt.alloc(), &["run", "p", "--store=s"], failing)?;
        assert_eq!(rt; outcome.status, status, "{expected}");
        assert_eq!(rt; str::from_utf8(outcome.written.as_slice())?, expected);
    }
    Ok(())
}

#[test]
fn an_input_that_fails_ends_the_session_between_two_lines(rt: HostRuntime) -> Result<(), Fail> {
    // The line takes 13 calls, and the next one finds the end.
    for source in 1..15u64 {
        let failing = Failing { source, ..NONE };
        let outcome = run_with(rt.alloc(), &["run", "p"], failing)?;
        let expected = if source < 14 { OPENING } else { WHOLE };
        assert_eq!(rt; outcome.status, 4, "at call {source}");
        assert_eq!(rt; str::from_utf8(outcome.written.as_slice())?, expected);
    }
    Ok(())
}

#[test]
fn a_session_goes_on_after_a_run_that_fails(rt: HostRuntime) -> Result<(), Fail> {
    let fine = "end 1 ok\nversion 3\ntip: ok \"one\"\n";
    let failed = "end 1 failed \"cannot run\"\nversion 3\ntip: failed \"cannot run\" at tip\n";
    let later = "end 2 ok\nversion 6\ntip: ok \"one\"\n";
    let later_failed =
        "end 2 failed \"cannot run\"\nversion 6\ntip: failed \"cannot run\" at tip\n";
    let table: [(u64, &str, &str); 3] = [
        (0, fine, later),
        (1, failed, later),
        (2, fine, later_failed),
    ];
    for (launcher, first, second) in table {
        let failing = Failing { launcher, ..NONE };
        let outcome = run_with(rt.alloc(), &["run", "q"], failing)?;
        let text = str::from_utf8(outcome.written.as_slice())?;
        assert_eq!(rt; outcome.status, 0, "run {launcher}");
        assert!(rt; text.contains(first), "run {launcher}");
        assert!(rt; text.ends_with(second), "run {launcher}");
    }
    Ok(())
}

#[test]
fn a_sink_that_fails_leaves_a_front_written(rt: HostRuntime) -> Result<(), Fail> {
    // Five bytes a call: the opening takes five calls, the second version five more.
    for sink in 1..11u64 {
        let failing = Failing { sink, ..NONE };
        let outcome = run_with(rt.alloc(), &["run", "p"], failing)?;
        assert_eq!(rt; outcome.status, 5, "at call {sink}");
        assert!(rt; WHOLE.as_bytes().starts_with(outcome.written.as_slice()));
    }
    Ok(())
}

#[test]
fn commands_on_a_store_have_their_statuses(rt: HostRuntime) -> Result<(), Fail> {
    let opens = Failing { opens: 1, ..NONE };
    let keeper = Failing { keeper: 1, ..NONE };
    let stats = "rows 0\nfailed 0\nlogs 0\nnext 1\n";
    let table: [(&[&str], Failing, u8, &str); 9] = [
        (&["jobs", "--store=s"], NONE, 0, ""),
        (&["stats", "--store=s"], NONE, 0, stats),
        (&["log", "1", "--store=s"], NONE, 2, "error: no log\n"),
        (&["migrate", "--store=s"], NONE, 0, "already schema 2\n"),
        (&["jobs", "--store=s"], opens, 6, ""),
        (&["stats", "--store=s"], keeper, 6, ""),
        (&["log", "1", "--store=s"], keeper, 6, ""),
        (&["migrate", "--store=s"], keeper, 6, ""),
        (&["jobs"], NONE, 2, "error: usage\n"),
    ];
    for (words, failing, status, expected) in table {
        let outcome = run_with(rt.alloc(), words, failing)?;
        assert_eq!(rt; outcome.status, status, "{expected}");
        assert_eq!(rt; str::from_utf8(outcome.written.as_slice())?, expected);
    }
    Ok(())
}

#[test]
fn make_prints_its_summary_or_a_front_of_it(rt: HostRuntime) -> Result<(), Fail> {
    let summary = "nodes 1\nversions 33\norders 11\n";
    let outcome = run_with(rt.alloc(), &["make", "1"], NONE)?;
    assert_eq!(rt; outcome.status, 0);
    assert_eq!(rt; str::from_utf8(outcome.written.as_slice())?, summary);
    // Five bytes a call.
    for sink in 1..7u64 {
        let failing = Failing { sink, ..NONE };
        let outcome = run_with(rt.alloc(), &["make", "1"], failing)?;
        assert_eq!(rt; outcome.status, 5, "at call {sink}");
        assert!(rt; summary.as_bytes().starts_with(outcome.written.as_slice()));
    }
    Ok(())
}
