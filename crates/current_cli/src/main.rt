//! Virumoleas: runs the jobs of a pipeline and keeps its nodes up to date as its inputs change.
#![tactic(auto)]

mod ends;
mod files;
mod laws;
mod programs;
mod runs;
mod top;

use ends::ProgramEnds;
use io_ends::{Reading, RealClock, RealFiles, Writing};
use launch_core::ChildLauncher;
use session_core::Ends;
use std::process::ExitCode;
use std::{env, io};
use store_keepers::StoreKeepers;
use top::top;

#[cfg(test)]
mod tests;

fn words_of<R: std::rt::Env + AllocGlobal>(rt: &R) -> io::Result<Vec<String>> {
    Ok(env::args(rt)?.skip(1).collect(rt.alloc())?)
}

/// What standard error says of a status for which nothing is printed.
fn trouble_of(status: u8) -> Option<&'static str> {
    match status {
        4 => Some("error: the input or a file can't be read"),
        5 => Some("error: standard output can't be written"),
        6 => Some("error: the store failed, or is no store"),
        7 => Some("error: out of memory"),
        _ => None,
    }
}

fn main(rt: HostRuntime) -> ExitCode {
    let words = match words_of(&rt) {
        Ok(words) => words,
        // Words that aren't text name no file.
        Err(_) => Vec::new(rt.alloc()),
    };
    let mut program = ProgramEnds {
        input: Reading::new(rt.stdin()),
        keepers: StoreKeepers::new(&rt),
        ends: Ends {
            out: Writing::new(rt.stdout()),
            launcher: ChildLauncher::new(&rt),
            clock: RealClock::new(&rt),
            files: RealFiles::new(&rt),
        },
    };
    let status = top(rt.alloc(), words.as_slice(), &mut program);
    if let Some(trouble) = trouble_of(status) {
        // The status says the same, so nothing is lost if this can't be written.
        let _ = eprintln!(rt; "{trouble}");
    }
    ExitCode::from(status)
}
