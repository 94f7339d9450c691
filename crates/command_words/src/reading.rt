//! Commands from the words of the command line.
ghost use Rattle.std.specs.Prelude.{◌≡◌, IfOk, IfSome, map, string_bytes, option_and_then, option_map};
ghost use Rattle.command_words.specs.Commands.{check_of, command_of, is_made_count, log_of, make_of, number_in};
ghost use Rattle.command_words.specs.Commands.{IsInRange, run_of, threshold_of};
ghost use Rattle.command_words.specs.Options.{log_app, make_app, options_of, check_app, run_app, store_app};
ghost use Rattle.command_words.specs.inside.FoundTexts.{texts_of};

use crate::command::{Command, PathText};
use crate::options::{
    Found, check_command, log_command, make_command, options_of, run_command, store_command,
};
use crate::values::{level, number};
use op_keys::Level;
use std::alloc::{AllocError, Global};

fn path_of(alloc: Global, text: Option<&str>) -> Result<Option<PathText>, AllocError>
    ensures { IfOk result (λ path. path ≡ option_map (λ s. s.now) text.entry) }
{
    match text {
        Some(text) => Ok(Some(PathText::of(alloc, text)?)),
        None => Ok(None),
    }
}

/// The threshold, if it is left out or names a level.
fn threshold_of(word: Option<&str>) -> Option<Option<Level>>
    ensures { result ≡ threshold_of (option_map (λ s. s.now) word.entry) }
{
    match word {
        Some(word) => match level(word) {
            Some(level) => Some(Some(level)),
            None => None,
        },
        None => Some(None),
    }
}

fn number_in(found: &Found<'_>) -> Option<u64>
    ensures { result ≡ number_in (texts_of found.now) }
{
    match found.plain {
        Some(word) => number(word),
        None => None,
    }
}

fn run_of(alloc: Global, found: &Found<'_>) -> Result<Option<Command>, AllocError>
    ensures { IfOk result (λ c. c ≡ run_of (texts_of found.now)) }
{
    match (found.plain, threshold_of(found.confirm)) {
        (Some(file), Some(confirm)) => Ok(Some(Command::Run {
            file: PathText::of(alloc, file)?,
            store: path_of(alloc, found.store)?,
            confirm,
            count: found.count,
        })),
        _ => Ok(None),
    }
}

fn log_of(alloc: Global, found: &Found<'_>) -> Result<Option<Command>, AllocError>
    ensures { IfOk result (λ c. c ≡ log_of (texts_of found.now)) }
{
    match (number_in(found), found.store) {
        (Some(job), Some(store)) => Ok(Some(Command::Log {
            job,
            store: PathText::of(alloc, store)?,
        })),
        _ => Ok(None),
    }
}

/// Whether a made pipeline may have so many nodes.
fn is_made_count(nodes: u64) -> bool
    ensures { result ≡ is_made_count nodes }
{
    (1..=1000).contains(&nodes)
}

fn make_of(found: &Found<'_>) -> Option<Command>
    ensures { result ≡ make_of (texts_of found.now) }
{
    match number_in(found) {
        Some(nodes) if is_made_count(nodes) => Some(Command::Make { nodes }),
        _ => None,
    }
}

#[tactic(auto, using(crate::proofs::Apps::run_is_free))]
fn read_run(alloc: Global, words: &[String]) -> Result<Option<Command>, AllocError>
    ensures { IfOk result (λ c. c
        ≡ option_and_then run_of (options_of run_app (map string_bytes words.now))) }
{
    match options_of(run_command(alloc)?, words)? {
        Some(found) => run_of(alloc, &found),
        None => Ok(None),
    }
}

#[tactic(auto, using(crate::proofs::Apps::check_is_free))]
fn read_check(alloc: Global, words: &[String]) -> Result<Option<Command>, AllocError>
    ensures { IfOk result (λ c. c
        ≡ option_and_then check_of (options_of check_app (map string_bytes words.now))) }
{
    let Some(found) = options_of(check_command(alloc)?, words)? else {
        return Ok(None);
    };
    match path_of(alloc, found.plain)? {
        Some(file) => Ok(Some(Command::Check { file })),
        None => Ok(None),
    }
}

#[tactic(auto, using(crate::proofs::Apps::log_is_free))]
fn read_log(alloc: Global, words: &[String]) -> Result<Option<Command>, AllocError>
    ensures { IfOk result (λ c. c
        ≡ option_and_then log_of (options_of log_app (map string_bytes words.now))) }
{
    match options_of(log_command(alloc)?, words)? {
        Some(found) => log_of(alloc, &found),
        None => Ok(None),
    }
}

#[tactic(auto, using(crate::proofs::Apps::make_is_free))]
fn read_make(alloc: Global, words: &[String]) -> Result<Option<Command>, AllocError>
    ensures { IfOk result (λ c. c
        ≡ option_and_then make_of (options_of make_app (map string_bytes words.now))) }
{
    match options_of(make_command(alloc)?, words)? {
        Some(found) => Ok(make_of(&found)),
        None => Ok(None),
    }
}

/// The store that alone is given.
#[tactic(auto, using(crate::proofs::Apps::store_is_free))]
fn read_store(alloc: Global, words: &[String]) -> Result<Option<PathText>, AllocError>
    ensures { IfOk result (λ path. path
        ≡ option_and_then (λ o. o.store) (options_of store_app (map string_bytes words.now))) }
{
    match options_of(store_command(alloc)?, words)? {
        Some(found) => path_of(alloc, found.store),
        None => Ok(None),
    }
}

/// The command of the words of the command line, which come without the program's own name.
#[tactic(auto, unfolding(crate::specs::Commands::command_of))]
pub fn read_words(alloc: Global, words: &[String]) -> Result<Option<Command>, AllocError>
    ensures command { IfOk result (λ c. c ≡ command_of (map string_bytes words.now)) }
    ensures range { IfOk result (λ c. IfSome c IsInRange) }
{
    let [name, words @ ..] = words else {
        return Ok(None);
    };
    match name.as_str() {
        "run" => read_run(alloc, words),
        "check" => read_check(alloc, words),
        "jobs" => Ok(read_store(alloc, words)?.map(|store| Command::Jobs { store })),
        "stats" => Ok(read_store(alloc, words)?.map(|store| Command::Stats { store })),
        "log" => read_log(alloc, words),
        "make" => read_make(alloc, words),
        "migrate" => Ok(read_store(alloc, words)?.map(|store| Command::Migrate { store })),
        _ => Ok(None),
    }
}
