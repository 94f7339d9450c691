//! The words after the command, as clap takes them apart.
ghost use Rattle.std.specs.Prelude.{◌≡◌, IfOk, Some, true, false, map, string_bytes, option_map};
ghost use Rattle.clap.specs.Words.{app_of, is_simple_and_free, new_rule, rule_of};
ghost use Rattle.command_words.specs.Options.{has_lone_hyphen, log_app, make_app, options_of, parsed};
ghost use Rattle.command_words.specs.Options.{check_app, run_app, store_app};
ghost use Rattle.command_words.specs.inside.FoundTexts.{texts_of};

use crate::values::is_true;
use clap::builder::ValueParser;
use clap::error::ErrorKind;
use clap::{Arg, ArgAction};
use std::alloc::{AllocError, Global};

/// What was found of the options, and the word that is none.
#[derive(Drop)]
pub(crate) struct Found<'a> {
    pub plain: Option<&'a str>,
    pub store: Option<&'a str>,
    pub confirm: Option<&'a str>,
    pub count: bool,
}

/// A path, or another text that isn't empty.
fn text_argument<'a>(alloc: Global, id: &'a str) -> Arg<'a>
    ensures rule { rule_of result
        ≡ record (new_rule id.entry.now) { parser = Some ValueParser.NonEmptyString } }
    ensures plain { result.global ≡ false }
    ensures same { result.id ≡ id.entry }
{
    Arg::new(alloc, id).value_parser(ValueParser::NonEmptyString)
}

/// `run FILE [--store PATH] [--confirm LEVEL] [--count]`.
pub(crate) fn run_command<'a>(alloc: Global) -> Result<clap::Command<'a>, AllocError>
    ensures { IfOk result (λ c. app_of c ≡ run_app) }
{
    let plain = text_argument(alloc, "plain").required(true);
    let store = text_argument(alloc, "store").long("store");
    let confirm = Arg::new(alloc, "confirm").long("confirm");
    let count = Arg::new(alloc, "count")
        .long("count")
        .action(ArgAction::SetTrue);
    clap::Command::new(alloc, "run")
        .no_binary_name(true)
        .disable_help_flag(true)
        .arg(plain)?
        .arg(store)?
        .arg(confirm)?
        .arg(count)
}

/// `check FILE`.
pub(crate) fn check_command<'a>(alloc: Global) -> Result<clap::Command<'a>, AllocError>
    ensures { IfOk result (λ c. app_of c ≡ check_app) }
{
    let plain = text_argument(alloc, "plain").required(true);
    clap::Command::new(alloc, "check")
        .no_binary_name(true)
        .disable_help_flag(true)
        .arg(plain)
}

/// `jobs --store PATH`, or another command with these options.
pub(crate) fn store_command<'a>(alloc: Global) -> Result<clap::Command<'a>, AllocError>
    ensures { IfOk result (λ c. app_of c ≡ store_app) }
{
    let store = text_argument(alloc, "store").long("store").required(true);
    clap::Command::new(alloc, "jobs")
        .no_binary_name(true)
        .disable_help_flag(true)
        .arg(store)
}

/// `log JOB --store PATH`.
pub(crate) fn log_command<'a>(alloc: Global) -> Result<clap::Command<'a>, AllocError>
    ensures { IfOk result (λ c. app_of c ≡ log_app) }
{
    let plain = text_argument(alloc, "plain").required(true);
    let store = text_argument(alloc, "store").long("store").required(true);
    clap::Command::new(alloc, "log")
        .no_binary_name(true)
        .disable_help_flag(true)
        .arg(plain)?
        .arg(store)
}

/// `make N`.
pub(crate) fn make_command<'a>(alloc: Global) -> Result<clap::Command<'a>, AllocError>
    ensures { IfOk result (λ c. app_of c ≡ make_app) }
{
    let plain = text_argument(alloc, "plain").required(true);
    clap::Command::new(alloc, "make")
        .no_binary_name(true)
        .disable_help_flag(true)
        .arg(plain)
}

/// What clap finds in the words after a command, unless it refuses them.
fn parsed<'a>(
    command: clap::Command<'a>,
    words: &'a [String],
) -> Result<Option<Found<'a>>, AllocError>
    requires { is_simple_and_free (app_of command) ≡ true }
    ensures { IfOk result (λ found. option_map texts_of found
        ≡ parsed (app_of command.entry) (map string_bytes words.now)) }
{
    match command.try_get_matches_from(words) {
        Ok(matches) => Ok(Some(Found {
            plain: matches.get_str("plain"),
            store: matches.get_str("store"),
            confirm: matches.get_str("confirm"),
            count: is_true(matches.get_str("count")),
        })),
        Err(error) => match error.kind() {
            ErrorKind::OutOfMemory => Err(AllocError),
            _ => Ok(None),
        },
    }
}

/// Whether some word before the first `--` is `-`, which clap would take as a plain word.
fn has_lone_hyphen(words: &[String]) -> bool
    ensures { result ≡ has_lone_hyphen (map string_bytes words.now) }
{
    for word in words {
        if word.as_str() == "--" {
            return false;
        }
        if word.as_str() == "-" {
            return true;
        }
    }
    false
}

/// What is found in the words after a command, unless they are refused.
pub(crate) fn options_of<'a>(
    command: clap::Command<'a>,
    words: &'a [String],
) -> Result<Option<Found<'a>>, AllocError>
    requires { is_simple_and_free (app_of command) ≡ true }
    ensures { IfOk result (λ found. option_map texts_of found
        ≡ options_of (app_of command.entry) (map string_bytes words.now)) }
{
    if has_lone_hyphen(words) {
        return Ok(None);
    }
    parsed(command, words)
}
