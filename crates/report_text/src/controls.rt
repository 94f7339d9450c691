//! Control lines: what a line of the input asks for.
ghost use Rattle.std.specs.Prelude.{◌≡◌, IfOk};
ghost use Rattle.std.specs.Option.{option_map};
ghost use Rattle.value_core.specs.Literals.{tokens_in};
ghost use Rattle.pipe_text.specs.Words.{level_word};
ghost use Rattle.report_text.specs.declared.controls.ControlWord.TheVariants as word;
ghost use Rattle.report_text.specs.Controls.{ReturnsControl, alone, asked_by, control_of, control_read, control_word, event_of, name_in, number_in, rate_in, rebuild_in, set_in, threshold_word};

use core_rules::What;
use op_keys::Level;
use std::alloc::{AllocError, Global};
use value_core::{NoMemory, Stop, Text, Token, TokenAt, literal_in, tokens_of};

/// What a line asks for.
#[derive(Drop)]
pub enum Control {
    /// Nothing: the line has only blank space and comments.
    Empty,
    Event(What),
    /// To look at the watched files.
    Poll,
    /// To list the live jobs.
    Jobs,
    Quit,
}

/// Why a line asks for nothing that there is.
#[derive(Clone, Copy, Debug, PartialEq, Eq)]
pub enum ControlFault {
    /// It is none of the control lines. The session refuses it and goes on.
    Syntax,
    NoMemory,
}

impl From<AllocError> for ControlFault {
    ghost use Rattle.report_text.specs.declared.controls.ControlFault.TheVariants as fault;

    ghost from_gives = { λ _ e. e ≡ fault.NoMemory };

    fn from(_e: AllocError) -> ControlFault {
        ControlFault::NoMemory
    }
}

/// What a control line begins with.
#[derive(Clone, Copy, Debug, PartialEq, Eq)]
pub enum ControlWord {
    Set,
    Tick,
    Level,
    Confirm,
    Cancel,
    Rebuild,
    Pause,
    Resume,
    Rate,
    Poll,
    Jobs,
    Quit,
}

#[tactic(auto, unfolding(crate::specs::Controls::control_word))]
fn word_of(word: &str) -> Option<ControlWord>
    ensures { result ≡ control_word word.now }
{
    if word == "set" {
        Some(ControlWord::Set)
    } else if word == "tick" {
        Some(ControlWord::Tick)
    } else if word == "level" {
        Some(ControlWord::Level)
    } else if word == "confirm" {
        Some(ControlWord::Confirm)
    } else if word == "cancel" {
        Some(ControlWord::Cancel)
    } else if word == "rebuild" {
        Some(ControlWord::Rebuild)
    } else if word == "pause" {
        Some(ControlWord::Pause)
    } else if word == "resume" {
        Some(ControlWord::Resume)
    } else if word == "rate" {
        Some(ControlWord::Rate)
    } else if word == "poll" {
        Some(ControlWord::Poll)
    } else if word == "jobs" {
        Some(ControlWord::Jobs)
    } else if word == "quit" {
        Some(ControlWord::Quit)
    } else {
        None
    }
}

#[tactic(auto, unfolding(pipe_text::specs::Words::level_word))]
fn level_of(word: &str) -> Option<Level>
    ensures { result ≡ level_word word.now }
{
    if word == "harmless" {
        Some(Level::Harmless)
    } else if word == "mostly_harmless" {
        Some(Level::MostlyHarmless)
    } else if word == "average" {
        Some(Level::Average)
    } else if word == "above_average" {
        Some(Level::AboveAverage)
    } else if word == "dangerous" {
        Some(Level::Dangerous)
    } else {
        None
    }
}

fn threshold_of(word: &str) -> Option<Option<Level>>
    ensures { result ≡ threshold_word word.now }
{
    if word == "none" {
        return Some(None);
    }
    match level_of(word) {
        Some(level) => Some(Some(level)),
        None => None,
    }
}

/// This, if nothing goes with its word.
fn alone<T: Drop>(what: T, tokens: &[TokenAt]) -> Option<T>
    ensures { result ≡ alone what (tokens_in tokens.now) }
{
    match tokens {
        [] => Some(what),
        _ => None,
    }
}

fn number_in(tokens: &[TokenAt]) -> Option<u64>
    ensures { result ≡ number_in (tokens_in tokens.now) }
{
    match tokens {
        [one] => match &one.token {
            Token::Number(number) => Some(*number),
            _ => None,
        },
        _ => None,
    }
}

/// The only token, if it is a name.
fn name_in(tokens: &[TokenAt]) -> Option<&Text>
    ensures { option_map (λ n. n.now) result ≡ name_in (tokens_in tokens.now) }
{
    match tokens {
        [one] => match &one.token {
            Token::Name(name) => Some(name),
            _ => None,
        },
        _ => None,
    }
}

fn set_in(alloc: Global, tokens: &[TokenAt]) -> Result<Option<What>, NoMemory>
    ensures { IfOk result (λ o. o ≡ set_in (tokens_in tokens.now)) }
{
    match tokens {
        [first, rest @ ..] => match &first.token {
            Token::Name(name) => match literal_in(alloc, rest)? {
                Some(value) => Ok(Some(What::SetInput {
                    name: name.copy(alloc)?,
                    value,
                })),
                None => Ok(None),
            },
            _ => Ok(None),
        },
        _ => Ok(None),
    }
}

fn level_in(tokens: &[TokenAt]) -> Option<What>
    ensures { result ≡ event_of word.Level (tokens_in tokens.now) }
{
    match threshold_of(name_in(tokens)?.as_str()) {
        Some(threshold) => Some(What::SetLevel(threshold)),
        None => None,
    }
}

fn rebuild_in(alloc: Global, tokens: &[TokenAt]) -> Result<Option<What>, NoMemory>
    ensures { IfOk result (λ o. o ≡ rebuild_in (tokens_in tokens.now)) }
{
    match tokens {
        [op, key] => match (&op.token, &key.token) {
            (Token::Name(op), Token::Words(key)) => Ok(Some(What::Rebuild {
                op: op.copy(alloc)?,
                key: key.copy(alloc)?,
            })),
            _ => Ok(None),
        },
        _ => Ok(None),
    }
}

fn rate_in(alloc: Global, tokens: &[TokenAt]) -> Result<Option<What>, NoMemory>
    ensures { IfOk result (λ o. o ≡ rate_in (tokens_in tokens.now)) }
{
    match tokens {
        [pool, client, rate] => match (&pool.token, &client.token, &rate.token) {
            (Token::Name(pool), Token::Name(client), Token::Number(rate)) => Ok(Some(What::Rate {
                pool: pool.copy(alloc)?,
                client: client.copy(alloc)?,
                rate: *rate,
            })),
            _ => Ok(None),
        },
        _ => Ok(None),
    }
}

/// A worker's name, for an event of that.
fn worker_in(alloc: Global, tokens: &[TokenAt]) -> Result<Option<Text>, NoMemory>
    ensures { IfOk result (λ o. o ≡ name_in (tokens_in tokens.now)) }
{
    match name_in(tokens) {
        Some(name) => Ok(Some(name.copy(alloc)?)),
        None => Ok(None),
    }
}

fn event_of(alloc: Global, word: ControlWord, tokens: &[TokenAt]) -> Result<Option<What>, NoMemory>
    ensures { IfOk result (λ o. o ≡ event_of word (tokens_in tokens.now)) }
{
    match word {
        ControlWord::Set => set_in(alloc, tokens),
        ControlWord::Tick => Ok(alone(What::Tick, tokens)),
        ControlWord::Level => Ok(level_in(tokens)),
        ControlWord::Confirm => match number_in(tokens) {
            Some(job) => Ok(Some(What::Confirm(job))),
            None => Ok(None),
        },
        ControlWord::Cancel => match number_in(tokens) {
            Some(job) => Ok(Some(What::Cancel(job))),
            None => Ok(None),
        },
        ControlWord::Rebuild => rebuild_in(alloc, tokens),
        ControlWord::Pause => match worker_in(alloc, tokens)? {
            Some(worker) => Ok(Some(What::Pause(worker))),
            None => Ok(None),
        },
        ControlWord::Resume => match worker_in(alloc, tokens)? {
            Some(worker) => Ok(Some(What::Resume(worker))),
            None => Ok(None),
        },
        ControlWord::Rate => rate_in(alloc, tokens),
        ControlWord::Poll => Ok(None),
        ControlWord::Jobs => Ok(None),
        ControlWord::Quit => Ok(None),
    }
}

fn asked_by(
    alloc: Global,
    word: ControlWord,
    tokens: &[TokenAt],
) -> Result<Option<Control>, NoMemory>
    ensures { IfOk result (λ o. o ≡ asked_by word (tokens_in tokens.now)) }
{
    match word {
        ControlWord::Poll => Ok(alone(Control::Poll, tokens)),
        ControlWord::Jobs => Ok(alone(Control::Jobs, tokens)),
        ControlWord::Quit => Ok(alone(Control::Quit, tokens)),
        word => match event_of(alloc, word, tokens)? {
            Some(what) => Ok(Some(Control::Event(what))),
            None => Ok(None),
        },
    }
}

/// What tokens up to the end of a line ask for.
fn control_of(alloc: Global, tokens: &[TokenAt]) -> Result<Option<Control>, NoMemory>
    ensures { IfOk result (λ o. o ≡ control_of (tokens_in tokens.now)) }
{
    match tokens {
        [] => Ok(Some(Control::Empty)),
        [first, rest @ ..] => match &first.token {
            Token::Name(name) => match word_of(name.as_str()) {
                Some(word) => asked_by(alloc, word, rest),
                None => Ok(None),
            },
            _ => Ok(None),
        },
    }
}

/// What a line of the input asks for. The line is without its newline, and has the tokens of a
/// pipeline file.
pub fn read_control(alloc: Global, line: &[u8]) -> Result<Control, ControlFault>
    ensures { ReturnsControl result (control_read line.now) }
{
    let line = tokens_of(alloc, line)?;
    match line.stop {
        Stop::Lex(_) => Err(ControlFault::Syntax),
        Stop::End(_) => match control_of(alloc, line.tokens.as_slice())? {
            Some(control) => Ok(control),
            None => Err(ControlFault::Syntax),
        },
    }
}
