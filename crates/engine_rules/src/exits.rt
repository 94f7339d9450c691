//! What the end of an order comes to.
ghost use Rattle.std.specs.Prelude.{◌≡◌, ◌++◌, IfOk, Result, Ok, Err, codes};
ghost use Rattle.std.specs.Fmt.{decimal};
ghost use Rattle.value_core.specs.Reading.{text_read};
ghost use Rattle.value_core.specs.Texts.{HasNoNul};
ghost use Rattle.core_rules.specs.Exits.{code_outcome, exit_outcome, text_outcome};
ghost use Rattle.engine_rules.specs.inside.Results.{result_of};

use op_keys::Exit;
use std::alloc::{AllocError, Global};
use value_core::{NoMemory, Text, TextFault};

/// The most bytes that an order's output may have.
const OUTPUT_LIMIT: usize = 65536;

/// A result, or why there is none.
#[derive(Drop)]
pub enum ExitResult {
    Fine(Text),
    Failed(Text),
}

fn failed(alloc: Global, message: &str) -> Result<ExitResult, NoMemory>
    requires { HasNoNul message.now }
    ensures { IfOk result (λ o. result_of o ≡ Err message.now) }
{
    Ok(ExitResult::Failed(Text::of(alloc, message)?))
}

/// An output that ended well, as a text.
fn text_outcome(alloc: Global, output: &[u8]) -> Result<ExitResult, NoMemory>
    ensures { IfOk result (λ o. result_of o ≡ text_outcome (text_read output.now)) }
{
    match Text::as_text(alloc, output) {
        Ok(text) => Ok(ExitResult::Fine(text)),
        Err(TextFault::NoMemory) => Err(AllocError),
        Err(_) => failed(alloc, "output not text"),
    }
}

/// The message of an end with this code.
#[tactic(auto, using(crate::proofs::Messages::exit_clean))]
fn exit_message(alloc: Global, code: u8) -> Result<ExitResult, NoMemory>
    ensures { IfOk result (λ o. result_of o ≡ Err (codes "exit " ++ decimal code)) }
{
    let message = format!(in alloc; "exit {code}")?;
    Ok(ExitResult::Failed(Text::from_string(message)))
}

fn code_outcome(alloc: Global, code: Option<u8>, output: &[u8]) -> Result<ExitResult, NoMemory>
    ensures { IfOk result (λ o. result_of o ≡ code_outcome code output.now) }
{
    match code {
        None => failed(alloc, "exit by signal"),
        Some(0) => text_outcome(alloc, output),
        Some(code) => exit_message(alloc, code),
    }
}

/// The output as a text without one final newline, or the message of the first failure.
pub(crate) fn exit_outcome(alloc: Global, exit: &Exit) -> Result<ExitResult, NoMemory>
    ensures { IfOk result (λ o. result_of o ≡ exit_outcome exit.now) }
{
    match exit {
        Exit::Fault => failed(alloc, "cannot run"),
        Exit::Ended { code, output } => {
            if OUTPUT_LIMIT < output.len() {
                failed(alloc, "output too large")
            } else {
                code_outcome(alloc, *code, output.as_slice())
            }
        }
    }
}
