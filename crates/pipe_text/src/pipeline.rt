//! A whole file.
ghost use Rattle.std.specs.Prelude.{◌≡◌, IfOk, IfErr};
ghost use Rattle.term_core.specs.declared.program.Program.{Program};
ghost use Rattle.term_core.specs.Limits.{IsWithinLimits};
ghost use Rattle.pipe_text.specs.inside.Readers.{Agrees};
ghost use Rattle.pipe_text.specs.Files.{IsFileOf, OneProgramAtMost, Reads};
ghost use Rattle.pipe_text.specs.FirstFault.{IsRightAnswer};
ghost use Rattle.pipe_text.specs.inside.FileReading.{read_of, reported, pipeline_of, ReturnsRead};

use crate::declarations::take_file;
use crate::fault::{Fault, LimitName, ReadFault, TakeError};
use crate::taking::limit_at;
use std::alloc::Global;
use term_core::Program;
use value_core::{Tokens, tokens_of};

/// The program of a file's bytes, or the first fault.
#[tactic(auto, unfolding(crate::specs::inside::FileReading::read_of))]
fn read_file(alloc: Global, bytes: &[u8]) -> Result<Program, TakeError>
    ensures { Agrees result (read_of bytes.now) }
{
    if LimitName::File.number() < bytes.len() as u64 {
        return Err(limit_at(LimitName::File, 0));
    }
    let Tokens { tokens, stop } = tokens_of(alloc, bytes)?;
    take_file(alloc, stop, tokens.as_slice())
}

/// A fault as the caller sees it.
fn reported(fault: Fault) -> ReadFault
    ensures { result ≡ reported fault }
{
    match fault {
        Fault::Lex(offset) => ReadFault::Lex(offset),
        Fault::Syntax(offset) => ReadFault::Syntax(offset),
        Fault::Limit(what, number, offset) => ReadFault::Limit(what, number, offset),
        Fault::Duplicate(name, offset) => ReadFault::Duplicate(name, offset),
    }
}

/// The program that the bytes of a pipeline file spell, or the first fault in them.
///
/// By `found` and `all` a file is refused exactly if it is a file of no program.
#[tactic(auto, unfolding(crate::specs::inside::FileReading::pipeline_of))]
pub fn read_pipeline(alloc: Global, bytes: &[u8]) -> Result<Program, ReadFault>
    // What is read is the program of the file.
    ensures found { IfOk result (λ p. IsFileOf bytes.now p) }
    // A file of a program is read as that program, or out of memory.
    ensures all { (p : Program) → IsFileOf bytes.now p → Reads result p }
    // What is read is within the limits.
    ensures within { IfOk result (λ p. IsWithinLimits p) }
    // A fault is true of the file.
    ensures fault { IfErr result (λ f. IsRightAnswer bytes.now f) }
    // The answer is that of a reader with one token in hand, which stops at the first fault.
    ensures exact { ReturnsRead result (pipeline_of bytes.now) }
{
    match read_file(alloc, bytes) {
        Ok(program) => Ok(program),
        Err(TakeError::NoMemory) => Err(ReadFault::NoMemory),
        Err(TakeError::At(fault)) => Err(reported(fault)),
    }
}

/// The bytes of a file are a file of one program at most.
pub fn one_program_law()
    ensures { OneProgramAtMost }
{}
