//! The pipeline file.
ghost use Rattle.std.specs.Prelude.{◌≡◌, ◌⊎◌, IfErr, IfOk, IfSome, OnErr, OnOk, Some};
ghost use Rattle.io_ends.specs.Causes.{HasCauseOf, Rose};
ghost use Rattle.io_ends.specs.Known.{TakesContent, content_now};
ghost use Rattle.io_ends.specs.declared.ends.FileFault.TheVariants as file_fault;
ghost use Rattle.term_core.specs.Limits.{IsWithinLimits};
ghost use Rattle.term_check.specs.Faults.{IsFirstFault, check_fault};
ghost use Rattle.report_text.specs.FaultLines.{check_text, error_line};
ghost use Rattle.current_cli.specs.inside.FileFound.{file_checked, file_found, file_in};
ghost use Rattle.current_cli.specs.inside.FileFound.{file_status, is_no_memory, seen_file};

use io_ends::{FileFault, FileRead, Files};
use pipe_text::{ReadFault, read_pipeline};
use report_text::{check_line, read_line};
use std::alloc::{AllocError, Global};
use term_check::{CheckFault, CheckWhat, Checked, check};
use term_core::Program;
use value_core::{ListOf, NoMemory};

/// A pipeline file has at most so many bytes.
const FILE_LIMIT: usize = 1_048_576;

/// What a pipeline file is found to be.
#[derive(Drop)]
pub(crate) enum PipelineFile {
    Missing,
    /// It is refused with this line.
    Refused(ListOf<u8>),
    Sound(Checked),
}

fn is_no_memory(what: &CheckWhat) -> bool
    ensures { result ≡ is_no_memory what.now }
{
    matches!(what, CheckWhat::NoMemory)
}

/// The line of a program's first fault.
fn faulty_line(alloc: Global, program: &Program, fault: &CheckFault) -> Result<ListOf<u8>, NoMemory>
    requires { IsFirstFault program.now fault.now }
    ensures first { IfOk result (λ line. check_fault program.now ≡ Some fault.now) }
    ensures line { IfOk result (λ line. line ≡ error_line (check_text program.now fault.now)) }
{
    if is_no_memory(&fault.what) {
        return Err(AllocError);
    }
    check_line(alloc, program, fault)
}

/// The check takes a copy of the program, since its refusal names the program's parts.
fn file_of_program(alloc: Global, program: &Program) -> Result<PipelineFile, NoMemory>
    requires { IsWithinLimits program.now }
    ensures { IfOk result (λ f. seen_file f
        ≡ file_checked program.now (check_fault program.now)) }
{
    match check(alloc, program.copy(alloc)?) {
        Ok(checked) => Ok(PipelineFile::Sound(checked)),
        Err(fault) => Ok(PipelineFile::Refused(faulty_line(alloc, program, &fault)?)),
    }
}

fn file_of(alloc: Global, content: &[u8]) -> Result<PipelineFile, NoMemory>
    ensures { IfOk result (λ f. seen_file f ≡ file_in content.now) }
{
    match read_pipeline(alloc, content) {
        Ok(program) => file_of_program(alloc, &program),
        Err(ReadFault::NoMemory) => Err(AllocError),
        Err(fault) => Ok(PipelineFile::Refused(read_line(alloc, &fault)?)),
    }
}

/// What the file of a path is found to be.
pub(crate) fn read_file<F: Files>(
    alloc: Global,
    path: &str,
    files: &mut F,
) -> Result<PipelineFile, FileFault>
    ensures file { IfSome (F.held files.old) (λ contents. IfOk result (λ f.
        seen_file f ≡ file_found (content_now (contents path.now)))) }
    ensures taken { OnOk result (TakesContent (F.held files.old) path.now (F.held files.new)) }
    ensures missing { (result ≡ Ok PipelineFile.Missing)
        ⊎ (F.misses files.new ≡ F.misses files.old) }
    ensures missed { result ≡ Ok PipelineFile.Missing →
        Rose (F.misses files.old) (F.misses files.new) }
    ensures cause { HasCauseOf file_fault.Failed file_fault.NoMemory
        (F.faults files.old) (F.faults files.new) result }
{
    match files.read_file(alloc, path, FILE_LIMIT)? {
        FileRead::Missing => Ok(PipelineFile::Missing),
        FileRead::Found(content) => Ok(file_of(alloc, content.as_slice())?),
    }
}

/// The status of a file that wasn't read.
pub(crate) fn file_status(fault: FileFault) -> u8
    ensures { result ≡ file_status fault }
{
    match fault {
        FileFault::Failed => 4,
        FileFault::NoMemory => 7,
    }
}
