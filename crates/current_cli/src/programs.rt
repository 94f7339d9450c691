//! The program of a pipeline file, and its report.
ghost use Rattle.std.specs.Prelude.{◌≡◌, IfOk, OnOk};
ghost use Rattle.io_ends.specs.Known.{TakesContent};
ghost use Rattle.store_reports.specs.Ends.{side_of};
ghost use Rattle.current_cli.specs.Calls.{report};
ghost use Rattle.current_cli.specs.inside.Parts.{CheckCause, FileCause, FindsProgram, IsChecked};

use crate::files::{PipelineFile, file_status, read_file};
use io_ends::{Files, Sink};
use report_text::report_lines;
use session_core::Ends;
use std::alloc::Global;
use store_reports::{tell, tell_made};
use term_check::Checked;
use value_core::{ListOf, NoMemory};

/// The program of the file of a path. Without one the reason is printed, and the answer is the
/// status.
pub(crate) fn find_program<O: Sink, L, C, F: Files>(
    alloc: Global,
    path: &str,
    ends: &mut Ends<O, L, C, F>,
) -> Result<Checked, u8>
    ensures program { let side = side_of O.written O.faults in
        FindsProgram (F.held ends.old.files) path.now result
        (side ends.old.out) (side ends.new.out) }
    ensures taken { OnOk result
        (TakesContent (F.held ends.old.files) path.now (F.held ends.new.files)) }
    ensures launcher { ends.new.launcher ≡ ends.old.launcher }
    ensures clock { ends.new.clock ≡ ends.old.clock }
    ensures cause { FileCause result (O.faults ends.old.out) (O.faults ends.new.out)
        (F.faults ends.old.files) (F.faults ends.new.files)
        (F.misses ends.old.files) (F.misses ends.new.files) }
{
    match read_file(alloc, path, &mut ends.files) {
        Ok(PipelineFile::Sound(checked)) => Ok(checked),
        Ok(PipelineFile::Refused(line)) => Err(tell(&mut ends.out, line.as_slice(), 3)),
        Ok(PipelineFile::Missing) => Err(tell(&mut ends.out, b"error: no file\n", 2)),
        Err(fault) => Err(file_status(fault)),
    }
}

/// The text of a sound program's report.
#[tactic(auto, using(report_text::proofs::Reported::inputs_reported, report_text::proofs::Reported::ops_reported))]
fn report_of(alloc: Global, checked: &Checked) -> Result<ListOf<u8>, NoMemory>
    ensures { IfOk result (λ text. text ≡ report checked.now) }
{
    let report = checked.report(alloc)?;
    report_lines(alloc, &report, checked.program())
}

/// Prints the report of the pipeline of a file.
pub(crate) fn check<O: Sink, L, C, F: Files>(
    alloc: Global,
    path: &str,
    ends: &mut Ends<O, L, C, F>,
) -> u8
    ensures run { let side = side_of O.written O.faults in
        IsChecked (F.held ends.old.files) path.now result
        (side ends.old.out) (side ends.new.out) }
    ensures launcher { ends.new.launcher ≡ ends.old.launcher }
    ensures cause { CheckCause result (O.faults ends.old.out) (O.faults ends.new.out)
        (F.faults ends.old.files) (F.faults ends.new.files)
        (F.misses ends.old.files) (F.misses ends.new.files) }
{
    match find_program(alloc, path, ends) {
        Ok(checked) => tell_made(&mut ends.out, report_of(alloc, &checked), 0),
        Err(status) => status,
    }
}
