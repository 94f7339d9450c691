//! The lines of live jobs.
ghost use Rattle.std.specs.Prelude.{◌≡◌, IfOk};
ghost use Rattle.report_text.specs.Lines.{job_line, mark_text};
ghost use Rattle.report_text.specs.inside.Writers.{Adds, live_text};

use crate::words::{stage_word, write_target};
use core_rules::{Job, Mark};
use std::alloc::Global;
use term_core::Program;
use value_core::{ListOf, NoMemory, Stage};

/// A live job, its stage, and how often its triple is wanted.
#[derive(Drop)]
pub struct LiveJob<'a> {
    pub job: &'a Job,
    pub stage: Stage,
    pub refs: u64,
}

fn mark_word(mark: Mark) -> &'static str
    ensures { result.now ≡ mark_text mark }
{
    match mark {
        Mark::Unmarked => "",
        Mark::Automatic | Mark::User => " cancelling",
    }
}

#[tactic(auto, unfolding(crate::specs::Lines::job_line))]
fn write_job(out: &mut String, program: &Program, live: &LiveJob<'_>) -> Result<(), NoMemory>
    ensures { Adds result out.old out.new
        (job_line program.now live.now.job.now live.now.stage live.now.refs) }
{
    let number = live.job.number;
    let triple = &live.job.triple;
    let stage = stage_word(live.stage);
    let refs = live.refs;
    let mark = mark_word(live.job.mark);
    write!(out, "job {number} ")?;
    write_target(out, program, triple.op, &triple.key, &triple.value)?;
    write!(out, " {stage} refs {refs}{mark}\n")
}

/// The lines of these live jobs.
pub fn job_lines(
    alloc: Global,
    program: &Program,
    jobs: &[LiveJob<'_>],
) -> Result<ListOf<u8>, NoMemory>
    ensures { IfOk result (λ text. text ≡ live_text program.now jobs.now) }
{
    let mut out = String::new(alloc);
    for live in jobs {
        write_job(&mut out, program, live)?;
    }
    Ok(ListOf::from_vec(out.into_bytes()))
}
