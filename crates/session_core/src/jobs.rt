//! The lines of the live jobs.
ghost use Rattle.std.specs.Prelude.{◌≡◌, IfOk};
ghost use Rattle.report_text.specs.Lines.{jobs_text};
ghost use Rattle.report_text.specs.LiveJobs.{AreLive, live_in, shown};
ghost use Rattle.session_core.specs.Printing.{PrintCause, Writes};

use crate::numbering::Numbering;
use crate::session::Session;
use crate::steps::print;
use crate::stop::Stop;
use core_rules::{Job, stage_under};
use engine_core::Engine;
use io_ends::Sink;
use keeper_core::Keeper;
use report_text::{LiveJob, job_lines, live_jobs_have_their_lines};
use std::alloc::Global;
use std::sync::ledger::Ledger;
use value_core::{ListOf, NoMemory};

/// A live job with its stage and the count of its references.
fn live_job<'a>(engine: &Engine, job: &'a Job) -> LiveJob<'a>
    ensures { shown result ≡ live_in engine.now.core job.now }
{
    let ops = engine.program().ops.as_slice();
    let op = ops.get(job.triple.op as usize);
    LiveJob {
        job,
        stage: stage_under(engine.jobs().threshold(), op, job),
        refs: engine.refs_of(&job.triple),
    }
}

/// The live jobs, in order of their numbers.
fn live_jobs(alloc: Global, engine: &Engine) -> Result<ListOf<LiveJob<'_>>, NoMemory>
    ensures { IfOk result (AreLive engine.now.core) }
{
    let jobs = engine.jobs().live()?;
    let mut live = ListOf::new(alloc);
    for job in jobs.as_slice() {
        live.push(live_job(engine, *job))?;
    }
    Ok(live)
}

fn jobs_text(alloc: Global, engine: &Engine) -> Result<ListOf<u8>, NoMemory>
    ensures { IfOk result (λ text. text ≡ jobs_text engine.now.core) }
{
    let live = live_jobs(alloc, engine)?;
    live_jobs_have_their_lines();
    job_lines(alloc, engine.program(), live.as_slice())
}

impl<K: Keeper, G: Ledger, N: Numbering> Session<K, G, N> {
    /// Writes a line for each live job.
    pub(crate) fn list_jobs<O: Sink>(&self, out: &mut O) -> Result<(), Stop>
        ensures text { let text = jobs_text self.now.desk.engine.core in
            Writes text (O.written out.old) (O.written out.new) result }
        ensures cause { PrintCause (O.faults out.old) (O.faults out.new) result }
    {
        let Ok(text) = jobs_text(self.alloc, self.desk.engine()) else {
            return Err(Stop::NoMemory);
        };
        print(out, text.as_slice())
    }
}
