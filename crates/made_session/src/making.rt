//! The session on the made pipeline, over ends in memory.
ghost use Rattle.std.specs.Prelude.{◌≡◌, ◌⊎◌, ◌≤◌, [], Some, IfOk, true};
ghost use Rattle.io_ends.specs.Memory.{contents_at};
ghost use Rattle.session_rules.specs.Commands as made;
ghost use Rattle.store_reports.specs.Ends.{side_of};
ghost use Rattle.made_session.specs.Promises.{Summed, TellsSummary};

use crate::echoes::CountedEchoes;
use crate::program::made_program;
use crate::script::made_script;
use crate::summary::summary_text;
use io_ends::{Clock, ClockInMemory, Files, Sink, SteadyFiles, SteadySink, SteadySource};
use keeper_core::{MemTables, SteadyKeeper};
use session_core::{Ends, Start, Unnumbered, run_session};
use session_rules::SessionEnd;
use std::alloc::{AllocError, Global};
use store_reports::tell_made;
use term_check::{CheckWhat, Checked, check};
use value_core::NoMemory;

/// How many bytes of the script are read at once.
const PIECE: usize = 4096;

/// The ends of the session. What it prints is dropped.
type Memory = Ends<SteadySink, CountedEchoes, ClockInMemory, SteadyFiles>;

/// How the session ended, and what it came to.
#[derive(Drop)]
struct Ended {
    end: SessionEnd,
    versions: u64,
    orders: u64,
}

fn is_memory(what: &CheckWhat) -> bool
    ensures { what.now ≡ CheckWhat.NoMemory → result ≡ true }
{
    matches!(what, CheckWhat::NoMemory)
}

/// The made pipeline, checked. It is sound, so the check fails only when out of memory.
fn checked_program(alloc: Global, nodes: u64) -> Result<Checked, NoMemory>
    requires some { 1 ≤ nodes }
    requires few { nodes ≤ 1000 }
    ensures { IfOk result (λ checked. checked ≡ made.made_program nodes) }
{
    let program = made_program(alloc, nodes)?;
    match check(alloc, program) {
        Ok(checked) => Ok(checked),
        Err(fault) => {
            let ran_out = is_memory(&fault.what);
            prove!(ran_out);
            Err(AllocError)
        }
    }
}

fn memory(alloc: Global) -> Result<Memory, NoMemory>
    ensures launcher { IfOk result (λ e. e.launcher ≡ []) }
    ensures clock { IfOk result (λ e. ⟦<ClockInMemory as Clock>⟧.readings e.clock ≡ Some []) }
    ensures files { IfOk result (λ e.
        ⟦<SteadyFiles as Files>⟧.held e.files ≡ Some (contents_at [])) }
{
    Ok(Ends {
        out: SteadySink::new(alloc, 0)?,
        launcher: CountedEchoes::new(alloc),
        clock: ClockInMemory::new(Vec::new(alloc)),
        files: SteadyFiles::new(Vec::new(alloc)),
    })
}

/// Runs the session on the checked pipeline, over fresh tables.
fn run(alloc: Global, nodes: u64, checked: Checked) -> Result<Ended, NoMemory>
    requires some { 1 ≤ nodes }
    requires few { nodes ≤ 1000 }
    requires made { checked ≡ made.made_program nodes }
    ensures summed { IfOk result (λ r.
        r.end ≡ SessionEnd.Quit → Summed nodes r.versions r.orders) }
    ensures ends { IfOk result (λ r.
        (r.end ≡ SessionEnd.Quit) ⊎ (r.end ≡ SessionEnd.NoMemory)) }
{
    let start = Start {
        checked,
        keeper: SteadyKeeper::new(MemTables::fresh(alloc)?),
        threshold: None,
    };
    let mut input = SteadySource::new(made_script(alloc, nodes)?, PIECE);
    let mut ends = memory(alloc)?;
    let (_keeper, end, versions) = run_session::<_, _, _, _, _, _, Unnumbered>(
        alloc, start, &mut input, &mut ends,
    );
    let orders = ends.launcher.count() as u64;
    Ok(Ended {
        end,
        versions,
        orders,
    })
}

/// Runs the session on the made pipeline of so many nodes.
fn run_made(alloc: Global, nodes: u64) -> Result<Ended, NoMemory>
    requires some { 1 ≤ nodes }
    requires few { nodes ≤ 1000 }
    ensures summed { IfOk result (λ r.
        r.end ≡ SessionEnd.Quit → Summed nodes r.versions r.orders) }
    ensures ends { IfOk result (λ r.
        (r.end ≡ SessionEnd.Quit) ⊎ (r.end ≡ SessionEnd.NoMemory)) }
{
    let checked = checked_program(alloc, nodes)?;
    run(alloc, nodes, checked)
}

/// Runs a session on a made pipeline of so many nodes and a made script, over ends in memory, and
/// prints its summary. Answers the status.
pub fn make<O: Sink>(alloc: Global, nodes: u64, out: &mut O) -> u8
    requires some { 1 ≤ nodes }
    requires few { nodes ≤ 1000 }
    ensures { let side = side_of O.written O.faults in
        TellsSummary nodes result (side out.old) (side out.new) }
{
    match run_made(alloc, nodes) {
        Ok(
            Ended {
                end: SessionEnd::Quit,
                versions,
                orders,
            },
        ) => tell_made(out, summary_text(alloc, nodes, versions, orders), 0),
        // No end fails, and no limit is reached.
        Ok(_) | Err(_) => 7,
    }
}
