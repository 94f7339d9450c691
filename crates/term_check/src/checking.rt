//! The check of whole programs.
ghost use Rattle.std.specs.Prelude.{◌≡◌, ◌^◌, ◌<◌, ◌≤◌, [], None, length, map, sum, IfOk, IfErr, OnOk};
ghost use Rattle.term_core.specs.Limits.{IsWithinLimits, terms_in};
ghost use Rattle.term_core.specs.Soundness.{IsSound};
ghost use Rattle.term_check.specs.Faults.{IsFirstFault, check_fault, first_fault, node_fault, op_fault, or_later, pool_fault, unknown};

use crate::checked::Checked;
use crate::context::Context;
use crate::fault::{CheckFault, CheckWhat, FaultPlace};
use crate::names::{is_client, is_pool};
use crate::typing::check_term;
use crate::verdict::{Position, Verdict};
use op_keys::{ClientDecl, OpDecl, WorkerDecl};
use std::alloc::Global;
use term_core::Program;
use value_core::{Kind, ListOf, NoMemory, Text};

/// What is declared in a pool.
trait InPool {
    ghost use Rattle.std.specs.Prelude.{◌≡◌, ℕ, List};
    ghost use Rattle.term_check.specs.declared.fault.FaultPlace.{FaultPlace};

    /// Its pool, and the place of one of this number.
    ghost pool_of: { Self → List ℕ };

    ghost site: { ℕ → FaultPlace };

    fn pool(&self) -> &Text
        ensures { result.now ≡ pool_of self.now };

    fn place(number: u32) -> FaultPlace
        ensures { result ≡ site number };
}

impl InPool for ClientDecl {
    ghost use Rattle.term_check.specs.declared.fault.FaultPlace.TheVariants as place;

    ghost pool_of = { λ d. d.pool };

    ghost site = { place.Client };

    fn pool(&self) -> &Text {
        &self.pool
    }

    fn place(number: u32) -> FaultPlace {
        FaultPlace::Client(number)
    }
}

impl InPool for WorkerDecl {
    ghost use Rattle.term_check.specs.declared.fault.FaultPlace.TheVariants as place;

    ghost pool_of = { λ d. d.pool };

    ghost site = { place.Worker };

    fn pool(&self) -> &Text {
        &self.pool
    }

    fn place(number: u32) -> FaultPlace {
        FaultPlace::Worker(number)
    }
}

fn unknown(alloc: Global, place: FaultPlace, name: &Text) -> Result<CheckFault, NoMemory>
    ensures { IfOk result (λ f. f ≡ unknown place name.now) }
{
    Ok(CheckFault {
        place,
        what: CheckWhat::UnknownName(name.copy(alloc)?),
    })
}

/// The first client or worker whose pool isn't declared.
fn pool_fault<D: InPool>(
    alloc: Global,
    program: &Program,
    decls: &[D],
) -> Result<Option<CheckFault>, NoMemory>
    requires { length decls.now < 2 ^ 32 }
    ensures { IfOk result (λ f. f ≡
        first_fault (pool_fault program.now D.site D.pool_of) 0 decls.now) }
{
    for (i, decl) in decls.iter().enumerate() {
        if !is_pool(program, decl.pool()) {
            return Ok(Some(unknown(alloc, D::place(i as u32), decl.pool())?));
        }
    }
    Ok(None)
}

/// The first operation whose pool, or whose client in that pool, isn't declared.
fn op_fault(alloc: Global, program: &Program) -> Result<Option<CheckFault>, NoMemory>
    requires { length program.now.ops < 2 ^ 32 }
    ensures { IfOk result (λ f. f ≡ first_fault (op_fault program.now) 0 program.now.ops) }
{
    for (i, op) in program.ops.as_slice().iter().enumerate() {
        if !is_pool(program, &op.pool) {
            return Ok(Some(unknown(alloc, FaultPlace::Op(i as u32), &op.pool)?));
        }
        if !is_client(program, &op.client, &op.pool) {
            return Ok(Some(unknown(alloc, FaultPlace::Op(i as u32), &op.client)?));
        }
    }
    Ok(None)
}

/// The first fault in a term of a node.
fn node_fault(alloc: Global, program: &Program) -> Result<Option<CheckFault>, NoMemory>
    requires few { length program.now.nodes < 2 ^ 32 }
    requires room { sum (map (λ d. terms_in d.term) program.now.nodes) < 2 ^ 32 }
    ensures { IfOk result (λ f. f ≡ node_fault program.now 0 [] 0 program.now.nodes) }
{
    let mut earlier: ListOf<Kind> = ListOf::new(alloc);
    let mut deep = 0;
    for (i, node) in program.nodes.as_slice().iter().enumerate() {
        let position = Position {
            bodies: 0,
            deep,
            at: 0,
        };
        let context = Context {
            alloc,
            program,
            earlier: earlier.as_slice(),
        };
        match check_term(context, &node.term, position)? {
            Verdict::Typed {
                kind,
                deep: deep_so_far,
                next: _,
            } => {
                earlier.push(kind)?;
                deep = deep_so_far;
            }
            Verdict::Faulty { term, what } => {
                let place = FaultPlace::Node {
                    node: i as u32,
                    term,
                };
                return Ok(Some(CheckFault { place, what }));
            }
        }
    }
    Ok(None)
}

/// The first fault of a program.
#[tactic(auto, unfolding(crate::specs::Faults::check_fault))]
pub(crate) fn program_fault(
    alloc: Global,
    program: &Program,
) -> Result<Option<CheckFault>, NoMemory>
    requires clients { length program.now.clients < 2 ^ 32 }
    requires workers { length program.now.workers < 2 ^ 32 }
    requires ops { length program.now.ops < 2 ^ 32 }
    requires nodes { length program.now.nodes < 2 ^ 32 }
    requires room { sum (map (λ d. terms_in d.term) program.now.nodes) < 2 ^ 32 }
    ensures { IfOk result (λ f. f ≡ check_fault program.now) }
{
    if let Some(fault) = pool_fault(alloc, program, program.clients.as_slice())? {
        return Ok(Some(fault));
    }
    if let Some(fault) = pool_fault(alloc, program, program.workers.as_slice())? {
        return Ok(Some(fault));
    }
    if let Some(fault) = op_fault(alloc, program)? {
        return Ok(Some(fault));
    }
    node_fault(alloc, program)
}

/// Takes a program, whose numbers and texts are within the limits, where it is sound. The fault is
/// the first one in the order of the check: clients with their pools, workers with theirs,
/// operations with their pool and their client in it, and then the nodes.
pub fn check(alloc: Global, program: Program) -> Result<Checked, CheckFault>
    requires within { IsWithinLimits program }
    ensures program { IfOk result (λ c. c ≡ program) }
    ensures sound { OnOk result (IsSound program) }
    ensures faultless { OnOk result (check_fault program ≡ None) }
    ensures fault { IfErr result (IsFirstFault program) }
{
    match program_fault(alloc, &program) {
        Ok(None) => Ok(Checked::of(program)),
        Ok(Some(fault)) => Err(fault),
        Err(_) => Err(CheckFault {
            place: FaultPlace::Client(0),
            what: CheckWhat::NoMemory,
        }),
    }
}
