//! The states of one node and of all nodes, evaluated afresh.
ghost use Rattle.std.specs.Prelude.{◌^◌, ◌<◌, ◌≤◌, [], length, IfOk};
ghost use Rattle.term_core.specs.Evaluation.{context_of, eval};
ghost use Rattle.term_core.specs.Evaluators.{EvaluatesAll, EvaluatesTo};
ghost use Rattle.term_core.specs.Fresh.{fresh, node_run};
ghost use Rattle.term_core.specs.Views.{context_in};

use crate::context::Context;
use crate::entries::Entries;
use crate::evaluation::Evaluator;
use crate::program::{Program, Term};
use std::alloc::Global;
use std::sync::ledger::Ledger;
use value_core::{ListOf, NoMemory, State, Steps, Triple, Value};

/// The state of a node's term, and what it wanted, in order of evaluation with repeats.
#[derive(Drop)]
pub struct Evaluated {
    pub state: State,
    pub wants: ListOf<Triple>,
}

/// The states of all nodes in file order, and their wants one after the other.
#[derive(Drop)]
pub struct Fresh {
    pub states: ListOf<State>,
    pub wants: ListOf<Triple>,
}

/// The state and the wants of a term without bound values.
fn eval_own<E: Entries, L: Ledger>(
    alloc: Global,
    context: Context<'_, E>,
    term: &Term,
    steps: &mut Steps<L>,
) -> Result<Evaluated, NoMemory>
    requires { length context.program.now.ops < 2 ^ 32 }
    ensures run { IfOk result (EvaluatesTo (eval (context_in E.world context.entry) term.now [])
        steps.old steps.new) }
    ensures not_fallen { steps.old ≤ steps.new }
{
    let mut evaluator = Evaluator {
        alloc,
        context,
        bound: ListOf::new(alloc),
        wants: ListOf::new(alloc),
    };
    let state = evaluator.term(term, steps)?;
    let Evaluator { wants, .. } = evaluator;
    Ok(Evaluated { state, wants })
}

/// Evaluates a node over a value for each input and the states of all earlier nodes.
///
/// A name that isn't declared is read as unit, and a value of another kind than a term asks for as
/// the empty text or list. So all that is asked of the program is that its operations can be
/// numbered.
pub fn eval_node<E: Entries, L: Ledger>(
    alloc: Global,
    program: &Program,
    node: u32,
    inputs: &[Value],
    earlier: &[State],
    entries: &E,
    steps: &mut Steps<L>,
) -> Result<Evaluated, NoMemory>
    requires known { node < length program.now.nodes }
    requires few_ops { length program.now.ops < 2 ^ 32 }
    ensures run { IfOk result (EvaluatesTo
        (node_run (context_of program.now node inputs.now earlier.now (E.world entries.now)))
        steps.old steps.new) }
    ensures not_fallen { steps.old ≤ steps.new }
{
    let nodes = program.nodes.as_slice();
    let decl = &nodes[node as usize];
    let context = Context {
        program,
        node,
        inputs,
        earlier,
        entries,
    };
    eval_own(alloc, context, &decl.term, steps)
}

/// Evaluates all nodes over a value for each input, keeping nothing from before.
#[tactic(auto, unfolding(crate::specs::Fresh::fresh))]
pub fn fresh_states<E: Entries, L: Ledger>(
    alloc: Global,
    program: &Program,
    inputs: &[Value],
    entries: &E,
    steps: &mut Steps<L>,
) -> Result<Fresh, NoMemory>
    requires few_nodes { length program.now.nodes < 2 ^ 32 }
    requires few_ops { length program.now.ops < 2 ^ 32 }
    ensures run { IfOk result (EvaluatesAll (fresh program.now inputs.now (E.world entries.now))
        steps.old steps.new) }
    ensures not_fallen { steps.old ≤ steps.new }
{
    let mut states = ListOf::new(alloc);
    let mut wants = ListOf::new(alloc);
    for (i, decl) in program.nodes.as_slice().iter().enumerate() {
        let earlier = states.as_slice();
        let context = Context {
            program,
            node: i as u32,
            inputs,
            earlier,
            entries,
        };
        let evaluated = eval_own(alloc, context, &decl.term, steps)?;
        let Evaluated { state, wants: more } = evaluated;
        states.push(state)?;
        wants.append(more)?;
    }
    Ok(Fresh { states, wants })
}
