//! The engine: the core's state in its parts.
ghost use Rattle.std.specs.Prelude.{◌≡◌, ◌<◌, length, map, slice_get, IfOk, Some};
ghost use Rattle.core_rules.specs.Entries.{refs, states};
ghost use Rattle.core_rules.specs.Parts.{work_of};
ghost use Rattle.engine_core.specs.State.{IsEngineLawful};

mod installing;
mod opening;
mod planning;

use crate::core_copy::CoreCopy;
use crate::evaluation::Evaluation;
use crate::parts::Parts;
use job_core::Jobs;
use sched_rows::Rows;
use std::alloc::Global;
use std::marker::Model;
use term_check::Checked;
use term_core::Program;
use value_core::{NoMemory, State, Triple, Value};

/// The state of a pipeline between events, with the evaluation of its nodes.
#[derive(Drop)]
pub struct Engine {
    alloc: Global,
    checked: Checked,
    /// The value of each input, in file order.
    inputs: Vec<Value>,
    rows: Rows,
    jobs: Jobs,
    /// The latest moment so far, in milliseconds since 1970.
    moment: u64,
    version: u64,
    evaluation: Evaluation,
}

impl Model for Engine {
    ghost use Rattle.engine_core.specs.State.{EngineState, engine_code};

    ghost Value = { EngineState };

    ghost coded = { engine_code };

    ghost use Rattle.engine_core.specs.inside.Keeping.{IsKept, shown};

    ghost view = { shown };

    ghost invariant = { IsKept };
}

fn copy_of_values(alloc: Global, values: &[Value]) -> Result<Vec<Value>, NoMemory>
    ensures { IfOk result (λ copies. copies.items ≡ values.now) }
{
    let mut copies = Vec::new(alloc);
    for value in values {
        copies.push(value.copy(alloc)?)?;
    }
    Ok(copies)
}

impl Engine {
    ghost use Rattle.engine_core.specs.inside.Bare.{bare_at};

    /// The version of the state, which each accepted event raises by one. Takes no memory.
    pub fn version(&self) -> u64
        ensures { result ≡ self.now.core.version }
    {
        self.version
    }

    /// The moment of the state, in milliseconds since 1970. Takes no memory.
    pub fn now(&self) -> u64
        ensures { result ≡ self.now.core.now }
    {
        self.moment
    }

    /// The program. Takes no memory.
    pub fn program(&self) -> &Program
        ensures { result.now ≡ self.now.core.program }
    {
        self.checked.program()
    }

    /// The live jobs. Takes no memory.
    pub fn jobs(&self) -> &Jobs
        ensures { result.now ≡ record { work = work_of self.now.core; spare = self.now.job_room } }
    {
        &self.jobs
    }

    /// The value of an input. Takes no memory.
    pub fn input_of(&self, input: u32) -> &Value
        requires { input < length self.now.core.program.inputs }
        ensures { slice_get self.now.core.inputs input ≡ Some result.now }
    {
        &self.inputs[input as usize]
    }

    /// The state of a node. Takes no memory.
    pub fn state_of(&self, node: u32) -> &State
        requires { node < length self.now.core.program.nodes }
        ensures { slice_get (states self.now.core) node ≡ Some result.now }
    {
        self.evaluation.state_of(node)
    }

    /// How often a triple is wanted. Takes no memory.
    pub fn refs_of(&self, triple: &Triple) -> u64
        ensures { result ≡ refs self.now.core triple.now }
    {
        self.evaluation.refs_of(triple)
    }

    /// A copy of the core's state.
    pub fn core_copy(&self) -> Result<CoreCopy, NoMemory>
        ensures { IfOk result (λ copy. copy ≡ self.now.core) }
    {
        Ok(CoreCopy {
            inputs: copy_of_values(self.alloc, self.inputs.as_slice())?,
            rows: self.rows.copy()?,
            jobs: self.jobs.copy()?,
            moment: self.moment,
            version: self.version,
        })
    }

    /// The jobs and the rows at a moment.
    fn parts(&self, moment: u64) -> Parts<'_>
        ensures { result ≡ bare_at self.now.core moment }
    {
        Parts::of(self.checked.program(), &self.jobs, &self.rows, moment)
    }
}

/// What holds of an engine at each moment.
pub fn engine_law(engine: &Engine)
    ensures { IsEngineLawful engine.now.core }
{
    let _version = engine.version;
}
