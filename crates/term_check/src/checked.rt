//! Programs that were checked.
ghost use Rattle.std.specs.Prelude.{◌≡◌, IfOk};
ghost use Rattle.term_check.specs.Reports.{report_of};

use crate::report::{Report, greatest_level, is_dynamic, used_inputs, used_ops};
use std::alloc::Global;
use std::marker::Model;
use term_core::Program;
use value_core::NoMemory;

/// A sound program.
#[derive(Drop)]
pub struct Checked {
    program: Program,
}

impl Model for Checked {
    ghost use Rattle.term_core.specs.declared.program.Program.{Program};
    ghost use Rattle.term_core.specs.Soundness.{IsSound};
    ghost use Rattle.term_check.specs.Codes.{program_code};

    ghost Value = { Program };

    ghost coded = { program_code };

    ghost view = { λ c. c.program };

    ghost invariant = { λ c. IsSound c.program };
}

impl Checked {
    ghost use Rattle.term_core.specs.Soundness.{IsSound};

    pub(crate) fn of(program: Program) -> Checked
        requires { IsSound program }
        ensures { result ≡ program }
    {
        Checked { program }
    }

    /// The program, which is sound.
    pub fn program(&self) -> &Program
        ensures program { result.now ≡ self.now }
        ensures sound { IsSound self.now }
    {
        &self.program
    }

    /// What the program reads: the inputs and operations that some term names, in order of
    /// declaration, the greatest level of these operations, and whether terms are made or left
    /// out by values (a bind, list_map or list_iter stands in it).
    #[tactic(auto, unfolding(crate::specs::Reports::report_of))]
    pub fn report(&self, alloc: Global) -> Result<Report, NoMemory>
        ensures { IfOk result (λ r. r ≡ report_of self.now) }
    {
        let inputs = used_inputs(alloc, &self.program)?;
        let ops = used_ops(alloc, &self.program)?;
        let level = greatest_level(&self.program);
        let dynamic = is_dynamic(&self.program);
        Ok(Report {
            inputs,
            ops,
            level,
            dynamic,
        })
    }
}
