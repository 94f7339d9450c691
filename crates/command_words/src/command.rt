//! Commands.
ghost use Rattle.std.specs.Prelude.{◌≡◌, IfOk};

use op_keys::Level;
use std::alloc::{AllocError, Global};
use std::marker::Model;

/// A path. Contracts see its bytes.
#[derive(Debug, Drop)]
pub struct PathText {
    text: String,
}

impl Model for PathText {
    ghost use Rattle.std.specs.Prelude.{List, ℕ};
    ghost use Rattle.std.specs.String.{string_bytes};

    ghost Value = { List ℕ };

    ghost view = { λ p. string_bytes p.text };
}

impl PathText {
    /// The path of this text.
    pub fn of(alloc: Global, text: &str) -> Result<PathText, AllocError>
        ensures { IfOk result (λ p. p ≡ text.now) }
    {
        let text = String::from_str(alloc, text)?;
        Ok(PathText { text })
    }

    /// Its text.
    pub fn as_str(&self) -> &str
        ensures { result.now ≡ self.now }
    {
        self.text.as_str()
    }
}

/// What the words of the command line ask for.
#[derive(Debug, Drop)]
pub enum Command {
    /// A session on the pipeline of a file.
    Run {
        file: PathText,
        /// What is stored between sessions; nothing without it.
        store: Option<PathText>,
        /// Operations from this level on wait to be confirmed.
        confirm: Option<Level>,
        /// Each version ends with the number of evaluations.
        count: bool,
    },
    /// The report of the pipeline of a file.
    Check {
        file: PathText,
    },
    /// The results of a store.
    Jobs {
        store: PathText,
    },
    /// How much a store has.
    Stats {
        store: PathText,
    },
    /// The output of a job.
    Log {
        job: u64,
        store: PathText,
    },
    /// A session on a made pipeline of so many nodes, from 1 to 1,000.
    Make {
        nodes: u64,
    },
    /// Moves a store of the first schema under the second.
    Migrate {
        store: PathText,
    },
}
