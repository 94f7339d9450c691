//! Names of declarations, to look them up.
ghost use Rattle.std.specs.Prelude.{◌≡◌, List, ℕ, false, OnOk};
ghost use Rattle.pipe_text.specs.declared.words.DeclWord.{DeclWord};
ghost use Rattle.pipe_text.specs.inside.Known.{named_in, HasOneMore, KnowsOneMore};

use crate::words::DeclWord;
use std::alloc::{AllocError, Global};
use std::collections::BTreeSet;
use value_core::Text;

/// The names that were declared, in a set for each kind. Clients are identified by their pool too,
/// and have none.
#[derive(Drop)]
pub struct Names {
    pub inputs: BTreeSet<Text>,
    pub pools: BTreeSet<Text>,
    pub workers: BTreeSet<Text>,
    pub ops: BTreeSet<Text>,
    pub nodes: BTreeSet<Text>,
}

/// Adds a name: then it and those before it are seen, and no others.
fn see(seen: &mut BTreeSet<Text>, name: Text) -> Result<(), AllocError>
    ensures { OnOk result (HasOneMore seen.old name seen.new) }
{
    seen.insert(name)?;
    Ok(())
}

impl Names {
    pub(crate) fn new(alloc: Global) -> Names
        ensures { (w : DeclWord) (n : List ℕ) → named_in result w n ≡ false }
    {
        Names {
            inputs: BTreeSet::new(alloc),
            pools: BTreeSet::new(alloc),
            workers: BTreeSet::new(alloc),
            ops: BTreeSet::new(alloc),
            nodes: BTreeSet::new(alloc),
        }
    }

    /// Whether a declaration that begins with a word has this name.
    pub(crate) fn has(&self, word: DeclWord, name: &Text) -> bool
        ensures { result ≡ named_in self.now word name.now }
    {
        match word {
            DeclWord::Input => self.inputs.contains(name),
            DeclWord::Pool => self.pools.contains(name),
            DeclWord::Client => false,
            DeclWord::Worker => self.workers.contains(name),
            DeclWord::Op => self.ops.contains(name),
            DeclWord::Node => self.nodes.contains(name),
        }
    }

    /// Adds the name of a declaration that begins with a word.
    pub(crate) fn add(&mut self, word: DeclWord, name: Text) -> Result<(), AllocError>
        ensures { OnOk result (KnowsOneMore self.old word name self.new) }
    {
        match word {
            DeclWord::Input => see(&mut self.inputs, name),
            DeclWord::Pool => see(&mut self.pools, name),
            DeclWord::Client => Ok(()),
            DeclWord::Worker => see(&mut self.workers, name),
            DeclWord::Op => see(&mut self.ops, name),
            DeclWord::Node => see(&mut self.nodes, name),
        }
    }
}
