//! Declarations, and the parts that they are read in.
ghost use Rattle.std.specs.Prelude.{◌≡◌};
ghost use Rattle.pipe_text.specs.inside.Known.{word_of, name_of};
ghost use Rattle.pipe_text.specs.Files.{terms_of};

use crate::words::{DeclWord, OpWord};
use op_keys::{ClientDecl, Expiry, Level, OpDecl, PoolDecl, WorkerDecl};
use term_core::{InputDecl, NodeDecl};
use value_core::{ListOf, Text, Value};

/// A declaration of a file.
#[derive(Drop)]
pub enum Declaration {
    Input(InputDecl),
    Pool(PoolDecl),
    Client(ClientDecl),
    Worker(WorkerDecl),
    Op(OpDecl),
    /// A node, and how many terms it is made of.
    Node(NodeDecl, u32),
}

impl Declaration {
    /// The word that it begins with.
    pub(crate) fn word(&self) -> DeclWord
        ensures { result ≡ word_of self.now }
    {
        match self {
            Declaration::Input(_) => DeclWord::Input,
            Declaration::Pool(_) => DeclWord::Pool,
            Declaration::Client(_) => DeclWord::Client,
            Declaration::Worker(_) => DeclWord::Worker,
            Declaration::Op(_) => DeclWord::Op,
            Declaration::Node(..) => DeclWord::Node,
        }
    }

    /// The name that it declares.
    pub(crate) fn name(&self) -> &Text
        ensures { result.now ≡ name_of self.now }
    {
        match self {
            Declaration::Input(input) => &input.name,
            Declaration::Pool(pool) => &pool.name,
            Declaration::Client(client) => &client.name,
            Declaration::Worker(worker) => &worker.name,
            Declaration::Op(op) => &op.name,
            Declaration::Node(node, _) => &node.name,
        }
    }

    /// How many terms it is made of.
    pub(crate) fn terms(&self) -> u32
        ensures { result ≡ terms_of self.now }
    {
        match self {
            Declaration::Node(_, terms) => *terms,
            _ => 0,
        }
    }
}

/// What an input is declared with.
#[derive(Drop)]
pub struct InputValue {
    pub value: Value,
    pub watch: Option<Text>,
}

/// The pool and client of an operation's orders, and what they cost.
#[derive(Drop)]
pub struct Placement {
    pub pool: Text,
    pub client: Text,
    pub full: u64,
    pub cached: u64,
}

/// The settings of each operation.
#[derive(Drop)]
pub struct Settings {
    pub hint: Option<Text>,
    pub urgent: bool,
    pub level: Level,
}

/// How long a build keeps its results.
#[derive(Clone, Copy, Debug, PartialEq, Eq)]
pub struct Retention {
    pub expiry: Expiry,
    pub latched: bool,
}

/// What an operation begins with.
#[derive(Drop)]
pub struct OpHead {
    pub name: Text,
    pub kind: OpWord,
}

/// What an operation has after its kind.
#[derive(Drop)]
pub struct OpParts {
    pub placement: Placement,
    pub settings: Settings,
    pub retention: Retention,
    pub no_cancel: bool,
    pub words: ListOf<Text>,
}
