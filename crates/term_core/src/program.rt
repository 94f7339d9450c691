//! The program of a pipeline file, as data.
use op_keys::{ClientDecl, OpDecl, PoolDecl, WorkerDecl};
use sqlite_items::Boxed;
use value_core::{Fun, ListOf, Text, Value};

/// The kind that a term which only fails is of; a list is a list of texts.
#[derive(Clone, Copy, Debug, PartialEq, Eq)]
pub enum FailKind {
    Text,
    Num,
    Unit,
    List,
}

/// What a node evaluates.
#[derive(Drop)]
pub enum Term {
    /// A literal.
    Return(Value),
    /// A failure with this message.
    Fail {
        kind: FailKind,
        message: Text,
    },
    /// The value of an input, by its name.
    Input(Text),
    /// The state of an earlier node, by its name.
    Node(Text),
    /// The innermost value that is bound to the name.
    Var(Text),
    /// A function of the term's value.
    Map {
        fun: Fun,
        term: Boxed<Term>,
    },
    /// Both terms, as a pair.
    Pair(Boxed<Term>, Boxed<Term>),
    /// The body, under the value of `left` as `name`.
    Bind {
        name: Text,
        left: Boxed<Term>,
        body: Boxed<Term>,
    },
    /// The list of what the body comes to for each item, bound to `name`.
    ListMap {
        name: Text,
        list: Boxed<Term>,
        body: Boxed<Term>,
    },
    /// Unit, where the body is fine for each item, bound to `name`.
    ListIter {
        name: Text,
        list: Boxed<Term>,
        body: Boxed<Term>,
    },
    /// A value or a message, as an outcome.
    Catch(Boxed<Term>),
    /// The same, where an active state is an outcome too.
    State(Boxed<Term>),
    /// The second term, held back until the first is fine.
    Gate(Boxed<Term>, Boxed<Term>),
    /// Unit, where each term is fine.
    All(ListOf<Term>),
    /// What a build operation gives for a key.
    Build {
        op: Text,
        key: Boxed<Term>,
    },
    /// Unit, where an output operation has set the key to the value.
    Output {
        op: Text,
        key: Boxed<Term>,
        value: Boxed<Term>,
    },
}

/// An input, with the value that it has until it is set.
#[derive(Drop)]
pub struct InputDecl {
    pub name: Text,
    pub value: Value,
    /// The path of a file that sets it.
    pub watch: Option<Text>,
}

/// A named term whose state is kept and printed.
#[derive(Drop)]
pub struct NodeDecl {
    pub name: Text,
    pub term: Term,
}

/// A pipeline: the version of its file, and its declarations, each list in file order.
#[derive(Drop)]
pub struct Program {
    pub version: u32,
    pub inputs: ListOf<InputDecl>,
    pub pools: ListOf<PoolDecl>,
    pub clients: ListOf<ClientDecl>,
    pub workers: ListOf<WorkerDecl>,
    pub ops: ListOf<OpDecl>,
    pub nodes: ListOf<NodeDecl>,
}
