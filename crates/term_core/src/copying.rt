//! Copies of programs.
ghost use Rattle.std.specs.Prelude.{◌≡◌, IfOk};

use crate::program::{InputDecl, NodeDecl, Program, Term};
use op_keys::{ClientDecl, OpDecl, PoolDecl, WorkerDecl};
use sqlite_items::Boxed;
use std::alloc::Global;
use value_core::{ListOf, NoMemory, Text};

#[cycle(copying)]
fn copy_of_boxed(alloc: Global, term: &Boxed<Term>) -> Result<Boxed<Term>, NoMemory>
    ensures { IfOk result (λ t. t ≡ term.now) }
{
    Boxed::new(alloc, copy_of_term(alloc, term.get())?)
}

#[cycle(copying)]
fn copy_of_terms(alloc: Global, terms: &[Term]) -> Result<ListOf<Term>, NoMemory>
    ensures { IfOk result (λ ts. ts ≡ terms.now) }
{
    let mut copies = ListOf::new(alloc);
    for term in terms {
        copies.push(copy_of_term(alloc, term)?)?;
    }
    Ok(copies)
}

#[cycle(copying)]
fn copy_of_term(alloc: Global, term: &Term) -> Result<Term, NoMemory>
    ensures { IfOk result (λ t. t ≡ term.now) }
{
    match term {
        Term::Return(value) => Ok(Term::Return(value.copy(alloc)?)),
        Term::Fail { kind, message } => Ok(Term::Fail {
            kind: *kind,
            message: message.copy(alloc)?,
        }),
        Term::Input(name) => Ok(Term::Input(name.copy(alloc)?)),
        Term::Node(name) => Ok(Term::Node(name.copy(alloc)?)),
        Term::Var(name) => Ok(Term::Var(name.copy(alloc)?)),
        Term::Map { fun, term } => Ok(Term::Map {
            fun: *fun,
            term: copy_of_boxed(alloc, term)?,
        }),
        Term::Pair(a, b) => Ok(Term::Pair(copy_of_boxed(alloc, a)?, copy_of_boxed(alloc, b)?)),
        Term::Bind { name, left, body } => Ok(Term::Bind {
            name: name.copy(alloc)?,
            left: copy_of_boxed(alloc, left)?,
            body: copy_of_boxed(alloc, body)?,
        }),
        Term::ListMap { name, list, body } => Ok(Term::ListMap {
            name: name.copy(alloc)?,
            list: copy_of_boxed(alloc, list)?,
            body: copy_of_boxed(alloc, body)?,
        }),
        Term::ListIter { name, list, body } => Ok(Term::ListIter {
            name: name.copy(alloc)?,
            list: copy_of_boxed(alloc, list)?,
            body: copy_of_boxed(alloc, body)?,
        }),
        Term::Catch(term) => Ok(Term::Catch(copy_of_boxed(alloc, term)?)),
        Term::State(term) => Ok(Term::State(copy_of_boxed(alloc, term)?)),
        Term::Gate(on, term) => Ok(Term::Gate(
            copy_of_boxed(alloc, on)?,
            copy_of_boxed(alloc, term)?,
        )),
        Term::All(terms) => Ok(Term::All(copy_of_terms(alloc, terms.as_slice())?)),
        Term::Build { op, key } => Ok(Term::Build {
            op: op.copy(alloc)?,
            key: copy_of_boxed(alloc, key)?,
        }),
        Term::Output { op, key, value } => Ok(Term::Output {
            op: op.copy(alloc)?,
            key: copy_of_boxed(alloc, key)?,
            value: copy_of_boxed(alloc, value)?,
        }),
    }
}

impl Term {
    /// An equal term.
    pub fn copy(&self, alloc: Global) -> Result<Term, NoMemory>
        ensures { IfOk result (λ t. t ≡ self.now) }
    {
        copy_of_term(alloc, self)
    }
}

fn copy_of_watch(alloc: Global, watch: &Option<Text>) -> Result<Option<Text>, NoMemory>
    ensures { IfOk result (λ w. w ≡ watch.now) }
{
    match watch {
        Some(path) => Ok(Some(path.copy(alloc)?)),
        None => Ok(None),
    }
}

impl InputDecl {
    /// An equal declaration.
    pub fn copy(&self, alloc: Global) -> Result<InputDecl, NoMemory>
        ensures { IfOk result (λ d. d ≡ self.now) }
    {
        Ok(InputDecl {
            name: self.name.copy(alloc)?,
            value: self.value.copy(alloc)?,
            watch: copy_of_watch(alloc, &self.watch)?,
        })
    }
}

impl NodeDecl {
    /// An equal declaration.
    pub fn copy(&self, alloc: Global) -> Result<NodeDecl, NoMemory>
        ensures { IfOk result (λ d. d ≡ self.now) }
    {
        Ok(NodeDecl {
            name: self.name.copy(alloc)?,
            term: self.term.copy(alloc)?,
        })
    }
}

/// What has equal copies.
trait Copied: Drop {
    ghost use Rattle.std.specs.Prelude.{◌≡◌, IfOk};

    fn copied(&self, alloc: Global) -> Result<Self, NoMemory>
        ensures { IfOk result (λ d. d ≡ self.now) };
}

impl Copied for InputDecl {
    fn copied(&self, alloc: Global) -> Result<InputDecl, NoMemory> {
        self.copy(alloc)
    }
}

impl Copied for PoolDecl {
    fn copied(&self, alloc: Global) -> Result<PoolDecl, NoMemory> {
        self.copy(alloc)
    }
}

impl Copied for ClientDecl {
    fn copied(&self, alloc: Global) -> Result<ClientDecl, NoMemory> {
        self.copy(alloc)
    }
}

impl Copied for WorkerDecl {
    fn copied(&self, alloc: Global) -> Result<WorkerDecl, NoMemory> {
        self.copy(alloc)
    }
}

impl Copied for OpDecl {
    fn copied(&self, alloc: Global) -> Result<OpDecl, NoMemory> {
        self.copy(alloc)
    }
}

impl Copied for NodeDecl {
    fn copied(&self, alloc: Global) -> Result<NodeDecl, NoMemory> {
        self.copy(alloc)
    }
}

fn copy_of_all<D: Copied>(alloc: Global, decls: &ListOf<D>) -> Result<ListOf<D>, NoMemory>
    ensures { IfOk result (λ ds. ds ≡ decls.now) }
{
    let mut copies = ListOf::new(alloc);
    for decl in decls.as_slice() {
        copies.push(decl.copied(alloc)?)?;
    }
    Ok(copies)
}

impl Program {
    /// An equal program.
    pub fn copy(&self, alloc: Global) -> Result<Program, NoMemory>
        ensures { IfOk result (λ p. p ≡ self.now) }
    {
        Ok(Program {
            version: self.version,
            inputs: copy_of_all(alloc, &self.inputs)?,
            pools: copy_of_all(alloc, &self.pools)?,
            clients: copy_of_all(alloc, &self.clients)?,
            workers: copy_of_all(alloc, &self.workers)?,
            ops: copy_of_all(alloc, &self.ops)?,
            nodes: copy_of_all(alloc, &self.nodes)?,
        })
    }
}
