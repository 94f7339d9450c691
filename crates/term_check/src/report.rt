//! What a program reads.
ghost use Rattle.std.specs.Prelude.{◌≡◌, ◌^◌, ◌<◌, ◌≤◌, None, length, map, IfOk};
ghost use Rattle.std.specs.List.{filter, list_any};
ghost use Rattle.term_check.specs.Reports.{greatest_level, has_body, higher, in_some_node, is_input, is_op, is_used, is_used_input, is_used_op, names_here, numbers_where, some_term};

use op_keys::{Level, Named, permitted};
use std::alloc::Global;
use term_core::{Program, Term};
use value_core::{ListOf, NoMemory, Text};

/// What a program reads, whatever its inputs and entries are. Inputs and operations are
/// identified by their numbers, in order of declaration.
#[derive(Drop)]
pub struct Report {
    /// The inputs that some term names.
    pub inputs: ListOf<u32>,
    /// The operations that some term looks up.
    pub ops: ListOf<u32>,
    /// The greatest level of these operations.
    pub level: Option<Level>,
    /// Whether it depends on values which terms are evaluated.
    pub dynamic: bool,
}

/// What a name in a term is taken for.
#[derive(Clone, Copy, Debug, PartialEq, Eq)]
enum Role {
    Input,
    Op,
}

impl Role {
    fn is_input(self) -> bool
        ensures { result ≡ is_input self }
    {
        match self {
            Role::Input => true,
            Role::Op => false,
        }
    }

    fn is_op(self) -> bool
        ensures { result ≡ is_op self }
    {
        match self {
            Role::Input => false,
            Role::Op => true,
        }
    }
}

/// Whether a term, or a term in it, names an input or looks up an operation.
#[tactic(auto, using(crate::proofs::Parts::names_all))]
fn names(term: &Term, role: Role, name: &Text) -> bool
    ensures { result ≡ some_term (names_here role name.now) term.now }
{
    match term {
        Term::Return(_) => false,
        Term::Fail { .. } => false,
        Term::Input(input) => role.is_input() && input.is(name),
        Term::Node(_) => false,
        Term::Var(_) => false,
        Term::Map { term, .. } => names(term.get(), role, name),
        Term::Pair(a, b) => names(a.get(), role, name) || names(b.get(), role, name),
        Term::Bind { left, body, .. } => {
            names(left.get(), role, name) || names(body.get(), role, name)
        }
        Term::ListMap { list, body, .. } => {
            names(list.get(), role, name) || names(body.get(), role, name)
        }
        Term::ListIter { list, body, .. } => {
            names(list.get(), role, name) || names(body.get(), role, name)
        }
        Term::Catch(term) => names(term.get(), role, name),
        Term::State(term) => names(term.get(), role, name),
        Term::Gate(on, term) => names(on.get(), role, name) || names(term.get(), role, name),
        Term::All(terms) => {
            for part in terms.as_slice() {
                if names(part, role, name) {
                    return true;
                }
            }
            false
        }
        Term::Build { op, key } => { role.is_op() && op.is(name) || names(key.get(), role, name) }
        Term::Output { op, key, value } => {
            role.is_op() && op.is(name)
                || names(key.get(), role, name)
                || names(value.get(), role, name)
        }
    }
}

/// Whether a term, or a term in it, has a body.
#[tactic(auto, using(crate::proofs::Parts::bodies_all))]
fn has_bodies(term: &Term) -> bool
    ensures { result ≡ some_term has_body term.now }
{
    match term {
        Term::Return(_) => false,
        Term::Fail { .. } => false,
        Term::Input(_) => false,
        Term::Node(_) => false,
        Term::Var(_) => false,
        Term::Map { fun: _, term } => has_bodies(term.get()),
        Term::Pair(a, b) => has_bodies(a.get()) || has_bodies(b.get()),
        Term::Bind { .. } => true,
        Term::ListMap { .. } => true,
        Term::ListIter { .. } => true,
        Term::Catch(term) => has_bodies(term.get()),
        Term::State(term) => has_bodies(term.get()),
        Term::Gate(on, term) => has_bodies(on.get()) || has_bodies(term.get()),
        Term::All(terms) => {
            for part in terms.as_slice() {
                if has_bodies(part) {
                    return true;
                }
            }
            false
        }
        Term::Build { op: _, key } => has_bodies(key.get()),
        Term::Output { op: _, key, value } => has_bodies(key.get()) || has_bodies(value.get()),
    }
}

/// Whether some term of the program names an input or looks up an operation.
fn is_named(program: &Program, role: Role, name: &Text) -> bool
    ensures { result ≡ in_some_node (names_here role name.now) program.now }
{
    for node in program.nodes.as_slice() {
        if names(&node.term, role, name) {
            return true;
        }
    }
    false
}

/// The declarations that some term names, by their numbers.
fn used<D: Named>(
    alloc: Global,
    program: &Program,
    role: Role,
    decls: &[D],
) -> Result<ListOf<u32>, NoMemory>
    requires { length decls.now < 2 ^ 32 }
    ensures { IfOk result (λ ns. ns ≡
        numbers_where (is_used program.now role D.named) 0 decls.now) }
{
    let mut numbers = ListOf::new(alloc);
    for (i, decl) in decls.iter().enumerate() {
        if is_named(program, role, decl.name()) {
            numbers.push(i as u32)?;
        }
    }
    Ok(numbers)
}

/// The inputs that some term names.
pub(crate) fn used_inputs(alloc: Global, program: &Program) -> Result<ListOf<u32>, NoMemory>
    requires { length program.now.inputs < 2 ^ 32 }
    ensures { IfOk result (λ ns. ns ≡
        numbers_where (is_used_input program.now) 0 program.now.inputs) }
{
    used(alloc, program, Role::Input, program.inputs.as_slice())
}

/// The operations that some term looks up.
pub(crate) fn used_ops(alloc: Global, program: &Program) -> Result<ListOf<u32>, NoMemory>
    requires { length program.now.ops < 2 ^ 32 }
    ensures { IfOk result (λ ns. ns ≡ numbers_where (is_used_op program.now) 0 program.now.ops) }
{
    used(alloc, program, Role::Op, program.ops.as_slice())
}

/// The higher of two levels.
fn higher(found: Option<Level>, level: Level) -> Level
    ensures { result ≡ higher found level }
{
    match found {
        // What a threshold permits is below it.
        Some(greatest) if permitted(Some(greatest), level) => greatest,
        _ => level,
    }
}

/// The greatest level of the operations that some term looks up.
pub(crate) fn greatest_level(program: &Program) -> Option<Level>
    ensures { result ≡ greatest_level None
        (map (λ d. d.level) (filter (is_used_op program.now) program.now.ops)) }
{
    let mut found = None;
    for op in program.ops.as_slice() {
        if is_named(program, Role::Op, &op.name) {
            found = Some(higher(found, op.level));
        }
    }
    found
}

/// Whether some term has a body.
pub(crate) fn is_dynamic(program: &Program) -> bool
    ensures { result ≡ in_some_node has_body program.now }
{
    for node in program.nodes.as_slice() {
        if has_bodies(&node.term) {
            return true;
        }
    }
    false
}
