//! The names in terms: the kinds that they have, and what is wrong with them.
ghost use Rattle.std.specs.Prelude.{◌≡◌, ◌&&◌, None, IfOk, is_some};
ghost use Rattle.std.specs.List.{list_any};
ghost use Rattle.std.specs.Option.{option_copied};
ghost use Rattle.std.specs.Str.{bytes_eq};
ghost use Rattle.term_core.specs.declared.program.Term.{out-Term};
ghost use Rattle.term_core.specs.Soundness.{fail_kind, innermost_kind, input_kind, is_op, is_pool, is_client, node_kind};
ghost use Rattle.term_check.specs.Typing.{is_list_layer, is_node, kind_or_unit, name_fault, node_name_fault, unless};

use crate::context::Context;
use crate::fault::CheckWhat;
use op_keys::{OpDecl, index_of};
use sqlite_items::Boxed;
use std::alloc::Global;
use term_core::{FailKind, NodeDecl, Program, Term};
use value_core::{Kind, NoMemory, Text, literal_kind};

/// The kind that a failing term is of.
pub(crate) fn fail_kind(alloc: Global, kind: FailKind) -> Result<Kind, NoMemory>
    ensures { IfOk result (λ k. k ≡ fail_kind kind) }
{
    match kind {
        FailKind::Text => Ok(Kind::Text),
        FailKind::Num => Ok(Kind::Num),
        FailKind::Unit => Ok(Kind::Unit),
        FailKind::List => Ok(Kind::List(Boxed::new(alloc, Kind::Text)?)),
    }
}

/// The kind of the input of this name.
pub(crate) fn input_kind(
    alloc: Global,
    program: &Program,
    name: &Text,
) -> Result<Option<Kind>, NoMemory>
    ensures { IfOk result (λ k. k ≡ input_kind program.now name.now) }
{
    let inputs = program.inputs.as_slice();
    match inputs.get(index_of(inputs, name.as_str())) {
        Some(decl) => Ok(Some(literal_kind(alloc, &decl.value)?)),
        None => Ok(None),
    }
}

/// The kind of the earlier node of this name.
pub(crate) fn node_kind<'a>(context: &Context<'a>, name: &Text) -> Option<&'a Kind>
    ensures { option_copied result ≡
        node_kind context.now.program.now context.now.earlier.now name.now }
{
    let nodes = context.program.nodes.as_slice();
    context.earlier.get(index_of(nodes, name.as_str()))
}

/// The kind that was bound to the name last.
pub(crate) fn bound_kind<'a>(bound: &'a [(Text, Kind)], name: &Text) -> Option<&'a Kind>
    ensures { option_copied result ≡ innermost_kind None bound.now name.now }
{
    let mut found = None;
    for binding in bound {
        if binding.0.is(name) {
            found = Some(&binding.1);
        }
    }
    found
}

/// A copy of a kind that is there, or unit.
pub(crate) fn copied_kind(alloc: Global, kind: Option<&Kind>) -> Result<Kind, NoMemory>
    ensures { IfOk result (λ k. k ≡ kind_or_unit (option_copied kind.entry)) }
{
    match kind {
        Some(kind) => kind.copy(alloc),
        None => Ok(Kind::Unit),
    }
}

/// Whether an output of this name is declared, or a build.
fn is_op(program: &Program, name: &Text, output: bool) -> bool
    ensures { result ≡ is_op program.now name.now output }
{
    for op in program.ops.as_slice() {
        if op.name.is(name) && (if output { op.output } else { !op.output }) {
            return true;
        }
    }
    false
}

fn is_node(program: &Program, name: &Text) -> bool
    ensures { result ≡ is_node program.now name.now }
{
    for node in program.nodes.as_slice() {
        if node.name.is(name) {
            return true;
        }
    }
    false
}

/// Whether a pool of this name is declared.
pub(crate) fn is_pool(program: &Program, name: &Text) -> bool
    ensures { result ≡ is_pool program.now name.now }
{
    for pool in program.pools.as_slice() {
        if pool.name.is(name) {
            return true;
        }
    }
    false
}

/// Whether a client of this name is declared in this pool.
pub(crate) fn is_client(program: &Program, name: &Text, pool: &Text) -> bool
    ensures { result ≡ is_client program.now name.now pool.now }
{
    for client in program.clients.as_slice() {
        if client.name.is(name) && client.pool.is(pool) {
            return true;
        }
    }
    false
}

/// The fault of a name that is unknown unless a test holds.
fn unknown_unless(alloc: Global, test: bool, name: &Text) -> Result<Option<CheckWhat>, NoMemory>
    ensures { IfOk result (λ w. w ≡ unless test (CheckWhat.UnknownName name.now)) }
{
    if test {
        Ok(None)
    } else {
        Ok(Some(CheckWhat::UnknownName(name.copy(alloc)?)))
    }
}

/// The fault of a node's name, unless it is an earlier node's.
fn node_fault(context: &Context<'_>, name: &Text) -> Result<Option<CheckWhat>, NoMemory>
    ensures { IfOk result (λ w. w ≡ unless
        (is_some (node_kind context.now.program.now context.now.earlier.now name.now))
        (node_name_fault context.now.program.now name.now)) }
{
    if node_kind(context, name).is_some() {
        return Ok(None);
    }
    let name_copy = name.copy(context.alloc)?;
    if is_node(context.program, name) {
        Ok(Some(CheckWhat::ForwardName(name_copy)))
    } else {
        Ok(Some(CheckWhat::UnknownName(name_copy)))
    }
}

/// The fault of a term's own name.
pub(crate) fn name_fault(
    context: &Context<'_>,
    term: &Term,
    bound: &[(Text, Kind)],
) -> Result<Option<CheckWhat>, NoMemory>
    ensures { IfOk result (λ w. w ≡
        name_fault context.now.program.now context.now.earlier.now (out-Term term.now) bound.now) }
{
    let alloc = context.alloc;
    match term {
        Term::Input(name) => {
            let is_input = input_kind(alloc, context.program, name)?.is_some();
            unknown_unless(alloc, is_input, name)
        }
        Term::Node(name) => node_fault(context, name),
        Term::Var(name) => unknown_unless(alloc, bound_kind(bound, name).is_some(), name),
        Term::Build { op, key: _ } => {
            unknown_unless(alloc, is_op(context.program, op, false), op)
        }
        Term::Output {
            op,
            key: _,
            value: _,
        } => unknown_unless(alloc, is_op(context.program, op, true), op),
        _ => Ok(None),
    }
}

/// Whether a term evaluates a body for each item of a list.
pub(crate) fn is_list(term: &Term) -> bool
    ensures { result ≡ is_list_layer (out-Term term.now) }
{
    match term {
        Term::ListMap {
            name: _,
            list: _,
            body: _,
        } => true,
        Term::ListIter {
            name: _,
            list: _,
            body: _,
        } => true,
        _ => false,
    }
}
