//! The made pipeline.
ghost use Rattle.std.specs.Prelude.{◌≡◌, ◌-◌, ◌≤◌, [], ◌∷◌, None, IfOk, codes, map};
ghost use Rattle.std.specs.List.{range_with_len};
ghost use Rattle.value_core.specs.Parts.{text_values};
ghost use Rattle.session_rules.specs.Commands.{building_node, counting_node, digits_from};
ghost use Rattle.session_rules.specs.Commands.{made_items};
ghost use Rattle.session_rules.specs.Commands as made;
ghost use Rattle.value_core.specs.declared.value.Value.TheVariants as value;
ghost use Rattle.term_core.specs.declared.program.Term.TheVariants as term;
ghost use Rattle.made_session.specs.inside.Operation.{made_op};

use crate::digits::digits_list;
use op_keys::{ClientDecl, Expiry, Level, OpDecl, PoolDecl, WorkerDecl};
use sqlite_items::Boxed;
use std::alloc::Global;
use term_core::{InputDecl, NodeDecl, Program, Term};
use value_core::{Fun, ListOf, NoMemory, Text};

/// The greatest number of items of the input.
const ITEMS: u64 = 256;

/// How many items the input of a pipeline of so many nodes has.
pub(crate) fn item_count(nodes: u64) -> u64
    ensures { result ≡ made_items nodes }
{
    nodes.min(ITEMS)
}

fn one<T: Drop>(alloc: Global, item: T) -> Result<ListOf<T>, NoMemory>
    ensures { IfOk result (λ list. list ≡ item ∷ []) }
{
    let mut list = ListOf::new(alloc);
    list.push(item)?;
    Ok(list)
}

/// The input, whose value is the list of the first numbers.
fn input(alloc: Global, nodes: u64) -> Result<InputDecl, NoMemory>
    ensures name { IfOk result (λ d. d.name ≡ codes "xs") }
    ensures value { let numbers = text_values (digits_from 0 (made_items nodes)) in
        IfOk result (λ d. d.value ≡ value.List numbers) }
    ensures watch { IfOk result (λ d. d.watch ≡ None) }
{
    Ok(InputDecl {
        name: Text::of(alloc, "xs")?,
        value: digits_list(alloc, 0, item_count(nodes))?,
        watch: None,
    })
}

fn pool(alloc: Global) -> Result<PoolDecl, NoMemory>
    ensures name { IfOk result (λ d. d.name ≡ codes "p") }
    ensures hold { IfOk result (λ d. d.hold ≡ 0) }
{
    Ok(PoolDecl {
        name: Text::of(alloc, "p")?,
        hold: 0,
    })
}

fn client(alloc: Global) -> Result<ClientDecl, NoMemory>
    ensures { IfOk result (λ d. d ≡ record { name = codes "c"; pool = codes "p"; rate = 1 }) }
{
    Ok(ClientDecl {
        name: Text::of(alloc, "c")?,
        pool: Text::of(alloc, "p")?,
        rate: 1,
    })
}

fn worker(alloc: Global) -> Result<WorkerDecl, NoMemory>
    ensures { IfOk result (λ d. d ≡ record { name = codes "w"; pool = codes "p"; capacity = 1 }) }
{
    Ok(WorkerDecl {
        name: Text::of(alloc, "w")?,
        pool: Text::of(alloc, "p")?,
        capacity: 1,
    })
}

/// The words of an order: the name of the operation, and its key.
fn words(alloc: Global) -> Result<ListOf<Text>, NoMemory>
    ensures { IfOk result (λ words. words ≡ codes "f" ∷ codes "{key}" ∷ []) }
{
    let mut words = ListOf::new(alloc);
    words.push(Text::of(alloc, "f")?)?;
    words.push(Text::of(alloc, "{key}")?)?;
    Ok(words)
}

fn operation(alloc: Global) -> Result<OpDecl, NoMemory>
    ensures { IfOk result (λ d. d ≡ made_op) }
{
    Ok(OpDecl {
        name: Text::of(alloc, "f")?,
        output: false,
        pool: Text::of(alloc, "p")?,
        client: Text::of(alloc, "c")?,
        full: 1,
        cached: 0,
        hint: None,
        urgent: false,
        level: Level::Average,
        expiry: Expiry::Never,
        latched: false,
        no_cancel: false,
        words: words(alloc)?,
    })
}

/// A build of the item.
fn build(alloc: Global) -> Result<Term, NoMemory>
    ensures { IfOk result (λ t. t ≡ term.Build (codes "f") (term.Var (codes "x"))) }
{
    let key = Boxed::new(alloc, Term::Var(Text::of(alloc, "x")?))?;
    Ok(Term::Build {
        op: Text::of(alloc, "f")?,
        key,
    })
}

/// Each item of the input, as the body makes it.
fn each_item(alloc: Global, body: Term) -> Result<Term, NoMemory>
    ensures { let items = term.Input (codes "xs") in
        IfOk result (λ t. t ≡ term.ListMap (codes "x") items body) }
{
    let body = Boxed::new(alloc, body)?;
    let list = Boxed::new(alloc, Term::Input(Text::of(alloc, "xs")?))?;
    Ok(Term::ListMap {
        name: Text::of(alloc, "x")?,
        list,
        body,
    })
}

/// The first node, which builds each item of the input.
fn first_node(alloc: Global) -> Result<NodeDecl, NoMemory>
    ensures { IfOk result (λ d. d ≡ building_node) }
{
    let body = build(alloc)?;
    Ok(NodeDecl {
        name: Text::of(alloc, "n0")?,
        term: each_item(alloc, body)?,
    })
}

/// A node that counts what the first one builds.
#[tactic(auto, using(value_core::proofs::Nuls::decimal_clean))]
fn next_node(alloc: Global, i: u64) -> Result<NodeDecl, NoMemory>
    ensures { IfOk result (λ d. d ≡ counting_node i) }
{
    let name = format!(in alloc; "n{i}")?;
    let term = Term::Map {
        fun: Fun::Count,
        term: Boxed::new(alloc, Term::Node(Text::of(alloc, "n0")?))?,
    };
    Ok(NodeDecl {
        name: Text::from_string(name),
        term,
    })
}

fn nodes(alloc: Global, count: u64) -> Result<ListOf<NodeDecl>, NoMemory>
    requires { 1 ≤ count }
    ensures { let rest = map counting_node (range_with_len 1 (count - 1)) in
        IfOk result (λ nodes. nodes ≡ building_node ∷ rest) }
{
    let mut nodes = one(alloc, first_node(alloc)?)?;
    for i in 1..count {
        nodes.push(next_node(alloc, i)?)?;
    }
    Ok(nodes)
}

/// The made pipeline of so many nodes.
pub fn made_program(alloc: Global, count: u64) -> Result<Program, NoMemory>
    requires { 1 ≤ count }
    ensures { IfOk result (λ p. p ≡ made.made_program count) }
{
    Ok(Program {
        version: 1,
        inputs: one(alloc, input(alloc, count)?)?,
        pools: one(alloc, pool(alloc)?)?,
        clients: one(alloc, client(alloc)?)?,
        workers: one(alloc, worker(alloc)?)?,
        ops: one(alloc, operation(alloc)?)?,
        nodes: nodes(alloc, count)?,
    })
}
