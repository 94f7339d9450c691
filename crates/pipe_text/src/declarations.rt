//! Declarations, up to the end of the file.
ghost use Rattle.std.specs.Prelude.{◌≡◌, ◌+◌, ◌-◌, ◌≤◌, [], IfOk, OnOk};
ghost use Rattle.pipe_text.specs.inside.Readers.{Agrees, Takes};
ghost use Rattle.pipe_text.specs.Files.{limit_of, terms_of, program_of};
ghost use Rattle.pipe_text.specs.inside.FileReading.{file_bounds, declared_at, paired_at, version_at, rest_at, decl_at, all_at, made, program_at};
ghost use Rattle.pipe_text.specs.inside.Known.{count_in, paired_in, seen_of, word_of, name_of, with_declaration, Knows, KnowsOneMore};

use crate::declaration::{Declaration, OpHead};
use crate::details::{take_op, take_value};
use crate::fault::{Fault, LimitName, TakeError};
use crate::names::Names;
use crate::taking::{
    limit_at, syntax_at, take_keyword, take_name, take_number, take_token, take_word,
};
use crate::terms::{Room, take_term};
use crate::words::{DeclWord, OpWord};
use op_keys::{ClientDecl, PoolDecl, WorkerDecl};
use std::alloc::{AllocError, Global};
use term_core::{InputDecl, NodeDecl, Program};
use value_core::{ListOf, Stop, Text, Token, TokenAt};

/// What was declared so far, with the names, to look them up, and the number of terms.
#[derive(Drop)]
pub struct Declarations {
    pub program: Program,
    pub names: Names,
    pub terms: u32,
}

/// The limit on declarations that begin with a word.
fn limit_of(word: DeclWord) -> LimitName
    ensures { result ≡ limit_of word }
{
    match word {
        DeclWord::Input => LimitName::Inputs,
        DeclWord::Pool => LimitName::Pools,
        DeclWord::Client => LimitName::Clients,
        DeclWord::Worker => LimitName::Workers,
        DeclWord::Op => LimitName::Ops,
        DeclWord::Node => LimitName::Nodes,
    }
}

impl Declarations {
    fn new(alloc: Global, version: u32) -> Declarations
        ensures { Knows version [] result }
    {
        let program = Program {
            version,
            inputs: ListOf::new(alloc),
            pools: ListOf::new(alloc),
            clients: ListOf::new(alloc),
            workers: ListOf::new(alloc),
            ops: ListOf::new(alloc),
            nodes: ListOf::new(alloc),
        };
        Declarations {
            program,
            names: Names::new(alloc),
            terms: 0,
        }
    }

    /// How many declarations begin with a word.
    fn count(&self, word: DeclWord) -> usize
        ensures { result ≡ count_in self.now.program word }
    {
        match word {
            DeclWord::Input => self.program.inputs.len(),
            DeclWord::Pool => self.program.pools.len(),
            DeclWord::Client => self.program.clients.len(),
            DeclWord::Worker => self.program.workers.len(),
            DeclWord::Op => self.program.ops.len(),
            DeclWord::Node => self.program.nodes.len(),
        }
    }

    /// Whether a client of this name and pool is declared. At most 64 are, so they are looked
    /// through.
    fn has_client(&self, name: &Text, pool: &Text) -> bool
        ensures { result ≡ paired_in self.now.program name.now pool.now }
    {
        self.program
            .clients
            .as_slice()
            .iter()
            .any(|client| client.name.is(name) && client.pool.is(pool))
    }
}

/// Adds a declaration to a program, after the others of its kind.
fn put(program: &mut Program, decl: Declaration) -> Result<(), AllocError>
    ensures { OnOk result (program.new ≡ with_declaration program.old decl) }
{
    match decl {
        Declaration::Input(input) => program.inputs.push(input),
        Declaration::Pool(pool) => program.pools.push(pool),
        Declaration::Client(client) => program.clients.push(client),
        Declaration::Worker(worker) => program.workers.push(worker),
        Declaration::Op(op) => program.ops.push(op),
        Declaration::Node(node, _) => program.nodes.push(node),
    }
}

/// Notes the name of a declaration.
fn note(alloc: Global, names: &mut Names, decl: &Declaration) -> Result<(), AllocError>
    ensures { OnOk result (KnowsOneMore names.old (word_of decl.now) (name_of decl.now) names.new) }
{
    let name = decl.name().copy(alloc)?;
    names.add(decl.word(), name)
}

/// The name of a declaration that begins with this word.
fn take_declared<'a>(
    alloc: Global,
    word: DeclWord,
    so_far: &Declarations,
    stop: Stop,
    tokens: &'a [TokenAt],
) -> Result<(Text, &'a [TokenAt]), TakeError>
    ensures { Takes result (declared_at file_bounds word (seen_of so_far.now) stop tokens.now) }
{
    let (token, rest) = take_token(stop, tokens)?;
    let what = limit_of(word);
    let is_full = so_far.count(word) as u64 >= what.number();
    match &token.token {
        Token::Name(name) => {
            if is_full {
                Err(limit_at(what, token.offset))
            } else if so_far.names.has(word, name) {
                let name = name.copy(alloc)?;
                Err(TakeError::At(Fault::Duplicate(name, token.offset)))
            } else {
                Ok((name.copy(alloc)?, rest))
            }
        }
        Token::LongName => {
            if is_full {
                Err(limit_at(what, token.offset))
            } else {
                Err(limit_at(LimitName::Name, token.offset))
            }
        }
        _ => Err(syntax_at(token.offset)),
    }
}

/// The pool of a client.
fn take_paired<'a>(
    alloc: Global,
    so_far: &Declarations,
    name: &Text,
    stop: Stop,
    tokens: &'a [TokenAt],
) -> Result<(Text, &'a [TokenAt]), TakeError>
    ensures { Takes result (paired_at file_bounds (seen_of so_far.now) name.now stop tokens.now) }
{
    let (token, rest) = take_token(stop, tokens)?;
    match &token.token {
        Token::Name(pool) => {
            if so_far.has_client(name, pool) {
                let client = name.copy(alloc)?;
                Err(TakeError::At(Fault::Duplicate(client, token.offset)))
            } else {
                Ok((pool.copy(alloc)?, rest))
            }
        }
        Token::LongName => Err(limit_at(LimitName::Name, token.offset)),
        _ => Err(syntax_at(token.offset)),
    }
}

/// A declaration after its word.
#[tactic(auto, unfolding(crate::specs::inside::FileReading::rest_at))]
fn take_rest<'a>(
    alloc: Global,
    word: DeclWord,
    so_far: &Declarations,
    stop: Stop,
    tokens: &'a [TokenAt],
) -> Result<(Declaration, &'a [TokenAt]), TakeError>
    ensures gives { Takes result (rest_at file_bounds (seen_of so_far.now) word stop tokens.now) }
    ensures terms { IfOk result (λ x. terms_of x.0 ≤ 4096 - so_far.now.terms) }
{
    let (name, rest) = take_declared(alloc, word, so_far, stop, tokens)?;
    match word {
        DeclWord::Input => {
            let (input, rest) = take_value(alloc, stop, rest)?;
            let value = input.value;
            let watch = input.watch;
            Ok((Declaration::Input(InputDecl { name, value, watch }), rest))
        }
        DeclWord::Pool => {
            let rest = take_keyword("hold", stop, rest)?;
            let (hold, rest) = take_number(LimitName::Hold, stop, rest)?;
            Ok((Declaration::Pool(PoolDecl { name, hold }), rest))
        }
        DeclWord::Client => {
            let (pool, rest) = take_paired(alloc, so_far, &name, stop, rest)?;
            let (rate, rest) = take_number(LimitName::Rate, stop, rest)?;
            Ok((Declaration::Client(ClientDecl { name, pool, rate }), rest))
        }
        DeclWord::Worker => {
            let (pool, rest) = take_name(alloc, stop, rest)?;
            let (capacity, rest) = take_number(LimitName::Capacity, stop, rest)?;
            let worker = WorkerDecl {
                name,
                pool,
                capacity,
            };
            Ok((Declaration::Worker(worker), rest))
        }
        DeclWord::Op => {
            let (kind, rest) = take_word::<OpWord>(stop, rest)?;
            let head = OpHead { name, kind };
            let (op, rest) = take_op(alloc, so_far.program.version, head, stop, rest)?;
            Ok((Declaration::Op(op), rest))
        }
        DeclWord::Node => {
            let left = (LimitName::Terms.number() as u32).saturating_sub(so_far.terms);
            let depth = LimitName::Depth.number() as u8;
            let room = Room { depth, left };
            let (term, used, rest) = take_term(alloc, room, stop, rest)?;
            Ok((Declaration::Node(NodeDecl { name, term }, used), rest))
        }
    }
}

#[tactic(auto, unfolding(crate::specs::inside::FileReading::decl_at))]
fn take_decl<'a>(
    alloc: Global,
    so_far: &Declarations,
    stop: Stop,
    tokens: &'a [TokenAt],
) -> Result<(Declaration, &'a [TokenAt]), TakeError>
    ensures gives { Takes result (decl_at file_bounds (seen_of so_far.now) stop tokens.now) }
    ensures terms { IfOk result (λ x. terms_of x.0 ≤ 4096 - so_far.now.terms) }
{
    let (word, rest) = take_word::<DeclWord>(stop, tokens)?;
    take_rest(alloc, word, so_far, stop, rest)
}

/// All declarations up to the end of the file.
fn take_all(
    alloc: Global,
    version: u32,
    stop: Stop,
    tokens: &[TokenAt],
) -> Result<Program, TakeError>
    ensures { Agrees result (made version (all_at file_bounds version [] stop tokens.now)) }
{
    let mut so_far = Declarations::new(alloc, version);
    let mut tokens = tokens;
    'declarations: while !tokens.is_empty() {
        match take_decl(alloc, &so_far, stop, tokens) {
            Err(fault) => return Err(fault),
            Ok((decl, rest)) => {
                note(alloc, &mut so_far.names, &decl)?;
                so_far.terms += decl.terms();
                put(&mut so_far.program, decl)?;
                tokens = rest;
            }
        }
    }
    match stop {
        Stop::Lex(offset) => Err(TakeError::At(Fault::Lex(offset))),
        Stop::End(_) => {
            let Declarations { program, .. } = so_far;
            Ok(program)
        }
    }
}

fn take_version(stop: Stop, tokens: &[TokenAt]) -> Result<(u32, &[TokenAt]), TakeError>
    ensures { Takes result (version_at stop tokens.now) }
{
    let (token, rest) = take_token(stop, tokens)?;
    match &token.token {
        Token::Number(1) => Ok((1, rest)),
        Token::Number(2) => Ok((2, rest)),
        _ => Err(syntax_at(token.offset)),
    }
}

/// The tokens of a whole file.
#[tactic(auto, unfolding(crate::specs::inside::FileReading::program_at))]
pub(crate) fn take_file(alloc: Global, stop: Stop, tokens: &[TokenAt]) -> Result<Program, TakeError>
    ensures { Agrees result (program_at file_bounds stop tokens.now) }
{
    let rest = take_keyword("pipeline", stop, tokens)?;
    let (version, rest) = take_version(stop, rest)?;
    take_all(alloc, version, stop, rest)
}
