//! The check of terms: a function for each kind of term that has several parts.
ghost use Rattle.std.specs.Prelude.{◌≡◌, [], ◌+◌, ◌^◌, ◌<◌, ◌≤◌, true, map, sum, IfOk, OnOk};
ghost use Rattle.term_core.specs.declared.program.Term.{out-Term};
ghost use Rattle.term_core.specs.Limits.{terms_in};
ghost use Rattle.term_core.specs.Soundness.{bind_kind};
ghost use Rattle.term_check.specs.Typing.{all_from, bind_check, closed, gate_check, is_list_layer, list_check, output_check, pair_check, parts_verdict, verdict_of, within};

use crate::context::Context;
use crate::fault::CheckWhat;
use crate::names::{
    bound_kind, copied_kind, fail_kind, input_kind, is_list, name_fault, node_kind,
};
use crate::verdict::{
    Position, Verdict, Wrapping, as_kind, items_in, mapped, of_kind, paired, sized, wrapped,
};
use crate::wanted::Wanted;
use sqlite_items::Boxed;
use std::alloc::Global;
use term_core::Term;
use value_core::{Kind, ListOf, NoMemory, Text, literal_kind};

/// A term that is checked under a kind that is bound to this name.
#[derive(Clone, Copy)]
struct Body<'a> {
    name: &'a Text,
    term: &'a Term,
    /// Whether the list term around it makes a list of its values.
    is_map: bool,
}

impl<'a> Body<'a> {
    fn new(name: &'a Text, body: &'a Boxed<Term>, is_map: bool) -> Body<'a>
        ensures name { result.name.now ≡ name.now }
        ensures term { result.term.now ≡ body.now }
        ensures is_map { result.is_map ≡ is_map }
    {
        Body {
            name,
            term: body.get(),
            is_map,
        }
    }
}

/// A term without parts.
fn leaf(kind: Kind, position: Position) -> Verdict
    ensures { result ≡ Verdict.Typed kind position.deep position.at }
{
    Verdict::Typed {
        kind,
        deep: position.deep,
        next: position.at,
    }
}

/// The kind of a list term, by its body's: a list of it, or unit.
fn close(alloc: Global, is_map: bool, at: u32, body: Verdict) -> Result<Verdict, NoMemory>
    ensures { IfOk result (λ v. v ≡ closed is_map at body) }
{
    if is_map {
        wrapped(alloc, Wrapping::List, body)
    } else {
        Ok(of_kind(at, body, &Kind::Unit, Wanted::Unit))
    }
}

/// Checks the term of a node.
#[derive(Drop)]
pub(crate) struct Checker<'a> {
    context: Context<'a>,
    /// The kinds of bound values, the innermost last.
    bound: ListOf<(Text, Kind)>,
}

impl<'a> Checker<'a> {
    /// Checks a term: its own name, the nesting of lists, its parts, the size of its kind.
    #[cycle(checking)]
    #[tactic(auto, using(crate::proofs::Checks::verdict_of_is, crate::proofs::Checks::one_term))]
    fn term(&mut self, term: &Term, position: Position) -> Result<Verdict, NoMemory>
        requires { position.at + terms_in term.now < 2 ^ 32 }
        ensures verdict { IfOk result (λ v. v ≡ within self.old
            (λ p e. verdict_of p e term.now) position) }
        ensures kept { OnOk result (self.new ≡ self.old) }
    {
        if let Some(what) = name_fault(&self.context, term, self.bound.as_slice())? {
            return Ok(Verdict::Faulty {
                term: position.at,
                what,
            });
        }
        if position.is_nested(is_list(term)) {
            return Ok(Verdict::Faulty {
                term: position.at,
                what: CheckWhat::ListNesting,
            });
        }
        let verdict = self.parts(term, position.inside())?;
        sized(position.at, verdict)
    }

    /// Checks the parts of a term, whose name is known and which may stand where it does.
    #[cycle(checking)]
    #[tactic(auto, using(crate::proofs::Checks::parts_are, crate::proofs::Checks::terms_are), unfolding(crate::specs::Typing::map_check, crate::specs::Typing::outcome_check, crate::specs::Typing::build_check))]
    fn parts(&mut self, term: &Term, position: Position) -> Result<Verdict, NoMemory>
        requires room { position.at + terms_in term.now ≤ 2 ^ 32 }
        requires lists { is_list_layer (out-Term term.now) ≡ true → position.bodies < 2 }
        ensures verdict { IfOk result (λ v. v ≡ within self.old
            (λ p e. parts_verdict p e term.now) position) }
        ensures kept { OnOk result (self.new ≡ self.old) }
    {
        match term {
            Term::Return(value) => Ok(leaf(literal_kind(self.context.alloc, value)?, position)),
            Term::Fail { kind, message: _ } => Ok(leaf(
                fail_kind(self.context.alloc, *kind)?,
                position,
            )),
            Term::Input(name) => {
                let kind = input_kind(self.context.alloc, self.context.program, name)?;
                Ok(leaf(kind.unwrap_or(Kind::Unit), position))
            }
            Term::Node(name) => Ok(leaf(
                copied_kind(self.context.alloc, node_kind(&self.context, name))?,
                position,
            )),
            Term::Var(name) => {
                let kind = copied_kind(
                    self.context.alloc,
                    bound_kind(self.bound.as_slice(), name),
                )?;
                Ok(leaf(kind, position))
            }
            Term::Map { fun, term } => {
                let part = self.term(term.get(), position)?;
                mapped(self.context.alloc, position.at, part, *fun)
            }
            Term::Pair(a, b) => self.pair(a.get(), b.get(), position),
            Term::Bind { name, left, body } => {
                self.bind(left.get(), Body::new(name, body, false), position)
            }
            Term::ListMap { name, list, body } => {
                self.list(list.get(), Body::new(name, body, true), position)
            }
            Term::ListIter { name, list, body } => {
                self.list(list.get(), Body::new(name, body, false), position)
            }
            Term::Catch(term) => {
                let part = self.term(term.get(), position)?;
                wrapped(self.context.alloc, Wrapping::Outcome, part)
            }
            Term::State(term) => {
                let part = self.term(term.get(), position)?;
                wrapped(self.context.alloc, Wrapping::Outcome, part)
            }
            Term::Gate(on, term) => self.gate(on.get(), term.get(), position),
            Term::All(terms) => self.all(terms.as_slice(), position),
            Term::Build { op: _, key } => {
                let part = self.term(key.get(), position)?;
                let key = of_kind(position.at, part, &Kind::Text, Wanted::Text);
                Ok(as_kind(key, Kind::Text))
            }
            Term::Output { op: _, key, value } => self.output(key.get(), value.get(), position),
        }
    }

    /// Both parts, as a pair.
    #[cycle(checking)]
    #[tactic(auto, unfolding(crate::specs::Typing::pair_check))]
    fn pair(&mut self, a: &Term, b: &Term, position: Position) -> Result<Verdict, NoMemory>
        requires { position.at + (terms_in a.now + terms_in b.now) < 2 ^ 32 }
        ensures verdict { IfOk result (λ v. v ≡ within self.old
            (λ p e. pair_check (verdict_of p e a.now) (verdict_of p e b.now)) position) }
        ensures kept { OnOk result (self.new ≡ self.old) }
    {
        match self.term(a, position)? {
            Verdict::Typed { kind, deep, next } => {
                let second = self.term(b, position.behind(deep, next))?;
                paired(self.context.alloc, kind, second)
            }
            Verdict::Faulty { term, what } => Ok(Verdict::Faulty { term, what }),
        }
    }

    /// A body, under a kind that is bound to a name.
    #[cycle(checking)]
    fn under(&mut self, kind: Kind, body: Body<'_>, position: Position) -> Result<Verdict, NoMemory>
        requires { position.at + terms_in body.term.now < 2 ^ 32 }
        ensures verdict { IfOk result (λ v. v ≡ within self.old
            (λ p e b. verdict_of p e body.entry.term.now (bind_kind b body.entry.name.now kind))
            position) }
        ensures kept { OnOk result (self.new ≡ self.old) }
    {
        let name = body.name.copy(self.context.alloc)?;
        self.bound.push((name, kind))?;
        let verdict = self.term(body.term, position)?;
        let _ = self.bound.pop();
        Ok(verdict)
    }

    /// The body, under the left part's kind.
    #[cycle(checking)]
    #[tactic(auto, unfolding(crate::specs::Typing::bind_check))]
    fn bind(&mut self, left: &Term, body: Body<'_>, position: Position) -> Result<Verdict, NoMemory>
        requires { position.at + (terms_in left.now + terms_in body.term.now) < 2 ^ 32 }
        ensures verdict { IfOk result (λ v. v ≡ within self.old
            (λ p e. bind_check body.entry.name.now
            (verdict_of p e left.now) (verdict_of p e body.entry.term.now))
            position) }
        ensures kept { OnOk result (self.new ≡ self.old) }
    {
        match self.term(left, position)? {
            Verdict::Typed { kind, deep, next } => {
                let position = position.behind(deep, next);
                self.under(kind, body, position)
            }
            Verdict::Faulty { term, what } => Ok(Verdict::Faulty { term, what }),
        }
    }

    /// The body, under the kind of the list's items.
    #[cycle(checking)]
    #[tactic(auto, unfolding(crate::specs::Typing::list_check))]
    fn list(&mut self, list: &Term, body: Body<'_>, position: Position) -> Result<Verdict, NoMemory>
        requires room { position.at + (terms_in list.now + terms_in body.term.now) < 2 ^ 32 }
        requires lists { position.bodies < 2 }
        ensures verdict { IfOk result (λ v. v ≡ within self.old
            (λ p e. list_check body.entry.is_map body.entry.name.now
            (verdict_of p e list.now) (verdict_of p e body.entry.term.now))
            position) }
        ensures kept { OnOk result (self.new ≡ self.old) }
    {
        let list = self.term(list, position)?;
        match items_in(self.context.alloc, position.at, list)? {
            Verdict::Typed { kind, deep, next } => {
                let position = position.in_body(deep, next);
                let is_map = body.is_map;
                let verdict = self.under(kind, body, position)?;
                close(self.context.alloc, is_map, next, verdict)
            }
            Verdict::Faulty { term, what } => Ok(Verdict::Faulty { term, what }),
        }
    }

    /// The second part, after a first one that is unit.
    #[cycle(checking)]
    #[tactic(auto, unfolding(crate::specs::Typing::gate_check))]
    fn gate(&mut self, on: &Term, term: &Term, position: Position) -> Result<Verdict, NoMemory>
        requires { position.at + (terms_in on.now + terms_in term.now) < 2 ^ 32 }
        ensures verdict { IfOk result (λ v. v ≡ within self.old
            (λ p e. gate_check (verdict_of p e on.now) (verdict_of p e term.now)) position) }
        ensures kept { OnOk result (self.new ≡ self.old) }
    {
        let on = self.term(on, position)?;
        match of_kind(position.at, on, &Kind::Unit, Wanted::Unit) {
            Verdict::Typed {
                kind: _,
                deep,
                next,
            } => self.term(term, position.behind(deep, next)),
            Verdict::Faulty { term, what } => Ok(Verdict::Faulty { term, what }),
        }
    }

    /// Unit, where each part is unit.
    #[cycle(checking)]
    fn all(&mut self, terms: &[Term], position: Position) -> Result<Verdict, NoMemory>
        requires { position.at + sum (map terms_in terms.now) < 2 ^ 32 }
        ensures verdict { IfOk result (λ v. v ≡ within self.old
            (λ p e b. all_from (map (λ t. verdict_of p e t b) terms.now)) position) }
        ensures kept { OnOk result (self.new ≡ self.old) }
    {
        let mut position = position;
        for part in terms {
            let verdict = self.term(part, position)?;
            match of_kind(position.at, verdict, &Kind::Unit, Wanted::Unit) {
                Verdict::Typed {
                    kind: _,
                    deep,
                    next,
                } => position = position.behind(deep, next),
                Verdict::Faulty { term, what } => return Ok(Verdict::Faulty { term, what }),
            }
        }
        Ok(leaf(Kind::Unit, position))
    }

    /// Unit, for a key and a value that are texts.
    #[cycle(checking)]
    #[tactic(auto, unfolding(crate::specs::Typing::output_check))]
    fn output(&mut self, key: &Term, value: &Term, position: Position) -> Result<Verdict, NoMemory>
        requires { position.at + (terms_in key.now + terms_in value.now) < 2 ^ 32 }
        ensures verdict { IfOk result (λ v. v ≡ within self.old
            (λ p e. output_check (verdict_of p e key.now) (verdict_of p e value.now))
            position) }
        ensures kept { OnOk result (self.new ≡ self.old) }
    {
        let key = self.term(key, position)?;
        match of_kind(position.at, key, &Kind::Text, Wanted::Text) {
            Verdict::Typed {
                kind: _,
                deep,
                next,
            } => {
                let value = self.term(value, position.behind(deep, next))?;
                let value = of_kind(next, value, &Kind::Text, Wanted::Text);
                Ok(as_kind(value, Kind::Unit))
            }
            Verdict::Faulty { term, what } => Ok(Verdict::Faulty { term, what }),
        }
    }
}

/// Checks the term of a node, whose position says how deep the nodes before it are.
pub(crate) fn check_term(
    context: Context<'_>,
    term: &Term,
    position: Position,
) -> Result<Verdict, NoMemory>
    requires { position.at + terms_in term.now < 2 ^ 32 }
    ensures { IfOk result (λ v. v ≡
        verdict_of context.entry.program.now context.entry.earlier.now term.now [] position) }
{
    let mut checker = Checker {
        context,
        bound: ListOf::new(context.alloc),
    };
    checker.term(term, position)
}
