//! The parts of a term.
ghost use Rattle.std.specs.Prelude.{◌≡◌, ◌<◌, length, slice_get, Some};
ghost use Rattle.term_core.specs.declared.program.Term.{out-Term, size-Term};
ghost use Rattle.visit_rules.specs.Tables.{direct_parts};

use term_core::Term;

/// How many parts of a term are visited once.
pub fn part_count(term: &Term) -> usize
    ensures { result ≡ length (direct_parts (out-Term term.now)) }
{
    match term {
        Term::Map { .. } => 1,
        Term::Pair(_, _) => 2,
        Term::Bind { .. } => 1,
        Term::ListMap { .. } => 1,
        Term::ListIter { .. } => 1,
        Term::Catch(_) => 1,
        Term::State(_) => 1,
        Term::Gate(_, _) => 2,
        Term::All(terms) => terms.len(),
        Term::Build { .. } => 1,
        Term::Output { .. } => 2,
        _ => 0,
    }
}

/// A part that is visited once.
pub fn part_of(term: &Term, i: usize) -> &Term
    requires { i < length (direct_parts (out-Term term.now)) }
    ensures part { slice_get (direct_parts (out-Term term.now)) i ≡ Some result.now }
    ensures smaller { size-Term result.now < size-Term term.now }
{
    match term {
        Term::Map { term, .. } => term.get(),
        Term::Pair(a, b) => { if i == 0 { a.get() } else { b.get() } }
        Term::Bind { left, .. } => left.get(),
        Term::ListMap { list, .. } => list.get(),
        Term::ListIter { list, .. } => list.get(),
        Term::Catch(term) => term.get(),
        Term::State(term) => term.get(),
        Term::Gate(on, term) => { if i == 0 { on.get() } else { term.get() } }
        Term::All(terms) => &terms.as_slice()[i],
        Term::Build { key, .. } => key.get(),
        Term::Output { key, value, .. } => { if i == 0 { key.get() } else { value.get() } }
        _ => unreachable!(),
    }
}
