//! The entries of the triples that may have changed.
ghost use Rattle.std.specs.Prelude.{◌≡◌, IfOk};
ghost use Rattle.visit_rules.specs.KnownChanges.{is_among, looked_at};

use crate::changes::Looked;
use std::alloc::Global;
use term_core::Entries;
use value_core::{ListOf, NoMemory, Triple};

fn is_among(triples: &[Triple], triple: &Triple) -> bool
    ensures { result ≡ is_among triples.now triple.now }
{
    triples.iter().any(|one| one.is(triple))
}

/// The entry of each named triple that is wanted, each read once.
pub fn look_at<E: Entries>(
    alloc: Global,
    named: &[Triple],
    wants: &[Triple],
    entries: &E,
) -> Result<ListOf<Looked>, NoMemory>
    ensures { IfOk result (λ ls. ls ≡ looked_at (E.world entries.now) wants.now named.now) }
{
    let mut looked = ListOf::new(alloc);
    for triple in named {
        if is_among(wants, triple) {
            let entry = entries.entry(alloc, triple)?;
            let triple = triple.copy(alloc)?;
            looked.push(Looked { triple, entry })?;
        }
    }
    Ok(looked)
}
