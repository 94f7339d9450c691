//! How often triples are wanted.
ghost use Rattle.std.specs.Prelude.{◌≡◌, IfOk, map};
ghost use Rattle.term_core.specs.Counts.{count_of};
ghost use Rattle.visit_rules.specs.Visits.{tally};

use std::alloc::Global;
use std::collections::BTreeMap;
use value_core::{ListOf, NoMemory, Triple};

/// How often a triple is in a list.
pub fn counted(wants: &[Triple], triple: &Triple) -> u64
    ensures { result ≡ count_of wants.now triple.now }
{
    let mut count = 0;
    for want in wants {
        if want.is(triple) {
            count += 1;
        }
    }
    count
}

/// How often each triple is in the list.
fn counts<'a>(alloc: Global, wants: &'a [Triple]) -> Result<BTreeMap<&'a Triple, u64>, NoMemory>
    ensures { IfOk result (λ m. map (λ e. (e.0.now, e.1)) m.entries ≡ tally wants.now) }
{
    let mut counts = BTreeMap::new(alloc);
    let mut left = wants.len();
    while left > 0 {
        left -= 1;
        let want = &wants[left];
        let count = counts.get(&want).copied().unwrap_or(0);
        counts.insert(want, count + 1)?;
    }
    Ok(counts)
}

/// The triples in order, each with how often it is in the list.
pub fn tallied(alloc: Global, wants: &[Triple]) -> Result<ListOf<(Triple, u64)>, NoMemory>
    ensures { IfOk result (λ ts. ts ≡ tally wants.now) }
{
    let counts = counts(alloc, wants)?;
    let mut tally = ListOf::new(alloc);
    for (triple, count) in &counts {
        tally.push((triple.copy(alloc)?, *count))?;
    }
    Ok(tally)
}
