//! The operations and keys that are wanted with two values, by one pass over the wanted triples in
//! their order.
ghost use Rattle.std.specs.Prelude.{◌≡◌, false, IfOk};
ghost use Rattle.std.specs.Ordering.{is_lt};
ghost use Rattle.engine_rules.specs.Conflicts.{AreNewConflicts, begins, doubled_from, from_key};
ghost use Rattle.engine_rules.specs.Conflicts.{keys_in, not_among, op_key, op_key_cmp, same_key};

use std::alloc::Global;
use std::cmp::Ordering;
use value_core::{ListOf, NoMemory, Text, Triple};

/// An operation's number and a key.
type OpKey = (u32, Text);

/// Whether two triples are of one operation and key.
fn is_same(a: &Triple, b: &Triple) -> bool
    ensures { result ≡ same_key (op_key a.now) (op_key b.now) }
{
    b.op == a.op && b.key.is(&a.key)
}

/// Whether some triples begin with one of the same operation and key.
fn begins(triple: &Triple, wants: &[(Triple, u64)]) -> bool
    ensures { result ≡ begins (op_key triple.now) (keys_in wants.now) }
{
    match wants.first() {
        Some(next) => is_same(triple, &next.0),
        None => false,
    }
}

fn key_of(alloc: Global, triple: &Triple) -> Result<OpKey, NoMemory>
    ensures { IfOk result (λ k. k ≡ op_key triple.now) }
{
    Ok((triple.op, triple.key.copy(alloc)?))
}

/// The operations and keys of wanted triples in order that have two or more values.
fn doubled(alloc: Global, wants: &[(Triple, u64)]) -> Result<ListOf<OpKey>, NoMemory>
    ensures { IfOk result (λ ks. ks ≡ doubled_from false (keys_in wants.now)) }
{
    let mut keys = ListOf::new(alloc);
    let mut before = false;
    let mut rest = wants;
    while let Some((first, more)) = rest.split_first() {
        let again = begins(&first.0, more);
        if before && !again {
            keys.push(key_of(alloc, &first.0)?)?;
        }
        before = again;
        rest = more;
    }
    Ok(keys)
}

fn is_before(a: &OpKey, b: &OpKey) -> bool
    ensures { result ≡ is_lt (op_key_cmp a.now b.now) }
{
    match a.0.cmp(&b.0) {
        Ordering::Less => true,
        Ordering::Equal => a.1 < b.1,
        Ordering::Greater => false,
    }
}

/// Keys in order without the first ones that are less than a key.
fn from_key<'a>(key: &OpKey, keys: &'a [OpKey]) -> &'a [OpKey]
    ensures { result.now ≡ from_key key.now keys.now }
{
    let mut rest = keys;
    while let Some((first, more)) = rest.split_first() {
        if !is_before(first, key) {
            break;
        }
        rest = more;
    }
    rest
}

fn starts_with(key: &OpKey, keys: &[OpKey]) -> bool
    ensures { result ≡ begins key.now keys.now }
{
    match keys.first() {
        Some(first) => first.0 == key.0 && first.1.is(&key.1),
        None => false,
    }
}

/// The keys that aren't among the old ones, both in order.
fn not_among(old: &[OpKey], keys: ListOf<OpKey>, alloc: Global) -> Result<ListOf<OpKey>, NoMemory>
    ensures { IfOk result (λ ks. ks ≡ not_among old.now keys) }
{
    let mut new = ListOf::new(alloc);
    let mut rest = old;
    for key in keys.into_vec() {
        rest = from_key(&key, rest);
        if !starts_with(&key, rest) {
            new.push(key)?;
        }
    }
    Ok(new)
}

/// The operations and keys that have two or more wanted values now and had fewer before, in order,
/// by the wanted triples of before and of now in their order.
#[tactic(auto, using(crate::proofs::DoubledKeys::found_new))]
pub fn new_conflicts(
    alloc: Global,
    old: &[(Triple, u64)],
    new: &[(Triple, u64)],
) -> Result<ListOf<OpKey>, NoMemory>
    ensures { IfOk result (AreNewConflicts old.now new.now) }
{
    let before = doubled(alloc, old)?;
    let now = doubled(alloc, new)?;
    not_among(before.as_slice(), now, alloc)
}
