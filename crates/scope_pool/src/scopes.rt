//! Open scopes in the order in which they were opened, so that a parent stands before its children.
ghost use Rattle.std.specs.Prelude.{All, ◌≡◌, ◌+◌, ◌<◌, ◌≤◌, [], slice_index_or, filter, not, length, map, OnOk, vec_capacity, vec_len};
ghost use Rattle.scope_pool.specs.Layout.{among, among_maybe, found_from, newest_first, Finds, IsAscending};
ghost use Rattle.scope_pool.specs.Region.{IsOpen};
ghost use Rattle.scope_pool.specs.declared.scopes.Scope.{Scope};

use std::alloc::AllocError;

#[derive(Drop)]
pub(crate) struct Scope {
    pub(crate) name: u64,
    pub(crate) parent: Option<u64>,
    /// The place of the item that was put into it last.
    pub(crate) last: Option<u32>,
}

/// The index of an open scope.
pub(crate) fn index_of(scopes: &[Scope], name: u64) -> usize
    requires ascending { IsAscending scopes.now }
    requires open { IsOpen (newest_first scopes.now) name }
    ensures within { result < length scopes.now }
    ensures named { (d : Scope) → (slice_index_or scopes.now result d).name ≡ name }
{
    match search(scopes, name) {
        Ok(index) => index,
        Err(_) => unreachable!(),
    }
}

fn search(scopes: &[Scope], name: u64) -> Result<usize, usize>
    requires { IsAscending scopes.now }
    ensures { Finds name scopes.now result }
{
    scopes.binary_search_by(|scope| scope.name.cmp(&name))
}

/// Makes room for so many more scopes, also where they are all given up at once.
pub(crate) fn reserve_scopes(
    scopes: &mut Vec<Scope>,
    closing: &mut Vec<u64>,
    more: usize,
) -> Result<(), AllocError>
    ensures scopes { scopes.new.items ≡ scopes.old.items }
    ensures closing { closing.new.items ≡ closing.old.items }
    ensures scopes_room { vec_capacity scopes.old ≤ vec_capacity scopes.new }
    ensures closing_room { vec_capacity closing.old ≤ vec_capacity closing.new }
    ensures ok { OnOk result (vec_len scopes.new + more ≤ vec_capacity scopes.new) }
    ensures ok_to_close { let all = vec_len scopes.new + vec_len closing.new + more in
        OnOk result (all ≤ vec_capacity closing.new) }
{
    scopes.reserve(more)?;
    closing.reserve(scopes.len().checked_add(more).ok_or(AllocError)?)
}

/// The names of an outer scope and of all that are nested in it.
pub(crate) fn find_within(scopes: &[Scope], outer: u64, found: &mut Vec<u64>)
    requires ascending { IsAscending scopes.now }
    requires open { IsOpen (newest_first scopes.now) outer }
    requires none { found.old.items ≡ [] }
    requires room { length scopes.now ≤ vec_capacity found.old }
    ensures found { found.new.items ≡ found_from outer [] scopes.now }
    ensures capacity { vec_capacity found.new ≡ vec_capacity found.old }
{
    let newer = &scopes[index_of(scopes, outer)..];
    for scope in newer {
        if scope.name == outer || is_among(found.as_slice(), scope.parent) {
            found.push_reserved(scope.name);
        }
    }
}

fn is_among(names: &[u64], name: Option<u64>) -> bool
    ensures { result ≡ among_maybe names.now name }
{
    match name {
        Some(name) => names.contains(&name),
        None => false,
    }
}

/// Drops the scopes of these names.
pub(crate) fn drop_scopes(scopes: &mut Vec<Scope>, closing: &[u64])
    requires ascending { IsAscending scopes.old.items }
    requires open { All (λ n. IsOpen (newest_first scopes.old.items) n) closing.now }
    ensures left { scopes.new.items
        ≡ filter (λ s. not (among closing.now s.name)) scopes.old.items }
    ensures len { vec_len scopes.new ≤ vec_len scopes.old }
    ensures capacity { vec_capacity scopes.new ≡ vec_capacity scopes.old }
{
    if let [name] = closing {
        let index = index_of(scopes.as_slice(), *name);
        let _closed = scopes.remove(index);
    } else {
        scopes.retain(|scope| stays(scope, closing));
    }
}

fn stays(scope: &Scope, closing: &[u64]) -> bool
    ensures { result ≡ not (among closing.now scope.now.name) }
{
    !closing.contains(&scope.name)
}
