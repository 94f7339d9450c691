//! Items that are matched with those that there were.
ghost use Rattle.std.specs.Prelude.{◌≡◌, ◌≤◌, length, not, ◌&&◌, nat_lt, replicate, slice_set};
ghost use Rattle.std.specs.Prelude.{if◌then◌else◌, false, true, IfOk, None, Some};
ghost use Rattle.value_core.specs.Codes.{value_code};
ghost use Rattle.value_core.specs.Same.{same};
ghost use Rattle.visit_rules.specs.Again.{unused_place};

use std::alloc::Global;
use value_core::{NoMemory, Value};

fn is_for(used: bool, old: &Value, item: &Value) -> bool
    ensures { result ≡ (not used && same value_code item.now old.now) }
{
    !used && item.is(old)
}

/// The place of the first unused item that is equal, or the number of items.
pub fn find_unused(used: &[bool], items: &[Value], item: &Value) -> usize
    requires { length used.now ≤ length items.now }
    ensures place { result ≡ unused_place item.now used.now items.now }
    ensures within { result ≤ length used.now }
{
    for i in 0..used.len() {
        if is_for(used[i], &items[i], item) {
            return i;
        }
    }
    used.len()
}

/// That many items, none of them used.
pub fn none_used(alloc: Global, count: usize) -> Result<Vec<bool>, NoMemory>
    ensures { IfOk result (λ us. us.items ≡ replicate count false) }
{
    let mut used = Vec::new(alloc);
    for _ in 0..count {
        used.push(false)?;
    }
    Ok(used)
}

/// Uses the body at a place, if there is one.
pub fn take_body(used: &mut Vec<bool>, place: usize) -> Option<usize>
    ensures body { result ≡ (if nat_lt place (length used.old.items) then Some place else None) }
    ensures used { used.new.items ≡
        (if nat_lt place (length used.old.items) then slice_set used.old.items place true
        else used.old.items) }
    ensures len { length used.new.items ≡ length used.old.items }
{
    if place < used.len() {
        used[place] = true;
        Some(place)
    } else {
        None
    }
}
