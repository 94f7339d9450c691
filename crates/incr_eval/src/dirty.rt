//! Whether something that was read in a tree is known to differ now.
ghost use Rattle.std.specs.Prelude.{◌≡◌};
ghost use Rattle.std.specs.List.{list_any};
ghost use Rattle.visit_rules.specs.KnownChanges.{known_in};
ghost use Rattle.visit_rules.specs.Visits.{bodies_of, parts_of, passes, visits_of};
ghost use Rattle.visit_rules.specs.declared.visit.Visit.TheViews.{out-Visit};

use crate::old::Old;
use visit_rules::{Setting, is_changed};

/// Whether something that was read in the tree is known to differ now.
#[cycle(telling)]
pub(crate) fn is_dirty<E>(old: &Old<'_>, setting: &Setting<'_, E>) -> bool
    ensures { result ≡ passes (known_in setting.now) old.now }
{
    if is_changed(old.read(), setting) {
        return true;
    }
    if has_dirty_part(old, setting) {
        return true;
    }
    has_dirty_body(old, setting)
}

#[cycle(telling)]
fn has_dirty_part<E>(old: &Old<'_>, setting: &Setting<'_, E>) -> bool
    ensures { result ≡ list_any (passes (known_in setting.now)) (parts_of old.now) }
{
    for i in 0..old.part_count() {
        if is_dirty(&old.part(i), setting) {
            return true;
        }
    }
    false
}

#[cycle(telling)]
fn has_dirty_body<E>(old: &Old<'_>, setting: &Setting<'_, E>) -> bool
    ensures { result ≡ list_any (passes (known_in setting.now)) (bodies_of old.now) }
{
    for i in 0..old.body_count() {
        if is_dirty(&old.body(i), setting) {
            return true;
        }
    }
    false
}
