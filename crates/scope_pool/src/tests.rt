//! Scopes in scopes, worked by hand: no command opens any yet.
use crate::Pool;
use std::test::Fail;

#[test]
fn closing_drops_what_is_within(rt: HostRuntime) -> Result<(), Fail> {
    let mut pool = Pool::new(rt.alloc());
    pool.reserve(2, 2)?;
    let outer = pool.open_scope(None);
    let inner = pool.open_scope(Some(outer));
    let a = pool.put(outer, "a");
    assert_eq!(rt; pool.set(a, "c"), "a");
    assert_eq!(rt; *pool.get(a), "c");
    pool.put(inner, "b");
    pool.close_scope(inner);
    assert_eq!(rt; pool.live(), 1);
    Ok(())
}
