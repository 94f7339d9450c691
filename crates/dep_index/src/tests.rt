//! Users of sources, worked by hand: no command links any yet.
use crate::{Deps, Used};
use std::process::Abort;
use std::test::Fail;

fn expect_users(rt: &impl Abort, deps: &Deps, used: &Used, wanted: &[u32]) -> Result<(), Fail> {
    let users = deps.users(used)?;
    assert!(rt; users.as_slice() == wanted);
    Ok(())
}

#[test]
fn users_come_in_rising_order_until_they_are_unlinked(rt: HostRuntime) -> Result<(), Fail> {
    let mut deps = Deps::new(rt.alloc());
    deps.link(&Used::Input(0), 4)?;
    deps.reserve(1)?;
    deps.link_spare(Used::Input(0), 2);
    deps.link(&Used::Node(1), 4)?;
    expect_users(&rt, &deps, &Used::Input(0), &[2, 4])?;
    deps.unlink(4);
    expect_users(&rt, &deps, &Used::Input(0), &[2])
}
