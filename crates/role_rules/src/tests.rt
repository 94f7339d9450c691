//! A file of two words, worked by hand: no command reads a roles file yet.
ghost use Rattle.std.specs.Prelude.{◌≡◌, IfOk};

use crate::{Ask, Decision, RolesFault, decide, is_listed, read_roles};
use std::alloc::Global;
use std::test::Fail;
use value_core::Text;

/// A request by a rule, which names something or nothing.
fn ask(alloc: Global, rule: u8, name: Option<&str>) -> Result<Ask, Fail>
    ensures { IfOk result (λ a. a.rule ≡ rule) }
{
    let plain = name.is_none() && rule == 1;
    let name = match name {
        Some(name) => Some(Text::as_text(alloc, name.as_bytes())?),
        None => None,
    };
    Ok(Ask { rule, name, plain })
}

#[test]
fn a_decision_is_the_first_rule_that_is_not_met(rt: HostRuntime) -> Result<(), Fail> {
    let alloc = rt.alloc();
    let policy = read_roles(alloc, b"viewer abc\nbuilder xyz on head\n")?;
    let abc = Some(b"abc".as_slice());
    let xyz = Some(b"xyz".as_slice());
    let input = ask(alloc, 3, Some("head"))?;
    assert_eq!(rt; decide(&policy, abc, &input), Decision::Denied(3));
    assert_eq!(rt; decide(&policy, xyz, &input), Decision::Allowed);
    assert_eq!(rt; decide(&policy, None, &input), Decision::NoWord);
    let node = ask(alloc, 1, Some("tip"))?;
    assert_eq!(rt; decide(&policy, xyz, &node), Decision::Denied(6));
    let tick = ask(alloc, 4, None)?;
    assert_eq!(rt; decide(&policy, xyz, &tick), Decision::Denied(7));
    let nodes = ask(alloc, 1, None)?;
    assert_eq!(rt; decide(&policy, xyz, &nodes), Decision::Allowed);
    assert!(rt; !is_listed(&policy, xyz, &Text::as_text(alloc, b"tip")?));
    Ok(())
}

#[test]
fn the_first_line_with_a_fault_is_found(rt: HostRuntime) {
    let alloc = rt.alloc();
    for (file, fault) in [
        ("viewer  a", RolesFault::BadLine(1)),
        (
            "# who\n\nviewer a\nadmin a on b\n",
            RolesFault::Duplicate(4),
        ),
        ("viewer a\nViewer a\nviewer a", RolesFault::BadLine(2)),
    ] {
        let read = read_roles(alloc, file.as_bytes());
        assert!(rt; read.is_err_and(|found| found == fault), "{file}");
    }
}
