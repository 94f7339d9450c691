//! A writer and two readers in threads of their own, since no clause says that a reader sees anything;
//! and a caller that knows of its history by its name alone.
ghost use Rattle.std.specs.Prelude.{◌≡◌, ◌<◌, ◌≤◌, IfOk};
ghost use Rattle.value_core.specs.declared.state.Published.{Published};
ghost use Rattle.snap_read.specs.Lists.{AreBelow, IsBelow};

use crate::{Publish, SnapNaming, SnapOpened, SnapReader, SnapWriter};
use std::alloc::{AllocError, Global};
use std::marker::Brand;
use std::process::Abort;
use std::sync::Wait;
use std::test::Fail;
use std::thread::{Threads, join};
use value_core::{ListOf, NoMemory, Published};

const VERSIONS: u64 = 10_000;

fn published(alloc: Global, version: u64) -> Published
    ensures { result.version ≡ version }
{
    Published {
        version,
        names: ListOf::new(alloc),
        states: ListOf::new(alloc),
    }
}

/// Publishes the versions from 2 on.
#[tactic(auto, using(crate::proofs::Rising::below_added))]
fn publish_all<P: Publish, R: Wait>(rt: &R, alloc: Global, writer: &mut P) -> Result<(), NoMemory>
    requires passes { (p : Published) → P.test p }
    requires first { IsBelow (P.published writer.old) 2 }
{
    for version in 2..VERSIONS + 1 {
        writer.publish(rt, &published(alloc, version))?;
    }
    Ok(())
}

/// Reads until it saw the last version; false if a version fell.
fn read_all<J: SnapNaming, R: Wait>(rt: &R, mut reader: SnapReader<J>) -> Result<bool, NoMemory> {
    let mut last = 0;
    for _ in rt.forever() {
        let version = reader.read()?.version;
        if version < last {
            return Ok(false);
        }
        if version == VERSIONS {
            return Ok(true);
        }
        last = version;
    }
    unreachable!()
}

/// One thread publishes all versions, and two others read until they saw the last.
fn run<J: SnapNaming + Send + Sync, W: Wait + Drop + Send, R: Threads + Wait + Sync>(
    rt: &R,
    alloc: Global,
    writer: &mut SnapWriter<J, W>,
    mut readers: Vec<SnapReader<J>>,
) -> Result<bool, NoMemory>
    requires passes { (p : Published) → J.test p }
    requires first { AreBelow 2 writer.old }
{
    let Some(one) = readers.pop() else {
        return Ok(false);
    };
    let Some(two) = readers.pop() else {
        return Ok(false);
    };
    let (wrote, (first, second)) = join(
        rt,
        || publish_all(rt, alloc, writer),
        || join(rt, || read_all(rt, one), || read_all(rt, two)),
    );
    wrote?;
    Ok(first? && second?)
}

fn publish_and_read<J: SnapNaming + Send + Sync, R: Threads + Wait + Copy + Drop + Send + Sync>(
    rt: &R,
    alloc: Global,
    opened: SnapOpened,
) -> Result<bool, NoMemory>
    requires history { opened.history ≡ J.history }
    requires passes { (p : Published) → J.test p }
    requires first { opened.first.version ≡ 1 }
{
    let (mut writer, readers) = opened.named::<J, R>(*rt)?;
    let saw_all = run(rt, alloc, &mut writer, readers.into_vec());
    writer.end(rt);
    saw_all
}

/// Publishes a second state, and reads after it learnt of it.
#[tactic(auto, using(crate::proofs::Rising::read_after))]
fn read_after_note<J: SnapNaming, R: Wait + Copy + Drop>(
    rt: &R,
    alloc: Global,
    opened: SnapOpened,
) -> Result<u64, NoMemory>
    requires history { opened.history ≡ J.history }
    requires passes { (p : Published) → J.test p }
    requires first { opened.first.version ≡ 1 }
    ensures { IfOk result (λ version. 2 ≤ version) }
{
    let (mut writer, readers) = opened.named::<J, R>(*rt)?;
    let note = writer.publish(rt, &published(alloc, 2));
    writer.end(rt);
    let note = note?;
    let Some(mut reader) = readers.into_vec().pop() else {
        return Err(AllocError);
    };
    reader.learn(note);
    Ok(reader.read()?.version)
}

#[test]
fn what_was_learnt_is_read(rt: HostRuntime) -> Result<(), Fail> {
    let alloc = rt.alloc();
    let opened = SnapOpened::open(alloc, &published(alloc, 1), 1)?;
    assert!(rt; read_after_note::<Brand, _>(&rt, alloc, opened)? == 2);
    Ok(())
}

#[test]
fn no_version_falls_while_10000_are_published(rt: HostRuntime) -> Result<(), Fail> {
    let alloc = rt.alloc();
    let opened = SnapOpened::open(alloc, &published(alloc, 1), 2)?;
    assert!(rt; publish_and_read::<Brand, _>(&rt, alloc, opened)?);
    Ok(())
}
