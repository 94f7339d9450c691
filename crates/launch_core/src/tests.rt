//! Children: no run of the program starts one yet, and no clause says what one does.
ghost use Rattle.std.specs.Prelude.{IfOk};
ghost use Rattle.launch_core.specs.Launching.{HasWords};

use crate::{ChildLauncher, ChildSignaller, Launcher, SignalledLauncher, Signaller};
use op_keys::{Exit, ORDER_WORD_LIMIT, Order, Word};
use std::alloc::Global;
use std::rt::Clock;
use std::sync::Wait;
use std::test::Fail;
use std::thread;
use std::time::Duration;
use value_core::{ListOf, Text};

fn word_of(alloc: Global, text: &str) -> Result<Word, Fail> {
    let text = Text::as_text(alloc, text.as_bytes())?;
    if ORDER_WORD_LIMIT < text.len() {
        return Err("a long word".into());
    }
    Ok(Word::of(alloc, text.as_str())?)
}

/// Job 7, which runs a script.
fn order_of(alloc: Global, script: &str) -> Result<Order, Fail>
    ensures { IfOk result HasWords }
{
    let mut words = ListOf::new(alloc);
    words.push(word_of(alloc, "/bin/sh")?)?;
    words.push(word_of(alloc, "-c")?)?;
    words.push(word_of(alloc, script)?)?;
    Ok(Order {
        job: 7,
        worker: 0,
        op: 0,
        key: Text::new(alloc),
        value: Text::new(alloc),
        words,
    })
}

fn is_end(exit: &Exit, expected: Option<u8>, bytes: &[u8]) -> bool {
    match exit {
        Exit::Ended { code, output } => *code == expected && output.as_slice() == bytes,
        Exit::Fault => false,
    }
}

#[test]
fn a_childs_code_and_output_are_read(rt: HostRuntime) -> Result<(), Fail> {
    let alloc = rt.alloc();
    let mut launcher = ChildLauncher::new(&rt);
    for (script, code, output) in [
        ("printf one; exit 3", Some(3), "one"),
        ("printf '%s' \"$(cat)\"; kill -9 $$", None, ""),
    ] {
        let exit = launcher.run(alloc, &order_of(alloc, script)?)?;
        assert!(rt; is_end(&exit, code, output.as_bytes()), "{script}");
    }
    Ok(())
}

/// Waits until the child of job 7 runs, and signals it; false if it never ran.
fn signal_once<R: Wait + Clock>(rt: &R, signaller: &mut ChildSignaller<'_, R>) -> bool {
    for _ in 0..3000u32 {
        if signaller.inputs.lock(rt).contains_key(&7) {
            signaller.signal(7);
            return true;
        }
        thread::sleep(rt, Duration::from_millis(10));
    }
    false
}

#[test]
fn a_signalled_child_reads_the_word_cancel(rt: HostRuntime) -> Result<(), Fail> {
    let alloc = rt.alloc();
    let mut launcher = SignalledLauncher::new(&rt, alloc)?;
    let mut signaller = launcher.signaller()?;
    let order = order_of(alloc, "read word; printf \"$word\"; cat")?;
    let (ran, signalled) = thread::join(
        &rt,
        || launcher.run(alloc, &order),
        || signal_once(&rt, &mut signaller),
    );
    assert!(rt; signalled);
    assert!(rt; is_end(&ran?, Some(0), b"cancel"));
    Ok(())
}
