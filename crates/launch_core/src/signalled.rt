//! The launcher whose children can be asked to stop, and the signaller that asks them.
ghost use Rattle.std.specs.Prelude.{◌≡◌, ◌≤◌, length, None, IfOk, Ok};
ghost use Rattle.io_ends.specs.Causes.{Rose};
ghost use Rattle.launch_core.specs.Launching.{HasWords, AddsRun, HasAtMost, output_read};

use crate::children::{Ending, Trouble, answer, code_of, read_output, start};
use crate::launcher::Launcher;
use crate::signaller::Signaller;
use op_keys::{Exit, Order};
use std::alloc::{AllocError, Global};
use std::collections::BTreeMap;
use std::io::Write;
use std::process::{ChildStdin, Processes, Stdio, SystemProcess};
use std::sync::{Arc, Mutex, Wait};
use value_core::NoMemory;

/// The standard inputs of the children that run, by their jobs.
type ChildInputs = Arc<Mutex<BTreeMap<u64, ChildStdin>>, Global>;

fn keep_input<R: Wait>(
    rt: &R,
    inputs: &ChildInputs,
    job: u64,
    input: Option<ChildStdin>,
) -> Result<(), NoMemory> {
    if let Some(input) = input {
        inputs.lock(rt).insert(job, input)?;
    }
    Ok(())
}

fn remove_input<R: Wait>(rt: &R, inputs: &ChildInputs, job: u64) -> Option<ChildStdin> {
    inputs.lock(rt).remove(&job)
}

/// Runs each order as a child process whose standard input stays open until the job is asked to
/// stop or the child has ended. It has no ghost record of its runs.
#[derive(Drop)]
pub struct SignalledLauncher<'r, R: Processes<Started = SystemProcess> + Wait> {
    rt: &'r R,
    inputs: ChildInputs,
    faults: u64,
}

impl<'r, R: Processes<Started = SystemProcess> + Wait> SignalledLauncher<'r, R> {
    /// No child runs, and no run has failed.
    pub fn new(rt: &'r R, alloc: Global) -> Result<SignalledLauncher<'r, R>, NoMemory>
        ensures { IfOk result (λ launcher. launcher.faults ≡ 0) }
    {
        let inputs = Arc::new(alloc, Mutex::new(BTreeMap::new(alloc))).map_err(AllocError::from)?;
        Ok(SignalledLauncher {
            rt,
            inputs,
            faults: 0,
        })
    }

    /// A signaller of the children of this launcher and of its clones.
    pub fn signaller(&self) -> Result<ChildSignaller<'r, R>, NoMemory>
        ensures { IfOk result (λ s. ⟦<ChildSignaller<'r, R> as Signaller>⟧.signalled s ≡ None) }
    {
        Ok(ChildSignaller {
            rt: self.rt,
            inputs: Arc::try_clone(&self.inputs)?,
        })
    }

    fn run_child(&self, alloc: Global, order: &Order) -> Result<Ending, Trouble>
        requires { HasWords order.now }
        ensures { IfOk result (λ ending. length ending.output.items ≤ output_read) }
    {
        let mut child = start(self.rt, alloc, order, Stdio::piped())?;
        let kept = keep_input(self.rt, &self.inputs, order.job, child.stdin.take());
        let output = read_output(alloc, &mut child);
        let status = child.wait();
        drop(remove_input(self.rt, &self.inputs, order.job));
        kept?;
        let code = code_of(status?);
        Ok(Ending {
            code,
            output: output?,
        })
    }
}

/// A clone shares the children's inputs, and goes on from the same count.
impl<'r, R: Processes<Started = SystemProcess> + Wait> Clone for SignalledLauncher<'r, R> {
    ghost is_clone = { λ launcher copy. copy.faults ≡ launcher.faults };

    fn clone(&self) -> Result<SignalledLauncher<'r, R>, AllocError> {
        Ok(SignalledLauncher {
            rt: self.rt,
            inputs: Arc::try_clone(&self.inputs)?,
            faults: self.faults,
        })
    }
}

impl<'r, R: Processes<Started = SystemProcess> + Wait> Launcher for SignalledLauncher<'r, R> {
    ghost runs = { λ _. None };

    ghost faults = { λ s. s.faults };

    fn run(&mut self, alloc: Global, order: &Order) -> Result<Exit, NoMemory>
        requires { HasWords order.now }
        ensures ran { AddsRun None order.now result None }
        ensures bound { IfOk result (HasAtMost output_read) }
        ensures later { self.old.faults ≤ self.new.faults }
        ensures fault { result ≡ Ok Exit.Fault → Rose self.old.faults self.new.faults }
    {
        let ran = self.run_child(alloc, order);
        answer(&mut self.faults, ran)
    }
}

/// Tells a child by a line to its standard input, which is then closed. It has no ghost record of
/// the jobs.
#[derive(Drop)]
pub struct ChildSignaller<'r, R: Wait> {
    rt: &'r R,
    pub(crate) inputs: ChildInputs,
}

impl<'r, R: Wait> Signaller for ChildSignaller<'r, R> {
    ghost signalled = { λ _. None };

    fn signal(&mut self, job: u64) {
        // The lock is given back before the line is written.
        let input = remove_input(self.rt, &self.inputs, job);
        if let Some(mut input) = input {
            // A child that has ended reads nothing, which is no matter.
            drop(input.write_all(b"cancel\n"));
        }
    }
}
