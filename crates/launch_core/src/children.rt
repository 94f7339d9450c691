//! The launcher over child processes.
ghost use Rattle.std.specs.Prelude.{◌≡◌, ◌≤◌, length, None, IfOk, Ok};
ghost use Rattle.io_ends.specs.Causes.{Rose};
ghost use Rattle.launch_core.specs.Launching.{HasWords, AddsRun, CountsFault, HasAtMost, output_read};

use crate::launcher::Launcher;
use op_keys::{Exit, Order};
use std::alloc::{AllocError, Global};
use std::io::{self, Read};
use std::process::{Child, Command, ExitStatus, OpenProcess, Processes, Stdio};
use value_core::{ListOf, NoMemory};

/// The most bytes of a child's output that are read.
pub const OUTPUT_READ: usize = 65_537;

/// Why a child did not run to its end.
#[derive(Drop)]
pub(crate) enum Trouble {
    Memory,
    System,
}

/// How a child ended.
#[derive(Drop)]
pub(crate) struct Ending {
    /// None if a signal ended it.
    pub code: Option<u8>,
    /// Its first bytes, `OUTPUT_READ` at most.
    pub output: Vec<u8>,
}

impl From<io::Error> for Trouble {
    fn from(error: io::Error) -> Trouble {
        match error.kind() {
            io::ErrorKind::OutOfMemory => Trouble::Memory,
            _ => Trouble::System,
        }
    }
}

impl From<AllocError> for Trouble {
    ghost use Rattle.std.specs.Prelude.{◌≡◌};
    ghost use Rattle.launch_core.specs.declared.children.Trouble.TheVariants as trouble;

    ghost from_gives = { λ _ e. e ≡ trouble.Memory };

    fn from(_error: AllocError) -> Trouble {
        Trouble::Memory
    }
}

/// Starts the first word with the others as its arguments. Its standard error is the program's own.
pub(crate) fn start<R: Processes>(
    rt: &R,
    alloc: Global,
    order: &Order,
    input: Stdio,
) -> Result<Child<R::Started>, Trouble>
    requires { HasWords order.now }
{
    let words = order.words.as_slice();
    let mut command = Command::new(alloc, words[0].as_str())?;
    for word in &words[1..] {
        command.arg(word.as_str())?;
    }
    command.stdin(input).stdout(Stdio::piped());
    Ok(command.spawn(rt)?)
}

/// The first bytes of the child's output; the pipe is closed after them.
pub(crate) fn read_output<P: OpenProcess + Drop>(
    alloc: Global,
    child: &mut Child<P>,
) -> io::Result<Vec<u8>>
    ensures { IfOk result (λ output. length output.items ≤ output_read) }
{
    let mut output = Vec::new(alloc);
    if let Some(stdout) = child.stdout.take() {
        stdout.take(OUTPUT_READ as u64).read_to_end(&mut output)?;
    }
    // No more bytes were read; this shows it to the proof.
    output.truncate(OUTPUT_READ);
    Ok(output)
}

/// The code of a child that ended so, unless a signal ended it.
pub(crate) fn code_of(status: ExitStatus) -> Option<u8> {
    status.code().and_then(|code| u8::try_from(code).ok())
}

/// The answer of a launcher: trouble with the system is a fault, which is counted.
pub(crate) fn answer(faults: &mut u64, ran: Result<Ending, Trouble>) -> Result<Exit, NoMemory>
    requires { IfOk ran (λ ending. length ending.output.items ≤ output_read) }
    ensures bound { IfOk result (HasAtMost output_read) }
    ensures later { faults.old ≤ faults.new }
    ensures counted { CountsFault faults.old faults.new result }
{
    match ran {
        Ok(Ending { code, output }) => Ok(Exit::Ended {
            code,
            output: ListOf::from_vec(output),
        }),
        Err(Trouble::Memory) => Err(AllocError),
        Err(Trouble::System) => {
            *faults = faults.saturating_add(1);
            Ok(Exit::Fault)
        }
    }
}

/// Runs each order as a child process whose standard input is at its end. It has no ghost record of
/// its runs.
#[derive(Drop)]
pub struct ChildLauncher<'r, R: Processes> {
    rt: &'r R,
    faults: u64,
}

impl<'r, R: Processes> ChildLauncher<'r, R> {
    /// No run has failed.
    pub fn new(rt: &'r R) -> ChildLauncher<'r, R>
        ensures runs { ⟦<ChildLauncher<'r, R> as Launcher>⟧.runs result ≡ None }
        ensures faults { ⟦<ChildLauncher<'r, R> as Launcher>⟧.faults result ≡ 0 }
    {
        ChildLauncher { rt, faults: 0 }
    }

    fn run_child(&self, alloc: Global, order: &Order) -> Result<Ending, Trouble>
        requires { HasWords order.now }
        ensures { IfOk result (λ ending. length ending.output.items ≤ output_read) }
    {
        let mut child = start(self.rt, alloc, order, Stdio::null())?;
        let output = read_output(alloc, &mut child);
        let code = code_of(child.wait()?);
        Ok(Ending {
            code,
            output: output?,
        })
    }
}

/// A clone goes on from the same count.
impl<'r, R: Processes> Clone for ChildLauncher<'r, R> {
    ghost is_clone = { λ launcher copy. copy.faults ≡ launcher.faults };

    fn clone(&self) -> Result<ChildLauncher<'r, R>, AllocError> {
        Ok(ChildLauncher {
            rt: self.rt,
            faults: self.faults,
        })
    }
}

impl<'r, R: Processes> Launcher for ChildLauncher<'r, R> {
    ghost runs = { λ _. None };

    ghost faults = { λ s. s.faults };

    fn run(&mut self, alloc: Global, order: &Order) -> Result<Exit, NoMemory>
        requires { HasWords order.now }
        ensures ran { AddsRun None order.now result None }
        ensures bound { IfOk result (HasAtMost output_read) }
        ensures later { self.old.faults ≤ self.new.faults }
        ensures fault { result ≡ Ok Exit.Fault → Rose self.old.faults self.new.faults }
    {
        let ran = self.run_child(alloc, order);
        answer(&mut self.faults, ran)
    }
}
