//! The files of inputs that are watched.
ghost use Rattle.std.specs.Prelude.{◌≡◌, ◌<◌, ◌≤◌, length, Some};
ghost use Rattle.value_core.specs.Reading.{text_read};
ghost use Rattle.report_text.specs.Lines.{watch_line};
ghost use Rattle.session_rules.specs.Watching as part;
ghost use Rattle.session_core.specs.Doing.{Causes, Plays, counts, seen};
ghost use Rattle.session_core.specs.Numbers.{counting};
ghost use Rattle.session_core.specs.Printing.{PrintCause, Writes};
ghost use Rattle.session_core.specs.Watched.{KeepsProgram, inputs_of, watch_file, watch_nth};

use crate::ends::Ends;
use crate::numbering::Numbering;
use crate::session::Session;
use crate::steps::print;
use crate::stop::Stop;
use core_rules::What;
use engine_core::engine_law;
use io_ends::{Clock, FileFault, FileRead, Files, Sink};
use keeper_core::Keeper;
use launch_core::Launcher;
use report_text::{WatchFault, watch_line};
use std::alloc::Global;
use std::sync::ledger::Ledger;
use value_core::{Text, TextFault, Value};

/// A file that sets an input has at most so many bytes.
const WATCH_LIMIT: usize = 65_536;

/// Writes what is wrong with the file of an input.
fn say_fault<O: Sink>(
    alloc: Global,
    out: &mut O,
    name: &Text,
    fault: WatchFault,
) -> Result<(), Stop>
    ensures text { let line = watch_line name.now fault in
        Writes line (O.written out.old) (O.written out.new) result }
    ensures cause { PrintCause (O.faults out.old) (O.faults out.new) result }
{
    let line = watch_line(alloc, name.as_str(), fault)?;
    print(out, line.as_slice())
}

impl<K: Keeper, G: Ledger, N: Numbering> Session<K, G, N> {
    /// Leaves an input, and says what is wrong with its file.
    fn leave_input<O: Sink, L: Launcher, C: Clock, F: Files>(
        &self,
        ends: &mut Ends<O, L, C, F>,
        name: Text,
        fault: WatchFault,
    ) -> Result<(), Stop>
        ensures part { let see = seen K.known O.written L.runs C.readings F.held in
            Plays (part.faulty name (Some fault))
            (see self.now ends.old) (see self.now ends.new) result }
        ensures cause { let count = counts K.faults O.faults F.faults in
            Causes (count self.now ends.old) (count self.now ends.new) result }
    {
        say_fault(self.alloc, &mut ends.out, &name, fault)
    }

    /// Sets an input to a text, unless it has it.
    fn set_text<O: Sink, L: Launcher, C: Clock, F: Files>(
        &mut self,
        ends: &mut Ends<O, L, C, F>,
        input: u32,
        name: Text,
        text: Text,
    ) -> Result<(), Stop>
        requires input { input < length (inputs_of self.now) }
        requires short { length text ≤ 65536 }
        ensures part { let see = seen K.known O.written L.runs C.readings F.held in
            Plays (part.set_text (counting N.shows) input name text)
            (see self.old ends.old) (see self.new ends.new) result }
        ensures program { KeepsProgram self.old self.new }
        ensures cause { let count = counts K.faults O.faults F.faults in
            Causes (count self.old ends.old) (count self.new ends.new) result }
    {
        let value = Value::Words(text);
        if self.desk.engine().input_of(input).is(&value) {
            return Ok(());
        }
        let _note = self.make_step(ends, What::SetInput { name, value })?;
        Ok(())
    }

    /// Sets an input to what its file has.
    fn set_content<O: Sink, L: Launcher, C: Clock, F: Files>(
        &mut self,
        ends: &mut Ends<O, L, C, F>,
        input: u32,
        name: Text,
        content: &[u8],
    ) -> Result<(), Stop>
        requires { input < length (inputs_of self.now) }
        ensures part { let see = seen K.known O.written L.runs C.readings F.held in
            Plays (part.text_found (counting N.shows) input name (text_read content.now))
            (see self.old ends.old) (see self.new ends.new) result }
        ensures program { KeepsProgram self.old self.new }
        ensures cause { let count = counts K.faults O.faults F.faults in
            Causes (count self.old ends.old) (count self.new ends.new) result }
    {
        match Text::as_text(self.alloc, content) {
            Ok(text) => self.set_text(ends, input, name, text),
            Err(TextFault::TooLarge(_)) => self.leave_input(ends, name, WatchFault::TooLarge),
            Err(TextFault::NotText) => self.leave_input(ends, name, WatchFault::NotText),
            Err(TextFault::NoMemory) => Err(Stop::NoMemory),
        }
    }

    /// Reads the file of an input, and sets it.
    fn watch_file<O: Sink, L: Launcher, C: Clock, F: Files>(
        &mut self,
        ends: &mut Ends<O, L, C, F>,
        input: u32,
        name: Text,
        path: &Text,
    ) -> Result<(), Stop>
        requires { input < length (inputs_of self.now) }
        ensures part { let see = seen K.known O.written L.runs C.readings F.held in
            Plays (watch_file (counting N.shows) input name path.now)
            (see self.old ends.old) (see self.new ends.new) result }
        ensures program { KeepsProgram self.old self.new }
        ensures cause { let count = counts K.faults O.faults F.faults in
            Causes (count self.old ends.old) (count self.new ends.new) result }
    {
        match ends.files.read_file(self.alloc, path.as_str(), WATCH_LIMIT) {
            Ok(FileRead::Found(content)) => self.set_content(ends, input, name, content.as_slice()),
            Ok(FileRead::Missing) => self.leave_input(ends, name, WatchFault::Missing),
            Err(FileFault::Failed) => Err(Stop::ReadFault),
            Err(FileFault::NoMemory) => Err(Stop::NoMemory),
        }
    }

    /// Sets an input to what its file has, if it has one.
    fn watch_one<O: Sink, L: Launcher, C: Clock, F: Files>(
        &mut self,
        ends: &mut Ends<O, L, C, F>,
        input: u32,
    ) -> Result<(), Stop>
        requires { input < length (inputs_of self.now) }
        ensures part { let see = seen K.known O.written L.runs C.readings F.held in
            Plays (watch_nth (counting N.shows) input (inputs_of self.old))
            (see self.old ends.old) (see self.new ends.new) result }
        ensures program { KeepsProgram self.old self.new }
        ensures cause { let count = counts K.faults O.faults F.faults in
            Causes (count self.old ends.old) (count self.new ends.new) result }
    {
        let decl = &self.desk.engine().program().inputs.as_slice()[input as usize];
        let Some(path) = &decl.watch else {
            return Ok(());
        };
        let name = decl.name.copy(self.alloc)?;
        let path = path.copy(self.alloc)?;
        self.watch_file(ends, input, name, &path)
    }

    /// How many inputs there are.
    fn input_count(&self) -> u32
        ensures { result ≡ length (inputs_of self.now) }
    {
        let engine = self.desk.engine();
        engine_law(engine);
        engine.program().inputs.as_slice().len() as u32
    }

    /// Sets each input that has a file to the text that is found there, in order of the inputs. A
    /// file that isn't there, is too large or is no text leaves its input, and gets a line.
    pub(crate) fn watch_all<O: Sink, L: Launcher, C: Clock, F: Files>(
        &mut self,
        ends: &mut Ends<O, L, C, F>,
    ) -> Result<(), Stop>
        ensures part { let see = seen K.known O.written L.runs C.readings F.held in
            Plays (part.watch_all (counting N.shows))
            (see self.old ends.old) (see self.new ends.new) result }
        ensures cause { let count = counts K.faults O.faults F.faults in
            Causes (count self.old ends.old) (count self.new ends.new) result }
    {
        let count = self.input_count();
        let mut input = 0;
        while input < count {
            self.watch_one(ends, input)?;
            input += 1;
        }
        Ok(())
    }
}
