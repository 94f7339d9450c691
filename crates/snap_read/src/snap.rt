//! The writer that publishes states, the notes that name what it published, and its readers.
ghost use Rattle.std.specs.Prelude.{◌≡◌, ◌≤◌, ◌<◌, ◌∷◌, [], Some, IfOk, IfSome, MatchBool};
ghost use mathlib.Core.List.{IsPrefix};
ghost use Rattle.snap_read.specs.Lists.{AreNew, IsLast};

use crate::history::{Front, Head, SnapNaming, SnapOpened};
use crate::publish::Publish;
use crate::shown::Shown;
use left_right::{Absorb, ReadHandle, WriteHandle};
use std::alloc::{AllocError, Global};
use std::marker::Model;
use std::sync::Wait;
use value_core::{ListOf, NoMemory, Published};

/// Names the list that was published up to a moment.
#[derive(Drop)]
pub struct SnapNote<J: SnapNaming> {
    shown: Shown<J>,
}

impl<J: SnapNaming> Model for SnapNote<J> {
    ghost use Rattle.std.specs.Prelude.{List};
    ghost use Rattle.value_core.specs.declared.state.Published.{Published};

    ghost Value = { List Published };

    ghost use Rattle.snap_read.specs.Codes.{list_code};

    ghost coded = { list_code };

    ghost view = { λ s. s.shown };
}

/// Reads what was published, without waiting for the writer. Contracts see the list that it saw or
/// learnt of last: a beginning of the history of its name.
#[derive(Drop)]
pub struct SnapReader<J: SnapNaming> {
    own: Shown<J>,
    from: ReadHandle<Shown<J>>,
}

impl<J: SnapNaming> Model for SnapReader<J> {
    ghost use Rattle.std.specs.Prelude.{List};
    ghost use Rattle.value_core.specs.declared.state.Published.{Published};

    ghost Value = { List Published };

    ghost use Rattle.snap_read.specs.Codes.{list_code};

    ghost coded = { list_code };

    ghost view = { λ s. s.own };
}

impl<J: SnapNaming> SnapReader<J> {
    /// Learns of what a note names. From now on it reads no less.
    pub fn learn(&mut self, note: SnapNote<J>)
        ensures own { IsPrefix self.old self.new }
        ensures note { IsPrefix note self.new }
    {
        let SnapNote { shown } = note;
        if shown.is_after(&self.own) {
            self.own = shown;
        }
    }

    /// The last state of a list that begins with all that this reader saw or learnt of.
    pub fn read(&mut self) -> Result<Published, NoMemory>
        ensures later { IsPrefix self.old self.new }
        ensures last { IfOk result (IsLast J.test self.new) }
    {
        if let Some(shown) = newer(&mut self.from, &self.own)? {
            self.own = shown;
        }
        self.own.last()
    }

    /// Whether it saw or learnt of all that a note names. If not, the note names all that it saw.
    pub fn has_seen(&self, note: &SnapNote<J>) -> bool
        ensures { MatchBool result (IsPrefix note.now self.now) (IsPrefix self.now note.now) }
    {
        self.own.is_after(&note.shown)
    }
}

/// What is shown now, unless it is less than what is known.
fn newer<J: SnapNaming>(
    from: &mut ReadHandle<Shown<J>>,
    known: &Shown<J>,
) -> Result<Option<Shown<J>>, NoMemory>
    ensures { IfOk result (λ found. IfSome found (λ shown. IsPrefix known.now shown)) }
{
    let Some(guard) = from.enter() else {
        return Ok(None);
    };
    let shown: &Shown<J> = &*guard;
    if !shown.is_after(known) {
        return Ok(None);
    }
    match shown.copy() {
        Ok(shown) => Ok(Some(shown)),
        Err(fault) => Err(fault),
    }
}

/// Publishes states. Contracts see their list. What readers take is always a `Shown`: it is a
/// parameter only because a struct's field can't rest on a generic impl of `Absorb`.
pub struct SnapWriter<
    J: SnapNaming,
    W: Wait + Drop,
    S: Absorb<Shown<J>, State = [Published; 0]> + Drop = Shown<J>,
> {
    alloc: Global,
    head: Head<J>,
    front: Front<J>,
    to: WriteHandle<S, Shown<J>, W>,
}

impl<J: SnapNaming, W: Wait + Drop, S: Absorb<Shown<J>, State = [Published; 0]> + Drop> Model
    for SnapWriter<J, W, S> {
    ghost use Rattle.std.specs.Prelude.{List};
    ghost use Rattle.value_core.specs.declared.state.Published.{Published};

    ghost Value = { List Published };

    ghost use Rattle.snap_read.specs.Codes.{list_code};

    ghost coded = { list_code };

    ghost view = { λ s. s.front };
}

impl<J: SnapNaming, W: Wait + Drop> Publish for SnapWriter<J, W> {
    type Note = SnapNote<J>;

    ghost published = { λ w. Some w };

    ghost names = { λ n. Some n };

    ghost test = { J.test };

    fn publish<R: Wait>(&mut self, _rt: &R, next: &Published) -> Result<SnapNote<J>, NoMemory> {
        let shown = Shown::after(self.alloc, &self.front, &self.head, next)?;
        let note = SnapNote {
            shown: shown.copy()?,
        };
        show(&mut self.to, shown)?;
        self.front = note.shown.list();
        Ok(note)
    }

    fn end<R: Wait>(self, _rt: &R) {
        let SnapWriter {
            alloc: _,
            head: _head,
            front: _front,
            to,
        } = self;
        drop(to.take());
    }
}

/// Shows readers a state. After the first call this takes no memory.
fn show<J: SnapNaming, W: Wait + Drop>(
    to: &mut WriteHandle<Shown<J>, Shown<J>, W>,
    shown: Shown<J>,
) -> Result<(), NoMemory> {
    if to.append(shown).is_err() {
        return Err(AllocError);
    }
    to.publish()
}

/// So many readers, each of which saw this list.
fn readers_of<J: SnapNaming, W: Wait + Drop>(
    alloc: Global,
    to: &WriteHandle<Shown<J>, Shown<J>, W>,
    shown: &Shown<J>,
    count: u32,
) -> Result<ListOf<SnapReader<J>>, NoMemory>
    ensures { IfOk result (AreNew shown.now count) }
{
    let mut readers = ListOf::new(alloc);
    for _ in 0..count {
        let own = shown.copy()?;
        let from = to.handle()?;
        readers.push(SnapReader { own, from })?;
    }
    Ok(readers)
}

impl SnapOpened {
    /// The writer of the history under its name, and its readers. No reader is made after it. After
    /// `NoMemory` the writer is given up.
    pub fn named<J: SnapNaming, W: Wait + Drop>(
        self,
        rt: W,
    ) -> Result<(SnapWriter<J, W>, ListOf<SnapReader<J>>), NoMemory>
        requires history { self.history ≡ J.history }
        requires passes { J.test self.first }
        ensures writer { IfOk result (λ named. named.0 ≡ self.first ∷ []) }
        ensures readers { IfOk result (λ named. AreNew (self.first ∷ []) self.readers named.1) }
    {
        let alloc = self.alloc;
        let count = self.readers;
        let (first, head, empty) = self.split::<J>();
        let shown = Shown::after(alloc, &empty, &head, &first)?;
        let mut to = WriteHandle::new(alloc, rt, shown.copy()?, shown.copy()?, count as usize)?;
        // This makes room for all later calls of `show`.
        show(&mut to, shown.copy()?)?;
        let readers = readers_of(alloc, &to, &shown, count)?;
        let writer = SnapWriter {
            alloc,
            head,
            front: shown.list(),
            to,
        };
        Ok((writer, readers))
    }
}
