//! The list of published states. It exists in the proofs alone: at run time there is its length, and
//! whoever saw a beginning of it.
ghost use Rattle.std.specs.Prelude.{◌≡◌, ◌<◌, ◌≤◌, ◌^◌, ◌++◌, ◌∷◌, [], length, IfOk, MatchBool};
ghost use mathlib.Core.List.{IsPrefix};
ghost use Rattle.std.specs.List.{All};
ghost use Rattle.snap_read.specs.Lists.{AreBelow, AreRising};
ghost use Rattle.snap_read.specs.inside.Rules.{head_of};

use crate::copying::copy_of;
use logbook::{Gain, Offer, Plain, Play, Rule, Seen, Start, Word};
use std::alloc::Global;
use std::marker::{Brand, Model, PhantomData};
use value_core::{NoMemory, Published};

/// The most readers of a writer.
pub const READERS: u32 = 128;

/// The rule of the history: its word is its length.
pub struct Law;

impl Rule<Published, u64> for Law {
    ghost use Rattle.std.specs.Prelude.{[]};
    ghost use base.Fml.{ftrue};
    ghost use Rattle.snap_read.specs.inside.Rules.{IsKept};

    ghost holds = { λ cells log. IsKept cells log };

    ghost first = { [] };

    ghost hinted = { λ n log. Unit {0} };

    ghost shows = { λ log. [] };

    ghost keeps = { λ names log. ftrue };

    ghost moves = { λ ask before after answer. Unit {0} };
}

/// Callers trade nothing.
pub struct Nothing;

impl Gain<Published, u64> for Nothing {
    ghost use base.Fml.{ftrue};

    ghost after = { λ names about answer. ftrue };
}

/// A step that adds a state.
pub struct Add;

impl Play<Published, u64> for Add {
    ghost use Rattle.snap_read.specs.inside.Rules.{Adding};

    ghost then = { Adding };
}

impl Plain<Published, Published, u64> for Add {
    ghost use Rattle.std.specs.Prelude.{None};

    ghost ask = { λ next. next };

    ghost state = { λ next. None };
}

/// Which history it is, and which states may be published in it. Each program picks both.
pub trait SnapNaming {
    ghost use Rattle.logbook.specs.Pages.{Book};
    ghost use Rattle.value_core.specs.declared.state.Published.{Published};

    ghost history: { Book };

    ghost test: { Published → Type 0 };
}

impl SnapNaming for Brand {
    ghost history = { record { number = 0; log_name = 0; cells_name = 0 } };

    ghost test = { λ _. Unit {0} };
}

/// A history with its first state, which has no name yet.
#[derive(Drop)]
pub struct SnapOpened {
    pub(crate) alloc: Global,
    pub(crate) first: Published,
    pub(crate) readers: u32,
    head: Word<Published, u64, Law>,
    seen: Seen<Published, u64, Law>,
}

impl Model for SnapOpened {
    ghost use Rattle.snap_read.specs.Lists.{Opened};

    ghost Value = { Opened };

    ghost use Rattle.snap_read.specs.Codes.{opened_code};

    ghost coded = { opened_code };

    ghost use Rattle.std.specs.Prelude.{◌≡◌, ◌<◌, ◌≤◌, []};
    ghost use Rattle.snap_read.specs.inside.Rules.{head_of};

    ghost view = { λ o. record { history = o.seen.book; first = o.first; readers = o.readers } };

    ghost invariant = { λ o. (o.seen.log ≡ []) × (o.head ≡ head_of o.seen.book)
        × (0 < o.readers) × (o.readers ≤ 128) };
}

impl SnapOpened {
    /// A history that begins with this state, for so many readers.
    pub fn open(alloc: Global, first: &Published, readers: u32) -> Result<SnapOpened, NoMemory>
        requires { (1 ≤ readers) × (readers ≤ 128) }
        ensures first { IfOk result (λ opened. opened.first ≡ first.now) }
        ensures readers { IfOk result (λ opened. opened.readers ≡ readers) }
    {
        let first = copy_of(alloc, first)?;
        let (seen, mut pen, _other) = Seen::open(Start::alone(), 0, 0);
        Ok(SnapOpened {
            alloc,
            first,
            readers,
            head: Word::tracked(0, &mut pen),
            seen,
        })
    }

    /// The history's word under a name, and the list with nothing.
    pub(crate) fn split<J: SnapNaming>(self) -> (Published, Head<J>, Front<J>)
        requires { self.history ≡ J.history }
        ensures first { result.0 ≡ self.first }
        ensures front { result.2 ≡ [] }
    {
        let SnapOpened {
            alloc: _,
            first,
            readers: _,
            head,
            seen,
        } = self;
        let head = Head {
            head,
            of: PhantomData,
        };
        let front = Front {
            count: 0,
            seen,
            of: PhantomData,
        };
        (first, head, front)
    }
}

/// The word: the length of the history.
#[derive(Drop)]
pub(crate) struct Head<J: SnapNaming> {
    head: Word<Published, u64, Law>,
    of: PhantomData<J>,
    ghost head_is: { head ≡ head_of J.history },
}

/// A beginning of the history. Contracts see it as its states.
#[derive(Drop)]
pub(crate) struct Front<J: SnapNaming> {
    count: u64,
    seen: Seen<Published, u64, Law>,
    of: PhantomData<J>,
}

impl<J: SnapNaming> Model for Front<J> {
    ghost use Rattle.std.specs.Prelude.{◌≡◌, List, length};
    ghost use Rattle.std.specs.List.{All};
    ghost use Rattle.snap_read.specs.Lists.{AreRising};
    ghost use Rattle.value_core.specs.declared.state.Published.{Published};

    ghost Value = { List Published };

    ghost use Rattle.snap_read.specs.Codes.{list_code};

    ghost coded = { list_code };

    ghost view = { λ f. f.seen.log };

    ghost invariant = { λ f. (f.count ≡ length f.seen.log) × (f.seen.book ≡ J.history)
        × All J.test f.seen.log × AreRising f.seen.log };
}

impl<J: SnapNaming> Front<J> {
    /// How many states it has.
    pub(crate) fn len(&self) -> u64
        ensures { result ≡ length self.now }
    {
        self.count
    }

    /// What holds of every beginning. Does nothing.
    pub(crate) fn facts(&self)
        ensures test { All J.test self.now }
        ensures rising { AreRising self.now }
    {
        let _count = &self.count;
    }

    /// An equal one.
    pub(crate) fn again(&self) -> Front<J>
        ensures { result ≡ self.now }
    {
        Front {
            count: self.count,
            seen: self.seen.again(),
            of: PhantomData,
        }
    }

    /// Of two beginnings the one that isn't shorter begins with the other.
    pub(crate) fn compare(&self, other: &Front<J>) -> bool
        ensures { MatchBool result (IsPrefix other.now self.now) (IsPrefix self.now other.now) }
    {
        let mut both = self.seen.again();
        both.learn(&other.seen);
        if other.count <= self.count {
            true
        } else {
            false
        }
    }

    /// Adds a state to the history, and says whether it did.
    pub(crate) fn add(&mut self, head: &Head<J>, next: &Published) -> bool
        requires room { length self.old < 2 ^ 62 }
        requires test { J.test next.now }
        requires above { AreBelow next.now.version self.old }
        ensures { MatchBool result (self.new ≡ self.old ++ next.now ∷ []) (self.new ≡ self.old) }
    {
        let mut seen = self.seen.again();
        let mut offer: Offer<Published, u64, Law, Nothing> = seen.plain::<Nothing, Published, Add>(
            next,
        );
        let mut pen = seen.no_pen();
        let count = self.count;
        let found = head
            .head
            .compare_exchange::<Add, Nothing>(count, count + 1, &mut seen, &mut offer, &mut pen);
        if found != count {
            return false;
        }
        self.seen = seen;
        self.count = count + 1;
        true
    }
}
