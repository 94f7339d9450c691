//! The lines of watched files, and of orders that are left for later.
ghost use Rattle.std.specs.Prelude.{◌≡◌, IfOk};
ghost use Rattle.report_text.specs.Lines.{paused_line, watch_line, watch_words};

use std::alloc::Global;
use value_core::{ListOf, NoMemory};

/// What is wrong with a watched file.
#[derive(Clone, Copy, Debug, PartialEq, Eq)]
pub enum WatchFault {
    Missing,
    TooLarge,
    NotText,
}

fn watch_words(fault: WatchFault) -> &'static str
    ensures { result.now ≡ watch_words fault }
{
    match fault {
        WatchFault::Missing => "missing",
        WatchFault::TooLarge => "too large",
        WatchFault::NotText => "not text",
    }
}

/// The line of the watched file of an input with this name.
#[tactic(auto, unfolding(crate::specs::Lines::watch_line))]
pub fn watch_line(alloc: Global, name: &str, fault: WatchFault) -> Result<ListOf<u8>, NoMemory>
    ensures { IfOk result (λ line. line ≡ watch_line name.now fault) }
{
    let fault = watch_words(fault);
    let line = format!(in alloc; "watch {name} {fault}\n")?;
    Ok(ListOf::from_vec(line.into_bytes()))
}

/// The line that says that orders are left for later.
pub fn paused_line() -> &'static [u8]
    ensures { result.now ≡ paused_line }
{
    b"paused\n"
}
