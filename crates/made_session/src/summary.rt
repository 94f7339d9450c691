//! The summary.
ghost use Rattle.std.specs.Prelude.{◌≡◌, ◌++◌, string_bytes, IfOk, OnOk};
ghost use Rattle.session_rules.specs.StoreTexts.{count_line};
ghost use Rattle.made_session.specs.inside.Summaries.{summary_text};

use std::alloc::Global;
use value_core::{ListOf, NoMemory};

/// Adds a word and a number.
#[tactic(auto, unfolding(session_rules::specs::StoreTexts::count_line))]
fn write_count(out: &mut Vec<u8>, word: &str, n: u64) -> Result<(), NoMemory>
    ensures { OnOk result (out.new.items ≡ out.old.items ++ count_line word.now n) }
{
    let digits = format!(in *out.allocator(); "{n}")?;
    out.extend_from_slice(word.as_bytes())?;
    out.extend_from_slice(b" ")?;
    out.extend_from_slice(digits.as_bytes())?;
    out.extend_from_slice(b"\n")
}

/// The numbers of nodes, versions and orders.
pub(crate) fn summary_text(
    alloc: Global,
    nodes: u64,
    versions: u64,
    orders: u64,
) -> Result<ListOf<u8>, NoMemory>
    ensures { IfOk result (λ text. text ≡ summary_text nodes versions orders) }
{
    let mut out = Vec::new(alloc);
    write_count(&mut out, "nodes", nodes)?;
    write_count(&mut out, "versions", versions)?;
    write_count(&mut out, "orders", orders)?;
    Ok(ListOf::from_vec(out))
}
