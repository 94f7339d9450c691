//! The lines of the made session.
ghost use Rattle.std.specs.Prelude.{◌≡◌, ◌++◌, ◌≤◌, string_bytes, IfOk, OnOk};
ghost use Rattle.session_rules.specs.Commands.{made_line, made_script};

use crate::digits::digits_list;
use crate::program::item_count;
use std::alloc::Global;
use value_core::{NoMemory, write_value};

/// Adds the line that sets the input to the numbers from one on.
fn write_line(out: &mut String, alloc: Global, nodes: u64, first: u64) -> Result<(), NoMemory>
    requires { first ≤ 10 }
    ensures { OnOk result (string_bytes out.new ≡ string_bytes out.old ++ made_line nodes first) }
{
    let numbers = digits_list(alloc, first, item_count(nodes))?;
    out.push_str("set xs ")?;
    write_value(out, &numbers)?;
    out.push_str("\n")
}

/// The ten lines.
pub(crate) fn made_script(alloc: Global, nodes: u64) -> Result<Vec<u8>, NoMemory>
    ensures { IfOk result (λ bytes. bytes.items ≡ made_script nodes) }
{
    let mut out = String::new(alloc);
    for i in 0..10u64 {
        write_line(&mut out, alloc, nodes, 1 + i)?;
    }
    Ok(out.into_bytes())
}
