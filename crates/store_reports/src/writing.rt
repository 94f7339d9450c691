//! Pieces of lines, written as bytes.
ghost use Rattle.std.specs.Prelude.{◌<◌};
ghost use Rattle.std.specs.Fmt.{decimal};
ghost use Rattle.value_core.specs.Printed.{escape, escaped, hex_escape, quoted};
ghost use Rattle.store_reports.specs.inside.Writers.{Adds};

use value_core::NoMemory;

pub(crate) fn write_number(out: &mut Vec<u8>, n: u64) -> Result<(), NoMemory>
    ensures { Adds result out.old out.new (decimal n) }
{
    let digits = format!(in *out.allocator(); "{n}")?;
    out.extend_from_slice(digits.as_bytes())
}

#[tactic(auto, using(std::proofs::lemmas::Fmt::hex_byte))]
fn write_control(out: &mut Vec<u8>, byte: u8) -> Result<(), NoMemory>
    requires { byte < 128 }
    ensures { Adds result out.old out.new (hex_escape byte) }
{
    let digits = format!(in *out.allocator(); "\\x{byte:02x}")?;
    out.extend_from_slice(digits.as_bytes())
}

fn write_escaped(out: &mut Vec<u8>, byte: u8) -> Result<(), NoMemory>
    ensures { Adds result out.old out.new (escape byte) }
{
    match byte {
        b'"' => out.extend_from_slice(b"\\\""),
        b'\\' => out.extend_from_slice(b"\\\\"),
        b'\n' => out.extend_from_slice(b"\\n"),
        b'\t' => out.extend_from_slice(b"\\t"),
        b'\r' => out.extend_from_slice(b"\\r"),
        0..=31 | 127 => write_control(out, byte),
        _ => {
            out.push(byte)?;
            Ok(())
        }
    }
}

fn write_all_escaped(out: &mut Vec<u8>, text: &[u8]) -> Result<(), NoMemory>
    ensures { Adds result out.old out.new (escaped text.now) }
{
    for byte in text {
        write_escaped(out, *byte)?;
    }
    Ok(())
}

/// Writes a text as a string token, in quotes.
pub(crate) fn write_quoted(out: &mut Vec<u8>, text: &[u8]) -> Result<(), NoMemory>
    ensures { Adds result out.old out.new (quoted text.now) }
{
    out.extend_from_slice(b"\"")?;
    write_all_escaped(out, text)?;
    out.extend_from_slice(b"\"")
}
