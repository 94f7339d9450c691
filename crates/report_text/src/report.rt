//! The lines of a report.
ghost use Rattle.std.specs.Prelude.{◌≡◌, ◌<◌, ◌++◌, ◌∷◌, [], IfOk, codes, length};
ghost use Rattle.report_text.specs.Reports.{AreNumbersOf, level_words, line, name_at, names_at, report_text, spaced, yes_or_no};
ghost use Rattle.report_text.specs.inside.Writers.{Adds, names_or_none};

use op_keys::{Level, Named};
use pipe_text::word_of_level;
use std::alloc::Global;
use term_check::Report;
use term_core::Program;
use value_core::{ListOf, NoMemory};

/// Writes the name of the declaration with this number, after a space.
fn write_name<D: Named>(out: &mut String, decls: &[D], number: u32) -> Result<(), NoMemory>
    requires { number < length decls.now }
    ensures { Adds result out.old out.new (codes " " ++ name_at D.named decls.now number) }
{
    out.push_str(" ")?;
    out.push_str(decls[number as usize].name().as_str())
}

/// Writes the names of the declarations with these numbers, each after a space.
fn write_names<D: Named>(out: &mut String, decls: &[D], numbers: &[u32]) -> Result<(), NoMemory>
    requires { AreNumbersOf decls.now numbers.now }
    ensures { Adds result out.old out.new (spaced (names_at D.named decls.now numbers.now)) }
{
    for number in numbers {
        write_name(out, decls, *number)?;
    }
    Ok(())
}

/// Writes the same, or that there are none.
fn write_names_or_none<D: Named>(
    out: &mut String,
    decls: &[D],
    numbers: &[u32],
) -> Result<(), NoMemory>
    requires { AreNumbersOf decls.now numbers.now }
    ensures { Adds result out.old out.new (spaced (names_or_none D.named decls.now numbers.now)) }
{
    match numbers {
        [] => out.push_str(" none"),
        _ => write_names(out, decls, numbers),
    }
}

/// Writes the line that tells of the declarations with these numbers.
#[tactic(auto, unfolding(crate::specs::Reports::line))]
fn write_names_line<D: Named>(
    out: &mut String,
    label: &str,
    decls: &[D],
    numbers: &[u32],
) -> Result<(), NoMemory>
    requires { AreNumbersOf decls.now numbers.now }
    ensures { let names = names_at D.named decls.now numbers.now in
        Adds result out.old out.new (line label.now names) }
{
    out.push_str(label)?;
    out.push_str(":")?;
    write_names_or_none(out, decls, numbers)?;
    out.push_str("\n")
}

/// Writes a line of one word.
#[tactic(auto, unfolding(crate::specs::Reports::line))]
fn write_word_line(out: &mut String, label: &str, word: &str) -> Result<(), NoMemory>
    ensures { Adds result out.old out.new (line label.now (word.now ∷ [])) }
{
    out.push_str(label)?;
    out.push_str(": ")?;
    out.push_str(word)?;
    out.push_str("\n")
}

/// Writes the line of the greatest level, or that there is none.
#[tactic(auto, unfolding(crate::specs::Reports::line))]
fn write_level_line(out: &mut String, level: Option<Level>) -> Result<(), NoMemory>
    ensures { Adds result out.old out.new (line (codes "greatest level") (level_words level)) }
{
    match level {
        Some(level) => write_word_line(out, "greatest level", word_of_level(level)),
        None => write_word_line(out, "greatest level", "none"),
    }
}

fn yes_or_no(is_so: bool) -> &'static str
    ensures { result.now ≡ yes_or_no is_so }
{
    if is_so { "yes" } else { "no" }
}

/// The lines on what a program reads.
#[tactic(auto, unfolding(crate::specs::Reports::report_text))]
pub fn report_lines(
    alloc: Global,
    report: &Report,
    program: &Program,
) -> Result<ListOf<u8>, NoMemory>
    requires inputs { AreNumbersOf program.now.inputs report.now.inputs }
    requires ops { AreNumbersOf program.now.ops report.now.ops }
    ensures lines { IfOk result (λ text. text ≡ report_text program.now report.now) }
{
    let mut out = String::new(alloc);
    let inputs = program.inputs.as_slice();
    let ops = program.ops.as_slice();
    write_names_line(&mut out, "inputs", inputs, report.inputs.as_slice())?;
    write_names_line(&mut out, "operations", ops, report.ops.as_slice())?;
    write_level_line(&mut out, report.level)?;
    write_word_line(&mut out, "dynamic", yes_or_no(report.dynamic))?;
    Ok(ListOf::from_vec(out.into_bytes()))
}
