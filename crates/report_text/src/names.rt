//! Names of declarations.
ghost use Rattle.std.specs.Prelude.{◌≡◌};
ghost use Rattle.report_text.specs.Reports.{name_at};

use op_keys::Named;

/// The name of the declaration with this number, or nothing.
pub(crate) fn name_at<D: Named>(declarations: &[D], number: usize) -> &str
    ensures { result.now ≡ name_at D.named declarations.now number }
{
    match declarations.get(number) {
        Some(declaration) => declaration.name().as_str(),
        None => "",
    }
}
