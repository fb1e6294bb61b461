//! The check of lines before their margin is worked: the lowest reference with a fault is refused.
ghost use Rattle.account.specs.ByIsin.{lines_by_isin};
ghost use Rattle.std.specs.Prelude.{◌≡◌, IsTrue};
ghost use Rattle.valuation.specs.Checks.{Faultless, FindsFirstFault};

use crate::basis::Basis;
use crate::lookups::Lookups;
use account::by_isin::ByIsin;
use account::line::Line;
use account::line_refusal::LineRefusal;

// Refuses the first fault of lines, which come by reference.
fn check_by_reference<B: Basis>(basis: &B, lines: &[Line]) -> Result<(), LineRefusal>
    ensures { FindsFirstFault (B.setting basis.now) lines.now result }
{
    let mut lookups = Lookups::none();
    for line in lines {
        lookups.check_line(basis, line)?;
    }
    Ok(())
}

// Whether no line has a fault.
fn are_faultless<B: Basis>(basis: &B, lines: &ByIsin<'_>) -> bool
    ensures { IsTrue result → Faultless (B.setting basis.now) lines.now }
{
    let mut lookups = Lookups::none();
    for line in lines.iter() {
        if lookups.fault_of(basis, line).is_err() {
            return false;
        }
    }
    true
}

/// Refuses the first fault of lines by reference.
pub(crate) fn check_lines<B: Basis>(
    basis: &B,
    lines: &[Line],
    by_isin: &ByIsin<'_>,
) -> Result<(), LineRefusal>
    requires { by_isin.now ≡ lines_by_isin lines.now }
    ensures { FindsFirstFault (B.setting basis.now) lines.now result }
{
    // By ISIN a quote is looked up once for each, and most often no line has a fault.
    if are_faultless(basis, by_isin) {
        return Ok(());
    }
    check_by_reference(basis, lines)
}
