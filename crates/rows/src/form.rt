//! The cells that several kinds of row have.
ghost use Rattle.std.specs.Prelude.{◌≡◌, IfSome, IsTrue};
ghost use Rattle.quantities.specs.Isins.{is_isin};
ghost use Rattle.rows.specs.Forms.{date_in, isin_in};

use quantities::date::Date;
use quantities::isin::Isin;
use text::number::number;

/// A day number.
#[tactic(auto, unfolding(crate::specs::Forms::date_in))]
pub fn parse_date(cell: &[u8]) -> Option<Date>
    ensures { result ≡ date_in cell.now }
{
    let date = number(cell, 0, u64::from(Date::MAX))?;
    Some(date as Date)
}

/// An ISIN with its right check digit.
#[tactic(auto, unfolding(crate::specs::Forms::isin_in))]
pub fn parse_isin(cell: &[u8]) -> Option<Isin>
    ensures is { result ≡ isin_in cell.now }
    ensures valid { IfSome result (λ isin. IsTrue (is_isin isin.bytes)) }
{
    Isin::try_from(cell).ok()
}
