//! The sheet of the day.
ghost use Rattle.std.specs.Prelude.{◌≡◌, codes};
ghost use Rattle.std.proofs.Common.{rules};
ghost use Rattle.rows.specs.Days.{mode_in, curve_in, days};

use crate::curve_shape::CurveShape;
use crate::form::parse_date;
use crate::mode::Mode;
use quantities::date::Date;
use sheet::cells::Cells;
use sheet::kind::RowKind;

/// A day as it is handed.
#[derive(Clone, Copy, PartialEq, Eq, Debug)]
pub struct DayRow {
    pub today: Date,
    pub next: Date,
    pub mode: Mode,
    pub curve: CurveShape,
}

#[tactic(auto, unfolding(crate::specs::Days::mode_in))]
fn parse_mode(cell: &[u8]) -> Option<Mode>
    ensures { result ≡ mode_in cell.now }
{
    match cell {
        b"N" => Some(Mode::Net),
        b"G" => Some(Mode::Gross),
        _ => None,
    }
}

#[tactic(auto, unfolding(crate::specs::Days::curve_in))]
fn parse_curve(cell: &[u8]) -> Option<CurveShape>
    ensures { result ≡ curve_in cell.now }
{
    match cell {
        b"S" => Some(CurveShape::Step),
        b"L" => Some(CurveShape::Sloping),
        _ => None,
    }
}

const TODAY: usize = 0;

const NEXT: usize = 1;

const MODE: usize = 2;

const CURVE: usize = 3;

/// The kind of the one row of a day.
pub struct DayRows;

impl RowKind for DayRows {
    type Row = DayRow;

    const MARK: [u8; 3] = *b"DAY";

    ghost MARK = { codes "DAY" };

    const COLUMNS: usize = 4;

    ghost COLUMNS = { 4 };

    ghost kind = { days };

    fn names() -> &'static [&'static [u8]] {
        &[b"TODAY", b"NEXT", b"MODE", b"CURVE"]
    }

    fn fits(column: usize, cells: &Cells<'_, '_>) -> bool {
        let cell = cells.cell(column);
        match column {
            TODAY | NEXT => parse_date(cell).is_some(),
            MODE => parse_mode(cell).is_some(),
            CURVE => parse_curve(cell).is_some(),
            _ => true,
        }
    }

    fn read(cells: &Cells<'_, '_>) -> Option<DayRow> {
        Some(DayRow {
            today: parse_date(cells.cell(TODAY))?,
            next: parse_date(cells.cell(NEXT))?,
            mode: parse_mode(cells.cell(MODE))?,
            curve: parse_curve(cells.cell(CURVE))?,
        })
    }

    ghost marked = { Prim.search rules };

    ghost counted = { Prim.search rules };

    ghost few = { Prim.search rules };

    ghost judged = { λ cell. Prim.search rules };
}
