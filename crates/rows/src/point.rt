//! The sheet of the points of the curve.
ghost use Rattle.std.specs.Prelude.{◌≡◌, codes};
ghost use Rattle.std.proofs.Common.{rules};
ghost use Rattle.rows.specs.Points.{term_in, rate_in, points};

use curve::point::Point;
use quantities::range::Rate;
use sheet::cells::Cells;
use sheet::kind::RowKind;
use text::number::{number, signed_number};

#[tactic(auto, unfolding(crate::specs::Points::term_in))]
fn parse_term(cell: &[u8]) -> Option<u16>
    ensures { result ≡ term_in cell.now }
{
    let term = number(cell, 0, u64::from(u16::MAX))?;
    Some(term as u16)
}

#[tactic(auto, unfolding(crate::specs::Points::rate_in))]
fn parse_rate(cell: &[u8]) -> Option<Rate>
    ensures { result ≡ rate_in cell.now }
{
    let basis_points = signed_number(cell, i32::from(Rate::LOWEST), i32::from(Rate::HIGHEST))?;
    Some(Rate {
        basis_points: basis_points as i16,
    })
}

const TERM: usize = 0;

const RATE: usize = 1;

/// The kind of the rows of points.
pub struct PointRows;

impl RowKind for PointRows {
    type Row = Point;

    const MARK: [u8; 3] = *b"CRV";

    ghost MARK = { codes "CRV" };

    const COLUMNS: usize = 2;

    ghost COLUMNS = { 2 };

    ghost kind = { points };

    fn names() -> &'static [&'static [u8]] {
        &[b"TERM", b"RATE"]
    }

    fn fits(column: usize, cells: &Cells<'_, '_>) -> bool {
        let cell = cells.cell(column);
        match column {
            TERM => parse_term(cell).is_some(),
            RATE => parse_rate(cell).is_some(),
            _ => true,
        }
    }

    fn read(cells: &Cells<'_, '_>) -> Option<Point> {
        Some(Point {
            term: parse_term(cells.cell(TERM))?,
            rate: parse_rate(cells.cell(RATE))?,
        })
    }

    ghost marked = { Prim.search rules };

    ghost counted = { Prim.search rules };

    ghost few = { Prim.search rules };

    ghost judged = { λ cell. Prim.search rules };
}
