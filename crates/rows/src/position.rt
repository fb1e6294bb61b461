//! The sheet of the positions.
ghost use Rattle.std.specs.Prelude.{◌≡◌, codes};
ghost use Rattle.std.proofs.Common.{rules};
ghost use Rattle.rows.specs.Positions.{reference_in, side_in, block_in, titles_in, cash_in, positions};

use crate::form::{parse_date, parse_isin};
use account::block_name::BlockName;
use account::line::Line;
use account::side::Side;
use quantities::date::Date;
use quantities::range::{Cash, Titles};
use sheet::cells::Cells;
use sheet::kind::RowKind;
use text::number::number;

#[tactic(auto, unfolding(crate::specs::Positions::reference_in))]
fn parse_reference(cell: &[u8]) -> Option<u32>
    ensures { result ≡ reference_in cell.now }
{
    let reference = number(cell, 1, u64::from(u32::MAX))?;
    Some(reference as u32)
}

#[tactic(auto, unfolding(crate::specs::Positions::side_in))]
fn parse_side(cell: &[u8]) -> Option<Side>
    ensures { result ≡ side_in cell.now }
{
    match cell {
        b"B" => Some(Side::Bought),
        b"S" => Some(Side::Sold),
        _ => None,
    }
}

#[tactic(auto, unfolding(crate::specs::Positions::block_in))]
fn parse_block(cell: &[u8]) -> Option<BlockName>
    ensures { result ≡ block_in cell.now }
{
    match cell {
        b"T" => Some(BlockName::Trade),
        b"F" => Some(BlockName::Failed),
        b"H" => Some(BlockName::Held),
        b"C" => Some(BlockName::CashOnly),
        _ => None,
    }
}

#[tactic(auto, unfolding(crate::specs::Positions::titles_in))]
fn parse_titles(block: Option<BlockName>, cell: &[u8]) -> Option<u32>
    ensures { result ≡ titles_in block cell.now }
{
    let titles = number(cell, 0, u64::from(Titles::MOST))?;
    // Guards: the block says which of the numbers fit.
    match block {
        Some(BlockName::CashOnly) if titles > 0 => None,
        Some(BlockName::Trade | BlockName::Failed | BlockName::Held) if titles == 0 => None,
        _ => Some(titles as u32),
    }
}

#[tactic(auto, unfolding(crate::specs::Positions::cash_in))]
fn parse_cash(cell: &[u8]) -> Option<u64>
    ensures { result ≡ cash_in cell.now }
{
    number(cell, 0, Cash::MOST)
}

const REF: usize = 0;

const ISIN: usize = 1;

const SIDE: usize = 2;

const BLOCK: usize = 3;

const TITLES: usize = 4;

const CASH: usize = 5;

const DATE: usize = 6;

/// The kind of the rows of lines.
pub struct PositionRows;

impl RowKind for PositionRows {
    type Row = Line;

    const MARK: [u8; 3] = *b"POS";

    ghost MARK = { codes "POS" };

    const COLUMNS: usize = 7;

    ghost COLUMNS = { 7 };

    ghost kind = { positions };

    fn names() -> &'static [&'static [u8]] {
        &[
            b"REF", b"ISIN", b"SIDE", b"BLOCK", b"TITLES", b"CASH", b"DATE",
        ]
    }

    fn fits(column: usize, cells: &Cells<'_, '_>) -> bool {
        let cell = cells.cell(column);
        match column {
            REF => parse_reference(cell).is_some(),
            ISIN => parse_isin(cell).is_some(),
            SIDE => parse_side(cell).is_some(),
            BLOCK => parse_block(cell).is_some(),
            TITLES => parse_titles(parse_block(cells.cell(BLOCK)), cell).is_some(),
            CASH => parse_cash(cell).is_some(),
            DATE => parse_date(cell).is_some(),
            _ => true,
        }
    }

    fn read(cells: &Cells<'_, '_>) -> Option<Line> {
        let reference = parse_reference(cells.cell(REF))?;
        let isin = parse_isin(cells.cell(ISIN))?;
        let side = parse_side(cells.cell(SIDE))?;
        let block = parse_block(cells.cell(BLOCK))?;
        let titles = parse_titles(Some(block), cells.cell(TITLES))?;
        let cash = parse_cash(cells.cell(CASH))?;
        let date = parse_date(cells.cell(DATE))?;
        Some(Line {
            reference,
            isin,
            side,
            titles,
            cash,
            block: block.with_date(date),
        })
    }

    ghost marked = { Prim.search rules };

    ghost counted = { Prim.search rules };

    ghost few = { Prim.search rules };

    ghost judged = { λ cell. Prim.search rules };
}
