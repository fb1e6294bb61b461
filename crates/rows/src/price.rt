//! The sheet of the prices.
ghost use Rattle.std.specs.Prelude.{◌≡◌, codes};
ghost use Rattle.std.proofs.Common.{rules};
ghost use Rattle.rows.specs.Prices.{price_in, prices};

use crate::form::{parse_date, parse_isin};
use market::price::Price;
use quantities::range::UnitPrice;
use sheet::cells::Cells;
use sheet::kind::RowKind;
use text::number::number;

#[tactic(auto, unfolding(crate::specs::Prices::price_in))]
fn parse_price(cell: &[u8]) -> Option<UnitPrice>
    ensures { result ≡ price_in cell.now }
{
    let millionths = number(
        cell,
        u64::from(UnitPrice::LOWEST),
        u64::from(UnitPrice::HIGHEST),
    )?;
    Some(UnitPrice {
        millionths: millionths as u32,
    })
}

const ISIN: usize = 0;

const PRICE: usize = 1;

const MATURITY: usize = 2;

/// The kind of the rows of prices.
pub struct PriceRows;

impl RowKind for PriceRows {
    type Row = Price;

    const MARK: [u8; 3] = *b"PRC";

    ghost MARK = { codes "PRC" };

    const COLUMNS: usize = 3;

    ghost COLUMNS = { 3 };

    ghost kind = { prices };

    fn names() -> &'static [&'static [u8]] {
        &[b"ISIN", b"PRICE", b"MATURITY"]
    }

    fn fits(column: usize, cells: &Cells<'_, '_>) -> bool {
        let cell = cells.cell(column);
        match column {
            ISIN => parse_isin(cell).is_some(),
            PRICE => parse_price(cell).is_some(),
            MATURITY => parse_date(cell).is_some(),
            _ => true,
        }
    }

    fn read(cells: &Cells<'_, '_>) -> Option<Price> {
        Some(Price {
            isin: parse_isin(cells.cell(ISIN))?,
            price: parse_price(cells.cell(PRICE))?,
            maturity: parse_date(cells.cell(MATURITY))?,
        })
    }

    ghost marked = { Prim.search rules };

    ghost counted = { Prim.search rules };

    ghost few = { Prim.search rules };

    ghost judged = { λ cell. Prim.search rules };
}
