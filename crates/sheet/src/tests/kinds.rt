//! A kind of row with two columns.
ghost use Rattle.std.specs.Prelude.{◌≡◌, [], ◌∷◌, is_some, unwrap_or, codes};
ghost use Rattle.std.proofs.Common.{rules};
ghost use Rattle.text.specs.Numbers.{number_in};

use crate::cells::Cells;
use crate::kind::RowKind;
use text::number::number;

#[derive(Clone, Copy, PartialEq)]
pub struct Lot {
    pub titles: u64,
    pub price: u64,
}

pub struct Lots;

const TITLES: usize = 0;

const PRICE: usize = 1;

impl RowKind for Lots {
    type Row = Lot;

    const MARK: [u8; 3] = *b"LOT";

    ghost MARK = { codes "LOT" };

    const COLUMNS: usize = 2;

    ghost COLUMNS = { 2 };

    ghost kind = { record {
      mark = codes "LOT";
      needed = codes "TITLES" ∷ (codes "PRICE" ∷ []);
      fits = λ cell. is_some (number_in 1 900 (cell 0)) ∷ (is_some (number_in 0 99 (cell 1)) ∷ []);
      row = λ cell. record {
        titles = unwrap_or (number_in 1 900 (cell 0)) 0;
        price = unwrap_or (number_in 0 99 (cell 1)) 0;
      };
    } };

    fn names() -> &'static [&'static [u8]] {
        &[b"TITLES", b"PRICE"]
    }

    fn fits(column: usize, cells: &Cells<'_, '_>) -> bool {
        let cell = cells.cell(column);
        match column {
            TITLES => number(cell, 1, 900).is_some(),
            PRICE => number(cell, 0, 99).is_some(),
            _ => true,
        }
    }

    fn read(cells: &Cells<'_, '_>) -> Option<Lot> {
        Some(Lot {
            titles: number(cells.cell(TITLES), 1, 900)?,
            price: number(cells.cell(PRICE), 0, 99)?,
        })
    }

    ghost marked = { Prim.search rules };

    ghost counted = { Prim.search rules };

    ghost few = { Prim.search rules };

    ghost judged = { λ cell. Prim.search rules };
}
