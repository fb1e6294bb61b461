//! The sheet of the margin percentages.
ghost use Rattle.std.specs.Prelude.{◌≡◌, codes};
ghost use Rattle.std.proofs.Common.{rules};
ghost use Rattle.rows.specs.Percentages.{tranche_in, percentage_in, percentages};

use market::percentage::Percentage;
use quantities::range::MarginPercentage;
use quantities::tranche::Tranche;
use sheet::cells::Cells;
use sheet::kind::RowKind;
use text::number::number;

#[tactic(auto, unfolding(crate::specs::Percentages::tranche_in))]
fn parse_tranche(cell: &[u8]) -> Option<Tranche>
    ensures { result ≡ tranche_in cell.now }
{
    let tranche = number(cell, 0, u64::from(u8::MAX))?;
    Tranche::try_from(tranche as u8).ok()
}

#[tactic(auto, unfolding(crate::specs::Percentages::percentage_in))]
fn parse_percentage(cell: &[u8]) -> Option<MarginPercentage>
    ensures { result ≡ percentage_in cell.now }
{
    let basis_points = number(cell, 0, u64::from(MarginPercentage::HIGHEST))?;
    Some(MarginPercentage {
        basis_points: basis_points as u16,
    })
}

const TRANCHE: usize = 0;

const PCT: usize = 1;

/// The kind of the rows of percentages.
pub struct PercentageRows;

impl RowKind for PercentageRows {
    type Row = Percentage;

    const MARK: [u8; 3] = *b"PAR";

    ghost MARK = { codes "PAR" };

    const COLUMNS: usize = 2;

    ghost COLUMNS = { 2 };

    ghost kind = { percentages };

    fn names() -> &'static [&'static [u8]] {
        &[b"TRANCHE", b"PCT"]
    }

    fn fits(column: usize, cells: &Cells<'_, '_>) -> bool {
        let cell = cells.cell(column);
        match column {
            TRANCHE => parse_tranche(cell).is_some(),
            PCT => parse_percentage(cell).is_some(),
            _ => true,
        }
    }

    fn read(cells: &Cells<'_, '_>) -> Option<Percentage> {
        Some(Percentage {
            tranche: parse_tranche(cells.cell(TRANCHE))?,
            percentage: parse_percentage(cells.cell(PCT))?,
        })
    }

    ghost marked = { Prim.search rules };

    ghost counted = { Prim.search rules };

    ghost few = { Prim.search rules };

    ghost judged = { λ cell. Prim.search rules };
}
