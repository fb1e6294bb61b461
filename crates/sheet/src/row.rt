//! A row read from its line.
ghost use Rattle.std.specs.Prelude.{◌≡◌, length};
ghost use Rattle.sheet.specs.Kinds.{cell_at};
ghost use Rattle.sheet.specs.Sheets.{leftmost, row_if};

use crate::cells::Cells;
use crate::kind::RowKind;
use crate::refusal::SheetRefusal;
use quantities::refusal::Refusal;

/// The leftmost place whose cell does not fit.
fn leftmost_misfit<K: RowKind>(cells: &Cells<'_, '_>, places: &[u8]) -> Option<u8>
    requires { length places.now ≡ K.COLUMNS }
    ensures { result ≡ leftmost (K.kind.fits (cell_at cells.now)) places.now }
{
    let mut leftmost: Option<u8> = None;
    for (column, place) in places.iter().enumerate() {
        match leftmost {
            _ if K::fits(column, cells) => {}
            Some(left) if left <= *place => {}
            _ => leftmost = Some(*place),
        }
    }
    leftmost
}

/// The row that the cells make, or the refusal of the leftmost that does not fit.
pub(crate) fn made<K: RowKind>(
    cells: &Cells<'_, '_>,
    places: &[u8],
    line: usize,
) -> Result<K::Row, SheetRefusal>
    requires { length places.now ≡ K.COLUMNS }
    ensures { let cell = cell_at cells.now in
        result ≡ row_if (leftmost (K.kind.fits cell) places.now) (K.kind.row cell) line }
{
    if let Some(row) = K::read(cells) {
        return Ok(row);
    }
    match leftmost_misfit::<K>(cells, places) {
        Some(place) => Err(SheetRefusal {
            refusal: Refusal::Value,
            line,
            cell: usize::from(place) + 1,
        }),
        None => unreachable!(),
    }
}
