//! A kind of row.
ghost use Rattle.std.specs.Prelude.{◌≡◌, ◌≤◌, ℕ, List, length, true};
ghost use Rattle.std.specs.List.{slice_index_or};
ghost use Rattle.text.specs.Cells.{Cell};
ghost use Rattle.sheet.specs.Columns.{texts};
ghost use Rattle.sheet.specs.Kinds.{SheetKind, cell_at, fitting_row};

use crate::cells::Cells;

/// What a row says, and the columns that say it.
pub trait RowKind {
    type Row: Copy;

    /// The mark of its sheet.
    const MARK: [u8; 3];

    ghost MARK: { List ℕ };

    /// How many columns it needs.
    const COLUMNS: usize;

    ghost COLUMNS: { ℕ };

    ghost kind: { SheetKind Self.Row };

    /// The names of the columns that it needs.
    fn names() -> &'static [&'static [u8]]
        ensures { texts result.now ≡ kind.needed };

    /// Whether the cell of a needed column fits; true where there is no such column.
    fn fits(column: usize, cells: &Cells<'_, '_>) -> bool
        ensures { result ≡ slice_index_or (kind.fits (cell_at cells.now)) column true };

    /// The row that the cells make, where each of them fits.
    fn read(cells: &Cells<'_, '_>) -> Option<Self::Row>
        ensures { result ≡ fitting_row kind (cell_at cells.now) };

    ghost marked: { MARK ≡ kind.mark };

    ghost counted: { COLUMNS ≡ length kind.needed };

    ghost few: { COLUMNS ≤ 32 };

    ghost judged: { (cell : ℕ → Cell) → length (kind.fits cell) ≡ COLUMNS };
}
