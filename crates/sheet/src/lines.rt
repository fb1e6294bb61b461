//! A sheet's first line and its trailer.
ghost use Rattle.std.specs.Prelude.{◌≡◌, ◌&&◌};
ghost use Rattle.text.specs.Cells.{cells};
ghost use Rattle.sheet.specs.Sheets.{is_top, is_trailer, has_row_count};

use text::cell::two_cells;
use text::number::number;

/// Whether a line has a mark and a version that is read.
pub(crate) fn is_top(line: &[u8], mark: [u8; 3]) -> bool
    ensures { result ≡ is_top mark (cells line.now) }
{
    match two_cells(line) {
        Some((first, version)) if first == mark.as_slice() => number(version, 1, 255).is_some(),
        _ => false,
    }
}

/// Whether a line is a trailer.
pub(crate) fn is_trailer(line: &[u8]) -> bool
    ensures { result ≡ is_trailer line.now }
{
    matches!(line, b"END" | [b'E', b'N', b'D', b';', ..])
}

/// Whether a line is a trailer that counts so many rows.
pub(crate) fn counts(line: &[u8], rows: u64) -> bool
    ensures { result ≡ (is_trailer line.now && has_row_count rows (cells line.now)) }
{
    match two_cells(line) {
        Some((first, count)) if first == b"END".as_slice() => number(count, rows, rows).is_some(),
        _ => false,
    }
}
