//! The cells of a line.
ghost use Rattle.std.specs.Prelude.{◌≡◌, ◌≢◌, ◌<◌, [], ◌∷◌, length, MatchOption, IfSome};
ghost use Rattle.text.specs.Cells.{cells, cells_after};

use crate::part::next_part;

pub(crate) const SEMICOLON: u8 = b';';

/// The first cell, and what follows its semicolon if there is one.
pub fn next_cell(line: &[u8]) -> (&[u8], Option<&[u8]>)
    ensures cells { cells line.now ≡ result.0.now ∷ cells_after result.1 }
    ensures shorter { IfSome result.1 (λ r. length r.now < length line.now) }
{
    next_part(line, SEMICOLON)
}

/// The cells of a line that has just two.
#[tactic(auto, using(crate::proofs::Parts::some_part))]
pub fn two_cells(line: &[u8]) -> Option<(&[u8], &[u8])>
    ensures { MatchOption result (length (cells line.now) ≢ 2)
        (λ r. cells line.now ≡ r.0.now ∷ (r.1.now ∷ [])) }
{
    let (first, after) = next_cell(line);
    match next_cell(after?) {
        (second, None) => Some((first, second)),
        (_, Some(_)) => None,
    }
}
