//! What is left of an input.
ghost use Rattle.std.specs.Prelude.{◌≡◌, ◌≤◌, ◌^◌, [], ◌∷◌, length, take, ◌==◌, ◌&&◌, MatchOption, SomeIff};
ghost use Rattle.text.specs.Cells.{cells};
ghost use Rattle.text.specs.Ends.{TakesEnds};
ghost use Rattle.text.specs.Lines.{lines, loose};
ghost use Rattle.sheet.specs.Sheets.{Follows};

use std::marker::Model;
use text::ends::cell_ends;
use text::line::next_line;

/// The part of an input that is still to be read, and the number of its first line,
/// counted from 1 over the whole input.
#[derive(Drop)]
pub struct Input<'a> {
    ahead: &'a [u8],
    first: usize,
}

impl<'a> Model for Input<'a> {
    ghost use Rattle.std.specs.Prelude.{◌+◌, ◌≤◌, ◌^◌, length};
    ghost use Rattle.text.specs.Lines.{lines, loose};
    ghost use Rattle.sheet.specs.Sheets.{Rest};

    ghost Value = { Rest };

    ghost view = { λ i. record {
      lines = lines i.ahead.now;
      loose = loose i.ahead.now;
      line = i.first;
    } };

    ghost invariant = { λ i. i.first + length i.ahead.now ≤ 2 ^ 63 };
}

impl<'a> Input<'a> {
    /// The whole of an input.
    pub fn new(bytes: &'a [u8]) -> Input<'a>
        ensures lines { result.lines ≡ lines bytes.now }
        ensures loose { result.loose ≡ loose bytes.now }
        ensures line { result.line ≡ 1 }
    {
        Input {
            ahead: bytes,
            first: 1,
        }
    }

    /// The number of its first line.
    pub fn line(&self) -> usize
        ensures is { result ≡ self.now.line }
        ensures within { result ≤ 2 ^ 63 }
    {
        self.first
    }

    /// Whether nothing is left, not even a line that is not ended.
    #[tactic(auto, using(crate::proofs::Ends::nothing_left))]
    pub fn is_empty(&self) -> bool
        ensures { result ≡ ((length self.now.lines == 0) && (length self.now.loose == 0)) }
    {
        self.ahead.is_empty()
    }

    /// The first line, and what is left after it.
    pub(crate) fn next(&self) -> Option<(&'a [u8], Input<'a>)>
        ensures { MatchOption result (self.now.lines ≡ []) (λ r. Follows self.now r.0.now r.1) }
    {
        let (line, ahead) = next_line(self.ahead)?;
        Some((
            line,
            Input {
                ahead,
                first: self.line() + 1,
            },
        ))
    }

    /// Puts the ends of the cells of the first line into the room, from its front on, and answers
    /// how many there are; none where there are more than there is room for, and the room is full
    /// then.
    pub(crate) fn cell_ends(&self, line: &[u8], room: &mut [usize]) -> Option<usize>
        requires { take 1 self.now.lines ≡ line.now ∷ [] }
        ensures count { let count = length (cells line.now) in
            SomeIff result (count ≤ length room.old) count }
        ensures room { TakesEnds line.now room.old room.new }
    {
        cell_ends(self.ahead, line.len(), room)
    }
}
