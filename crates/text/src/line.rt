//! The lines of a text.
ghost use Rattle.std.specs.Prelude.{◌≡◌, [], MatchOption};
ghost use Rattle.text.specs.Lines.{lines, BeginsWithLine};

use crate::part::next_part;

const LINE_FEED: u8 = b'\n';

/// The first line and what follows its line feed, or none where no line feed is left.
#[tactic(auto, using(crate::proofs::Parts::line_more))]
pub fn next_line(text: &[u8]) -> Option<(&[u8], &[u8])>
    ensures { MatchOption result (lines text.now ≡ [])
        (λ r. BeginsWithLine text.now r.0.now r.1.now) }
{
    let (line, rest) = next_part(text, LINE_FEED);
    Some((line, rest?))
}
