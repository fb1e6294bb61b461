//! What keeps the rows of the five sheets.
ghost use Rattle.std.specs.Prelude.{◌≡◌};
ghost use Rattle.run.specs.Refusals.{answer_with_reference};

use account::line_refusal::LineRefusal;
use quantities::refusal::Refusal;

pub mod day;
pub mod lines;
pub mod points;
pub mod quotes;

// An answer to a row, with the reference by which the row is reported: 0 where it has none.
fn answer_with_reference(reference: u32, answer: Result<(), Refusal>) -> Result<(), LineRefusal>
    ensures { result ≡ answer_with_reference reference answer }
{
    answer.map_err(|refusal| LineRefusal::of_line(reference, refusal))
}
