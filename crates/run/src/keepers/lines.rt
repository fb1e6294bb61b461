//! A book keeps the lines of its account.
ghost use Rattle.run.specs.Kept.{DayLines, keep_line};
ghost use Rattle.std.specs.Prelude.{ℕ};
ghost use Rattle.market.specs.Contents.{Quotes};
ghost use Rattle.book.specs.Books.{lines_of, room_for, today_of};

use super::answer_with_reference;
use crate::keeper::Keeper;
use account::line::Line;
use account::line_refusal::LineRefusal;
use book::book::Book;

impl<'m, 'p, 'l> Keeper<Line> for Book<'m, 'p, 'l> {
    ghost Kept = { DayLines };

    ghost kept = { λ b. record { today = today_of b; room = room_for b; standing = lines_of b } };

    ghost keeping = { keep_line };

    ghost Frame = { Quotes × ℕ };

    ghost frame = { λ b. (b.market.now, room_for b) };

    fn keep(&mut self, row: Line) -> Result<(), LineRefusal> {
        answer_with_reference(row.reference, self.enter(row))
    }
}
