//! The text of a statement.
ghost use Rattle.std.specs.Prelude.{◌≡◌, ◌+◌, ◌*◌, ◌^◌, ◌<◌, ◌≤◌, length, IfOk, IfSome, SomeIff};
ghost use Rattle.quantities.specs.RangeChecks.{numbers_of};
ghost use Rattle.statement.specs.Statements.{statement_text, memory_with_bytes, length_answer, memory_with_text};

use crate::cell::put;
use crate::line::{end_len, put_end, put_row, put_total, row_len, total_len};
use account::margin::Margin;
use account::row::Row;
use quantities::refusal::Refusal;
use std::marker::Model;

const HEAD: &[u8] = b"STM;1\nISIN;BLOCK;SCEN;IM;VM\n";

// A statement, of which a clause sees the text.
#[derive(Drop)]
struct Statement<'a> {
    rows: &'a [Row],
    margin: Margin,
}

impl<'a> Model for Statement<'a> {
    ghost use Rattle.std.specs.Prelude.{ℕ, List};
    ghost use Rattle.statement.specs.Statements.{statement_text};

    ghost Value = { List ℕ };

    ghost view = { λ s. statement_text s.rows.now s.margin.cents s.margin.rounded_amounts };
}

impl<'a> Statement<'a> {
    // Puts the text at the front of the memory.
    fn write(&self, memory: &mut [u8])
        requires { length self.now ≤ length memory.old }
        ensures { memory.new ≡ memory_with_bytes 0 self.now memory.old }
    {
        let Statement { rows, margin } = self;
        let mut at = put(memory, 0, HEAD);
        for row in *rows {
            at = put_row(memory, at, row);
        }
        at = put_total(memory, at, *margin);
        put_end(memory, at, rows.len());
    }
}

// How long the text is, where a number of bytes can be that.
fn statement_len(rows: &[Row], margin: Margin) -> Option<usize>
    ensures size { let text = statement_text rows.now margin.cents margin.rounded_amounts in
        SomeIff result (length text < 2 ^ 64) (length text) }
    ensures bound { IfSome result (λ len. len ≤ 101 + 59 * length rows.now) }
{
    let mut len = HEAD.len() + total_len(margin) + end_len(rows.len());
    for row in rows {
        len = len.checked_add(row_len(row))?;
    }
    Some(len)
}

/// Writes the statement of a margin at the front of a buffer, and answers its length; refuses a
/// text that is longer than the buffer, which then keeps all that it held. A text has at most 101
/// bytes, and 59 for each row.
pub fn write_statement(rows: &[Row], margin: Margin, buffer: &mut [u8]) -> Result<usize, Refusal>
    ensures answer { let text = statement_text rows.now margin.cents margin.rounded_amounts in
        numbers_of (λ len. len) result ≡ length_answer text buffer.old }
    ensures buffer { let text = statement_text rows.now margin.cents margin.rounded_amounts in
        buffer.new ≡ memory_with_text text buffer.old }
    ensures bound { IfOk result (λ len. len ≤ 101 + 59 * length rows.now) }
{
    let statement = Statement { rows, margin };
    // the length is known before the first byte is written
    let len = statement_len(rows, margin).ok_or(Refusal::TooLong)?;
    if len > buffer.len() {
        return Err(Refusal::TooLong);
    }
    statement.write(buffer);
    Ok(len)
}
