//! The parts of each line of a sheet, and how many lines there are or which is refused.
ghost use Rattle.std.specs.Prelude.{◌≡◌, OnOk};
ghost use Rattle.std.specs.Io.KnownBytes.{Appends};
ghost use Rattle.positions.specs.declared.listing.Stop.TheVariants.{Refused, Unwritten};
ghost use Rattle.positions.specs.Listings.{side_name, block_name, block_date, line_text, count_text, end_text, rest_text, listing, ListsUpTo};

use account::block::Block;
use account::line::Line;
use account::side::Side;
use quantities::date::Date;
use rows::position::PositionRows;
use sheet::input::Input;
use sheet::reading::Reading;
use sheet::refusal::SheetRefusal;
use std::io;
use std::io::Write;

// What ends the listing before the trailer.
pub(crate) enum Stop {
    Refused(SheetRefusal),
    Unwritten(io::Error),
}

impl From<SheetRefusal> for Stop {
    ghost from_gives = { λ refusal stop. stop ≡ Refused refusal };

    fn from(refusal: SheetRefusal) -> Stop {
        Stop::Refused(refusal)
    }
}

impl From<io::Error> for Stop {
    ghost from_gives = { λ error stop. stop ≡ Unwritten error };

    fn from(error: io::Error) -> Stop {
        Stop::Unwritten(error)
    }
}

fn side_name(side: Side) -> &'static str
    ensures { result.now ≡ side_name side }
{
    match side {
        Side::Bought => "bought",
        Side::Sold => "sold",
    }
}

fn block_parts(block: Block) -> (&'static str, Date)
    ensures name { result.0.now ≡ block_name block }
    ensures date { result.1 ≡ block_date block }
{
    match block {
        Block::Trade(date) => ("trade", date),
        Block::Failed(date) => ("failed", date),
        Block::Held(date) => ("held", date),
        Block::CashOnly(date) => ("cash-only", date),
    }
}

fn list_line<W: Write>(out: &mut W, line: &Line) -> io::Result<()>
    ensures { OnOk result (Appends (W.contents out.old) (W.contents out.new) (line_text line.now)) }
{
    let Line {
        reference,
        isin,
        side,
        titles,
        cash,
        block,
    } = *line;
    let side = side_name(side);
    let (block, date) = block_parts(block);
    write!(out, "reference {reference}, ISIN ")?;
    out.write_all(&isin.bytes)?;
    writeln!(
        out,
        ", side {side}, block {block}, titles {titles}, cash {cash}, date {date}"
    )
}

fn list_rows<W: Write>(out: &mut W, reading: &mut Reading<'_, PositionRows>) -> Result<(), Stop>
    ensures { ListsUpTo (W.contents out.old) (W.contents out.new)
        (rest_text reading.old.left.lines reading.old) (λ _. end_text reading.new) result }
{
    while let Some(line) = reading.row()? {
        list_line(out, &line)?;
    }
    Ok(())
}

// Lists each line of the sheet, and answers how many there are.
fn list_all<W: Write>(out: &mut W, sheet: &[u8]) -> Result<usize, Stop>
    ensures { ListsUpTo (W.contents out.old) (W.contents out.new) (listing sheet.now)
        count_text result }
{
    let mut reading = Input::new(sheet).open::<PositionRows>()?;
    match list_rows(out, &mut reading) {
        Ok(()) => {
            let rows = reading.rows();
            reading.close()?;
            Ok(rows)
        }
        Err(stop) => {
            reading.give_up();
            Err(stop)
        }
    }
}

/// Lists a sheet.
pub(crate) fn list_sheet<W: Write>(out: &mut W, sheet: &[u8]) -> io::Result<()>
    ensures { OnOk result (Appends (W.contents out.old) (W.contents out.new) (listing sheet.now)) }
{
    match list_all(out, sheet) {
        Ok(rows) => writeln!(out, "{rows} rows"),
        Err(Stop::Refused(refused)) => {
            let SheetRefusal {
                refusal,
                line,
                cell,
            } = refused;
            let number = refusal.number();
            writeln!(out, "REFUSED;{number};{line};{cell}")
        }
        Err(Stop::Unwritten(error)) => Err(error),
    }
}
