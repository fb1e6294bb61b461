//! The checks of a line that is to be entered.
ghost use Rattle.std.specs.Prelude.{◌≡◌, ◌+◌, ◌≤◌, if◌then◌else◌, nat_le, IsTrue};
ghost use Rattle.quantities.specs.Ranges.{most_titles};
ghost use Rattle.account.specs.Lines.{block_name, is_same_block};
ghost use Rattle.account.specs.Answers.{has_titles, is_well_dated};
ghost use Rattle.quantities.specs.Isins.{is_isin};
ghost use Rattle.book.specs.LineChecks.{RefusesUnless, block_titles, parts_fit};

use account::block::Block;
use account::block_name::BlockName;
use account::by_isin::ByIsin;
use account::line::Line;
use quantities::date::{Date, past_date, settlement_date};
use quantities::range::{Cash, Titles};
use quantities::refusal::Refusal;

fn titles_fit(block: Block, titles: u32) -> bool
    ensures { result ≡ has_titles (block_name block) titles }
{
    match block {
        Block::Trade(_) | Block::Failed(_) | Block::Held(_) => matches!(titles, 1..=Titles::MOST),
        Block::CashOnly(_) => titles == 0,
    }
}

/// Refuses a line of which a part is outside its form or range, its ISIN left out.
pub(crate) fn check_parts(line: &Line) -> Result<(), Refusal>
    ensures { RefusesUnless (parts_fit line.now) Refusal.Value result }
{
    let fits = matches!(line.reference, 1..=u32::MAX)
        && titles_fit(line.block, line.titles)
        && line.cash <= Cash::MOST;
    if fits { Ok(()) } else { Err(Refusal::Value) }
}

/// Refuses a line whose ISIN is none.
/// An ISIN that stands already is known to be one, and is not checked again.
pub(crate) fn check_isin(line: &Line, is_known: bool) -> Result<(), Refusal>
    requires { IsTrue is_known → IsTrue (is_isin line.now.isin.bytes) }
    ensures { RefusesUnless (is_isin line.now.isin.bytes) Refusal.Value result }
{
    if is_known || line.isin.is_valid() {
        Ok(())
    } else {
        Err(Refusal::Value)
    }
}

/// Refuses a date outside the days of its block.
pub(crate) fn check_date(today: Date, block: Block) -> Result<(), Refusal>
    ensures { RefusesUnless (is_well_dated today block) Refusal.Date result }
{
    match block {
        Block::Trade(date) => settlement_date(today, date)?,
        Block::Failed(date) | Block::Held(date) | Block::CashOnly(date) => past_date(today, date)?,
    };
    Ok(())
}

// The titles of a line, where it is of a block.
fn titles_in(line: &Line, block: BlockName) -> u32
    ensures { result
        ≡ if is_same_block (block_name line.now.block) block then line.now.titles else 0 }
{
    if BlockName::from(line.block) == block {
        line.titles
    } else {
        0
    }
}

// The titles of a block among lines.
fn block_titles(lines: &ByIsin<'_>, block: BlockName) -> u32
    requires { block_titles block lines.now ≤ most_titles }
    ensures { result ≡ block_titles block lines.now }
{
    let mut titles = 0;
    for line in lines.iter() {
        titles += titles_in(line, block);
    }
    titles
}

/// Refuses a line with which the titles of its block would pass their limit, among the lines of
/// its ISIN.
pub(crate) fn check_titles(lines: &ByIsin<'_>, line: &Line) -> Result<(), Refusal>
    requires standing { block_titles (block_name line.now.block) lines.now ≤ most_titles }
    requires own { line.now.titles ≤ most_titles }
    ensures { let titles = block_titles (block_name line.now.block) lines.now + line.now.titles in
        RefusesUnless (nat_le titles most_titles) Refusal.TitlesLimit result }
{
    let standing = block_titles(lines, BlockName::from(line.block));
    if standing + line.titles <= Titles::MOST {
        Ok(())
    } else {
        Err(Refusal::TitlesLimit)
    }
}
