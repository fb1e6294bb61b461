//! Lines that can be worked.
ghost use Rattle.std.specs.Prelude.{◌≡◌, ◌≤◌, ◌++◌, IsTrue, length, OnOk, IfOk, IfErr};
ghost use Rattle.std.specs.List.{list_all};
ghost use Rattle.account.specs.Answers.{titles_of};
ghost use Rattle.account.specs.ByIsin.{OtherFirst};
ghost use Rattle.account.specs.Lines.{same_isin};
ghost use Rattle.account.specs.declared.block_name.BlockName.{BlockName};
ghost use Rattle.account.specs.Valid.{all_valid};
ghost use Rattle.quantities.specs.Ranges.{most_titles};
ghost use Rattle.quantities.specs.declared.isin.Isin.{Isin};
ghost use Rattle.valuation.specs.Checks.{Faultless, Faultless-prop};
ghost use Rattle.valuation.specs.IsinOrder.{Rises, Rises-prop};

use crate::basis::Basis;
use crate::check::check_lines;
use crate::isin_lines::IsinLines;
use crate::stated_margin::{StatedMargin, total, trades_in};
use crate::tally::Tally;
use account::by_isin::ByIsin;
use account::line::Line;
use account::line_refusal::LineRefusal;
use account::row::Row;
use quantities::isin::Isin;

/// Lines by ISIN that a book has taken and none of which has a fault, and what they are
/// margined on.
#[derive(Drop)]
pub(crate) struct ReadyLines<'a, B: Basis> {
    pub basis: &'a B,
    pub lines: &'a ByIsin<'a>,
    ghost few: { length lines.now ≤ 65535 },
    ghost taken: { IsTrue (all_valid (B.setting basis.now).today lines.now) },
    ghost titles: { (i : Isin) (k : BlockName) → titles_of i k lines.now ≤ most_titles },
    ghost faultless: { Faultless (B.setting basis.now) lines.now } by { Faultless-prop
        (B.setting basis.now) lines.now },
    ghost rising: { Rises 0 lines.now } by { Rises-prop 0 lines.now },
}

impl<'a, B: Basis> ReadyLines<'a, B> {
    ghost use Rattle.account.specs.ByIsin.{lines_by_isin};
    ghost use Rattle.account.specs.Calls.{line_rank};
    ghost use Rattle.account.specs.Rows.{statement_rows};
    ghost use Rattle.register.specs.Keys.{Ascends};
    ghost use Rattle.valuation.specs.Checks.{IsFirstFault};
    ghost use Rattle.valuation.specs.Spaces.{TallyWithin, HasSpaceFor};
    ghost use Rattle.valuation.specs.Statements.{StatesMargin};
    ghost use Rattle.valuation.specs.Tallies.{AddsRows};

    /// Lines that a book has taken, by reference and by ISIN; refuses the first fault of them by
    /// reference.
    pub(crate) fn check(
        basis: &'a B,
        lines: &[Line],
        by_isin: &'a ByIsin<'a>,
    ) -> Result<Self, LineRefusal>
        requires few { length lines.now ≤ 65535 }
        requires taken { IsTrue (all_valid (B.setting basis.now).today lines.now) }
        requires titles { (i : Isin) (k : BlockName) → titles_of i k lines.now ≤ most_titles }
        requires ascends { Ascends line_rank lines.now }
        requires ordered { by_isin.now ≡ lines_by_isin lines.now }
        ensures basis { IfOk result (λ ready. ready.basis.now ≡ basis.now) }
        ensures lines { IfOk result (λ ready. ready.lines.now ≡ by_isin.now) }
        ensures faultless { OnOk result (Faultless (B.setting basis.now) lines.now) }
        ensures refused { IfErr result (IsFirstFault (B.setting basis.now) lines.now) }
    {
        check_lines(basis, lines, by_isin)?;
        Ok(ReadyLines {
            basis,
            lines: by_isin,
        })
    }

    /// Adds the rows of every ISIN that has a line, in byte order.
    pub(crate) fn add_rows(&self, tally: &mut Tally<'_>)
        requires { HasSpaceFor (length self.now.lines.now) tally.old }
        ensures tallied { let s = B.setting self.now.basis.now in
            AddsRows (statement_rows s self.now.lines.now) tally.old tally.new }
        ensures within { TallyWithin 65535 tally.new }
    {
        let mut next_price = 0;
        let mut rest = self.lines.iter();
        while let Some(first) = rest.first() {
            let isin = first.isin;
            let (lines, later) = split_isin(&rest, isin);
            let run = IsinLines {
                basis: self.basis,
                isin,
                lines,
            };
            run.add_to(&mut next_price, tally);
            rest = later;
        }
    }

    /// The margin of the lines; the rows of its statement are written as far as there are places.
    pub(crate) fn statement(&self, rows: &mut [Row]) -> StatedMargin
        ensures { StatesMargin (B.setting self.now.basis.now) self.now.lines.now
            rows.old rows.new result }
    {
        let mut tally = Tally::new(rows);
        self.add_rows(&mut tally);
        StatedMargin {
            margin: total(&tally, trades_in(self.lines)),
            rows: tally.count,
        }
    }
}

// The lines before the first one that is not of an ISIN, and the others.
fn split_isin<'a>(lines: &ByIsin<'a>, isin: Isin) -> (ByIsin<'a>, ByIsin<'a>)
    ensures both { lines.now ≡ result.0 ++ result.1 }
    ensures run { IsTrue (list_all (λ l. same_isin l.isin isin) result.0) }
    ensures rest { OtherFirst isin result.1 }
{
    let end = lines.leading(isin);
    (lines.before(end), lines.from(end))
}
