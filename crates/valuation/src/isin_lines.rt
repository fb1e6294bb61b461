//! The lines of one ISIN.
ghost use Rattle.std.specs.Prelude.{◌≡◌, ◌≤◌, IsTrue, length};
ghost use Rattle.std.specs.List.{list_all};
ghost use Rattle.account.specs.Answers.{titles_of};
ghost use Rattle.account.specs.Lines.{same_isin};
ghost use Rattle.account.specs.declared.block_name.BlockName.{BlockName};
ghost use Rattle.account.specs.Valid.{all_valid};
ghost use Rattle.quantities.specs.Ranges.{most_titles};
ghost use Rattle.quantities.specs.declared.isin.Isin.{Isin};
ghost use Rattle.valuation.specs.Checks.{Faultless, Faultless-prop};

use crate::basis::Basis;
use crate::cash::cash_of;
use crate::isin_sums::IsinSums;
use crate::quote::Quote;
use crate::summed_lines::SummedLines;
use crate::tally::Tally;
use account::by_isin::ByIsin;
use account::scope::Scope;
use quantities::isin::Isin;

/// Lines of one ISIN that a book has taken and none of which has a fault, and what they are
/// margined on.
#[derive(Drop)]
pub(crate) struct IsinLines<'a, B: Basis> {
    pub basis: &'a B,
    pub isin: Isin,
    pub lines: ByIsin<'a>,
    ghost few: { length lines ≤ 65535 },
    ghost taken: { IsTrue (all_valid (B.setting basis.now).today lines) },
    ghost titles: { (i : Isin) (k : BlockName) → titles_of i k lines ≤ most_titles },
    ghost faultless: { Faultless (B.setting basis.now) lines } by { Faultless-prop
        (B.setting basis.now) lines },
    ghost same: { IsTrue (list_all (λ l. same_isin l.isin isin) lines) },
}

// Words of `specs/` and no model: a setting holds functions, which no model's value can.
impl<'a, B: Basis> IsinLines<'a, B> {
    ghost use Rattle.valuation.specs.IsinLines.{AreSummedBy, IsQuoteOf, line_count, all_rows};
    ghost use Rattle.valuation.specs.Spaces.{RowsWithin, HasSpaceFor};
    ghost use Rattle.valuation.specs.Tallies.{AddsRows};

    // The sums of the lines, for each row.
    fn sums(&self) -> IsinSums
        ensures { AreSummedBy self.now result }
    {
        let mut sums = IsinSums::none();
        for line in self.lines.iter() {
            // The present value of a trade is worked once, for all three scenarios.
            let cash = cash_of(self.basis, *line);
            sums.add(self.basis, *line, cash);
        }
        sums
    }

    // The quote of the ISIN, unless all lines are for cash only.
    fn quote(&self, guess: &mut usize, sums: &IsinSums) -> Option<Quote>
        requires { AreSummedBy self.now sums.now }
        ensures { IsQuoteOf self.now result }
    {
        let cash_only = sums.scope_sums(Scope::CashOnlyLines).lines as usize;
        if cash_only < self.lines.len() {
            self.basis.quote_of(guess, self.isin).ok()
        } else {
            None
        }
    }

    // The lines summed up, with their quote.
    fn summed(&self, guess: &mut usize) -> SummedLines<'_, 'a, B>
        ensures { result.lines.now ≡ self.now }
    {
        let sums = self.sums();
        SummedLines {
            lines: self,
            quote: self.quote(guess, &sums),
            sums,
        }
    }

    /// Adds the rows of the lines: trades, failed, held, cash-only.
    pub(crate) fn add_to(&self, guess: &mut usize, tally: &mut Tally<'_>)
        requires { HasSpaceFor (line_count self.now) tally.old }
        ensures tallied { AddsRows (all_rows self.now) tally.old tally.new }
        ensures within { RowsWithin (line_count self.now) (all_rows self.now) }
    {
        self.summed(guess).add_to(tally);
    }
}
