//! Lines that a book has taken, with what their margin is worked on.
ghost use Rattle.std.specs.Prelude.{◌≡◌, ◌≤◌, IsTrue, length};
ghost use Rattle.account.specs.Answers.{titles_of};
ghost use Rattle.account.specs.ByIsin.{lines_by_isin};
ghost use Rattle.account.specs.Calls.{line_rank};
ghost use Rattle.account.specs.declared.block_name.BlockName.{BlockName};
ghost use Rattle.account.specs.Valid.{all_valid};
ghost use Rattle.quantities.specs.Ranges.{most_titles};
ghost use Rattle.quantities.specs.declared.isin.Isin.{Isin};
ghost use Rattle.register.specs.Keys.{Ascends};

use crate::ready_lines::ReadyLines;
use crate::setup::Setup;
use crate::stated_margin::StatedMargin;
use account::by_isin::ByIsin;
use account::line::Line;
use account::line_refusal::LineRefusal;
use account::margin::Margin;
use account::row::Row;
use curve::Curve;
use netting::NettingRule;

/// Lines by reference and again by ISIN, each with its form and its days, and what they are
/// margined on.
#[derive(Drop)]
pub struct Portfolio<'a, 'p, C, N> {
    pub setup: Setup<'a, 'p, C, N>,
    pub lines: &'a [Line],
    pub by_isin: ByIsin<'a>,
    ghost few: { length lines.now ≤ 65535 },
    ghost taken: { IsTrue (all_valid setup.market.now.today lines.now) },
    ghost titles: { (i : Isin) (k : BlockName) → titles_of i k lines.now ≤ most_titles },
    ghost ascends: { Ascends line_rank lines.now },
    ghost ordered: { by_isin ≡ lines_by_isin lines.now },
}

// A setting is written out by curve and rule: it holds functions, which no model's value can.
impl<'a, 'p, C: Curve, N: NettingRule> Portfolio<'a, 'p, C, N> {
    ghost use Rattle.account.specs.Answers.{margin_answer};
    ghost use Rattle.account.specs.Calls.{answer_of_margin};
    ghost use Rattle.valuation.specs.Setups.{setting_of};
    ghost use Rattle.valuation.specs.Statements.{States};

    /// The margin with the count of its statement's rows, which are written as far as there are
    /// places; or the refusal of the first line without price, percentage or rate, and then nothing
    /// is written.
    pub fn statement(&self, rows: &mut [Row]) -> Result<StatedMargin, LineRefusal>
        ensures { let setup = self.now.setup in
            States (setting_of C.Curve.reach C.Curve.rate N.NettingRule.charged setup)
            self.now.lines.now rows.old rows.new result }
    {
        let ready = ReadyLines::check(&self.setup, self.lines, &self.by_isin)?;
        Ok(ready.statement(rows))
    }

    /// The margin, without its statement.
    pub fn margin(&self) -> Result<Margin, LineRefusal>
        ensures { let setup = self.now.setup in
            answer_of_margin result
            ≡ margin_answer (setting_of C.Curve.reach C.Curve.rate N.NettingRule.charged setup)
            self.now.lines.now }
    {
        self.statement(&mut []).map(|statement| statement.margin)
    }
}
