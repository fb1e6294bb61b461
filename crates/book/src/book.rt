//! The book.
ghost use Rattle.std.specs.Prelude.{◌≡◌, ◌≤◌, min, [], length, IsTrue};
ghost use Rattle.account.specs.Answers.{titles_of, margin_answer};
ghost use Rattle.account.specs.Calls.{line_rank, answer_of_margin};
ghost use Rattle.account.specs.declared.block_name.BlockName.{BlockName};
ghost use Rattle.account.specs.Valid.{all_valid};
ghost use Rattle.quantities.specs.Ranges.{most_titles};
ghost use Rattle.quantities.specs.declared.isin.Isin.{Isin};
ghost use Rattle.register.specs.Contents.{loan_of};
ghost use Rattle.register.specs.Keys.{Ascends};
ghost use Rattle.valuation.specs.Statements.{States};

use crate::check::{check_date, check_isin, check_parts, check_titles};
use crate::standing::{Places, StandingLines};
use account::call::{Answer, Call};
use account::line::Line;
use account::line_refusal::LineRefusal;
use account::margin::Margin;
use account::reply::Reply;
use account::row::Row;
use account::slot::Slot;
use curve::Curve;
use market::market::Market;
use netting::NettingRule;
use quantities::refusal::Refusal;
use register::order::Place;
use valuation::portfolio::Portfolio;
use valuation::setup::Setup;
use valuation::stated_margin::StatedMargin;

/// The lines that stand, over a market.
#[derive(Drop)]
pub struct Book<'m, 'p, 'l> {
    market: &'m Market<'p>,
    lines: StandingLines<'l>,
    ghost ascends: { Ascends line_rank lines.records },
    ghost valid: { IsTrue (all_valid market.now.today lines.records) },
    ghost titles: { (i : Isin) (k : BlockName) → titles_of i k lines.records ≤ most_titles },
}

impl<'m, 'p, 'l> Book<'m, 'p, 'l> {
    ghost use Rattle.book.specs.Books.{lines_of, room_for, market_of, today_of, memory_of, setting_for};
    ghost use Rattle.book.specs.Books.{EntersLine, WithdrawsLine, AnswersCall, AnswersEachCall};
    ghost use Rattle.book.specs.Books.{GivesMemoryBack};
    ghost use Rattle.book.specs.LineChecks.{AdmitsLine};

    /// A book in which no line stands, over a market and memory for lines and for their places by
    /// ISIN.
    /// It has room for as many lines as the smaller of the two memories, and for 65,535 at most.
    pub fn new(market: &'m Market<'p>, places: &'l mut [Line], by_isin: &'l mut [Place]) -> Self
        ensures empty { lines_of result ≡ [] }
        ensures room { room_for result ≡ min (min (length places.old) (length by_isin.old)) 65535 }
        ensures market { market_of result ≡ market.now }
        ensures memory { memory_of result ≡ (loan_of places.entry, loan_of by_isin.entry) }
    {
        let lines = StandingLines::new(places, by_isin);
        Book { market, lines }
    }

    /// The lines that stand, by reference.
    pub fn lines(&self) -> &[Line]
        ensures all { result.now ≡ lines_of self.now }
        ensures ascends { Ascends line_rank (lines_of self.now) }
        ensures within { length (lines_of self.now) ≤ room_for self.now }
        ensures few { room_for self.now ≤ 65535 }
    {
        self.lines.records()
    }

    // The checks of a line, in their order, and the places that it would have.
    fn admit(&self, line: &Line) -> Result<Places, Refusal>
        ensures { AdmitsLine (today_of self.now) (lines_of self.now) line.now result }
    {
        check_parts(line)?;
        let standing = self.lines.by_isin();
        let by_isin = standing.rank_of(line);
        check_isin(line, standing.has_beside(line.isin, by_isin))?;
        let Err(by_reference) = self.lines.place_of(line.reference) else {
            return Err(Refusal::KeyPresent);
        };
        check_date(self.market.today(), line.block)?;
        let same_isin = standing.lines_of(line.isin, by_isin);
        check_titles(&same_isin, line)?;
        Ok(Places {
            by_reference,
            by_isin,
        })
    }

    /// Enters a line.
    /// It is refused 4 for its form, 6 for its reference, 7 for its date, 8 for its titles, and 9
    /// for want of a place.
    pub fn enter(&mut self, line: Line) -> Result<(), Refusal>
        ensures { EntersLine line self.old result self.new }
    {
        let places = self.admit(&line)?;
        self.lines.insert(line, places)
    }

    /// Takes out the line of a reference, and answers it.
    /// Reference 0 is refused 4, and one under which no line stands 13.
    pub fn withdraw(&mut self, reference: u32) -> Result<Line, Refusal>
        ensures { WithdrawsLine reference self.old result self.new }
    {
        if reference == 0 {
            return Err(Refusal::Value);
        }
        self.lines.remove(reference)
    }

    // The lines that stand, with what their margin is worked on.
    fn portfolio<'s, C, N>(&'s self, curve: &'s C, rule: &'s N) -> Portfolio<'s, 'p, C, N>
        ensures market { result.setup.market.now ≡ market_of self.now }
        ensures curve { result.setup.curve.now ≡ curve.now }
        ensures rule { result.setup.rule.now ≡ rule.now }
        ensures lines { result.lines.now ≡ lines_of self.now }
    {
        let setup = Setup {
            market: &*self.market,
            curve,
            rule,
        };
        Portfolio {
            setup,
            lines: self.lines.records(),
            by_isin: self.lines.by_isin(),
        }
    }

    // By a curve and a rule, and no setup: the market is the book's own.
    /// The margin of the lines that stand, by a curve and a netting rule.
    pub fn margin<'s, C: Curve, N: NettingRule>(
        &'s self,
        curve: &'s C,
        rule: &'s N,
    ) -> Result<Margin, LineRefusal>
        ensures { let setting = setting_for C.reach C.rate N.charged curve.now rule.now self.now in
            answer_of_margin result ≡ margin_answer setting (lines_of self.now) }
    {
        self.portfolio(curve, rule).margin()
    }

    /// The margin with the rows of its statement, by ISIN, then trades, failed, held and cash-only.
    /// The rows are written as far as there are places.
    pub fn statement<'s, C: Curve, N: NettingRule>(
        &'s self,
        curve: &'s C,
        rule: &'s N,
        rows: &mut [Row],
    ) -> Result<StatedMargin, LineRefusal>
        ensures { let setting = setting_for C.reach C.rate N.charged curve.now rule.now self.now in
            States setting (lines_of self.now) rows.old rows.new result }
    {
        self.portfolio(curve, rule).statement(rows)
    }

    /// Does what a call asks.
    pub fn take<C: Curve, N: NettingRule>(&mut self, curve: &C, rule: &N, call: Call) -> Answer
        ensures { let setting = setting_for C.reach C.rate N.charged curve.now rule.now self.old in
            AnswersCall setting call self.old result self.new }
    {
        match call {
            Call::Enter(line) => self
                .enter(line)
                .map(|()| Reply::Accepted)
                .map_err(|refusal| LineRefusal::of_line(line.reference, refusal)),
            Call::Withdraw(reference) => self
                .withdraw(reference)
                .map(|_line| Reply::Accepted)
                .map_err(|refusal| LineRefusal::of_line(reference, refusal)),
            Call::AskMargin => self.margin(curve, rule).map(Reply::Given),
        }
    }

    // Does what the calls of slots ask, one after another, and writes their answers.
    pub(crate) fn take_all<C: Curve, N: NettingRule>(
        &mut self,
        curve: &C,
        rule: &N,
        slots: &mut [Slot],
    )
        ensures { let setting = setting_for C.reach C.rate N.charged curve.now rule.now self.old in
            AnswersEachCall setting slots.old self.old slots.new self.new }
    {
        for slot in slots.iter_mut() {
            slot.answer = Some(self.take(curve, rule, slot.call));
        }
    }

    /// The memory that was lent, with the lines that stand at its front, and their places by ISIN.
    pub fn into_memory(self) -> (&'l mut [Line], &'l mut [Place])
        ensures { GivesMemoryBack self.entry result.0 result.1 }
    {
        self.lines.into_memory()
    }
}
