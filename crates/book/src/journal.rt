//! A journal: a list of calls, worked through on a book of its own.
ghost use Rattle.account.specs.Calls.{answer_of_margin};
ghost use Rattle.account.specs.History.{JointKept, SameKept};
ghost use Rattle.book.specs.Journals.{events_of, WorksThroughJournal};
ghost use Rattle.valuation.specs.Setups.{setting_of};

use crate::book::Book;
use account::line::Line;
use account::line_refusal::LineRefusal;
use account::margin::Margin;
use account::slot::Slot;
use curve::Curve;
use netting::NettingRule;
use register::order::Place;
use std::mem;
use valuation::setup::Setup;

/// A list of calls, each with the place of its answer, and memory for the lines of its book.
#[derive(Drop)]
pub struct Journal<'a> {
    pub slots: &'a mut [Slot],
    pub places: &'a mut [Line],
    pub by_isin: &'a mut [Place],
}

// A setting holds functions, so no model of a setup can be one: clauses write it by what its curve
// and its rule mean.
impl<'a> Journal<'a> {
    // Takes the calls on a book without lines, writes their answers, and asks the margin.
    fn worked<C: Curve, N: NettingRule>(
        self,
        setup: &Setup<'_, '_, C, N>,
    ) -> (Result<Margin, LineRefusal>, Journal<'a>)
        ensures { let setting = setting_of C.reach C.rate N.charged setup.now in
            WorksThroughJournal setting self.entry result.1 (answer_of_margin result.0) }
    {
        let Journal {
            slots,
            places,
            by_isin,
        } = self;
        let mut book = Book::new(setup.market, places, by_isin);
        book.take_all(setup.curve, setup.rule, slots);
        let margin = book.margin(setup.curve, setup.rule);
        let (places, by_isin) = book.into_memory();
        (
            margin,
            Journal {
                slots,
                places,
                by_isin,
            },
        )
    }

    // The same, of a journal that is lent.
    fn work_through<C: Curve, N: NettingRule>(
        &mut self,
        setup: &Setup<'_, '_, C, N>,
    ) -> Result<Margin, LineRefusal>
        ensures { let setting = setting_of C.reach C.rate N.charged setup.now in
            WorksThroughJournal setting self.old self.new (answer_of_margin result) }
    {
        let empty = Journal {
            slots: &mut [],
            places: &mut [],
            by_isin: &mut [],
        };
        let (margin, worked) = mem::replace(self, empty).worked(setup);
        *self = worked;
        margin
    }
}

/// Works a journal through on a book without lines, writes the answer to each call, and then gives
/// the margin. Afterwards the lines that stand are at the front of the memory for them.
pub fn work_calls<C: Curve, N: NettingRule>(
    setup: &Setup<'_, '_, C, N>,
    journal: &mut Journal<'_>,
) -> Result<Margin, LineRefusal>
    ensures { let setting = setting_of C.reach C.rate N.charged setup.now in
        WorksThroughJournal setting journal.old journal.new (answer_of_margin result) }
{
    journal.work_through(setup)
}

/// The margins of three books, or why a book has none.
#[derive(Drop)]
pub struct ThreeMargins {
    pub first: Result<Margin, LineRefusal>,
    pub second: Result<Margin, LineRefusal>,
    pub third: Result<Margin, LineRefusal>,
}

/// Works three journals through, each on a book of its own, on one market, curve and netting rule.
/// Where the third book is the joint book of the first two, and their margins are given, its margin
/// is given too, and is at most theirs added. Where the first two have the same lines, whatever
/// their references and order, their margins are the same.
pub fn work_three_books<C: Curve, N: NettingRule>(
    setup: &Setup<'_, '_, C, N>,
    first: &mut Journal<'_>,
    second: &mut Journal<'_>,
    third: &mut Journal<'_>,
) -> ThreeMargins
    ensures first { let setting = setting_of C.reach C.rate N.charged setup.now in
        WorksThroughJournal setting first.old first.new (answer_of_margin result.first) }
    ensures second { let setting = setting_of C.reach C.rate N.charged setup.now in
        WorksThroughJournal setting second.old second.new (answer_of_margin result.second) }
    ensures third { let setting = setting_of C.reach C.rate N.charged setup.now in
        WorksThroughJournal setting third.old third.new (answer_of_margin result.third) }
    ensures joint { JointKept (events_of first.new) (events_of second.new) (events_of third.new)
        (answer_of_margin result.first) (answer_of_margin result.second)
        (answer_of_margin result.third) }
    ensures same { SameKept (events_of first.new) (events_of second.new)
        (answer_of_margin result.first) (answer_of_margin result.second) }
{
    ThreeMargins {
        first: first.work_through(setup),
        second: second.work_through(setup),
        third: third.work_through(setup),
    }
}
