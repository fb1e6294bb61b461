//! A book at its edges.
use crate::book::Book;
use crate::journal::{Journal, work_calls};
use account::block::Block;
use account::block_name::BlockName;
use account::call::Call;
use account::line::Line;
use account::line_refusal::LineRefusal;
use account::margin::Margin;
use account::reply::Reply;
use account::row::Row;
use account::scope::Scope;
use account::side::Side;
use account::slot::Slot;
use curve::point::Point;
use curve::point::points::Points;
use curve::step::StepCurve;
use market::day::Day;
use market::market::Market;
use market::percentage::Percentage;
use market::price::Price;
use netting::Net;
use quantities::isin::Isin;
use quantities::refusal::Refusal;
use std::test::Fail;
use valuation::setup::Setup;

const BOND: Isin = Isin {
    bytes: *b"ES0000001018",
};

const SHORT_BOND: Isin = Isin {
    bytes: *b"ES0000002024",
};

// What a place for a row may hold before.
const BLANK: Row = Row {
    isin: BOND,
    scope: Scope::HeldLines,
    initial_margin: 7,
    variation_margin: 7,
};

fn bought(reference: u32, titles: u32, cash: u64, block: Block) -> Line {
    Line {
        reference,
        isin: BOND,
        side: Side::Bought,
        titles,
        cash,
        block,
    }
}

fn sold(reference: u32, titles: u32, cash: u64, block: Block) -> Line {
    Line {
        side: Side::Sold,
        ..bought(reference, titles, cash, block)
    }
}

// The number of a refusal, and 0 of what is accepted.
fn number_of<T: Drop>(answer: Result<T, Refusal>) -> u8 {
    match answer {
        Ok(_) => 0,
        Err(refusal) => refusal.number(),
    }
}

// The margin and its count, or the number and the reference of a refusal.
fn outcome(answer: Result<Margin, LineRefusal>) -> (u64, u32) {
    match answer {
        Ok(margin) => (margin.cents, margin.rounded_amounts),
        Err(refused) => (u64::from(refused.refusal.number()), refused.reference),
    }
}

fn today() -> Result<Day, Fail> {
    match Day::new(9_000, 9_001) {
        Ok(day) => Ok(day),
        Err(_) => Err(Fail::new("the day is refused")),
    }
}

#[test]
fn lines_are_refused_in_order(rt: HostRuntime) -> Result<(), Fail> {
    let mut prices = [Price::default(); 1];
    let mut percentages = [Percentage::default(); 6];
    let market = Market::new(today()?, &mut prices, &mut percentages);
    let mut places = [Line::default(); 3];
    let mut by_isin = [0; 2];
    let mut book = Book::new(&market, &mut places, &mut by_isin);
    let trade = Block::Trade(9_000);
    assert_eq!(rt; number_of(book.enter(bought(0, 1, 1, trade))), 4);
    assert_eq!(rt; number_of(book.enter(bought(1, 1_999_999, 1, trade))), 0);
    assert_eq!(rt; number_of(book.enter(sold(1, 2, 1, Block::Held(9_001)))), 6);
    assert_eq!(rt; number_of(book.enter(sold(2, 2, 1, Block::Held(9_001)))), 7);
    assert_eq!(rt;
        number_of(book.enter(sold(2, 2, 1, Block::Trade(9_365)))),
        8
    );
    assert_eq!(rt;
        number_of(book.enter(sold(2, 1, 1, Block::Trade(9_365)))),
        0
    );
    assert_eq!(rt; number_of(book.enter(sold(3, 1, 1, Block::Held(9_000)))), 9);
    assert_eq!(rt; number_of(book.withdraw(0)), 4);
    assert_eq!(rt; number_of(book.withdraw(3)), 13);
    assert_eq!(rt; number_of(book.withdraw(1)), 0);
    assert_eq!(rt; book.lines().len(), 1);
    Ok(())
}

fn fill(market: &mut Market<'_>, points: &mut Points<'_>) -> Result<(), Refusal> {
    market.add_price(Price::new(BOND, 1_010_000, 11_000)?)?;
    market.add_percentage(Percentage::new(4, 200)?)?;
    points.add(Point::new(364, 360)?)
}

#[test]
fn a_margin_with_its_rows(rt: HostRuntime) -> Result<(), Fail> {
    let mut prices = [Price::default(); 1];
    let mut percentages = [Percentage::default(); 6];
    let mut market = Market::new(today()?, &mut prices, &mut percentages);
    let mut point = [Point::default(); 1];
    let mut points = Points::new(&mut point);
    assert_eq!(rt; fill(&mut market, &mut points), Ok(()));
    let curve = StepCurve { points: &points };
    let mut places = [Line::default(); 2];
    let mut by_isin = [0; 2];
    let mut book = Book::new(&market, &mut places, &mut by_isin);
    assert_eq!(rt; outcome(book.margin(&curve, &Net)), (0, 0));
    let trade = bought(1, 1_000, 101_000_000, Block::Trade(9_101));
    let fee = bought(2, 0, 2_500, Block::CashOnly(9_000));
    assert_eq!(rt; number_of(book.enter(fee)), 0);
    assert_eq!(rt; number_of(book.enter(trade)), 0);
    assert_eq!(rt; outcome(book.margin(&curve, &Net)), (1_022_500, 3));
    let mut rows = [BLANK; 1];
    let counted = match book.statement(&curve, &Net, &mut rows) {
        Ok(statement) => statement.rows,
        Err(_) => 0,
    };
    assert_eq!(rt; counted, 2);
    assert_eq!(rt;
        (rows[0].initial_margin, rows[0].variation_margin),
        (2_020_000, 1_000_000)
    );
    Ok(())
}

fn fill_both(market: &mut Market<'_>, points: &mut Points<'_>) -> Result<(), Refusal> {
    fill(market, points)?;
    market.add_price(Price::new(SHORT_BOND, 999_999, 9_100)?)?;
    market.add_percentage(Percentage::new(1, 50)?)
}

fn lines_of_two_isins() -> [Line; 4] {
    let failed = bought(3, 3, 300_000, Block::Failed(8_998));
    [
        Line {
            isin: SHORT_BOND,
            ..failed
        },
        bought(1, 1_000, 101_000_000, Block::Trade(9_101)),
        sold(2, 400, 40_400_000, Block::Trade(9_001)),
        bought(4, 0, 2_500, Block::CashOnly(9_000)),
    ]
}

#[test]
fn rows_of_two_isins_as_far_as_there_are_places(rt: HostRuntime) -> Result<(), Fail> {
    let mut prices = [Price::default(); 2];
    let mut percentages = [Percentage::default(); 6];
    let mut market = Market::new(today()?, &mut prices, &mut percentages);
    let mut point = [Point::default(); 1];
    let mut points = Points::new(&mut point);
    assert_eq!(rt; fill_both(&mut market, &mut points), Ok(()));
    let curve = StepCurve { points: &points };
    let mut places = [Line::default(); 4];
    let mut by_isin = [0; 4];
    let mut book = Book::new(&market, &mut places, &mut by_isin);
    let lines = lines_of_two_isins();
    assert!(rt; lines[0].is_in_block(SHORT_BOND, BlockName::Failed));
    for line in lines {
        assert_eq!(rt; number_of(book.enter(line)), 0);
    }
    assert_eq!(rt; outcome(book.margin(&curve, &Net)), (1_024_001, 6));
    let mut rows = [BLANK; 2];
    let counted = match book.statement(&curve, &Net, &mut rows) {
        Ok(statement) => statement.rows,
        Err(_) => 0,
    };
    assert_eq!(rt; counted, 3);
    let [first, second] = rows.map(|row| (row.initial_margin, row.variation_margin));
    assert_eq!(rt; first, (2_020_000, 1_000_000));
    assert_eq!(rt; second, (2_500, 0));
    Ok(())
}

#[test]
fn each_slot_has_its_answer_and_the_lines_stand_in_front(rt: HostRuntime) -> Result<(), Fail> {
    let mut prices = [Price::default(); 1];
    let mut percentages = [Percentage::default(); 6];
    let market = Market::new(today()?, &mut prices, &mut percentages);
    let mut point = [Point::default(); 1];
    let points = Points::new(&mut point);
    let curve = StepCurve { points: &points };
    let setup = Setup {
        market: &market,
        curve: &curve,
        rule: &Net,
    };
    let later = bought(7, 1, 1, Block::Trade(9_000));
    let earlier = bought(5, 1, 1, Block::Trade(9_000));
    let mut slots = [
        Slot::asked(Call::AskMargin),
        Slot::asked(Call::Enter(later)),
        Slot::asked(Call::Enter(earlier)),
        Slot::asked(Call::Withdraw(6)),
    ];
    let mut places = [Line::default(); 3];
    let mut by_isin = [0; 2];
    let mut journal = Journal {
        slots: &mut slots,
        places: &mut places,
        by_isin: &mut by_isin,
    };
    assert_eq!(rt; outcome(work_calls(&setup, &mut journal)), (10, 5));
    assert!(rt; slots[1].answer == Some(Ok(Reply::Accepted)));
    assert!(rt; slots[3].answer == Some(Err(LineRefusal::of_line(6, Refusal::NotStanding))));
    assert!(rt; places[..2] == [earlier, later]);
    Ok(())
}
