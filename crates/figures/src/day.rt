//! A day of two accounts: each is worked call by call, then both are put together.
use crate::report::show_refusal;
use account::block::Block;
use account::call::Call;
use account::line::Line;
use account::line_refusal::LineRefusal;
use account::margin::Margin;
use account::side::Side;
use account::slot::Slot;
use book::journal::{Journal, ThreeMargins, work_three_books};
use curve::point::Point;
use curve::point::points::Points;
use curve::step::StepCurve;
use market::day::Day;
use market::market::Market;
use market::percentage::Percentage;
use market::price::Price;
use netting::Net;
use quantities::date::Date;
use quantities::isin::Isin;
use quantities::refusal::Refusal;
use std::io;
use valuation::setup::Setup;

const TODAY: Date = 9_000;

const LONG_BOND: Isin = Isin {
    bytes: *b"ES0000001018",
};

const SHORT_BOND: Isin = Isin {
    bytes: *b"ES0000002024",
};

fn enter(side: Side, reference: u32, isin: Isin, titles: u32, cash: u64, block: Block) -> Slot {
    Slot::asked(Call::Enter(Line {
        reference,
        isin,
        side,
        titles,
        cash,
        block,
    }))
}

fn buy(reference: u32, isin: Isin, titles: u32, cash: u64, block: Block) -> Slot {
    enter(Side::Bought, reference, isin, titles, cash, block)
}

fn sell(reference: u32, isin: Isin, titles: u32, cash: u64, block: Block) -> Slot {
    enter(Side::Sold, reference, isin, titles, cash, block)
}

// The third line is refused for its date.
fn first_calls() -> [Slot; 7] {
    [
        buy(1, LONG_BOND, 1_000, 101_000_000, Block::Trade(9_101)),
        sell(2, LONG_BOND, 400, 40_400_000, Block::Trade(9_001)),
        buy(3, LONG_BOND, 50, 5_000_000, Block::Trade(9_366)),
        Slot::asked(Call::AskMargin),
        buy(3, SHORT_BOND, 3, 300_000, Block::Failed(8_998)),
        buy(4, LONG_BOND, 0, 2_500, Block::CashOnly(9_000)),
        Slot::asked(Call::AskMargin),
    ]
}

// The second line is entered by mistake and taken out again.
fn second_calls() -> [Slot; 6] {
    [
        sell(1, LONG_BOND, 700, 70_700_000, Block::Trade(9_101)),
        buy(2, SHORT_BOND, 5_000, 1, Block::Held(9_000)),
        Slot::asked(Call::AskMargin),
        Slot::asked(Call::Withdraw(2)),
        Slot::asked(Call::Withdraw(2)),
        buy(3, SHORT_BOND, 7, 700_000, Block::Held(9_000)),
    ]
}

// The lines that stand in the two accounts, under references of their own.
fn joint_calls() -> [Slot; 6] {
    [
        buy(11, LONG_BOND, 1_000, 101_000_000, Block::Trade(9_101)),
        sell(12, LONG_BOND, 400, 40_400_000, Block::Trade(9_001)),
        buy(13, SHORT_BOND, 3, 300_000, Block::Failed(8_998)),
        buy(14, LONG_BOND, 0, 2_500, Block::CashOnly(9_000)),
        sell(21, LONG_BOND, 700, 70_700_000, Block::Trade(9_101)),
        buy(22, SHORT_BOND, 7, 700_000, Block::Held(9_000)),
    ]
}

// A call with its answer, on a line of its own.
fn show_call(rt: &impl Print, slot: &Slot) -> io::Result<()> {
    let call = slot.call;
    match slot.answer {
        Some(Ok(reply)) => println!(rt; "  {call}{reply}"),
        Some(Err(refused)) => println!(rt; "  {call}{refused}"),
        None => println!(rt; "  {call}not answered"),
    }
}

// A margin, with the bounds in which the exact margin lies: one cent for each rounded amount below
// it. No Display: the name and the bounds are of this line, and no part of a margin.
fn show_margin(rt: &impl Print, name: &str, margin: Result<Margin, LineRefusal>) -> io::Result<()> {
    match margin {
        Ok(
            Margin {
                cents,
                rounded_amounts,
            },
        ) => {
            let lowest = cents.saturating_sub(u64::from(rounded_amounts));
            println!(rt; "  {name:<20}{cents:>12}   exact margin from {lowest} to {cents}")
        }
        Err(refused) => show_refusal(rt, name, refused.refusal),
    }
}

fn show_margins(rt: &impl Print, margins: ThreeMargins) -> io::Result<()> {
    println!(rt; "Their margins")?;
    show_margin(rt, "first account", margins.first)?;
    show_margin(rt, "second account", margins.second)?;
    show_margin(rt, "both together", margins.third)
}

fn show_calls(rt: &impl Print, title: &str, slots: &[Slot]) -> io::Result<()> {
    println!(rt; "{title}")?;
    for slot in slots {
        show_call(rt, slot)?;
    }
    Ok(())
}

fn work_on(rt: &impl Print, setup: &Setup<'_, '_, StepCurve<'_, '_>, Net>) -> io::Result<()> {
    let mut first = first_calls();
    let mut second = second_calls();
    let mut joint = joint_calls();
    let margins = work_three_books(
        setup,
        &mut Journal {
            slots: &mut first,
            places: &mut [Line::default(); 8],
            by_isin: &mut [0; 8],
        },
        &mut Journal {
            slots: &mut second,
            places: &mut [Line::default(); 8],
            by_isin: &mut [0; 8],
        },
        &mut Journal {
            slots: &mut joint,
            places: &mut [Line::default(); 8],
            by_isin: &mut [0; 8],
        },
    );
    show_calls(rt, "The first account", &first)?;
    show_calls(rt, "The second account", &second)?;
    show_calls(rt, "Both accounts together", &joint)?;
    show_margins(rt, margins)
}

fn fill(market: &mut Market<'_>, points: &mut Points<'_>) -> Result<(), Refusal> {
    market.add_price(Price::new(LONG_BOND, 1_010_000, 11_000)?)?;
    market.add_price(Price::new(SHORT_BOND, 999_999, 9_100)?)?;
    market.add_percentage(Percentage::new(1, 50)?)?;
    market.add_percentage(Percentage::new(4, 200)?)?;
    points.add(Point::new(364, 360)?)
}

/// Prints each call of the day with its answer, then the margins.
pub(crate) fn show_day(rt: &impl Print) -> io::Result<()> {
    let day = Day {
        today: TODAY,
        next: TODAY + 1,
    };
    let mut prices = [Price::default(); 2];
    let mut percentages = [Percentage::default(); 6];
    let mut market = Market::new(day, &mut prices, &mut percentages);
    let mut places = [Point::default(); 1];
    let mut points = Points::new(&mut places);
    match fill(&mut market, &mut points) {
        Ok(()) => work_on(
            rt,
            &Setup {
                market: &market,
                curve: &StepCurve { points: &points },
                rule: &Net,
            },
        ),
        Err(refusal) => show_refusal(rt, "market", refusal),
    }
}
