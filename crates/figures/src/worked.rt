//! The worked figures, as theorems and as the code works them out.
ghost use Rattle.figures.specs.WorkedFigures.{WorkedFigures};

use crate::report::{show, show_refusal};
use curve::Curve;
use curve::point::Point;
use curve::point::points::Points;
use curve::sloping::SlopingCurve;
use curve::step::StepCurve;
use netting::{BothSides, Gross, Net, NettingRule, Position};
use quantities::amount::{initial_margin, market_value, present_value_down, present_value_up};
use quantities::date::Date;
use quantities::isin::Isin;
use quantities::range::{Cash, MarginPercentage, Rate, Titles, UnitPrice};
use quantities::refusal::Refusal;
use quantities::term::Term;
use quantities::tranche::Tranche;
use std::io;

/// The worked figures hold of the definitions.
pub(crate) fn worked_figures_stand()
    ensures { WorkedFigures }
{}

fn show_term(rt: &impl Print, name: &str, settlement: Date) -> io::Result<()> {
    match Term::of_trade(9_000, settlement) {
        Ok(term) => show(rt, name, term.days),
        Err(refusal) => show_refusal(rt, name, refusal),
    }
}

fn show_terms(rt: &impl Print) -> io::Result<()> {
    show_term(rt, "term, settles today", 9_000)?;
    show_term(rt, "term, settles today + 1", 9_001)?;
    show_term(rt, "term, settles today + 365", 9_365)?;
    show_term(rt, "term, settles today + 366", 9_366)
}

fn show_present_values(rt: &impl Print) -> io::Result<()> {
    let rate = Rate { basis_points: 360 };
    let term = Term { days: 100 };
    let cash = Cash { cents: 101_000_000 };
    let cent = Cash { cents: 1 };
    show(
        rt,
        "101,000,000 at 360 for 100 days, up",
        present_value_up(cash, rate, term),
    )?;
    show(
        rt,
        "101,000,000 at 360 for 100 days, down",
        present_value_down(cash, rate, term),
    )?;
    show(
        rt,
        "1 at 360 for 100 days, up",
        present_value_up(cent, rate, term),
    )?;
    show(
        rt,
        "1 at 360 for 100 days, down",
        present_value_down(cent, rate, term),
    )
}

fn show_netting(rt: &impl Print) -> io::Result<()> {
    let position = Position {
        bought: Titles { count: 1_000 },
        sold: Titles { count: 400 },
    };
    show(
        rt,
        "1,000 bought, 400 sold, net",
        Net.charge(position).count,
    )?;
    show(
        rt,
        "1,000 bought, 400 sold, gross",
        Gross.charge(position).count,
    )?;
    show(
        rt,
        "1,000 bought, 400 sold, both sides",
        BothSides.charge(position).count,
    )
}

fn show_tranches(rt: &impl Print) -> io::Result<()> {
    show(rt, "tranche of 365 days", u8::from(Tranche::of_life(365)))?;
    show(rt, "tranche of 366 days", u8::from(Tranche::of_life(366)))?;
    show(
        rt,
        "tranche of 7,300 days",
        u8::from(Tranche::of_life(7_300)),
    )?;
    show(
        rt,
        "tranche of 7,301 days",
        u8::from(Tranche::of_life(7_301)),
    )
}

fn show_isin(rt: &impl Print, text: &str) -> io::Result<()> {
    match Isin::try_from(text.as_bytes()) {
        Ok(_) => show(rt, text, "passes"),
        Err(refusal) => show_refusal(rt, text, refusal),
    }
}

fn show_three_titles(rt: &impl Print) -> io::Result<()> {
    let price = UnitPrice {
        millionths: 999_999,
    };
    let percentage = MarginPercentage { basis_points: 50 };
    let three = Titles { count: 3 };
    let none = Titles { count: 0 };
    show(
        rt,
        "3 titles at 999,999, initial margin at 50",
        initial_margin(three, price, percentage),
    )?;
    show(
        rt,
        "3 titles at 999,999, value bought",
        market_value(price, three, none),
    )?;
    show(
        rt,
        "3 titles at 999,999, value sold",
        market_value(price, none, three),
    )
}

fn show_rate(rt: &impl Print, name: &str, curve: &impl Curve, term: u16) -> io::Result<()> {
    match curve.rate_for(term) {
        Ok(rate) => show(rt, name, rate.basis_points),
        Err(refusal) => show_refusal(rt, name, refusal),
    }
}

fn add_points(points: &mut Points<'_>) -> Result<(), Refusal> {
    points.add(Point::new(10, 100)?)?;
    points.add(Point::new(20, 95)?)
}

fn show_rates(rt: &impl Print, points: &Points<'_>) -> io::Result<()> {
    let sloping = SlopingCurve { points };
    let step = StepCurve { points };
    show_rate(
        rt,
        "points (10, 100), (20, 95) at 13, sloping",
        &sloping,
        13,
    )?;
    show_rate(rt, "points (10, 100), (20, 95) at 13, step", &step, 13)?;
    show_rate(rt, "points (10, 100), (20, 95) at 21", &step, 21)
}

fn show_curves(rt: &impl Print) -> io::Result<()> {
    let mut places = [Point::default(); 2];
    let mut points = Points::new(&mut places);
    match add_points(&mut points) {
        Ok(()) => show_rates(rt, &points),
        Err(refusal) => show_refusal(rt, "points", refusal),
    }
}

/// Prints every worked figure as the code works it out.
pub(crate) fn show_figures(rt: &impl Print) -> io::Result<()> {
    println!(rt; "The worked figures")?;
    show_terms(rt)?;
    show_present_values(rt)?;
    show_netting(rt)?;
    show_tranches(rt)?;
    show_isin(rt, "ES0000001018")?;
    show_isin(rt, "ES0000001017")?;
    show_three_titles(rt)?;
    show_curves(rt)
}
