//! How long a book takes to enter its lines and to give its margin.
use crate::book_sample::{LINES_PER_ISIN, sample_line};
use crate::sample::{TODAY, sample_isin};
use account::line::Line;
use book::book::Book;
use curve::point::Point;
use curve::point::points::Points;
use curve::step::StepCurve;
use market::day::Day;
use market::market::Market;
use market::percentage::Percentage;
use market::price::Price;
use netting::Net;
use quantities::refusal::Refusal;
use register::order::Place;
use std::io;
use std::time::{Duration, Instant};

// How many lines are entered at each size, in as many rounds as that makes. The least of the rounds
// is given: what else the machine does only adds to a time.
const LINES_ENTERED: u32 = 81_920;

/// The times of a book of so many lines: to enter them all, and to give one margin.
#[derive(Clone, Copy)]
pub struct BookPace {
    pub lines: u32,
    entering: Duration,
    margin: Duration,
}

impl BookPace {
    /// Microseconds to enter a line.
    pub(crate) fn micros_a_line(&self) -> f64 {
        self.entering.as_secs_f64() * 1e6 / f64::from(self.lines)
    }

    /// Milliseconds to give a margin.
    pub(crate) fn millis_a_margin(&self) -> f64 {
        self.margin.as_secs_f64() * 1e3
    }
}

// A price for each ISIN of the sample, and what else its lines need.
fn fill(market: &mut Market<'_>, points: &mut Points<'_>, lines: u32) -> Result<(), Refusal> {
    for number in 0..lines.div_ceil(LINES_PER_ISIN) {
        market.add_price(Price::new(sample_isin(number), 1_000_000, 11_000)?)?;
    }
    market.add_percentage(Percentage::new(4, 200)?)?;
    points.add(Point::new(364, 360)?)
}

fn enter_all(book: &mut Book<'_, '_, '_>, lines: &[Line]) -> Result<(), Refusal> {
    for line in lines {
        book.enter(*line)?;
    }
    Ok(())
}

// How long it takes to enter the sample in a book without lines, and then to give its margin.
fn time_round(
    rt: &HostRuntime,
    market: &Market<'_>,
    points: &Points<'_>,
    sample: &[Line],
    places: &mut [Line],
    by_isin: &mut [Place],
) -> io::Result<Result<(Duration, Duration), Refusal>> {
    let curve = StepCurve { points };
    let mut book = Book::new(market, places, by_isin);
    let start = Instant::now(rt)?;
    let entered = enter_all(&mut book, sample);
    let entering = start.elapsed(rt)?;
    let start = Instant::now(rt)?;
    let given = book.margin(&curve, &Net);
    let margin = start.elapsed(rt)?;
    Ok(match (entered, given) {
        (Ok(()), Ok(_)) => Ok((entering, margin)),
        (Err(refusal), _) => Err(refusal),
        (Ok(()), Err(refused)) => Err(refused.refusal),
    })
}

// The least times of all rounds over the sample.
fn least_pace(
    rt: &HostRuntime,
    market: &Market<'_>,
    points: &Points<'_>,
    lines: u32,
) -> io::Result<Result<BookPace, Refusal>> {
    let alloc = rt.alloc();
    let sample: Vec<Line> = (0..lines)
        .map(|place| sample_line(place, lines))
        .collect(alloc)?;
    let mut places: Vec<Line> = sample.iter().map(|_| Line::default()).collect(alloc)?;
    let mut by_isin: Vec<Place> = sample.iter().map(|_| 0).collect(alloc)?;
    let mut least = BookPace {
        lines,
        entering: Duration::MAX,
        margin: Duration::MAX,
    };
    for _ in 0..LINES_ENTERED.checked_div(lines).unwrap_or(0) {
        match time_round(
            rt,
            market,
            points,
            sample.as_slice(),
            places.as_mut_slice(),
            by_isin.as_mut_slice(),
        )? {
            Ok((entering, margin)) => {
                least.entering = least.entering.min(entering);
                least.margin = least.margin.min(margin);
            }
            Err(refusal) => return Ok(Err(refusal)),
        }
    }
    Ok(Ok(least))
}

/// Times a sample book of so many lines, a power of two; a refusal is no pace.
pub(crate) fn time_book(rt: &HostRuntime, lines: u32) -> io::Result<Result<BookPace, Refusal>> {
    let mut prices: Vec<Price> = (0..lines).map(|_| Price::default()).collect(rt.alloc())?;
    let day = Day {
        today: TODAY,
        next: TODAY + 1,
    };
    let mut percentages = [Percentage::default(); 6];
    let mut market = Market::new(day, prices.as_mut_slice(), &mut percentages);
    let mut point = [Point::default(); 1];
    let mut points = Points::new(&mut point);
    match fill(&mut market, &mut points, lines) {
        Ok(()) => least_pace(rt, &market, &points, lines),
        Err(refusal) => Ok(Err(refusal)),
    }
}
