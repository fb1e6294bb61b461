//! The rounded amounts of a margin, in cents.
ghost use Rattle.std.specs.Prelude.{◌≡◌, ◌<◌, ◌≤◌, pos, negsuc, ◌+ℤ◌, ◌*ℤ◌, ◌≤ℤ◌};
ghost use Rattle.quantities.specs.Rounding.{round_up, round_down, JustAbove, JustBelow, JustBelowSigned};
ghost use Rattle.quantities.specs.Amounts.{present_numerator, present_denominator, present_up, present_down, initial_numerator, initial_margin, value_numerator, market_value};

use crate::range::{Cash, MarginPercentage, Rate, Titles, UnitPrice};
use crate::term::Term;

/// Cents that are never negative.
pub type Cents = u64;

/// Cents that may be negative.
pub type SignedCents = i64;

/// Basis points in one times the days of a year.
const YEAR: u64 = 3_600_000;

// An amount in cents before it is rounded.
#[derive(Clone, Copy)]
struct Fraction {
    numerator: u64,
    denominator: u64,
    ghost divides: { 0 < denominator },
}

impl Fraction {
    // Up and down are two methods, since each has a contract of its own.
    fn rounded_up(self) -> Cents
        ensures is { result ≡ round_up self.numerator self.denominator }
        ensures near { JustAbove self.numerator self.denominator result }
    {
        self.numerator.div_ceil(self.denominator)
    }

    fn rounded_down(self) -> Cents
        ensures is { result ≡ round_down self.numerator self.denominator }
        ensures near { JustBelow self.numerator self.denominator result }
    {
        self.numerator / self.denominator
    }
}

fn present_value(cash: Cash, rate: Rate, term: Term) -> Fraction
    ensures numerator { result.numerator ≡ present_numerator cash.cents }
    ensures denominator { result.denominator ≡ present_denominator rate.basis_points term.days }
    ensures sum { pos result.denominator ≡ pos 3600000 +ℤ (rate.basis_points *ℤ pos term.days) }
    ensures low { 3418000 ≤ result.denominator }
    ensures high { result.denominator ≤ 4692000 }
{
    let interest = i64::from(rate.basis_points) * i64::from(term.days);
    Fraction {
        numerator: cash.cents * YEAR,
        denominator: YEAR.saturating_add_signed(interest),
    }
}

// Two functions, one for each side, since each side has a contract of its own.
/// The present value of cash that is charged: rounded up.
pub fn present_value_up(cash: Cash, rate: Rate, term: Term) -> Cents
    ensures is { result ≡ present_up cash.cents rate.basis_points term.days }
    ensures near { JustAbove (present_numerator cash.cents)
        (present_denominator rate.basis_points term.days) result }
    ensures high { result ≤ 2000000000000 }
{
    present_value(cash, rate, term).rounded_up()
}

/// The present value of cash that is credited: rounded down.
pub fn present_value_down(cash: Cash, rate: Rate, term: Term) -> Cents
    ensures is { result ≡ present_down cash.cents rate.basis_points term.days }
    ensures near { JustBelow (present_numerator cash.cents)
        (present_denominator rate.basis_points term.days) result }
    ensures high { result ≤ 2000000000000 }
{
    present_value(cash, rate, term).rounded_down()
}

/// The initial margin of charged titles: rounded up.
pub fn initial_margin(charged: Titles, price: UnitPrice, percentage: MarginPercentage) -> Cents
    ensures is { result ≡ initial_margin charged.count price.millionths percentage.basis_points }
    ensures near { JustAbove
        (initial_numerator charged.count price.millionths percentage.basis_points) 100000 result }
    ensures high { result ≤ 400000000000 }
{
    let value = u64::from(charged.count) * u64::from(price.millionths);
    let margin = Fraction {
        numerator: value * u64::from(percentage.basis_points),
        denominator: 100_000,
    };
    margin.rounded_up()
}

// Two numbers of titles and no position: a position is bounded, which would ask more of callers.
/// The market value of titles bought less titles sold: rounded down, also below zero.
pub fn market_value(price: UnitPrice, bought: Titles, sold: Titles) -> SignedCents
    ensures is { result ≡ market_value price.millionths bought.count sold.count }
    ensures near { JustBelowSigned
        (value_numerator price.millionths bought.count sold.count) 10 result }
    ensures low { negsuc 399999999999 ≤ℤ result }
    ensures high { result ≤ℤ pos 400000000000 }
{
    let net = i64::from(bought.count) - i64::from(sold.count);
    let value = i64::from(price.millionths) * net;
    value.div_euclid(10)
}
