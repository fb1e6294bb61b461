//! The edges of days, prices and percentages.
use crate::day::*;
use crate::market::Market;
use crate::percentage::*;
use crate::price::*;
use quantities::isin::*;
use quantities::refusal::*;

const GERMAN: Isin = Isin {
    bytes: *b"DE000BASF111",
};

const AMERICAN: Isin = Isin {
    bytes: *b"US0378331005",
};

const NO_ISIN: Isin = Isin {
    bytes: *b"US0378331006",
};

// The number of a refusal, and 0 of what is accepted.
fn refused<T: Drop>(answer: Result<T, Refusal>) -> u8 {
    match answer {
        Ok(_) => 0,
        Err(refusal) => refusal.number(),
    }
}

#[test]
fn the_next_day_is_1_to_10_days_later(rt: HostRuntime) {
    assert_eq!(rt; refused(Day::new(9_000, 8_999)), 7);
    assert_eq!(rt; refused(Day::new(9_000, 9_000)), 7);
    assert_eq!(rt; refused(Day::new(9_000, 9_001)), 0);
    assert_eq!(rt; refused(Day::new(9_000, 9_010)), 0);
    assert_eq!(rt; refused(Day::new(9_000, 9_011)), 7);
    assert_eq!(rt; refused(Day::new(65_534, 65_535)), 0);
    assert_eq!(rt; refused(Day::new(65_535, 65_535)), 7);
    assert_eq!(rt; refused(Day::new(65_535, 0)), 7);
}

fn day() -> Day {
    Day {
        today: 9_000,
        next: 9_001,
    }
}

// Puts a price in that is handed as its parts.
fn priced(market: &mut Market<'_>, isin: Isin, price: u32) -> u8 {
    match Price::new(isin, price, 10_000) {
        Ok(price) => refused(market.add_price(price)),
        Err(refusal) => refusal.number(),
    }
}

// The same of a percentage.
fn ranked(market: &mut Market<'_>, tranche: u8, percentage: u16) -> u8 {
    match Percentage::new(tranche, percentage) {
        Ok(percentage) => refused(market.add_percentage(percentage)),
        Err(refusal) => refusal.number(),
    }
}

#[test]
fn prices_are_refused_in_order(rt: HostRuntime) {
    let mut prices = [Price::default(); 1];
    let mut percentages = [Percentage::default(); 6];
    let mut market = Market::new(day(), &mut prices, &mut percentages);
    assert_eq!(rt; priced(&mut market, AMERICAN, 0), 4);
    assert_eq!(rt; priced(&mut market, AMERICAN, 2_000_000), 0);
    assert_eq!(rt; priced(&mut market, NO_ISIN, 1), 4);
    assert_eq!(rt; priced(&mut market, AMERICAN, 2_000_001), 4);
    assert_eq!(rt; priced(&mut market, AMERICAN, 1), 6);
    assert_eq!(rt; priced(&mut market, GERMAN, 2_000_001), 4);
    assert_eq!(rt; priced(&mut market, GERMAN, 1), 9);
    assert_eq!(rt; market.prices().len(), 1);
    assert!(rt; market.price_of(AMERICAN).is_some());
    assert!(rt; market.price_of(GERMAN).is_none());
    assert!(rt; market.price_near(&mut 0, AMERICAN) == market.price_of(AMERICAN));
}

#[test]
fn six_tranches_have_a_place_each(rt: HostRuntime) {
    let mut percentages = [Percentage::default(); 6];
    let mut market = Market::new(day(), &mut [], &mut percentages);
    for tranche in 1..7 {
        assert_eq!(rt; ranked(&mut market, tranche, 10_000), 0);
    }
    assert_eq!(rt; ranked(&mut market, 0, 0), 4);
    assert_eq!(rt; ranked(&mut market, 7, 0), 4);
    assert_eq!(rt; ranked(&mut market, 6, 10_001), 4);
    assert_eq!(rt; ranked(&mut market, 6, 0), 6);
    assert_eq!(rt; market.percentages().len(), 6);
    assert!(rt; market.percentage_for(65_535).is_some());
}
