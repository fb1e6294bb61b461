//! The edges of every range.
ghost use Rattle.std.specs.Prelude.{◌≡◌};
ghost use Rattle.quantities.specs.RangeChecks.{numbers_of, range_answer};
ghost use Rattle.quantities.specs.Ranges.{most_cash};

use crate::amount::*;
use crate::date::*;
use crate::isin::*;
use crate::range::*;
use crate::refusal::*;
use crate::term::*;
use crate::tranche::*;
use std::cmp::Ordering;

#[test]
fn ranges_end_where_they_should(rt: HostRuntime) {
    assert!(rt; Cash::try_from(0).is_ok() && Cash::try_from(1_000_000_000_000).is_ok());
    assert_eq!(rt; Cash::try_from(1_000_000_000_001), Err(Refusal::Value));
    assert!(rt; Titles::try_from(0).is_ok() && Titles::try_from(2_000_000).is_ok());
    assert_eq!(rt; Titles::try_from(2_000_001), Err(Refusal::Value));
    assert_eq!(rt; UnitPrice::try_from(0), Err(Refusal::Value));
    assert!(rt; UnitPrice::try_from(1).is_ok() && UnitPrice::try_from(2_000_000).is_ok());
    assert_eq!(rt; UnitPrice::try_from(2_000_001), Err(Refusal::Value));
    assert_eq!(rt; Rate::try_from(-501), Err(Refusal::Value));
    assert!(rt; Rate::try_from(-500).is_ok() && Rate::try_from(3_000).is_ok());
    assert_eq!(rt; Rate::try_from(3_001), Err(Refusal::Value));
    assert!(rt;
        MarginPercentage::try_from(0).is_ok() && MarginPercentage::try_from(10_000).is_ok()
    );
    assert_eq!(rt; MarginPercentage::try_from(10_001), Err(Refusal::Value));
}

fn read_cents(cents: u64) -> Result<Cents, Refusal>
    ensures { numbers_of (λ c. c) result ≡ range_answer 0 most_cash cents }
{
    Ok(Cash::try_from(cents)?.cents)
}

#[test]
fn a_caller_hands_a_refusal_on(rt: HostRuntime) {
    assert_eq!(rt; read_cents(1_000_000_000_000), Ok(1_000_000_000_000));
    assert_eq!(rt; read_cents(1_000_000_000_001), Err(Refusal::Value));
}

#[test]
fn dates_end_where_they_should(rt: HostRuntime) {
    assert_eq!(rt; settlement_date(9_000, 8_999), Err(Refusal::Date));
    assert_eq!(rt; settlement_date(9_000, 9_000), Ok(9_000));
    assert_eq!(rt; settlement_date(9_000, 9_365), Ok(9_365));
    assert_eq!(rt; settlement_date(9_000, 9_366), Err(Refusal::Date));
    assert_eq!(rt; settlement_date(65_535, 65_535), Ok(65_535));
    assert_eq!(rt; past_date(9_000, 9_000), Ok(9_000));
    assert_eq!(rt; past_date(9_000, 9_001), Err(Refusal::Date));
    assert_eq!(rt; Term::of_trade(9_000, 9_001), Ok(Term { days: 0 }));
    assert_eq!(rt; Term::of_trade(9_000, 9_002), Ok(Term { days: 1 }));
    assert_eq!(rt; Term::of_trade(9_000, 9_365), Ok(Term { days: 364 }));
    assert_eq!(rt; residual_life(9_000, 8_000), 0);
    assert_eq!(rt; residual_life(0, 65_535), 65_535);
}

#[test]
fn tranches_end_where_they_should(rt: HostRuntime) {
    assert_eq!(rt; u8::from(Tranche::of_life(0)), 1);
    assert_eq!(rt; u8::from(Tranche::of_life(1_095)), 2);
    assert_eq!(rt; u8::from(Tranche::of_life(1_096)), 3);
    assert_eq!(rt; u8::from(Tranche::of_life(1_825)), 3);
    assert_eq!(rt; u8::from(Tranche::of_life(1_826)), 4);
    assert_eq!(rt; u8::from(Tranche::of_life(3_650)), 4);
    assert_eq!(rt; u8::from(Tranche::of_life(3_651)), 5);
    assert_eq!(rt; u8::from(Tranche::of_life(65_535)), 6);
}

#[test]
fn a_tranche_has_its_number(rt: HostRuntime) {
    assert_eq!(rt; Tranche::try_from(0), Err(Refusal::Value));
    assert_eq!(rt; Tranche::try_from(1), Ok(Tranche::UpToOneYear));
    assert_eq!(rt; Tranche::try_from(6), Ok(Tranche::OverTwentyYears));
    assert_eq!(rt; Tranche::try_from(7), Err(Refusal::Value));
}

#[test]
fn isins_of_the_market_pass(rt: HostRuntime) {
    assert!(rt; Isin::try_from(b"US0378331005".as_slice()).is_ok());
    assert!(rt; Isin::try_from(b"DE000BASF111".as_slice()).is_ok());
    assert!(rt; Isin::try_from(b"AU0000XVGZA3".as_slice()).is_ok());
    assert_eq!(rt;
        Isin::try_from(b"US0378331006".as_slice()),
        Err(Refusal::Value)
    );
    assert_eq!(rt;
        Isin::try_from(b"us0378331005".as_slice()),
        Err(Refusal::Value)
    );
    assert_eq!(rt;
        Isin::try_from(b"US037833100".as_slice()),
        Err(Refusal::Value)
    );
    assert_eq!(rt;
        Isin::try_from(b"US03783310050".as_slice()),
        Err(Refusal::Value)
    );
    assert_eq!(rt;
        Isin::try_from(b"1S0378331005".as_slice()),
        Err(Refusal::Value)
    );
    assert_eq!(rt;
        Isin::try_from(b"US037833100A".as_slice()),
        Err(Refusal::Value)
    );
    assert_eq!(rt; Isin::try_from(b"".as_slice()), Err(Refusal::Value));
}

#[test]
fn amounts_fit_at_the_limits(rt: HostRuntime) {
    let most = Cash {
        cents: 1_000_000_000_000,
    };
    let year = Term { days: 364 };
    let low = Rate { basis_points: -500 };
    let high = Rate {
        basis_points: 3_000,
    };
    assert_eq!(rt; present_value_up(most, low, year), 1_053_247_513_166);
    assert_eq!(rt; present_value_down(most, low, year), 1_053_247_513_165);
    assert_eq!(rt; present_value_up(most, high, year), 767_263_427_110);
    let titles = Titles { count: 2_000_000 };
    let none = Titles { count: 0 };
    let price = UnitPrice {
        millionths: 2_000_000,
    };
    assert_eq!(rt;
        initial_margin(
            titles,
            price,
            MarginPercentage {
                basis_points: 10_000,
            },
        ),
        400_000_000_000
    );
    assert_eq!(rt; market_value(price, titles, none), 400_000_000_000);
    assert_eq!(rt; market_value(price, none, titles), -400_000_000_000);
    assert_eq!(rt;
        market_value(UnitPrice { millionths: 1 }, none, Titles { count: 1 }),
        -1
    );
}

#[test]
fn isins_go_by_their_bytes(rt: HostRuntime) -> Result<(), Refusal> {
    let german = Isin::try_from(b"DE000BASF111".as_slice())?;
    let american = Isin::try_from(b"US0378331005".as_slice())?;
    assert!(rt; german < american);
    assert_eq!(rt; american.cmp(&american), Ordering::Equal);
    Ok(())
}
