//! Quantities that stay within their ranges.
ghost use Rattle.std.specs.Prelude.{◌≡◌, ◌≤◌, ◌≤ℤ◌};
ghost use Rattle.quantities.specs.RangeChecks.{numbers_of, range_answer, signed_range_answer};
ghost use Rattle.quantities.specs.Ranges.{most_cash, most_titles, lowest_price, highest_price, lowest_rate, highest_rate, highest_percentage};

use crate::refusal::Refusal;

/// An amount of cash, 0 to 1,000,000,000,000 cents.
#[derive(Clone, Copy, Debug, PartialEq, Eq, Hash, PartialOrd, Ord)]
pub struct Cash {
    pub cents: u64,
    ghost within: { cents ≤ most_cash },
}

impl Cash {
    pub const MOST: u64 = 1_000_000_000_000;
}

// The test of each quantity is a pattern, which is the range itself.
impl TryFrom<u64> for Cash {
    type Error = Refusal;

    ghost try_from_gives = { λ cents result.
        numbers_of (λ cash. cash.cents) result ≡ range_answer 0 most_cash cents };

    fn try_from(cents: u64) -> Result<Cash, Refusal> {
        match cents {
            0..=Cash::MOST => Ok(Cash { cents }),
            _ => Err(Refusal::Value),
        }
    }
}

/// Titles of 1,000 euros of nominal, 0 to 2,000,000.
#[derive(Clone, Copy, Debug, PartialEq, Eq, Hash, PartialOrd, Ord)]
pub struct Titles {
    pub count: u32,
    ghost within: { count ≤ most_titles },
}

impl Titles {
    pub const MOST: u32 = 2_000_000;
}

impl TryFrom<u32> for Titles {
    type Error = Refusal;

    ghost try_from_gives = { λ count result.
        numbers_of (λ titles. titles.count) result ≡ range_answer 0 most_titles count };

    fn try_from(count: u32) -> Result<Titles, Refusal> {
        match count {
            0..=Titles::MOST => Ok(Titles { count }),
            _ => Err(Refusal::Value),
        }
    }
}

/// A price, 1 to 2,000,000 millionths of nominal.
#[derive(Clone, Copy, Debug, PartialEq, Eq, Hash, PartialOrd, Ord)]
pub struct UnitPrice {
    pub millionths: u32,
    ghost above: { lowest_price ≤ millionths },
    ghost within: { millionths ≤ highest_price },
}

impl UnitPrice {
    pub const LOWEST: u32 = 1;

    pub const HIGHEST: u32 = 2_000_000;
}

impl TryFrom<u32> for UnitPrice {
    type Error = Refusal;

    ghost try_from_gives = { λ millionths result.
        numbers_of (λ price. price.millionths) result
        ≡ range_answer lowest_price highest_price millionths };

    fn try_from(millionths: u32) -> Result<UnitPrice, Refusal> {
        match millionths {
            UnitPrice::LOWEST..=UnitPrice::HIGHEST => Ok(UnitPrice { millionths }),
            _ => Err(Refusal::Value),
        }
    }
}

/// A rate of a discount curve, −500 to 3,000 basis points.
#[derive(Clone, Copy, Debug, PartialEq, Eq, Hash, PartialOrd, Ord)]
pub struct Rate {
    pub basis_points: i16,
    ghost above: { lowest_rate ≤ℤ basis_points },
    ghost within: { basis_points ≤ℤ highest_rate },
}

impl Rate {
    pub const LOWEST: i16 = -500;

    pub const HIGHEST: i16 = 3_000;
}

impl TryFrom<i16> for Rate {
    type Error = Refusal;

    ghost try_from_gives = { λ basis_points result.
        numbers_of (λ rate. rate.basis_points) result
        ≡ signed_range_answer lowest_rate highest_rate basis_points };

    fn try_from(basis_points: i16) -> Result<Rate, Refusal> {
        match basis_points {
            Rate::LOWEST..=Rate::HIGHEST => Ok(Rate { basis_points }),
            _ => Err(Refusal::Value),
        }
    }
}

/// A margin percentage, 0 to 10,000 basis points.
#[derive(Clone, Copy, Debug, PartialEq, Eq, Hash, PartialOrd, Ord)]
pub struct MarginPercentage {
    pub basis_points: u16,
    ghost within: { basis_points ≤ highest_percentage },
}

impl MarginPercentage {
    pub const HIGHEST: u16 = 10_000;
}

impl TryFrom<u16> for MarginPercentage {
    type Error = Refusal;

    ghost try_from_gives = { λ basis_points result.
        numbers_of (λ percentage. percentage.basis_points) result
        ≡ range_answer 0 highest_percentage basis_points };

    fn try_from(basis_points: u16) -> Result<MarginPercentage, Refusal> {
        match basis_points {
            0..=MarginPercentage::HIGHEST => Ok(MarginPercentage { basis_points }),
            _ => Err(Refusal::Value),
        }
    }
}
