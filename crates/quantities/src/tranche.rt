//! The tranches of residual life, by which margin percentages are set.
ghost use Rattle.std.specs.Prelude.{◌≡◌};
ghost use Rattle.quantities.specs.RangeChecks.{numbers_of, range_answer};
ghost use Rattle.quantities.specs.Tranches.{tranche_number, tranche};

use crate::refusal::Refusal;

/// The six tranches, by their numbers.
#[derive(Clone, Copy, Debug, PartialEq, Eq, Hash, PartialOrd, Ord)]
pub enum Tranche {
    UpToOneYear = 1,
    UpToThreeYears = 2,
    UpToFiveYears = 3,
    UpToTenYears = 4,
    UpToTwentyYears = 5,
    OverTwentyYears = 6,
}

impl TryFrom<u8> for Tranche {
    type Error = Refusal;

    ghost try_from_gives = { λ number result.
        numbers_of tranche_number result ≡ range_answer 1 6 number };

    fn try_from(number: u8) -> Result<Tranche, Refusal> {
        match number {
            1 => Ok(Tranche::UpToOneYear),
            2 => Ok(Tranche::UpToThreeYears),
            3 => Ok(Tranche::UpToFiveYears),
            4 => Ok(Tranche::UpToTenYears),
            5 => Ok(Tranche::UpToTwentyYears),
            6 => Ok(Tranche::OverTwentyYears),
            _ => Err(Refusal::Value),
        }
    }
}

impl From<Tranche> for u8 {
    ghost from_gives = { λ tranche number. number ≡ tranche_number tranche };

    fn from(tranche: Tranche) -> u8 {
        tranche as u8
    }
}

impl Tranche {
    /// The tranche of a residual life in days.
    pub fn of_life(days: u16) -> Tranche
        ensures { tranche_number result ≡ tranche days }
    {
        match days {
            0..=365 => Tranche::UpToOneYear,
            366..=1_095 => Tranche::UpToThreeYears,
            1_096..=1_825 => Tranche::UpToFiveYears,
            1_826..=3_650 => Tranche::UpToTenYears,
            3_651..=7_300 => Tranche::UpToTwentyYears,
            _ => Tranche::OverTwentyYears,
        }
    }
}
