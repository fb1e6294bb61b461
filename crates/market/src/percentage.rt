//! The margin percentage of a tranche, a record of a market.
ghost use Rattle.quantities.specs.RangeChecks.{numbers_of};
ghost use Rattle.quantities.specs.Tranches.{tranche_number};
ghost use Rattle.std.specs.Prelude.{◌≡◌};

use quantities::range::MarginPercentage;
use quantities::refusal::Refusal;
use quantities::tranche::Tranche;
use register::record::Record;

/// The margin percentage of a tranche.
#[derive(Clone, Copy, Debug, PartialEq, Eq)]
pub struct Percentage {
    pub tranche: Tranche,
    pub percentage: MarginPercentage,
}

impl Percentage {
    ghost use Rattle.market.specs.Records.{percentage_answer, percentage_parts};

    /// The percentage of a tranche; refuses what is no tranche's number, and a percentage out of
    /// its range.
    pub fn new(tranche: u8, percentage: u16) -> Result<Percentage, Refusal>
        ensures { numbers_of percentage_parts result ≡ percentage_answer tranche percentage }
    {
        let tranche = Tranche::try_from(tranche)?;
        let percentage = MarginPercentage::try_from(percentage)?;
        Ok(Percentage {
            tranche,
            percentage,
        })
    }
}

/// What a free place may hold: nothing in a hundred, of the first tranche.
impl Default for Percentage {
    ghost use Rattle.market.specs.Records.{percentage_parts};

    ghost is_default = { λ p. percentage_parts p ≡ (1, 0) };

    fn default() -> Percentage {
        Percentage {
            tranche: Tranche::UpToOneYear,
            percentage: MarginPercentage { basis_points: 0 },
        }
    }
}

/// Percentages go by the number of their tranche.
impl Record for Percentage {
    type Key = u8;

    ghost key_of = { λ p. tranche_number p.tranche };

    fn key(&self) -> u8 {
        u8::from(self.tranche)
    }
}
