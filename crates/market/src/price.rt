//! The price of a bond, a record of a market.
ghost use Rattle.quantities.specs.RangeChecks.{numbers_of};
ghost use Rattle.quantities.specs.Isins.{is_isin};
ghost use Rattle.std.specs.Prelude.{◌≡◌, IsTrue};

use quantities::date::Date;
use quantities::isin::Isin;
use quantities::range::UnitPrice;
use quantities::refusal::Refusal;
use register::record::Record;

/// The price of a bond, and the day on which it is repaid.
#[derive(Clone, Copy, Debug, PartialEq, Eq)]
pub struct Price {
    pub isin: Isin,
    pub price: UnitPrice,
    pub maturity: Date,
    ghost valid: { IsTrue (is_isin isin.bytes) },
}

impl Price {
    ghost use Rattle.market.specs.Records.{price_answer, price_parts};

    /// The price of a bond; refuses what is no ISIN, and a price out of its range.
    pub fn new(isin: Isin, price: u32, maturity: Date) -> Result<Price, Refusal>
        ensures { numbers_of price_parts result ≡ price_answer isin price maturity }
    {
        if !isin.is_valid() {
            return Err(Refusal::Value);
        }
        let price = UnitPrice::try_from(price)?;
        Ok(Price {
            isin,
            price,
            maturity,
        })
    }
}

/// What a free place may hold: the lowest price, of an ISIN that stands for no bond.
impl Default for Price {
    ghost use Rattle.std.specs.Prelude.{codes};
    ghost use Rattle.quantities.specs.Ranges.{lowest_price};
    ghost use Rattle.market.specs.Records.{price_parts};

    ghost is_default = { λ p.
        price_parts p ≡ (record { bytes = codes "XX0000000002" }, lowest_price, 0) };

    fn default() -> Price {
        Price {
            isin: Isin {
                bytes: *b"XX0000000002",
            },
            price: UnitPrice {
                millionths: UnitPrice::LOWEST,
            },
            maturity: 0,
        }
    }
}

/// Prices go by their ISIN, in byte order.
impl Record for Price {
    type Key = [u8; 12];

    ghost key_of = { λ p. p.isin.bytes };

    fn key(&self) -> [u8; 12] {
        self.isin.bytes
    }
}
