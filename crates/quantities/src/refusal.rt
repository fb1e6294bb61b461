//! Why a call refuses.
ghost use Rattle.std.specs.Prelude.{◌≡◌, Some};
ghost use Rattle.quantities.specs.Refusals.{number, words, TellsApart};

use std::error::Error;
use std::fmt;

/// Every refusal of the engine; its number is part of the formats.
#[derive(Clone, Copy, Debug, PartialEq, Eq, Hash)]
pub enum Refusal {
    /// A sheet's first line lacks the awaited mark or a version that is read.
    Mark = 1,
    /// A needed column is missing or named twice, or there are too many columns.
    Columns = 2,
    /// A row has another count of cells than its sheet has columns.
    CellCount = 3,
    /// A value is outside its form or range.
    Value = 4,
    /// A trailer is missing or wrong.
    Trailer = 5,
    /// The key is present already.
    KeyPresent = 6,
    /// A date is outside its days.
    Date = 7,
    /// The titles of an ISIN and block together pass their limit.
    TitlesLimit = 8,
    /// No place is free.
    Full = 9,
    /// A line's ISIN has no price.
    NoPrice = 10,
    /// A line's tranche has no percentage.
    NoPercentage = 11,
    /// The curve has no rate for a line's term.
    NoRate = 12,
    /// No line stands under the reference.
    NotStanding = 13,
    /// The input or the statement is longer than its limit.
    TooLong = 14,
}

impl Refusal {
    /// The number by which formats and callers know a refusal.
    // A method and no conversion: its second clause is a law of all refusals.
    pub fn number(self) -> u8
        ensures is { result ≡ number self }
        ensures tells_apart { TellsApart }
    {
        self as u8
    }
}

impl fmt::Display for Refusal {
    ghost output = { λ r. Some (words r) };

    fn fmt<W: fmt::Write>(&self, f: &mut fmt::Formatter<W>) -> fmt::Result {
        f.write_str(match self {
            Refusal::Mark => "the first line lacks the awaited mark or a version that is read",
            Refusal::Columns =>
                "a needed column is missing or named twice, or there are too many columns",
            Refusal::CellCount => "a row has another count of cells than its sheet has columns",
            Refusal::Value => "a value is outside its form or range",
            Refusal::Trailer => "a trailer is missing or wrong",
            Refusal::KeyPresent => "the key is present already",
            Refusal::Date => "a date is outside its days",
            Refusal::TitlesLimit => "the titles of the ISIN and block together pass 2,000,000",
            Refusal::Full => "no place is free",
            Refusal::NoPrice => "the ISIN has no price",
            Refusal::NoPercentage => "the tranche has no percentage",
            Refusal::NoRate => "the curve has no rate for the term",
            Refusal::NotStanding => "no line stands under the reference",
            Refusal::TooLong => "the input or the statement is too long",
        })
    }
}

impl Error for Refusal {}
