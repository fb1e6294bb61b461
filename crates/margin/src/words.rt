//! What is wrong with a cell, and with a row that the book does not take.
use crate::spot::{Sheet, Spot};
use quantities::refusal::Refusal;

/// What the cell under a name should be and is not; for titles it depends on the cell under `BLOCK`.
pub(crate) fn misfit(name: &[u8], block: &[u8]) -> &'static str {
    match name {
        b"TODAY" | b"NEXT" | b"MATURITY" | b"DATE" => "not a day number from 0 to 65,535",
        b"MODE" => "neither N for the net rule nor G for the gross rule",
        b"CURVE" => "neither S for the step curve nor L for the sloping curve",
        b"TRANCHE" => "not a whole number from 1 to 6",
        b"PCT" => "not a whole number from 0 to 10,000",
        b"TERM" => "not a whole number from 0 to 65,535",
        b"RATE" => "not a whole number from -500 to 3,000",
        b"ISIN" => "not an ISIN of twelve characters with its right check digit",
        b"PRICE" => "not a whole number from 1 to 2,000,000",
        b"REF" => "not a whole number from 1 to 4,294,967,295",
        b"SIDE" => "neither B for bought nor S for sold",
        b"BLOCK" => "none of T, F, H and C",
        b"TITLES" => titles_misfit(block),
        b"CASH" => "not a whole number from 0 to 1,000,000,000,000",
        _ => "outside its form",
    }
}

fn titles_misfit(block: &[u8]) -> &'static str {
    match block {
        b"C" => "not 0, as block C asks",
        b"T" | b"F" | b"H" => "not a whole number from 1 to 2,000,000",
        _ => "not a whole number from 0 to 2,000,000",
    }
}

// Which key a row of a sheet shares with a row before it.
fn key_taken(sheet: Sheet) -> &'static str {
    match sheet {
        Sheet::Day => "the day is given already",
        Sheet::Percentages => "its tranche has a percentage already",
        Sheet::Curve => "its term has a rate already",
        Sheet::Prices => "its ISIN has a price already",
        Sheet::Positions => "another line has its reference already",
    }
}

fn no_place(sheet: Sheet) -> &'static str {
    match sheet {
        Sheet::Day | Sheet::Percentages => "no place is free",
        Sheet::Curve => "a curve has at most 64 points",
        Sheet::Prices => "a run has at most 256 prices",
        Sheet::Positions => "a run has at most 1,024 positions",
    }
}

fn wrong_day(spot: &Spot<'_>) -> &'static str {
    match (spot.sheet, spot.under(b"BLOCK")) {
        (Sheet::Positions, b"T") => "the DATE of a trade is not from TODAY to 365 days later",
        (Sheet::Positions, _) => "the DATE of a line that is no trade is after TODAY",
        _ => "NEXT is not 1 to 10 days after TODAY",
    }
}

/// Why the book does not take the row of a spot.
pub(crate) fn turned_away(spot: &Spot<'_>, refusal: Refusal) -> &'static str {
    match refusal {
        Refusal::KeyPresent => key_taken(spot.sheet),
        Refusal::Date => wrong_day(spot),
        Refusal::TitlesLimit => "the titles of its ISIN and block are together over 2,000,000",
        Refusal::Full => no_place(spot.sheet),
        _ => "a value is outside its range",
    }
}
