//! The lines of a sample book: trades, three to an ISIN.
use crate::sample::{TODAY, sample_isin, sample_reference};
use account::block::Block;
use account::line::Line;
use account::side::Side;

pub(crate) const LINES_PER_ISIN: u32 = 3;

/// The line of a place in a sample of so many lines, a power of two.
pub(crate) fn sample_line(place: u32, lines: u32) -> Line {
    let titles = 1 + place % 1_000;
    Line {
        reference: sample_reference(place, lines),
        isin: sample_isin(place / LINES_PER_ISIN),
        side: if place % 2 == 0 {
            Side::Bought
        } else {
            Side::Sold
        },
        titles,
        cash: 100_000 * u64::from(titles),
        block: Block::Trade(TODAY + (place % 366) as u16),
    }
}
