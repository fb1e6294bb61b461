//! What the samples of a book and of a run share.
use quantities::date::Date;
use quantities::isin::Isin;

pub(crate) const TODAY: Date = 9_000;

// A prime that divides no sample's number of lines.
pub(crate) const STEP: u32 = 7_919;

fn with_check(digits: [u8; 12], check: u8) -> Isin {
    let mut bytes = digits;
    bytes[11] = check;
    Isin { bytes }
}

/// The ISIN of country XS whose nine digits are the number's last nine.
pub(crate) fn sample_isin(number: u32) -> Isin {
    let mut bytes = *b"XS0000000000";
    let mut rest = number;
    for digit in bytes[2..11].iter_mut().rev() {
        *digit = b'0' + (rest % 10) as u8;
        rest /= 10;
    }
    // One of the ten check digits is right; were none, the market would refuse the ISIN.
    (b'0'..=b'9')
        .map(|check| with_check(bytes, check))
        .find(|isin| isin.is_valid())
        .unwrap_or(Isin { bytes })
}

/// The reference of a place among so many: each comes once, and they come in no order.
pub(crate) fn sample_reference(place: u32, places: u32) -> u32 {
    1 + place.wrapping_mul(STEP).checked_rem(places).unwrap_or(0)
}
