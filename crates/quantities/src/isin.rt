//! The ISIN of ISO 6166: two letters, nine letters or digits, and a check digit.
ghost use Rattle.std.specs.Prelude.{◌≡◌, ◌-◌, ◌<◌, ◌≤◌, if◌then◌else◌, IsTrue, [], ◌∷◌, reverse, take, drop, ℕ, length, slice_index, bytes_eq, Some};
ghost use Rattle.std.specs.Cmp.{on_equiv, on_per, partial_equiv_from_equiv};
ghost use Rattle.std.specs.Cmp.Lexicographic.{nat_list_eq_equiv};
ghost use Rattle.std.specs.Int.{w32, w64, from_le_bytes};
ghost use Rattle.std.specs.List.{list_all};
ghost use Rattle.quantities.specs.RangeChecks.{numbers_of};
ghost use Rattle.quantities.specs.Isins.{is_digit, is_letter_or_digit, isin_shaped, digits_of, with_seconds_doubled, digit_sum, check_sum, is_isin, isin_answer, isin_text};

use crate::refusal::Refusal;
use std::fmt;

/// How many bytes an ISIN has.
pub const LENGTH: usize = 12;

// What the bytes '0' to 'Z' add to the check sum: first where the last digit is not doubled, then
// where it is. An ISIN has none of the seven bytes between the digits and the letters.
const WEIGHTS: [[u8; 43]; 2] = [
    [
        0, 1, 2, 3, 4, 5, 6, 7, 8, 9, 0, 0, 0, 0, 0, 0, 0, 2, 3, 4, 5, 6, 7, 8, 9, 10, 11, 4, 5, 6,
        7, 8, 9, 10, 11, 12, 13, 6, 7, 8, 9, 10, 11,
    ],
    [
        0, 2, 4, 6, 8, 1, 3, 5, 7, 9, 0, 0, 0, 0, 0, 0, 0, 1, 3, 5, 7, 9, 2, 4, 6, 8, 10, 2, 4, 6,
        8, 10, 3, 5, 7, 9, 11, 3, 5, 7, 9, 11, 4,
    ],
];

/// Twelve bytes in the place of an ISIN.
#[derive(Clone, Copy, Debug, Eq, Hash, PartialOrd, Ord)]
pub struct Isin {
    pub bytes: [u8; LENGTH],
}

// The first eight bytes and the last four, each as a number.
fn little_endian_words(bytes: &[u8; LENGTH]) -> (u64, u32)
    ensures first { result.0 ≡ from_le_bytes w64 (take 8 bytes.now) }
    ensures last { result.1 ≡ from_le_bytes w32 (drop 8 bytes.now) }
    ensures count { length bytes.now ≡ 12 }
    ensures small { (i : ℕ) → slice_index bytes.now i < 256 }
{
    let [a, b, c, d, e, f, g, h, i, j, k, l] = *bytes;
    (
        u64::from_le_bytes([a, b, c, d, e, f, g, h]),
        u32::from_le_bytes([i, j, k, l]),
    )
}

// By words: the derived test calls the library's comparison of slices.
impl PartialEq for Isin {
    ghost eq = { λ i j. bytes_eq i.bytes j.bytes };

    ghost laws = { on_per (λ i. i.bytes) (partial_equiv_from_equiv nat_list_eq_equiv) };

    fn eq(&self, other: &Isin) -> bool {
        little_endian_words(&self.bytes) == little_endian_words(&other.bytes)
    }
}

// Looks at every byte: an end at the first misfit would cost a branch for each.
fn all_letters_or_digits(bytes: &[u8]) -> bool
    ensures { result ≡ list_all is_letter_or_digit bytes.now }
{
    bytes.iter().fold(true, |fits, byte| {
        fits & (byte.is_ascii_uppercase() | byte.is_ascii_digit())
    })
}

fn is_shaped(bytes: &[u8; LENGTH]) -> bool
    ensures { result ≡ isin_shaped bytes.now }
{
    let country = bytes[..2].iter().all(u8::is_ascii_uppercase);
    let security = all_letters_or_digits(&bytes[2..11]);
    country && security && bytes[11].is_ascii_digit()
}

// Whether the number of a digit or a letter has one digit.
fn is_one_digit(byte: u8) -> bool
    requires { IsTrue (is_letter_or_digit byte) }
    ensures { result ≡ is_digit byte }
{
    byte <= b'9'
}

// What a digit or a letter adds to the check sum, where its last digit is doubled or not.
fn weight(byte: u8, doubled: bool) -> u32
    requires { IsTrue (is_letter_or_digit byte) }
    ensures is { let digits = reverse (digits_of (byte ∷ [])) in
        result ≡ digit_sum (with_seconds_doubled (if doubled then 0 ∷ digits else digits)) }
    ensures small { result ≤ 255 }
{
    u32::from(WEIGHTS[usize::from(doubled)][usize::from(byte - b'0')])
}

fn check_sum(bytes: &[u8; LENGTH]) -> u32
    requires { IsTrue (isin_shaped bytes.now) }
    ensures { result ≡ check_sum bytes.now }
{
    let mut sum = 0;
    let mut doubled = false;
    for &byte in bytes.iter().rev() {
        sum += weight(byte, doubled);
        // a letter is two digits, so the next digit is doubled as its last one was
        doubled = doubled != is_one_digit(byte);
    }
    sum
}

impl Isin {
    /// Whether the twelve bytes are an ISIN.
    pub fn is_valid(&self) -> bool
        ensures { result ≡ is_isin self.now.bytes }
    {
        is_shaped(&self.bytes) && check_sum(&self.bytes) % 10 == 0
    }
}

/// The ISIN that a cell holds.
impl TryFrom<&[u8]> for Isin {
    type Error = Refusal;

    ghost try_from_gives = { λ cell result.
        numbers_of (λ isin. isin.bytes) result ≡ isin_answer cell.now };

    fn try_from(cell: &[u8]) -> Result<Isin, Refusal> {
        let bytes = <[u8; LENGTH]>::try_from(cell).map_err(|_| Refusal::Value)?;
        let isin = Isin { bytes };
        if isin.is_valid() {
            Ok(isin)
        } else {
            Err(Refusal::Value)
        }
    }
}

/// The characters of its bytes.
impl fmt::Display for Isin {
    ghost output = { λ isin. Some (isin_text isin.bytes) };

    fn fmt<W: fmt::Write>(&self, f: &mut fmt::Formatter<W>) -> fmt::Result {
        for &byte in &self.bytes {
            f.write_char(char::from(byte))?;
        }
        Ok(())
    }
}
