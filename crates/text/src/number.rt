//! The numbers that cells spell; each has one spelling.
ghost use Rattle.std.specs.Prelude.{◌≡◌, ◌<◌, ◌≤◌, ◌≤ℤ◌, ◌-◌, ◌^◌, length, pos, neg_ℤ, IfSome, option_map, option_and_then};
ghost use Rattle.text.specs.Numbers.{digit, digits_number, within, number_in, signed_number_in};

// The digit that a byte writes.
fn digit(byte: u8) -> Option<u64>
    ensures is { result ≡ digit byte }
    ensures small { IfSome result (λ d. d < 10) }
{
    match byte {
        b'0'..=b'9' => Some(u64::from(byte - b'0')),
        _ => None,
    }
}

// So many digits write a number below 2^64, whatever they are.
const SURE_DIGITS: usize = 19;

// The number that at most 19 digits write.
#[tactic(auto, using(crate::proofs::Numbers::more, crate::proofs::Numbers::none, crate::proofs::Numbers::whole))]
fn few_digits(digits: &[u8]) -> Option<u64>
    requires { length digits.now ≤ 19 }
    ensures { result ≡ digits_number 0 digits.now }
{
    let mut number: u64 = 0;
    for byte in digits {
        number = number * 10 + digit(*byte)?;
    }
    Some(number)
}

// The number that digits write, if it is below 2^64.
#[tactic(auto, using(crate::proofs::Numbers::more, crate::proofs::Numbers::none, crate::proofs::Numbers::whole))]
fn many_digits(digits: &[u8]) -> Option<u64>
    ensures { result ≡ option_and_then (within 0 (2 ^ 64 - 1)) (digits_number 0 digits.now) }
{
    let mut number: u64 = 0;
    for byte in digits {
        let digit = digit(*byte)?;
        number = number.checked_mul(10)?.checked_add(digit)?;
    }
    Some(number)
}

/// The whole number from `low` to `high` that a cell spells.
pub fn number(cell: &[u8], low: u64, high: u64) -> Option<u64>
    ensures is { result ≡ number_in low high cell.now }
    ensures within { IfSome result (λ n. (low ≤ n) × (n ≤ high)) }
{
    if let [] | [b'0', _, ..] = cell {
        return None;
    }
    let number = if cell.len() <= SURE_DIGITS {
        few_digits(cell)?
    } else {
        many_digits(cell)?
    };
    (low..=high).contains(&number).then_some(number)
}

// The whole number from `low` to 2^32 - 1 that a cell spells.
fn short_number(cell: &[u8], low: u64) -> Option<i64>
    ensures { result ≡ option_map pos (number_in low (2 ^ 32 - 1) cell.now) }
{
    let number = number(cell, low, u64::from(u32::MAX))?;
    i64::try_from(number).ok()
}

// The number that a cell spells if its digits write one below 2^32.
fn short_signed_number(cell: &[u8]) -> Option<i64>
    ensures { result ≡ signed_number_in (neg_ℤ (pos (2 ^ 32 - 1))) (pos (2 ^ 32 - 1)) cell.now }
{
    match cell.strip_prefix(b"-") {
        Some(digits) => Some(-short_number(digits, 1)?),
        None => short_number(cell, 0),
    }
}

/// The number from `low` to `high` that a cell spells, with a minus before a negative one.
pub fn signed_number(cell: &[u8], low: i32, high: i32) -> Option<i32>
    ensures is { result ≡ signed_number_in low high cell.now }
    ensures within { IfSome result (λ n. (low ≤ℤ n) × (n ≤ℤ high)) }
{
    let signed = i32::try_from(short_signed_number(cell)?).ok()?;
    (low..=high).contains(&signed).then_some(signed)
}
