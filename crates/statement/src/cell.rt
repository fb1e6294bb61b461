//! The bytes and numbers of a line, put straight into the memory of the statement.
ghost use Rattle.std.specs.Prelude.{◌≡◌, ◌+◌, ◌≤◌, length};
ghost use Rattle.std.specs.Fmt.{decimal, signed_decimal};
ghost use Rattle.statement.specs.Statements.{Puts};

use itoa::write_digits;

// The powers of ten that a number reaches; the least is 0, since 0 has a digit too.
const POWERS: [u64; 20] = [
    0,
    10,
    100,
    1_000,
    10_000,
    100_000,
    1_000_000,
    10_000_000,
    100_000_000,
    1_000_000_000,
    10_000_000_000,
    100_000_000_000,
    1_000_000_000_000,
    10_000_000_000_000,
    100_000_000_000_000,
    1_000_000_000_000_000,
    10_000_000_000_000_000,
    100_000_000_000_000_000,
    1_000_000_000_000_000_000,
    10_000_000_000_000_000_000,
];

/// How many digits a number has.
pub(crate) fn digits(number: u64) -> usize
    ensures size { result ≡ length (decimal number) }
    ensures bound { result ≤ 20 }
{
    // a bit is 1,233/4,096 of a digit, so this is the count or one too few
    let bits = 64 - number.leading_zeros() as usize;
    let least = bits * 1_233 / 4_096;
    least + usize::from(number >= POWERS[least])
}

/// How many bytes a signed number has.
pub(crate) fn signed_len(number: i64) -> usize
    ensures size { result ≡ length (signed_decimal number) }
    ensures bound { result ≤ 20 }
{
    digits(number.unsigned_abs()) + usize::from(number < 0)
}

/// Puts bytes at a place, and answers where they end.
pub(crate) fn put(memory: &mut [u8], at: usize, bytes: &[u8]) -> usize
    requires { at + length bytes.now ≤ length memory.old }
    ensures { Puts at bytes.now memory.old memory.new result }
{
    let end = at + bytes.len();
    memory[at..end].copy_from_slice(bytes);
    end
}

/// Puts a number at a place.
pub(crate) fn put_number(memory: &mut [u8], at: usize, number: u64) -> usize
    requires { at + length (decimal number) ≤ length memory.old }
    ensures { Puts at (decimal number) memory.old memory.new result }
{
    let end = at + digits(number);
    write_digits(number, memory, end);
    end
}

/// Puts a signed number at a place.
pub(crate) fn put_signed(memory: &mut [u8], at: usize, number: i64) -> usize
    requires { at + length (signed_decimal number) ≤ length memory.old }
    ensures { Puts at (signed_decimal number) memory.old memory.new result }
{
    let at = if number < 0 {
        put(memory, at, b"-")
    } else {
        at
    };
    put_number(memory, at, number.unsigned_abs())
}
