//! Keys, and the order in which records stand.
ghost use Rattle.std.specs.Prelude.{◌≡◌, ℕ, ◌+◌, ◌*◌, ◌^◌};
ghost use Rattle.register.specs.Bytes.{value, Bytes, ByteOrder};
ghost use Rattle.register.specs.Keys.{Compares};

use std::cmp::Ordering;

/// What tells records apart, with a total order that a rank gives.
pub trait Key: Copy {
    ghost rank: { Self → ℕ };

    /// How the key stands to another: by their ranks, and equal only where they are one key.
    fn order(&self, other: &Self) -> Ordering
        ensures { Compares rank self.now other.now result };
}

// Each key has a body of its own: to a default one twelve bytes are numbers of any size,
// which have no such rank.
impl Key for u8 {
    ghost rank = { λ k. k };

    fn order(&self, other: &u8) -> Ordering {
        self.cmp(other)
    }
}

impl Key for u16 {
    ghost rank = { λ k. k };

    fn order(&self, other: &u16) -> Ordering {
        self.cmp(other)
    }
}

impl Key for u32 {
    ghost rank = { λ k. k };

    fn order(&self, other: &u32) -> Ordering {
        self.cmp(other)
    }
}

/// Twelve bytes, in byte order.
impl Key for [u8; 12] {
    ghost rank = { λ k. value 0 k };

    fn order(&self, other: &[u8; 12]) -> Ordering {
        byte_order(self, other)
    }
}

// The first eight bytes and the last four, each as a number.
fn big_endian_words(key: &[u8; 12]) -> (u64, u32)
    ensures { value 0 key.now ≡ result.0 * 2 ^ 32 + result.1 }
{
    let [a, b, c, d, e, f, g, h, i, j, k, l] = *key;
    (
        u64::from_be_bytes([a, b, c, d, e, f, g, h]),
        u32::from_be_bytes([i, j, k, l]),
    )
}

// A function and no bare `cmp`: its contract is the rank, which the library's order does not have.
/// Compares two keys of twelve bytes: the first byte in which they differ decides.
pub fn byte_order(left: &[u8; 12], right: &[u8; 12]) -> Ordering
    ensures order { Compares (value 0) left.now right.now result }
    ensures bytes { (Bytes 12 left.now) × (Bytes 12 right.now) }
    ensures agrees { ByteOrder 12 }
{
    let (first, last) = big_endian_words(left);
    let (other_first, other_last) = big_endian_words(right);
    first.cmp(&other_first).then(last.cmp(&other_last))
}
