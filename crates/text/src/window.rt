//! The 64 bytes in front, looked at together: which of them are a separator.
ghost use Rattle.std.specs.Prelude.{◌≡◌, ◌≢◌, ℕ, ◌<◌, ◌≤◌, length, slice_index, if◌then◌else◌, ◌==◌};
ghost use Rattle.std.specs.Int.{bit_at};

use std::simd::prelude::*;

/// How many bytes are looked at together.
pub(crate) const WINDOW: usize = 64;

/// Bit k tells whether byte k is the separator.
#[inline(always)]
pub(crate) fn marks(bytes: &[u8], separator: u8) -> u64
    requires { 64 ≤ length bytes.now }
    ensures { (k : ℕ) → k < 64 →
        bit_at result k ≡ (if slice_index bytes.now k == separator then 1 else 0) }
{
    u8x64::from_slice(bytes)
        .simd_eq(u8x64::splat(separator))
        .to_bitmask()
}

/// The first bit that is set.
#[inline(always)]
pub(crate) fn lowest(marks: u64) -> usize
    requires { marks ≢ 0 }
    ensures bound { result < 64 }
    ensures set { bit_at marks result ≡ 1 }
    ensures below { (k : ℕ) → k < result → bit_at marks k ≡ 0 }
{
    marks.trailing_zeros() as usize
}

/// The marks with one bit set.
#[inline(always)]
pub(crate) fn with(marks: u64, bit: usize) -> u64
    requires { bit < 64 }
    ensures set { bit_at result bit ≡ 1 }
    ensures kept { (k : ℕ) → k ≢ bit → bit_at result k ≡ bit_at marks k }
{
    marks | (1 << bit)
}

/// The marks with one bit cleared.
#[inline(always)]
pub(crate) fn without(marks: u64, bit: usize) -> u64
    requires { bit < 64 }
    ensures cleared { bit_at result bit ≡ 0 }
    ensures kept { (k : ℕ) → k < 64 → k ≢ bit → bit_at result k ≡ bit_at marks k }
{
    marks & !(1 << bit)
}
