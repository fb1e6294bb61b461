//! Bytes parted at a separator.
ghost use Rattle.std.specs.Prelude.{◌≡◌, ◌<◌, ◌∷◌, ◌==◌, length, IfSome};
ghost use Rattle.std.specs.List.{position};
ghost use Rattle.text.specs.Parts.{parts, parts_after};

use crate::window::{WINDOW, lowest, marks};

// The place of the first separator, which is most often among the bytes in front.
pub(crate) fn position(bytes: &[u8], separator: u8) -> Option<usize>
    ensures { result ≡ position (λ b. b == separator) bytes.now }
{
    if bytes.len() >= WINDOW {
        let marks = marks(bytes, separator);
        if marks != 0 {
            return Some(lowest(marks));
        }
    }
    bytes.iter().position(|&b| b == separator)
}

/// The first part, and what follows its separator if there is one.
#[tactic(auto, using(crate::proofs::Parts::first_ends, crate::proofs::Parts::only_one))]
pub(crate) fn next_part(bytes: &[u8], separator: u8) -> (&[u8], Option<&[u8]>)
    ensures parts { parts separator bytes.now ≡ result.0.now ∷ parts_after separator result.1 }
    ensures shorter { IfSome result.1 (λ r. length r.now < length bytes.now) }
{
    match position(bytes, separator) {
        Some(end) => (&bytes[..end], Some(&bytes[end + 1..])),
        None => (bytes, None),
    }
}
