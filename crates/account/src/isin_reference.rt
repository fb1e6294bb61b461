//! The key of lines by their ISINs.
ghost use Rattle.std.specs.Ordering.{nat_cmp};
ghost use Rattle.std.specs.Prelude.{◌≡◌, ◌^◌, ◌<◌};
ghost use Rattle.register.specs.Bytes.{Bytes};
ghost use Rattle.account.specs.ByIsin.{reference_rank, isin_line_rank, FitsKey};

use crate::line::Line;
use quantities::isin::Isin;
use register::key::{Key, byte_order};
use std::cmp::Ordering;

/// An ISIN, and a reference among the lines of that ISIN.
#[derive(Clone, Copy)]
pub struct IsinReference {
    pub isin: Isin,
    pub reference: u32,
}

impl IsinReference {
    /// The key of a line.
    pub fn of_line(line: &Line) -> IsinReference
        ensures rank { reference_rank result ≡ isin_line_rank line.now }
        ensures fits { FitsKey line.now }
    {
        key_fits(&line.isin.bytes, line.reference);
        IsinReference {
            isin: line.isin,
            reference: line.reference,
        }
    }
}

// Does nothing: its contract has what the types say of a key.
fn key_fits(isin: &[u8; 12], reference: u32)
    ensures { (reference < 2 ^ 32) × Bytes 12 isin.now }
{
    let _ = byte_order(isin, isin);
}

// A function and no bare `cmp`: its contract has the bounds by which an ISIN outweighs every
// reference.
fn reference_order(left: u32, right: u32) -> Ordering
    ensures order { result ≡ nat_cmp left right }
    ensures left { left < 2 ^ 32 }
    ensures right { right < 2 ^ 32 }
{
    left.cmp(&right)
}

impl Key for IsinReference {
    ghost rank = { reference_rank };

    #[tactic(auto, using(crate::proofs::Keyed::keyed))]
    fn order(&self, other: &IsinReference) -> Ordering {
        let isins = byte_order(&self.isin.bytes, &other.isin.bytes);
        isins.then(reference_order(self.reference, other.reference))
    }
}
