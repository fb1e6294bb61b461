//! What the program reads, and what it prints.
ghost use Rattle.std.specs.Prelude.{IfSome, OnOk};
ghost use Rattle.std.specs.Io.KnownBytes.{IsAtEnd};
ghost use Rattle.streams.specs.Streams.{Prints};
ghost use Rattle.positions.specs.Listings.{listing};

use crate::listing::list_sheet;
use std::alloc::Global;
use std::io;
use std::io::{Read, Write};
use streams::print;

/// Reads a sheet to the end of the input, and prints its listing.
pub fn respond<R: Read, W: Write>(alloc: Global, input: &mut R, out: &mut W) -> io::Result<()>
    ensures printed { IfSome (R.remaining input.old)
        (λ bytes. Prints (W.contents out.old) (W.contents out.new) (listing bytes) result) }
    ensures end { OnOk result (IsAtEnd (R.remaining input.new)) }
{
    let mut sheet = Vec::new(alloc);
    input.read_to_end(&mut sheet)?;
    let mut listing = Vec::new(alloc);
    list_sheet(&mut listing, sheet.as_slice())?;
    print(out, listing.as_slice())
}
