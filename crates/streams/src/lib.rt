//! Reading and writing, with what is known where a stream fails.
#![tactic(auto)]

ghost use Rattle.std.specs.Prelude.{◌≡◌, take, IfOk, IfSome};
ghost use Rattle.streams.specs.Streams.{Fills, TakesAtMost, Prints};

use std::alloc::Global;
use std::io;
use std::io::{ErrorKind, Read, Write};

// Reads until the room is full or nothing is left: answers how many bytes were read.
fn fill<R: Read>(input: &mut R, room: &mut [u8]) -> io::Result<usize>
    ensures { Fills (R.remaining input.old) (R.remaining input.new) room.new result }
{
    let mut filled = 0;
    'reads: for _ in 0..u64::MAX {
        if filled >= room.len() {
            return Ok(filled);
        }
        match input.read(&mut room[filled..]) {
            Ok(0) => return Ok(filled),
            Ok(n) => filled += n,
            Err(error) => {
                if error.kind() != ErrorKind::Interrupted {
                    return Err(error);
                }
            }
        }
    }
    Err(ErrorKind::TimedOut.into())
}

/// Reads an input, and of a longer one only so many bytes.
pub fn read_at_most<R: Read>(alloc: Global, input: &mut R, most: usize) -> io::Result<Vec<u8>>
    ensures few { TakesAtMost most (R.remaining input.old) (R.remaining input.new) }
    ensures front { IfOk result (λ bytes. IfSome (R.remaining input.old)
        (λ left. bytes.items ≡ take most left)) }
{
    let mut bytes = vec![in alloc; 0; most]?;
    let len = fill(input, bytes.as_mut_slice())?;
    bytes.truncate(len);
    Ok(bytes)
}

/// Writes a text.
pub fn print<W: Write>(out: &mut W, text: &[u8]) -> io::Result<()>
    ensures { Prints (W.contents out.old) (W.contents out.new) text.now result }
{
    let mut printed = 0;
    'writes: for _ in 0..u64::MAX {
        if printed >= text.len() {
            return out.flush();
        }
        match out.write(&text[printed..]) {
            Ok(0) => return Err(ErrorKind::WriteZero.into()),
            Ok(n) => printed += n,
            Err(error) => {
                if error.kind() != ErrorKind::Interrupted {
                    return Err(error);
                }
            }
        }
    }
    Err(ErrorKind::TimedOut.into())
}
