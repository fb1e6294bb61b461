//! Listings over streams in memory.
use crate::program::respond;
use std::io;
use std::io::{ErrorKind, Read, Write};
use std::test::Fail;

const SHEET: &str = "POS;1
REF;ISIN;SIDE;BLOCK;TITLES;CASH;DATE
1;ES0000001018;B;T;1000;101000000;9101
2;ES0000002024;S;F;3;300000;8998
END;2
";

const LISTING: &str =
    "reference 1, ISIN ES0000001018, side bought, block trade, titles 1000, cash 101000000, date 9101
reference 2, ISIN ES0000002024, side sold, block failed, titles 3, cash 300000, date 8998
2 rows
";

// Gives a sheet, and then fails.
#[derive(Drop)]
struct Broken<'a> {
    left: &'a [u8],
}

impl Read for Broken<'_> {
    fn read(&mut self, buf: &mut [u8]) -> io::Result<usize> {
        let len = buf.len().min(self.left.len());
        if len == 0 {
            return Err(ErrorKind::ConnectionReset.into());
        }
        let (front, rest) = self.left.split_at(len);
        buf[..len].copy_from_slice(front);
        self.left = rest;
        Ok(len)
    }
}

#[derive(Drop)]
struct Closed;

impl Write for Closed {
    fn write(&mut self, _buf: &[u8]) -> io::Result<usize> {
        Err(ErrorKind::BrokenPipe.into())
    }

    fn flush(&mut self) -> io::Result<()> {
        Ok(())
    }
}

#[test]
fn a_sheet_is_listed_up_to_its_trailer_or_to_what_is_refused(rt: HostRuntime) -> Result<(), Fail> {
    let (first, _) = LISTING.split_once("reference 2").ok_or("no second row")?;
    let (rows, _) = LISTING.split_once("2 rows").ok_or("no count")?;
    for (old, new, rows, end) in [
        ("END", "END", rows, "2 rows\n"),
        ("POS;1", "POX;1", "", "REFUSED;1;1;0\n"),
        ("SIDE", "SIDES", "", "REFUSED;2;2;0\n"),
        ("S;F;3", "S;F;3;3", first, "REFUSED;3;4;0\n"),
        ("S;F;3", "S;F;0", first, "REFUSED;4;4;5\n"),
        ("END;2", "END;3", rows, "REFUSED;5;5;0\n"),
        ("END;2\n", "END;2", rows, "REFUSED;5;5;0\n"),
    ] {
        let sheet = SHEET.replacen(rt.alloc(), old, new, 1)?;
        let listing = format!(in rt.alloc(); "{rows}{end}")?;
        let mut out = Vec::new(rt.alloc());
        respond(rt.alloc(), &mut sheet.as_bytes(), &mut out)?;
        assert!(rt; out.as_slice() == listing.as_bytes(), "{new}");
    }
    Ok(())
}

#[test]
fn a_stream_that_fails_is_passed_on(rt: HostRuntime) {
    let mut out = Vec::new(rt.alloc());
    let mut broken = Broken {
        left: SHEET.as_bytes(),
    };
    let unread = respond(rt.alloc(), &mut broken, &mut out);
    assert!(rt; unread.is_err_and(|error| error.kind() == ErrorKind::ConnectionReset));
    assert!(rt; out.is_empty());
    let unprinted = respond(rt.alloc(), &mut SHEET.as_bytes(), &mut Closed);
    assert!(rt; unprinted.is_err_and(|error| error.kind() == ErrorKind::BrokenPipe));
}
