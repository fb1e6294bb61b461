//! The edges of lines, cells and numbers.
use crate::cell::*;
use crate::ends::*;
use crate::line::*;
use crate::number::*;

const MOST: u64 = u64::MAX;

#[test]
fn a_line_ends_at_its_line_feed(rt: HostRuntime) {
    let text = b"A;1\n\nrest".as_slice();
    assert_eq!(rt;
        next_line(text),
        Some((b"A;1".as_slice(), b"\nrest".as_slice()))
    );
    assert_eq!(rt;
        next_line(b"\nrest".as_slice()),
        Some((b"".as_slice(), b"rest".as_slice()))
    );
    assert_eq!(rt; next_line(b"rest".as_slice()), None);
    assert_eq!(rt; next_line(b"".as_slice()), None);
}

#[test]
fn cells_may_be_empty(rt: HostRuntime) {
    assert_eq!(rt;
        next_cell(b"A;1".as_slice()),
        (b"A".as_slice(), Some(b"1".as_slice()))
    );
    assert_eq!(rt; next_cell(b"A".as_slice()), (b"A".as_slice(), None));
    assert_eq!(rt;
        next_cell(b";".as_slice()),
        (b"".as_slice(), Some(b"".as_slice()))
    );
    assert_eq!(rt; next_cell(b"".as_slice()), (b"".as_slice(), None));
    assert_eq!(rt;
        two_cells(b"A;1".as_slice()),
        Some((b"A".as_slice(), b"1".as_slice()))
    );
    assert_eq!(rt;
        two_cells(b";".as_slice()),
        Some((b"".as_slice(), b"".as_slice()))
    );
    assert_eq!(rt; two_cells(b"A".as_slice()), None);
    assert_eq!(rt; two_cells(b"A;1;".as_slice()), None);
}

#[test]
fn a_number_has_one_spelling(rt: HostRuntime) {
    assert_eq!(rt; number(b"0".as_slice(), 0, MOST), Some(0));
    assert_eq!(rt; number(b"10".as_slice(), 0, MOST), Some(10));
    assert_eq!(rt; number(b"01".as_slice(), 0, MOST), None);
    assert_eq!(rt; number(b"00".as_slice(), 0, MOST), None);
    assert_eq!(rt; number(b"+1".as_slice(), 0, MOST), None);
    assert_eq!(rt; number(b"-0".as_slice(), 0, MOST), None);
    assert_eq!(rt; number(b"1:".as_slice(), 0, MOST), None);
    assert_eq!(rt; number(b"".as_slice(), 0, MOST), None);
}

#[test]
fn numbers_end_where_they_should(rt: HostRuntime) {
    assert_eq!(rt;
        number(b"18446744073709551615".as_slice(), 0, MOST),
        Some(MOST)
    );
    assert_eq!(rt; number(b"18446744073709551616".as_slice(), 0, MOST), None);
    assert_eq!(rt; number(b"20000000000000000000".as_slice(), 0, MOST), None);
    assert_eq!(rt; number(b"1".as_slice(), 2, 3), None);
    assert_eq!(rt; number(b"2".as_slice(), 2, 3), Some(2));
    assert_eq!(rt; number(b"3".as_slice(), 2, 3), Some(3));
    assert_eq!(rt; number(b"4".as_slice(), 2, 3), None);
    assert_eq!(rt; number(b"3".as_slice(), 4, 2), None);
}

#[test]
fn a_minus_stands_before_a_negative_number(rt: HostRuntime) {
    assert_eq!(rt; signed_number(b"-501".as_slice(), -500, 3_000), None);
    assert_eq!(rt; signed_number(b"-500".as_slice(), -500, 3_000), Some(-500));
    assert_eq!(rt; signed_number(b"0".as_slice(), -500, 3_000), Some(0));
    assert_eq!(rt; signed_number(b"3000".as_slice(), -500, 3_000), Some(3_000));
    assert_eq!(rt; signed_number(b"3001".as_slice(), -500, 3_000), None);
    assert_eq!(rt; signed_number(b"-0".as_slice(), -500, 3_000), None);
    assert_eq!(rt; signed_number(b"-01".as_slice(), -500, 3_000), None);
    assert_eq!(rt; signed_number(b"--1".as_slice(), -500, 3_000), None);
    assert_eq!(rt; signed_number(b"-".as_slice(), -500, 3_000), None);
    assert_eq!(rt;
        signed_number(b"-2147483648".as_slice(), i32::MIN, i32::MAX),
        Some(i32::MIN)
    );
    assert_eq!(rt;
        signed_number(b"-2147483649".as_slice(), i32::MIN, i32::MAX),
        None
    );
    assert_eq!(rt;
        signed_number(b"2147483648".as_slice(), i32::MIN, i32::MAX),
        None
    );
}

/// Whether the cells of the line before the place end there; none where the room is too small.
fn ends_are(text: &[u8], end: usize, ends: Option<&[usize]>) -> bool {
    let mut room = [0; 4];
    let count = cell_ends(text, end, &mut room);
    end <= text.len() && count.and_then(|count| room.get(..count)) == ends
}

#[test]
fn cells_end_before_their_semicolons(rt: HostRuntime) {
    let short = b"12;;B\n7".as_slice();
    assert!(rt; ends_are(short, 5, Some([2, 3, 5].as_slice())));
    assert!(rt; ends_are(short, 3, Some([2, 3].as_slice())));
    assert!(rt; ends_are(short, 0, Some([0].as_slice())));
    assert!(rt; ends_are(b";;;".as_slice(), 3, Some([0, 1, 2, 3].as_slice())));
    assert!(rt; ends_are(b";;;;".as_slice(), 4, None));
}

#[test]
fn cells_end_so_too_where_many_bytes_follow(rt: HostRuntime) {
    let long =
        b"12;;B\n7;;;;;;;;;;;;;;;;;;;;;;;;;;;;;;;;;;;;;;;;;;;;;;;;;;;;;;;;;;;;;;8;9;\n".as_slice();
    assert!(rt; ends_are(long, 5, Some([2, 3, 5].as_slice())));
    assert!(rt; ends_are(long, 0, Some([0].as_slice())));
    assert!(rt; ends_are(long, 8, Some([2, 3, 7, 8].as_slice())));
    assert!(rt; ends_are(long, 9, None));
    assert!(rt; ends_are(long, long.len(), None));
}
