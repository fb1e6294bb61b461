mod kinds;

use crate::input::Input;
use crate::refusal::SheetRefusal;
use kinds::{Lot, Lots};
use quantities::refusal::Refusal;

/// The number of a refusal, its line and its cell.
fn numbers_of(refusal: SheetRefusal) -> (u8, usize, usize) {
    (refusal.refusal.number(), refusal.line, refusal.cell)
}

const ACCEPTED: (u8, usize, usize) = (0, 0, 0);

/// What the opening of a sheet is refused.
fn opened(sheet: &[u8]) -> (u8, usize, usize) {
    match Input::new(sheet).open::<Lots>() {
        Ok(lots) => {
            lots.give_up();
            ACCEPTED
        }
        Err(refusal) => numbers_of(refusal),
    }
}

/// What the first row of a sheet is refused.
fn first_row(sheet: &[u8]) -> (u8, usize, usize) {
    match Input::new(sheet).open::<Lots>() {
        Ok(mut lots) => {
            let row = lots.row();
            lots.give_up();
            match row {
                Ok(_) => ACCEPTED,
                Err(refusal) => numbers_of(refusal),
            }
        }
        Err(refusal) => numbers_of(refusal),
    }
}

/// What the trailer of a sheet of one row is refused.
fn closed(sheet: &[u8]) -> (u8, usize, usize) {
    match Input::new(sheet).open::<Lots>() {
        Ok(mut lots) => {
            let row = lots.row();
            let after = lots.close();
            match (row, after) {
                (Ok(Some(_)), Ok(_)) => ACCEPTED,
                (Ok(_), Err(refusal)) => numbers_of(refusal),
                (Err(refusal), _) => numbers_of(refusal),
                (Ok(None), Ok(_)) => (99, 0, 0),
            }
        }
        Err(refusal) => numbers_of(refusal),
    }
}

/// The first row of a sheet.
fn lot(sheet: &[u8]) -> Option<Lot> {
    let mut lots = Input::new(sheet).open::<Lots>().ok()?;
    let row = lots.row();
    lots.give_up();
    row.ok()?
}

#[test]
fn a_first_line_has_the_mark_and_a_version_from_1_to_255(rt: HostRuntime) {
    assert_eq!(rt; opened(b"LOT;1\nTITLES;PRICE\n"), ACCEPTED);
    assert_eq!(rt; opened(b"LOT;255\nTITLES;PRICE\n"), ACCEPTED);
    assert_eq!(rt; opened(b"LOT;0\nTITLES;PRICE\n"), (1, 1, 0));
    assert_eq!(rt; opened(b"LOT;256\nTITLES;PRICE\n"), (1, 1, 0));
    assert_eq!(rt; opened(b"LOT;01\nTITLES;PRICE\n"), (1, 1, 0));
    assert_eq!(rt; opened(b"LOT\nTITLES;PRICE\n"), (1, 1, 0));
    assert_eq!(rt; opened(b"LOT;1;\nTITLES;PRICE\n"), (1, 1, 0));
    assert_eq!(rt; opened(b"DAY;1\nTITLES;PRICE\n"), (1, 1, 0));
    assert_eq!(rt; opened(b"LOT;1"), (1, 1, 0));
    assert_eq!(rt; opened(b""), (1, 1, 0));
}

#[test]
fn each_needed_name_stands_once_among_at_most_32(rt: HostRuntime) {
    assert_eq!(rt; opened(b"LOT;1\n"), (2, 2, 0));
    assert_eq!(rt; opened(b"LOT;1\nTITLES;PRICE"), (2, 2, 0));
    assert_eq!(rt; opened(b"LOT;1\nTITLES\n"), (2, 2, 0));
    assert_eq!(rt; opened(b"LOT;1\nTITLES;PRICE;TITLES\n"), (2, 2, 0));
    assert_eq!(rt; opened(b"LOT;1\nNOTE;TITLES;;NOTE;PRICE;;\n"), ACCEPTED);
    assert_eq!(rt;
        opened(b"LOT;1\nTITLES;PRICE;;;;;;;;;;;;;;;;;;;;;;;;;;;;;;\n"),
        ACCEPTED
    );
    assert_eq!(rt;
        opened(b"LOT;1\nTITLES;PRICE;;;;;;;;;;;;;;;;;;;;;;;;;;;;;;;\n"),
        (2, 2, 0)
    );
}

#[test]
fn a_row_has_a_cell_for_each_column(rt: HostRuntime) {
    assert_eq!(rt; first_row(b"LOT;1\nTITLES;NOTE;PRICE\n7;;5\n"), ACCEPTED);
    assert_eq!(rt; first_row(b"LOT;1\nTITLES;NOTE;PRICE\n7;5\n"), (3, 3, 0));
    assert_eq!(rt; first_row(b"LOT;1\nTITLES;NOTE;PRICE\n7;;5;\n"), (3, 3, 0));
    assert_eq!(rt; first_row(b"LOT;1\nTITLES;NOTE;PRICE\n\n"), (3, 3, 0));
    assert_eq!(rt;
        first_row(b"LOT;1\nTITLES;PRICE\n;;;;;;;;;;;;;;;;;;;;;;;;;;;;;;;;;;;;;;;;\n"),
        (3, 3, 0)
    );
}

#[test]
fn the_leftmost_misfit_is_told(rt: HostRuntime) {
    assert_eq!(rt;
        first_row(b"LOT;1\nNOTE;TITLES;NOTE;PRICE\n;0;;100\n"),
        (4, 3, 2)
    );
    assert_eq!(rt;
        first_row(b"LOT;1\nNOTE;TITLES;NOTE;PRICE\n;1;;100\n"),
        (4, 3, 4)
    );
    assert_eq!(rt;
        first_row(b"LOT;1\nNOTE;PRICE;NOTE;TITLES\n;100;;0\n"),
        (4, 3, 2)
    );
    assert_eq!(rt;
        first_row(b"LOT;1\nNOTE;PRICE;NOTE;TITLES\n;99;;0\n"),
        (4, 3, 4)
    );
}

#[test]
fn in_whatever_order_the_columns_stand_the_row_is_one(rt: HostRuntime) {
    let seven = Some(Lot {
        titles: 7,
        price: 5,
    });
    assert!(rt; lot(b"LOT;1\nTITLES;PRICE\n7;5\n") == seven);
    assert!(rt; lot(b"LOT;2\nPRICE;TITLES\n5;7\n") == seven);
    assert!(rt; lot(b"LOT;3\n;PRICE;NOTE;NOTE;TITLES\nEND;5;0;x;7\n") == None);
    assert!(rt; lot(b"LOT;3\n;PRICE;NOTE;NOTE;TITLES\n;5;END;x;7\n") == seven);
}

#[test]
fn a_trailer_counts_the_rows(rt: HostRuntime) {
    assert_eq!(rt; closed(b"LOT;1\nTITLES;PRICE\n7;5\nEND;1\n"), ACCEPTED);
    assert_eq!(rt; closed(b"LOT;1\nTITLES;PRICE\n7;5\nEND;0\n"), (5, 4, 0));
    assert_eq!(rt; closed(b"LOT;1\nTITLES;PRICE\n7;5\nEND;2\n"), (5, 4, 0));
    assert_eq!(rt; closed(b"LOT;1\nTITLES;PRICE\n7;5\nEND;01\n"), (5, 4, 0));
    assert_eq!(rt; closed(b"LOT;1\nTITLES;PRICE\n7;5\nEND;1;\n"), (5, 4, 0));
    assert_eq!(rt; closed(b"LOT;1\nTITLES;PRICE\n7;5\nEND\n"), (5, 4, 0));
    assert_eq!(rt; closed(b"LOT;1\nTITLES;PRICE\n7;5\nEND;1"), (5, 4, 0));
    assert_eq!(rt;
        closed(b"LOT;1\nTITLES;PRICE\n7;5\n8;5\nEND;1\n"),
        (5, 4, 0)
    );
    assert_eq!(rt; closed(b"LOT;1\nTITLES;PRICE\nEND;0\n"), (99, 0, 0));
}

/// The numbers of a sheet's first line, its row's line and its trailer's, and how many rows it has.
#[derive(Clone, Copy, PartialEq)]
struct Numbers {
    first: usize,
    row: usize,
    trailer: usize,
    rows: usize,
}

/// Reads a sheet of one row to its end, and asks for rows behind the last;
/// none where that goes otherwise.
fn read_one<'a>(input: &Input<'a>) -> Option<(Numbers, Input<'a>)> {
    let mut lots = input.open::<Lots>().ok()?;
    let row_line = lots.line();
    let asked = (lots.row(), lots.row(), lots.row());
    let numbers = Numbers {
        first: input.line(),
        row: row_line,
        trailer: lots.line(),
        rows: lots.rows(),
    };
    let after = lots.close().ok()?;
    match asked {
        (Ok(Some(_)), Ok(None), Ok(None)) => Some((numbers, after)),
        _ => None,
    }
}

#[test]
fn a_second_sheet_is_read_on_from_the_first(rt: HostRuntime) {
    let input = Input::new(
        b"LOT;1\nTITLES;PRICE\n7;5\nEND;1\nLOT;2\nPRICE;TITLES\n5;7\nEND;1\nrest",
    );
    let Some((first, between)) = read_one(&input) else {
        panic!(rt; "the first sheet");
    };
    assert!(rt;
        first
            == Numbers {
                first: 1,
                row: 3,
                trailer: 4,
                rows: 1
            }
    );
    assert!(rt; !between.is_empty());
    let Some((second, after)) = read_one(&between) else {
        panic!(rt; "the second sheet");
    };
    assert!(rt;
        second
            == Numbers {
                first: 5,
                row: 7,
                trailer: 8,
                rows: 1
            }
    );
    assert_eq!(rt; after.line(), 9);
    assert!(rt; !after.is_empty());
    assert!(rt; Input::new(b"").is_empty());
}
