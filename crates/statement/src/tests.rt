//! Whole statements, in buffers around their length.
use crate::text::write_statement;
use account::margin::Margin;
use account::row::Row;
use account::scenario::Scenario;
use account::scope::Scope;
use quantities::isin::Isin;
use quantities::refusal::Refusal;

const LONG_BOND: Isin = Isin {
    bytes: *b"ES0000001018",
};

const SHORT_BOND: Isin = Isin {
    bytes: *b"ES0000002024",
};

const ROWS: [Row; 3] = [
    Row {
        isin: LONG_BOND,
        scope: Scope::Trades(Scenario::AfterNext),
        initial_margin: 2_020_000,
        variation_margin: 1_000_000,
    },
    Row {
        isin: LONG_BOND,
        scope: Scope::CashOnlyLines,
        initial_margin: 2_500,
        variation_margin: 0,
    },
    Row {
        isin: SHORT_BOND,
        scope: Scope::FailedLines,
        initial_margin: 1_500,
        variation_margin: -1,
    },
];

const MARGIN: Margin = Margin {
    cents: 1_024_001,
    rounded_amounts: 6,
};

const STATEMENT: &[u8] = b"STM;1
ISIN;BLOCK;SCEN;IM;VM
ES0000001018;T;3;2020000;1000000
ES0000001018;C;0;2500;0
ES0000002024;F;0;1500;-1
TOTAL;1024001;6
END;3
";

const EMPTY: &[u8] = b"STM;1
ISIN;BLOCK;SCEN;IM;VM
TOTAL;0;0
END;0
";

#[test]
fn a_statement_is_written_and_the_rest_kept(rt: HostRuntime) {
    let mut buffer = [b'#'; 200];
    assert_eq!(rt;
        write_statement(&ROWS, MARGIN, &mut buffer),
        Ok(STATEMENT.len())
    );
    assert!(rt; buffer.starts_with(STATEMENT));
    assert!(rt; buffer[STATEMENT.len()..].iter().all(|&byte| byte == b'#'));
}

#[test]
fn a_statement_without_rows_is_written(rt: HostRuntime) {
    let none = Margin {
        cents: 0,
        rounded_amounts: 0,
    };
    let mut buffer = [b'#'; 44];
    assert_eq!(rt; write_statement(&[], none, &mut buffer), Ok(44));
    assert!(rt; buffer.as_slice() == EMPTY);
}

#[test]
fn a_buffer_has_room_from_the_length_on(rt: HostRuntime) {
    let mut buffer = [b'#'; 132];
    assert_eq!(rt; STATEMENT.len(), buffer.len());
    assert_eq!(rt;
        write_statement(&ROWS, MARGIN, &mut buffer[1..]),
        Err(Refusal::TooLong)
    );
    assert!(rt; buffer.iter().all(|&byte| byte == b'#'));
    assert_eq!(rt;
        write_statement(&ROWS, MARGIN, &mut []),
        Err(Refusal::TooLong)
    );
    assert_eq!(rt; write_statement(&ROWS, MARGIN, &mut buffer), Ok(132));
    assert!(rt; buffer.as_slice() == STATEMENT);
}

#[test]
fn the_largest_amounts_have_room_in_a_line(rt: HostRuntime) {
    let row = Row {
        isin: SHORT_BOND,
        scope: Scope::HeldLines,
        initial_margin: u64::MAX,
        variation_margin: i64::MIN,
    };
    let margin = Margin {
        cents: u64::MAX,
        rounded_amounts: u32::MAX,
    };
    let text = b"STM;1
ISIN;BLOCK;SCEN;IM;VM
ES0000002024;H;0;18446744073709551615;-9223372036854775808
TOTAL;18446744073709551615;4294967295
END;1
";
    let mut buffer = [b'#'; 131];
    assert_eq!(rt;
        write_statement(&[row], margin, &mut buffer),
        Ok(text.len())
    );
    assert!(rt; buffer.starts_with(text));
}
