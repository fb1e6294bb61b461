//! Runs as large as they may be, and one row larger.
use super::calls::print_run;
use quantities::isin::Isin;
use std::io::Write;
use std::test::Fail;

const ABOVE_POINTS: &str = "DAY;1
TODAY;NEXT;MODE;CURVE
9000;9001;N;S
END;1
PAR;1
TRANCHE;PCT
4;200
END;1
CRV;1
TERM;RATE
";

// An ISIN of a number.
fn isin_of(number: u32) -> Isin {
    let mut bytes = *b"XS0000000000";
    let mut rest = number;
    for digit in bytes[2..11].iter_mut().rev() {
        *digit = b'0' + (rest % 10) as u8;
        rest /= 10;
    }
    let mut isin = Isin { bytes };
    for check in b'0'..=b'9' {
        if isin.is_valid() {
            break;
        }
        isin.bytes[11] = check;
    }
    isin
}

// What stands behind the ISIN of a line: four lines of an ISIN are of four blocks.
fn rest_of_line(number: u32) -> &'static str {
    match number % 4 {
        0 => "B;T;1000;100000000;9101",
        1 => "B;F;3;300000;9000",
        2 => "S;H;7;0;9000",
        _ => "B;C;0;2500;9000",
    }
}

// A run of so many points of the curve, prices and lines, four lines to an ISIN.
fn large_run(rt: &HostRuntime, points: u32, prices: u32, lines: u32) -> Result<Vec<u8>, Fail> {
    let mut text = Vec::new(rt.alloc());
    write!(text, "{ABOVE_POINTS}")?;
    for place in 0..points {
        let term = 364 - place % 300;
        writeln!(text, "{term};360")?;
    }
    write!(text, "END;{points}\nPRC;1\nISIN;PRICE;MATURITY\n")?;
    for place in 0..prices {
        let isin = isin_of(place);
        writeln!(text, "{isin};1000000;11000")?;
    }
    write!(
        text,
        "END;{prices}\nPOS;1\nREF;ISIN;SIDE;BLOCK;TITLES;CASH;DATE\n"
    )?;
    for place in 0..lines {
        let isin = isin_of(place / 4);
        let reference = u64::from(place) + 1;
        let rest = rest_of_line(place);
        writeln!(text, "{reference};{isin};{rest}")?;
    }
    writeln!(text, "END;{lines}")?;
    Ok(text)
}

#[test]
fn a_statement_has_up_to_1_024_rows(rt: HostRuntime) -> Result<(), Fail> {
    let sheets = large_run(&rt, 64, 256, 1_024)?;
    let (out, err) = print_run(&rt, sheets.as_slice())?;
    let mut statement = Vec::new(rt.alloc());
    write!(statement, "STM;1\nISIN;BLOCK;SCEN;IM;VM\n")?;
    for place in 0..256 {
        let isin = isin_of(place);
        write!(
            statement,
            "{isin};T;1;2000000;990099\n{isin};F;0;6000;0\n{isin};H;0;14000;-700000\n{isin};C;0;2500;0\n"
        )?;
    }
    write!(statement, "TOTAL;443494656;1792\nEND;1024\n")?;
    assert!(rt; out.as_slice() == statement.as_slice());
    assert!(rt; err.is_empty());
    Ok(())
}

#[test]
fn a_row_for_which_no_place_is_free_is_told(rt: HostRuntime) -> Result<(), Fail> {
    for (points, prices, lines, refused, words) in [
        (
            65,
            1,
            1,
            "REFUSED;9;2;75;0;0\n",
            "curve line 75: a curve has at most 64 points\n",
        ),
        (
            64,
            257,
            1,
            "REFUSED;9;2;334;0;0\n",
            "price line 334: a run has at most 256 prices\n",
        ),
        (
            1,
            256,
            1_025,
            "REFUSED;9;2;1298;0;1025\n",
            "position line 1298, reference 1025: a run has at most 1,024 positions\n",
        ),
    ] {
        let sheets = large_run(&rt, points, prices, lines)?;
        let (out, err) = print_run(&rt, sheets.as_slice())?;
        assert!(rt; out.as_slice() == refused.as_bytes(), "{refused}");
        assert!(rt; err.as_slice() == words.as_bytes(), "{words}");
    }
    Ok(())
}
