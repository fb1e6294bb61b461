//! The edges of every cell, and a row of each kind.
use crate::curve_shape::*;
use crate::day::*;
use crate::mode::*;
use crate::percentage::*;
use crate::point::*;
use crate::position::*;
use crate::price::*;
use account::block::Block;
use account::line::*;
use account::side::*;
use curve::point::Point;
use market::percentage::Percentage;
use market::price::Price;
use quantities::isin::Isin;
use sheet::input::Input;
use sheet::kind::RowKind;
use sheet::refusal::SheetRefusal;
use std::alloc::AllocError;

const DAY: &str = "DAY;1\nTODAY;NEXT;MODE;CURVE\n";

const PAR: &str = "PAR;1\nTRANCHE;PCT\n";

const CRV: &str = "CRV;1\nTERM;RATE\n";

const PRC: &str = "PRC;1\nISIN;PRICE;MATURITY\n";

const POS: &str = "POS;1\nREF;ISIN;SIDE;BLOCK;TITLES;CASH;DATE\n";

const BOND: Isin = Isin {
    bytes: *b"ES0000001018",
};

fn first_row<K: RowKind>(sheet: &[u8]) -> Result<Option<K::Row>, SheetRefusal> {
    let mut reading = Input::new(sheet).open::<K>()?;
    let row = reading.row();
    reading.give_up();
    row
}

// The number of the cell for which a row is refused; 0 where it is read.
fn misfit<K: RowKind>(rt: &impl Alloc, head: &str, row: &str) -> Result<usize, AllocError> {
    let sheet = format!(in rt.alloc(); "{head}{row}\n")?;
    let row = first_row::<K>(sheet.as_bytes());
    Ok(row.map_or_else(|refusal| refusal.cell, |_| 0))
}

#[test]
fn each_kind_reads_its_row(rt: HostRuntime) {
    let day = first_row::<DayRows>(b"DAY;1\nCURVE;X;TODAY;NEXT;MODE\nL;;9000;9001;G\n");
    assert_eq!(rt;
        day,
        Ok(Some(DayRow {
            today: 9000,
            next: 9001,
            mode: Mode::Gross,
            curve: CurveShape::Sloping
        }))
    );
    let percentage = first_row::<PercentageRows>(b"PAR;1\nPCT;TRANCHE\n200;4\n");
    assert_eq!(rt; percentage, Ok(Percentage::new(4, 200).ok()));
    let point = first_row::<PointRows>(b"CRV;1\nTERM;RATE\n364;-500\n");
    assert_eq!(rt; point, Ok(Point::new(364, -500).ok()));
    let price = first_row::<PriceRows>(b"PRC;1\nMATURITY;PRICE;ISIN\n11000;1010000;ES0000001018\n");
    assert_eq!(rt; price, Ok(Price::new(BOND, 1010000, 11000).ok()));
    let line = first_row::<PositionRows>(
        b"POS;1\nDATE;CASH;TITLES;BLOCK;SIDE;ISIN;REF\n9001;5;3;F;S;ES0000001018;7\n",
    );
    assert_eq!(rt;
        line,
        Ok(Some(Line {
            reference: 7,
            isin: BOND,
            side: Side::Sold,
            titles: 3,
            cash: 5,
            block: Block::Failed(9001)
        }))
    );
}

#[test]
fn days_end_where_they_should(rt: HostRuntime) -> Result<(), AllocError> {
    for (row, cell) in [
        ("0;65535;N;S", 0),
        ("65536;1;N;S", 1),
        ("00;1;N;S", 1),
        ("1;65536;N;S", 2),
        ("1;;N;S", 2),
        ("1;2;n;S", 3),
        ("1;2;NG;S", 3),
        ("1;2;G;l", 4),
        ("1;2;G;", 4),
    ] {
        assert_eq!(rt; misfit::<DayRows>(&rt, DAY, row)?, cell, "at {row}");
    }
    Ok(())
}

#[test]
fn percentages_points_and_prices_end_where_they_should(rt: HostRuntime) -> Result<(), AllocError> {
    for (row, cell) in [
        ("1;0", 0),
        ("6;10000", 0),
        ("0;0", 1),
        ("7;0", 1),
        ("1;10001", 2),
        ("1;+1", 2),
    ] {
        assert_eq!(rt; misfit::<PercentageRows>(&rt, PAR, row)?, cell, "at {row}");
    }
    for (row, cell) in [
        ("0;-500", 0),
        ("65535;3000", 0),
        ("65536;0", 1),
        ("0;-501", 2),
        ("0;3001", 2),
        ("0;-0", 2),
        ("0;-01", 2),
    ] {
        assert_eq!(rt; misfit::<PointRows>(&rt, CRV, row)?, cell, "at {row}");
    }
    for (row, cell) in [
        ("ES0000001018;1;0", 0),
        ("ES0000001018;2000000;65535", 0),
        ("ES0000001017;1;0", 1),
        ("ES000000101;1;0", 1),
        ("ES0000001018;0;0", 2),
        ("ES0000001018;2000001;0", 2),
        ("ES0000001018;1;65536", 3),
    ] {
        assert_eq!(rt; misfit::<PriceRows>(&rt, PRC, row)?, cell, "at {row}");
    }
    Ok(())
}

#[test]
fn positions_end_where_they_should(rt: HostRuntime) -> Result<(), AllocError> {
    for (row, cell) in [
        ("1;ES0000001018;B;T;1;0;0", 0),
        ("4294967295;ES0000001018;S;H;2000000;1000000000000;65535", 0),
        ("0;ES0000001018;B;T;1;0;0", 1),
        ("01;ES0000001018;B;T;1;0;0", 1),
        ("4294967296;ES0000001018;B;T;1;0;0", 1),
        ("1;ES0000001017;B;T;1;0;0", 2),
        ("1;ES0000001018;b;T;1;0;0", 3),
        ("1;ES0000001018;B;X;1;0;0", 4),
        ("1;ES0000001018;B;T;1;1000000000001;0", 6),
        ("1;ES0000001018;B;T;1;0;65536", 7),
    ] {
        assert_eq!(rt; misfit::<PositionRows>(&rt, POS, row)?, cell, "at {row}");
    }
    Ok(())
}

#[test]
fn titles_go_by_the_block(rt: HostRuntime) -> Result<(), AllocError> {
    let head = "POS;1\nTITLES;BLOCK;REF;ISIN;SIDE;CASH;DATE\n";
    for (cells, cell) in [
        ("0;C", 0),
        ("1;C", 1),
        ("0;F", 1),
        ("1;F", 0),
        ("2000000;H", 0),
        ("2000001;H", 1),
        ("0;t", 2),
        ("2000000;t", 2),
        ("2000001;t", 1),
    ] {
        let row = format!(in rt.alloc(); "{cells};1;ES0000001018;B;0;0")?;
        assert_eq!(rt;
            misfit::<PositionRows>(&rt, head, row.as_str())?,
            cell,
            "at {cells}"
        );
    }
    Ok(())
}
