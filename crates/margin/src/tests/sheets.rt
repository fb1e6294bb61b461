//! A run with its statement, and edits of the run that are refused.

/// Five sheets.
pub const RUN: &str = "DAY;1
TODAY;NEXT;MODE;CURVE
9000;9001;N;S
END;1
PAR;1
TRANCHE;PCT
1;50
4;200
END;2
CRV;1
TERM;RATE
364;360
END;1
PRC;1
ISIN;PRICE;MATURITY
ES0000001018;1010000;11000
ES0000002024;999999;9100
END;2
POS;2
REF;ISIN;SIDE;BLOCK;TRADED;TITLES;CASH;DATE
1;ES0000001018;B;T;1500;1000;101000000;9101
2;ES0000001018;S;T;400;400;40400000;9001
3;ES0000002024;B;F;9;3;300000;8998
4;ES0000001018;B;C;;0;2500;9000
END;4
";

/// The same with its columns in another order, and others among them.
pub const SHUFFLED: &str = "DAY;1
CURVE;DESK;MODE;NEXT;TODAY
S;repo;N;9001;9000
END;1
PAR;1
PCT;TRANCHE;LIFE
50;1;up to 1 year
200;4;up to 10 years
END;2
CRV;1
RATE;TERM
360;364
END;1
PRC;1
TITLE;MATURITY;ISIN;PRICE
bond;11000;ES0000001018;1010000
bill;9100;ES0000002024;999999
END;2
POS;2
DATE;;TITLES;REF;BLOCK;CASH;NOTE;SIDE;ISIN
9101;;1000;1;T;101000000;;B;ES0000001018
9001;;400;2;T;40400000;sold on;S;ES0000001018
8998;;3;3;F;300000;END;B;ES0000002024
9000;;0;4;C;2500;fee;B;ES0000001018
END;4
";

/// The statement that both give.
pub const STATEMENT: &str = "STM;1
ISIN;BLOCK;SCEN;IM;VM
ES0000001018;T;3;2020000;1000000
ES0000001018;C;0;2500;0
ES0000002024;F;0;1500;-1
TOTAL;1024001;6
END;3
";

/// An edit of the run: how it is refused, and in what words.
#[derive(Clone, Copy)]
pub struct Edit {
    pub old: &'static str,
    pub new: &'static str,
    pub refused: &'static str,
    pub words: &'static str,
}

/// Refusals of every number.
pub const EDITS: [Edit; 25] = [
    Edit {
        old: RUN,
        new: "",
        refused: "REFUSED;1;1;1;0;0",
        words: "day line 1 is missing: it should be DAY and a version from 1 to 255, as DAY;1",
    },
    Edit {
        old: "DAY;1\n",
        new: "DAY;1\r\n",
        refused: "REFUSED;1;1;1;0;0",
        words: "day line 1 ends with a carriage return",
    },
    Edit {
        old: "PAR;1\n",
        new: "PAR;256\n",
        refused: "REFUSED;1;1;5;0;0",
        words: "percentage line 5: it should be PAR and a version from 1 to 255, as PAR;1",
    },
    Edit {
        old: "TITLES;",
        new: "TITLE;",
        refused: "REFUSED;2;1;20;0;0",
        words: "position line 20: the name TITLES is missing",
    },
    Edit {
        old: "TRADED",
        new: "TITLES",
        refused: "REFUSED;2;1;20;0;0",
        words: "position line 20: the name TITLES stands 2 times",
    },
    Edit {
        old: "TERM;RATE",
        new: "TERM;RATE;;;;;;;;;;;;;;;;;;;;;;;;;;;;;;;",
        refused: "REFUSED;2;1;11;0;0",
        words: "curve line 11: it has 33 names, and 32 are the most",
    },
    Edit {
        old: "1500;1000",
        new: "1000",
        refused: "REFUSED;3;1;21;0;0",
        words: "position line 21: the count of its cells is 7, that of the names 8",
    },
    Edit {
        old: "T;400;400",
        new: "T;400;0",
        refused: "REFUSED;4;1;22;6;0",
        words: "position line 22, cell 6 (TITLES): not a whole number from 1 to 2,000,000",
    },
    Edit {
        old: "C;;0;",
        new: "C;;1;",
        refused: "REFUSED;4;1;24;6;0",
        words: "position line 24, cell 6 (TITLES): not 0, as block C asks",
    },
    Edit {
        old: "ES0000001018;1010000",
        new: "ES0000001017;1010000",
        refused: "REFUSED;4;1;16;1;0",
        words: "price line 16, cell 1 (ISIN): not an ISIN of twelve characters with its right check digit",
    },
    Edit {
        old: "END;4\n",
        new: "END;4",
        refused: "REFUSED;5;1;25;0;0",
        words: "position line 25 does not end with a line feed",
    },
    Edit {
        old: "END;4\n",
        new: "",
        refused: "REFUSED;5;1;25;0;0",
        words: "position line 25 is missing: it should be END;4, the count of the rows before it",
    },
    Edit {
        old: "END;4\n",
        new: "END;5\n",
        refused: "REFUSED;5;1;25;0;0",
        words: "position line 25: it should be END;4, the count of the rows before it",
    },
    Edit {
        old: "END;4\n",
        new: "END;4\nx",
        refused: "REFUSED;5;1;26;0;0",
        words: "line 26: nothing may follow the fifth sheet",
    },
    Edit {
        old: "N;S\nEND;1",
        new: "N;S\n9000;9001;N;S\nEND;2",
        refused: "REFUSED;5;1;5;0;0",
        words: "day line 5: a day has just one row, and there are 2",
    },
    Edit {
        old: "9000;9001;N;S\nEND;1",
        new: "END;0",
        refused: "REFUSED;5;1;3;0;0",
        words: "day line 3: a day has just one row, and there are 0",
    },
    Edit {
        old: "9000;9001;",
        new: "9000;9000;",
        refused: "REFUSED;7;2;3;0;0",
        words: "day line 3: NEXT is not 1 to 10 days after TODAY",
    },
    Edit {
        old: "9000;9001;",
        new: "9000;9011;",
        refused: "REFUSED;7;2;3;0;0",
        words: "day line 3: NEXT is not 1 to 10 days after TODAY",
    },
    Edit {
        old: "ES0000002024;999999;9100",
        new: "ES0000001018;999999;9100",
        refused: "REFUSED;6;2;17;0;0",
        words: "price line 17: its ISIN has a price already",
    },
    Edit {
        old: "2;ES0000001018;S",
        new: "1;ES0000001018;S",
        refused: "REFUSED;6;2;22;0;1",
        words: "position line 22, reference 1: another line has its reference already",
    },
    Edit {
        old: "101000000;9101",
        new: "101000000;9366",
        refused: "REFUSED;7;2;21;0;1",
        words: "position line 21, reference 1: the DATE of a trade is not from TODAY to 365 days later",
    },
    Edit {
        old: "T;1500;1000;",
        new: "T;1500;1999601;",
        refused: "REFUSED;8;2;22;0;2",
        words: "position line 22, reference 2: the titles of its ISIN and block are together over 2,000,000",
    },
    Edit {
        old: "ES0000002024;999999;9100\nEND;2",
        new: "END;1",
        refused: "REFUSED;10;3;0;0;3",
        words: "position line 22, reference 3: the ISIN ES0000002024 has no price",
    },
    Edit {
        old: "4;200",
        new: "5;200",
        refused: "REFUSED;11;3;0;0;1",
        words: "position line 21, reference 1: the tranche of the ISIN ES0000001018 has no percentage",
    },
    Edit {
        old: "364;360",
        new: "99;360",
        refused: "REFUSED;12;3;0;0;1",
        words: "position line 21, reference 1: no point of the curve is at its term or beyond",
    },
];

/// A value in each column that does not fit it.
pub const CELLS: [Edit; 18] = [
    Edit {
        old: "9000;9001;N;S",
        new: "65536;9001;N;S",
        refused: "REFUSED;4;1;3;1;0",
        words: "day line 3, cell 1 (TODAY): not a day number from 0 to 65,535",
    },
    Edit {
        old: "9000;9001;N;S",
        new: "9000;;N;S",
        refused: "REFUSED;4;1;3;2;0",
        words: "day line 3, cell 2 (NEXT): not a day number from 0 to 65,535",
    },
    Edit {
        old: "9000;9001;N;S",
        new: "9000;9001;n;S",
        refused: "REFUSED;4;1;3;3;0",
        words: "day line 3, cell 3 (MODE): neither N for the net rule nor G for the gross rule",
    },
    Edit {
        old: "9000;9001;N;S",
        new: "9000;9001;N;D",
        refused: "REFUSED;4;1;3;4;0",
        words: "day line 3, cell 4 (CURVE): neither S for the step curve nor L for the sloping curve",
    },
    Edit {
        old: "4;200",
        new: "7;200",
        refused: "REFUSED;4;1;8;1;0",
        words: "percentage line 8, cell 1 (TRANCHE): not a whole number from 1 to 6",
    },
    Edit {
        old: "4;200",
        new: "4;10001",
        refused: "REFUSED;4;1;8;2;0",
        words: "percentage line 8, cell 2 (PCT): not a whole number from 0 to 10,000",
    },
    Edit {
        old: "364;360",
        new: "0364;360",
        refused: "REFUSED;4;1;12;1;0",
        words: "curve line 12, cell 1 (TERM): not a whole number from 0 to 65,535",
    },
    Edit {
        old: "364;360",
        new: "364;-501",
        refused: "REFUSED;4;1;12;2;0",
        words: "curve line 12, cell 2 (RATE): not a whole number from -500 to 3,000",
    },
    Edit {
        old: "1010000;11000",
        new: "0;11000",
        refused: "REFUSED;4;1;16;2;0",
        words: "price line 16, cell 2 (PRICE): not a whole number from 1 to 2,000,000",
    },
    Edit {
        old: "1010000;11000",
        new: "1010000;x",
        refused: "REFUSED;4;1;16;3;0",
        words: "price line 16, cell 3 (MATURITY): not a day number from 0 to 65,535",
    },
    Edit {
        old: "2;ES0000001018;S",
        new: "0;ES0000001018;S",
        refused: "REFUSED;4;1;22;1;0",
        words: "position line 22, cell 1 (REF): not a whole number from 1 to 4,294,967,295",
    },
    Edit {
        old: "2;ES0000001018;S",
        new: "2;es0000001018;S",
        refused: "REFUSED;4;1;22;2;0",
        words: "position line 22, cell 2 (ISIN): not an ISIN of twelve characters with its right check digit",
    },
    Edit {
        old: "2;ES0000001018;S",
        new: "2;ES0000001018;s",
        refused: "REFUSED;4;1;22;3;0",
        words: "position line 22, cell 3 (SIDE): neither B for bought nor S for sold",
    },
    Edit {
        old: "S;T;400",
        new: "S;R;400",
        refused: "REFUSED;4;1;22;4;0",
        words: "position line 22, cell 4 (BLOCK): none of T, F, H and C",
    },
    Edit {
        old: "S;T;400;400",
        new: "S;R;400;2000001",
        refused: "REFUSED;4;1;22;4;0",
        words: "position line 22, cell 4 (BLOCK): none of T, F, H and C",
    },
    Edit {
        old: "S;T;400;400",
        new: "S;T;400;2000001",
        refused: "REFUSED;4;1;22;6;0",
        words: "position line 22, cell 6 (TITLES): not a whole number from 1 to 2,000,000",
    },
    Edit {
        old: "40400000;9001",
        new: "1000000000001;9001",
        refused: "REFUSED;4;1;22;7;0",
        words: "position line 22, cell 7 (CASH): not a whole number from 0 to 1,000,000,000,000",
    },
    Edit {
        old: "40400000;9001",
        new: "40400000;+9001",
        refused: "REFUSED;4;1;22;8;0",
        words: "position line 22, cell 8 (DATE): not a day number from 0 to 65,535",
    },
];

/// Further forms of marks, rows, trailers, keys and dates.
pub const FURTHER_EDITS: [Edit; 10] = [
    Edit {
        old: "CRV;1",
        new: "CRW;1",
        refused: "REFUSED;1;1;10;0;0",
        words: "curve line 10: it should be CRV and a version from 1 to 255, as CRV;1",
    },
    Edit {
        old: "PRC;1",
        new: "PRC;0",
        refused: "REFUSED;1;1;14;0;0",
        words: "price line 14: it should be PRC and a version from 1 to 255, as PRC;1",
    },
    Edit {
        old: "POS;2",
        new: "POS",
        refused: "REFUSED;1;1;19;0;0",
        words: "position line 19: it should be POS and a version from 1 to 255, as POS;1",
    },
    Edit {
        old: "1;50\n4;200",
        new: "4;50\n4;200",
        refused: "REFUSED;6;2;8;0;0",
        words: "percentage line 8: its tranche has a percentage already",
    },
    Edit {
        old: "364;360\nEND;1",
        new: "364;360\n364;360\nEND;2",
        refused: "REFUSED;6;2;13;0;0",
        words: "curve line 13: its term has a rate already",
    },
    Edit {
        old: "300000;8998",
        new: "300000;9001",
        refused: "REFUSED;7;2;23;0;3",
        words: "position line 23, reference 3: the DATE of a line that is no trade is after TODAY",
    },
    Edit {
        old: "101000000;9101",
        new: "101000000;8999",
        refused: "REFUSED;7;2;21;0;1",
        words: "position line 21, reference 1: the DATE of a trade is not from TODAY to 365 days later",
    },
    Edit {
        old: "1500;1000",
        new: "1500;1;1000",
        refused: "REFUSED;3;1;21;0;0",
        words: "position line 21: the count of its cells is 9, that of the names 8",
    },
    Edit {
        old: "1;50\n",
        new: "\n",
        refused: "REFUSED;3;1;7;0;0",
        words: "percentage line 7: the count of its cells is 1, that of the names 2",
    },
    Edit {
        old: "9000;9001;N;S\nEND;1\n",
        new: "9000;9001;N;S\nEND;1\r\n",
        refused: "REFUSED;5;1;4;0;0",
        words: "day line 4 ends with a carriage return",
    },
];
