//! The edges of what a rule is asked.
use crate::*;

#[test]
fn rules_charge_at_the_limit(rt: HostRuntime) {
    let none = Titles { count: 0 };
    let half = Titles { count: 1_000_000 };
    let all = Titles { count: 2_000_000 };
    let even = Position {
        bought: half,
        sold: half,
    };
    let short = Position {
        bought: none,
        sold: all,
    };
    let empty = Position {
        bought: none,
        sold: none,
    };
    assert_eq!(rt; Net.charge(even).count, 0);
    assert_eq!(rt; Net.charge(short).count, 2_000_000);
    assert_eq!(rt; Gross.charge(even).count, 1_000_000);
    assert_eq!(rt; Gross.charge(empty).count, 0);
    assert_eq!(rt; BothSides.charge(even).count, 2_000_000);
}
