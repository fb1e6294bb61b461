//! One trade, valued by the net rule and printed step by step.
use crate::report::{show, show_refusal};
use crate::trade::Trade;
use crate::trade::charge_steps::ChargeSteps;
use account::side::Side;
use netting::Net;
use quantities::isin::Isin;
use std::io;

const TRADE: Trade = Trade {
    today: 9_000,
    isin: Isin {
        bytes: *b"ES0000001018",
    },
    side: Side::Bought,
    titles: 1_000,
    cash: 101_000_000,
    settlement: 9_101,
    price: 1_010_000,
    maturity: 11_000,
    percentage: 200,
    rate: 360,
};

fn show_steps(rt: &impl Print, steps: &ChargeSteps) -> io::Result<()> {
    show(rt, "term in days", steps.term.days)?;
    show(rt, "tranche", u8::from(steps.tranche))?;
    show(rt, "present value, rounded up", steps.present_value_up)?;
    show(rt, "present value, rounded down", steps.present_value_down)?;
    show(rt, "titles charged", steps.charged.count)?;
    show(rt, "initial margin", steps.initial_margin)?;
    show(rt, "market value", steps.market_value)?;
    show(rt, "variation margin", steps.variation_margin)?;
    show(rt, "charge", steps.charge)
}

/// Prints each step from the trade to its charge.
pub(crate) fn show_trade(rt: &impl Print) -> io::Result<()> {
    println!(rt; "The trade")?;
    match TRADE.value(&Net) {
        Ok(steps) => {
            let isin = TRADE.isin;
            println!(rt; "{:<48}{isin}", "ISIN, checked")?;
            show_steps(rt, &steps)
        }
        Err(refusal) => show_refusal(rt, "trade", refusal),
    }
}
