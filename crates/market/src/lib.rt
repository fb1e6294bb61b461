//! What books are margined on: a day, prices by ISIN and margin percentages by tranche.
#![tactic(auto)]

pub mod day;
pub mod market;
pub mod percentage;
pub mod price;
#[cfg(test)]
mod tests;
