//! The quantities of a margin: their ranges, dates, amounts and refusals.
#![tactic(auto)]

pub mod amount;
pub mod date;
pub mod isin;
pub mod range;
pub mod refusal;
pub mod term;
#[cfg(test)]
mod tests;
pub mod tranche;
