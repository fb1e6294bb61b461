//! The margin of lines: the check by reference, the sums and rows of each ISIN, and their total.
#![tactic(auto)]

mod basis;
mod cash;
mod check;
mod isin_lines;
mod isin_sums;
mod line_sums;
mod lookups;
mod per_side;
pub mod portfolio;
mod quote;
mod ready_lines;
mod row_charges;
mod scope;
pub mod setup;
pub mod stated_margin;
mod summed_lines;
mod tally;
