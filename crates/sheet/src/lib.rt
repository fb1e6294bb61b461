//! Sheets of text, whose columns are found by their names: one reader for every kind of row.
#![tactic(auto)]

pub mod cells;
mod columns;
pub mod input;
pub mod kind;
pub mod laws;
mod lines;
pub mod reading;
pub mod refusal;
mod row;
#[cfg(test)]
mod tests;
