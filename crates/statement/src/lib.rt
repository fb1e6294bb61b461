//! The text of a margin's statement, in memory that the caller lends.
#![tactic(auto)]

mod cell;
pub mod laws;
mod line;
#[cfg(test)]
mod tests;
pub mod text;
