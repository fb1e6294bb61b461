//! Text as a back office delivers it: lines, the cells of a line, and the numbers that cells spell.
#![tactic(auto)]

pub mod cell;
pub mod ends;
pub mod laws;
pub mod line;
pub mod number;
mod part;
#[cfg(test)]
mod tests;
mod window;
