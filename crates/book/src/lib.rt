//! The book: lines are entered and withdrawn, and its margin is asked.
#![tactic(auto)]

pub mod book;
mod check;
pub mod journal;
mod standing;
#[cfg(test)]
mod tests;
