//! A run: five sheets in, a statement or a refusal out.
#![tactic(auto)]

pub mod example;
mod keeper;
mod keepers;
pub mod laws;
mod read_sheet;
pub mod refusal;
pub mod run;
mod state;
