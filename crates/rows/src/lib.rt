//! The five kinds of row that sheets deliver.
#![tactic(auto)]

pub mod curve_shape;
pub mod day;
pub mod form;
pub mod laws;
pub mod mode;
pub mod percentage;
pub mod point;
pub mod position;
pub mod price;
#[cfg(test)]
mod tests;
