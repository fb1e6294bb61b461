//! Records with a key, held in the order of their keys in lent memory.
#![tactic(auto)]

pub mod key;
pub mod order;
pub mod record;
pub mod register;

pub use key::Key;
pub use record::Record;
pub use register::Register;

#[cfg(test)]
mod tests;
