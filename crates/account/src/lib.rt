//! Lines of an account, what a book is asked and answers, and the margin defined, with its laws.
#![tactic(auto)]

pub mod block;
pub mod block_name;
pub mod by_isin;
pub mod call;
pub mod isin_reference;
pub mod laws;
pub mod line;
pub mod line_refusal;
pub mod margin;
pub mod reply;
pub mod row;
pub mod scenario;
pub mod scope;
pub mod side;
pub mod slot;
