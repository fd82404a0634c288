// The rows of a child that pass a condition.
#![tactic(auto)]

mod condition;
mod filter;

pub use condition::{Criterion, is_condition, passes};
pub use filter::Filter;
