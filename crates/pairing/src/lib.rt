// Which rows a block join pairs, and the rows it makes of them.
#![tactic(auto)]

mod condition;
mod pair;
mod rule;
mod widths;

pub use condition::{is_join_condition, joins};
pub use pair::{Hit, joined_row, next_match};
pub use rule::JoinRule;
pub use widths::Widths;
