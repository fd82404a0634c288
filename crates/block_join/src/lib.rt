// The block join: each block of outer rows with every inner row, the pairs that match.
#![tactic(auto)]

mod front;
mod join;
mod parts;
mod phase;

pub use join::BlockJoin;
