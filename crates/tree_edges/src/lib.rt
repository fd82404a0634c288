#![tactic(auto)]

// Tests at the edges of the operators' rules: each limit from both sides, with values worked out by hand.
#[cfg(test)]
mod common;
#[cfg(test)]
mod filtering;
#[cfg(test)]
mod record;
#[cfg(test)]
mod scanning;
#[cfg(test)]
mod trees;
