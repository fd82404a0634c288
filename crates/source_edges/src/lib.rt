#![tactic(auto)]

// Tests at the edges of the formats: each limit from both sides, with values worked out by hand.
#[cfg(test)]
mod found;
#[cfg(test)]
mod image;
#[cfg(test)]
mod plans;
#[cfg(test)]
mod ramp;
#[cfg(test)]
mod selection;
