// The words of a command line.
#![tactic(auto)]

mod command;
mod number;
mod report;

pub use command::{Command, command_of, criterion_of};
pub use number::{Number, number_of};
pub use report::refusal_text;
