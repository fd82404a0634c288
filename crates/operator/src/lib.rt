// What an operator of a query tree is: code that keeps to a machine, and a machine that keeps a meaning.
#![tactic(auto)]

mod answer;
mod operator;

pub use answer::Answer;
pub use operator::Operator;
