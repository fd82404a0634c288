// What a keeper holds and how it is recorded: a block of rows, a contract, parts of records and of choice lists.
#![tactic(auto)]

mod choices;
mod contract;
mod part;
mod rows;
mod writer;

pub use choices::{Choices, GO_BACK};
pub use contract::{CONTRACT_BYTES, Contract};
pub use part::{Form, Head, Part, Stored, UnknownForm, part_of};
pub use rows::{BLOCK_ROWS, Block};
pub use writer::Writer;
