// What every operator over a block of outer rows shares: filling it, signing, going back, writing and reading it.
#![tactic(auto)]

mod outer;
mod record;

pub use outer::OuterBlock;
pub use record::{load_or_rewind, put_plan, put_record};
