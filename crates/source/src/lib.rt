// Sources: a width and at most 4,096 rows, both fixed.
#![tactic(auto)]

mod image;
mod ramp;
mod source;

pub use image::Image;
pub use ramp::{Ramp, Slope};
pub use source::Source;
