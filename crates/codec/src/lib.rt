// Rows, cells and bytes: what stands in an image, a record or a plan. Numbers are big-endian.
#![tactic(auto)]

mod frame;
mod row;

pub use frame::{body_of, bytes_from, frame_head, write_front};
pub use row::{Row, layouts_read_back, read_row, write_row};
