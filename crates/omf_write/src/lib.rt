//! Records that are appended to a module in memory.
#![tactic(auto)]

mod records;
mod segments;

pub use records::{put_end, put_header, put_names, put_record};
pub use segments::segment_of_length;
