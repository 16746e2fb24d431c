//! The line numbers that a module says, read off its records' frames (TIS OMF 1.1, "LINNUM"), and those of each of its
//! segments.
#![tactic(auto)]

mod laws;
mod line;
mod reading;
mod sorted;

pub use laws::{lines_are_said, lines_of_32_bits_are_said};
pub use line::Line;
pub use reading::{NumberedModule, module_name, numbered_module};
pub use sorted::lines_of_segment;
