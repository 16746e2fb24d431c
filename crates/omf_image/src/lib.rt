//! The image of a program: data, fix-ups and relocations.
#![tactic(auto)]

mod adding;
mod building;
mod distance;
mod extent;
mod faults;
mod finding;
mod fixing;
mod index;
mod marks;
mod overflow;
mod pages;
mod patch;
mod placed_data;
mod program;
mod range;
mod reference;
mod repeated;
mod start;
mod work;

pub use building::build;
pub use faults::{FixFault, FixKind};
pub use overflow::{first_overflow, start_overflow};
pub use program::Program;
pub use start::Registers;
