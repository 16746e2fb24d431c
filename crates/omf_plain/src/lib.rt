//! Records of any width taken as the fourteen that `omf` links: what each says there, and what is in the way of it. And
//! the modules of such records.
#![tactic(auto)]

mod comdats;
mod data;
mod externals;
mod fault;
mod fixups;
mod flat;
mod given;
mod laws;
mod listed;
mod modules;
mod pass;
mod places;
mod reading;
mod repeated;
mod segments;
mod widths;

pub use fault::{GivenFault, Obstacle, PlainFault, PlainModuleFault, RecordObstacle};
pub use given::Given;
pub use laws::one_plain_module;
pub use modules::{PlainModule, read_plain};
pub use pass::Pass;
pub use reading::read_given;
pub use widths::Widths;
