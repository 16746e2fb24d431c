//! Which segments of modules stand in a program, and where: what their data ask of it beside what fix-ups change.
#![tactic(auto)]

mod byte;
mod finding;
mod marks;
mod pattern;
mod told;

pub use byte::push_byte;
pub use finding::{Stand, places_of, stands};
pub use pattern::pattern_of;
pub use told::{push_left, push_module, push_titled};
