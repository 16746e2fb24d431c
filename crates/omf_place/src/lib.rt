//! Placement of the segments, groups and publics of a program.
#![tactic(auto)]

mod classes;
mod faults;
mod firsts;
mod folded;
mod greatest;
mod groups;
mod inputs;
mod laws;
mod laying;
mod layout;
mod lookups;
mod named;
mod names;
mod order;
mod placing;
mod publics;
mod rows;
mod scopes;
mod sites;
mod spans;
mod stands;
mod starts;

pub use classes::class_fits;
pub use faults::PlaceFault;
pub use laws::combining;
pub use layout::{Combined, GroupPlace, Position};
pub use lookups::Layout;
pub use names::Names;
pub use placing::{excess, place};
