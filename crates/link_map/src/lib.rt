//! The map of a linked program in the form of LINK or of TLINK: segments, groups, publics by name and by value, and
//! where the program starts; the modules' parts of segments and line numbers where they are asked for.
#![tactic(auto)]

mod fault;
mod form;
mod laws;
mod map;
mod numbers;
mod part;
mod parts;
mod public;
mod publics;

pub use fault::MapFault;
pub use form::{MapForm, Shown};
pub use laws::{names_rise, parts_rise, values_rise};
pub use map::{LinkedProgram, write_link_map, write_numbered_map, write_shown_map};
pub use numbers::Sources;
pub use publics::listed_where_it_stands;
