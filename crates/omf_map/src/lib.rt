//! The map of a linked program: its segments, groups and publics, where it starts, and its size.
#![tactic(auto)]

mod map;

pub use map::put_map;
