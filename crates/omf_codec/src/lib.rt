//! Fields of bodies: one description of how each is read, measured and written, and what a text is that is one value.
#![tactic(auto)]

pub mod choice;
pub mod codec;
pub mod numbers;
pub mod output;
pub mod primitives;
pub mod whole;
