//! Where bytes with gaps stand in an image, by a table of the image's words; which bytes no span has, and where two
//! images differ.
#![tactic(auto)]

mod building;
mod differing;
mod finding;
mod index;
mod spans;

pub use differing::first_difference;
pub use index::Index;
pub use spans::{Span, gaps};
