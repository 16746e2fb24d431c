//! What `doslib names` prints of modules: the names that one wants and none defines, and those that two define.
#![tactic(auto)]

mod doubled;
mod held;
mod lines;
mod told;

pub use held::Held;
pub use told::{Told, names_told};
