//! What `doslib show` prints of files: each record of their members, with names in place of indexes.
#![tactic(auto)]

mod data;
mod meaning;
mod more;
mod names;
mod parts;
mod rows;
mod said;
mod showing;
mod types;

pub use showing::{Shown, show};
