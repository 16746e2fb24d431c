//! What `doslib match` prints of files: which segments of their modules stand in a program, and where.
#![tactic(auto)]

mod label;
mod matching;

pub use matching::{Sought, Told, Wanted, match_file};
