//! The words of the command line of `doslib`, and the jobs that they ask for.
#![tactic(auto)]

mod comparing;
mod libraries;
mod matching;
mod names;
mod program;
mod values;
mod words;

pub use program::Image;
pub use words::{Job, parse_words};
