//! What `doslink` does: object modules and libraries become a program.
#![tactic(auto)]

mod faulty;
mod forms;
mod gathering;
mod linking;
mod names;
mod places;
mod program;
mod running;
mod stop;
mod taking;
mod warnings;
mod words;

pub use program::map_bytes;
pub use running::run_job;
pub use words::{Besides, out_of_memory, run_words, wrong_words};
