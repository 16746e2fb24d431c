//! What the words of the command line of `doslib` ask for, done with files and the two streams, and the status that it
//! ends with.
#![tactic(auto)]

mod bytes;
mod changing;
mod comparing;
mod extracting;
mod fault;
mod jobs;
mod library_lines;
mod making;
mod matching;
mod naming;
mod outcome;
mod program;
mod reading;
mod taking;
mod telling;

pub use fault::Stopped;
pub use jobs::{out_of_memory, run_job, run_words, wrong_words};
