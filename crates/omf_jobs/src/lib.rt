//! What the words of the command line ask for, done with files and the two streams, and the status that it ends with.
#![tactic(auto)]

mod jobs;

pub use jobs::{out_of_memory, run_job, run_words, wrong_words};
