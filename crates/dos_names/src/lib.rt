//! Names of files as DOS has them: `\` between folders, and letters of any case.
#![tactic(auto)]

mod choice;
mod finding;
mod folders;
mod names;
mod paths;

pub use choice::{Choice, choice_of};
pub use names::{Names, Seen};
pub use paths::with_slashes;
