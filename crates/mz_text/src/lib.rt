//! What `doslib program` prints of an MS-DOS executable: its header word by word, its sizes, and its relocated words.
#![tactic(auto)]

mod program;

pub use program::push_program;
