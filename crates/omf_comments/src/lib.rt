//! Comments of object modules, read as what they say by their class (TIS OMF 1.1).
#![tactic(auto)]

mod comments;
mod extensions;
mod finding;

pub use comments::{Comment, WeakExternal, parse_comment};
pub use extensions::{Extension, ImportEntry};
