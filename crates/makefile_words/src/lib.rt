//! The lines of LINK and TLINK, and the job that they ask for.
#![tactic(auto)]

mod cut;
mod definitions;
mod faults;
mod job;
mod line;
mod lines;
mod link;
mod names;
mod options;
mod parts;
mod settings;
mod tlink;
mod tokens;

pub use definitions::parse_definitions;
pub use faults::{FaultKind, LineFault};
pub use job::MakefileJob;
pub use line::IdleAt;
pub use lines::parse_line;
pub use link::is_short;
pub use settings::{Idle, Ordering, Settings};
pub use tokens::{Language, Placed, Token, tokens_of};
