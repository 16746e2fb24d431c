//! What `doslib` prints of files: of libraries and archives their members, and of a damaged file what of it is whole.
#![tactic(auto)]

mod fault;
mod listing;
mod parts;

pub use fault::{push_faults, push_located};
pub use listing::{push_list, push_member_line, push_title, shown_name};
pub use parts::{Whole, module_end};
