//! Modules in memory, read and linked.
#![tactic(auto)]

mod bytes;
mod forms;
mod linking;
mod page;
mod reading;

pub use forms::in_form;
pub use linking::{Linked, link_in_memory};
pub use page::Page;
pub use reading::read_one;
