//! Libraries of object modules, made and changed: members at pages, and the dictionary by which linkers find a name.
#![tactic(auto)]

mod block;
mod changing;
mod dictionary;
mod fault;
mod hashing;
mod library;
mod module;
mod modules;
mod naming;
mod pages;
mod writing;

pub use changing::{ChangeFault, added, deleted, extracted, replaced};
pub use fault::LibrarianFault;
pub use library::{Library, library_bytes};
pub use module::module_name;
pub use naming::Doubled;
