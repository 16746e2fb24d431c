//! What is said of names beside the modules of a link: a module that says it.
#![tactic(auto)]

mod records;

pub use records::names_module;
