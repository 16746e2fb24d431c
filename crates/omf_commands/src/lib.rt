//! The commands over any sources and sinks: showing, rewriting and checking an input, linking inputs, and loading a
//! program's file.
#![tactic(auto)]

mod checking;
mod faults;
mod inputs;
mod linking;
mod loading;
mod mapping;
mod records;

pub use checking::check;
pub use faults::module_fault;
pub use linking::{Options, Report, file_or_fault, link, link_modules, one_file};
pub use loading::load_file;
pub use mapping::write_map;
pub use records::{rewrite, show};
