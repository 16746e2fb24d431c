//! Modules placed and built into programs, the files and maps of these, lines of faults, and the commands.
#![tactic(auto)]

mod commands;
mod faults;
mod flat;
mod image;
mod linkers_map;
mod map;
mod mz_file;
mod place;
