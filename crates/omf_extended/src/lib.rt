//! The records that came after Intel's: communal variables, aliases, COMDATs, back patches, line numbers of symbols,
//! repeated data of 32 bits and what a translator says of itself, read as what they say (TIS OMF 1.1).
#![tactic(auto)]

mod aliases;
mod bodies;
mod comdats;
mod communals;
mod fault;
mod parse;
mod patches;
mod reading;
mod repeated;
mod said;
mod symbols;

pub use aliases::Alias;
pub use comdats::{Comdat, ComdatAlignment, ComdatAllocation, ComdatSelection};
pub use fault::ExtendedFault;
pub use parse::parse_extended;
pub use patches::{Patch, PatchLocation};
pub use repeated::{WideBlock, WideRepeated, parse_wide_repeated};
pub use said::Extended;
pub use symbols::SymbolLine;
