//! Records of 32 bits and of other types than the fourteen, read as what they say (TIS OMF 1.1).
#![tactic(auto)]

mod bodies;
pub mod communals;
mod data;
mod ends;
mod externals;
mod fault;
mod fixups;
mod laws;
mod parse;
mod reading;
mod said;
mod segments;

pub use communals::{Communal, Extent, read_communal};
pub use data::WideData;
pub use externals::ListedExternal;
pub use fault::WideFault;
pub use fixups::{WideFixup, WideLocation, WideReference, WideSubrecord};
pub use laws::{fixups_of_16_bits, records_of_16_bits};
pub use parse::{parse_wide, parse_wide_data};
pub use said::Said;
pub use segments::WideSegment;
