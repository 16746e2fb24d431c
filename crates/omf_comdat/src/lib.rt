//! COMDATs: data of which modules may each have some of one name. Those that a module has, and which of them a link takes
//! (TIS OMF 1.1, "Initialized Communal Data Record").
#![tactic(auto)]

mod fate;
mod fates;
mod fault;
mod meeting;
mod records;
mod wholes;

pub use fate::ComdatFate;
pub use fates::comdat_fates;
pub use fault::{ComdatClash, ComdatDifference, ComdatFault};
pub use records::{ComdatRecord, comdat_records};
