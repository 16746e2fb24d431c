//! The modules that files in memory hold, and those of them that a link takes.
#![tactic(auto)]

mod fault;
mod linking;
mod searching;
mod stock;

pub use fault::StockFault;
pub use searching::{Handed, Stock, members_of};
pub use stock::Entry;
