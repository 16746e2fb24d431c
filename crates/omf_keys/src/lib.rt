//! Names as keys of maps, which agree by a choice: with a hash, and in an order.
#![tactic(auto)]

mod key;

pub use key::Key;
