//! A module of segments without bytes that stands first among the modules of a link: it opens classes and combined
//! segments in an order that is asked for, and defines the names `_edata` and `_end` where they are wanted. Null bytes in
//! front of `_TEXT` are all that it has, where they are asked for.
#![tactic(auto)]

mod arranging;
mod cleared;
mod fault;
mod firsts;
mod keys;
mod laws;
mod making;
mod marks;
mod openings;
mod order;
mod parts;
mod planning;
mod records;
mod segments;

pub use fault::OrderFault;
pub use laws::order_module_is_whole;
pub use making::order_module;
pub use order::{Item, Order};
