//! Communal variables: those that modules declare, the one length that each has in a program, and a module that has
//! them all.
#![tactic(auto)]

mod behind;
mod bss;
mod deciding;
mod declarations;
mod entries;
mod far;
mod fault;
mod fields;
mod laws;
mod locals;
mod making;
mod modules;
mod places;
mod planning;
mod reading;
mod records;

pub use behind::local_module_bytes;
pub use bss::has_bss;
pub use deciding::variables;
pub use declarations::{Communal, Declaring, Extent, Scope, Variable, Whose};
pub use far::{Reached, far_by_offset};
pub use fault::{ClashFault, CommunalFault, EntryFault, PlanFault};
pub use laws::{
    communal_module_is_whole, local_variables_are_whole, one_variable_for_each_name,
    places_are_apart,
};
pub use locals::local_names_of;
pub use making::communal_module;
pub use reading::communals;
