//! Aliases: names that stand for others, and what they mean.
#![tactic(auto)]

mod aliases;
mod ends;
mod laws;
mod map;
mod named;
mod names;
mod order;
mod reading;
mod renaming;
mod sorted;

pub use aliases::{Aliases, OwnAliases};
pub use laws::meanings_are_ends;
pub use map::NameMap;
pub use named::NamedValue;
pub use names::{agree, endless, meaning};
pub use reading::{Alias, push_module_aliases};
pub use renaming::Renaming;
