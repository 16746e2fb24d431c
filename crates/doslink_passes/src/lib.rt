//! The passes over the modules of a link: what each was given as becomes the module that is linked, value by value.
#![tactic(auto)]

mod aliases;
mod chain;
mod comdats;
mod communals;
mod faults;
mod filled;
mod linked;
mod locals;
mod meanings;
mod meant;
mod names;
mod ordering;
mod origin;
mod plain;
mod request;
mod stacking;
mod stop;
mod sums;
mod widths;

pub use aliases::meanings_of;
pub use chain::modules_of;
pub use comdats::{fates_among, fates_at, fates_of};
pub use communals::variables_of;
pub use linked::{source_slices, source_words, word_at};
pub use meanings::Meanings;
pub use meant::packed;
pub use names::said_names;
pub use origin::{Linked, Source};
pub use plain::{How, plain_module};
pub use request::{GivenModule, LinkRequest, names_of};
pub use stop::{Stop, stop_after};
