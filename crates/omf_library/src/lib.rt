//! Libraries of object modules: their members, and the names that a module wants and offers.
#![tactic(auto)]

mod aliases;
mod archive;
mod defaults;
mod ending;
mod entries;
mod fault;
mod fields;
mod files;
mod library;
mod long_names;
mod names;
mod number;
mod records;
mod wanting;

pub use aliases::Alias;
pub use defaults::{Defaulted, module_externals, weak_and_lazy};
pub use ending::modules_end;
pub use entries::{behind_length, behind_lengths, listed_name};
pub use fault::{FormatFault, LibraryFault};
pub use fields::{take_bytes, take_index, take_name};
pub use files::{FileKind, Member, file_kind, members};
pub use names::{ModuleNames, module_names, push_listed, push_publics};
pub use records::{ends_module, module_frames, record_at};
pub use wanting::{WantingPlaces, wanting_places};
