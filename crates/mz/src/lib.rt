//! The MS-DOS executable file: written, read, and loaded at a paragraph.
#![tactic(auto)]

mod fault;
mod format;
mod laws;
mod loading;
mod reading;
mod writing;

pub use fault::{FileFault, MzFault};
pub use format::{Entry, Header};
pub use laws::loads_as_written;
pub use loading::{Loaded, load};
pub use reading::{MzFile, read_mz};
pub use writing::write_mz;
