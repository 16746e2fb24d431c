//! Files that are read, libraries that are looked up in folders, what stands where a file is to be written, and files
//! that are.
#![tactic(auto)]

mod fault;
mod lookup;
mod modules;
mod paths;
mod reading;
mod standing;
mod taking;
mod writing;

pub use fault::{FilesFault, ReadFault, Unread};
pub use lookup::{Found, find_default, find_library};
pub use paths::{has_extension, last_part};
pub use reading::{Folders, InputFile, Sought, read_file, read_sought};
pub use standing::{begins_as_input, is_one_of, is_one_place, stands_as_input};
pub use writing::put_file;
