//! The files of programs without a header, as .COM, .BIN and .SYS, written, and .COM loaded.
#![tactic(auto)]

mod bin;
mod com;
mod covered;
mod fault;
mod from_start;
mod laws;
mod loading;
mod raw;
mod stack;
mod sys;

pub use bin::write_bin;
pub use com::write_com;
pub use covered::first_covered;
pub use fault::{FlatFault, FormFault};
pub use from_start::write_from_start;
pub use laws::{bin_is_located, com_loads_as_written, from_start_is_located, sys_is_located};
pub use loading::{ComFault, LoadedCom, load_com};
pub use raw::write_raw;
pub use sys::write_sys;
