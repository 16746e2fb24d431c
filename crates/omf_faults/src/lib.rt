//! Why a command stopped: the fault of a record, of the modules together, of a program's file or of a device, with the
//! line and the exit status that tell it. Nothing here takes memory.
#![tactic(auto)]

mod fault;
mod lines;

pub use fault::{InputFault, LinkFault, ProgramFault, status};
pub use lines::fault_line;
