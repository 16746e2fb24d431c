//! The stack of a program with a length that is asked for: a module that adds to it or makes one, and modules in which
//! it is cut.
#![tactic(auto)]

mod cutting;
mod fault;
mod finding;
mod laws;
mod making;
mod records;
mod segments;
mod stack;

pub use cutting::cut_stack_of;
pub use fault::CutFault;
pub use laws::stack_module_is_whole;
pub use making::stack_module;
pub use stack::Stack;
