//! The words of `doslink`, the directives of a response file, and the job that they ask for.
#![tactic(auto)]

mod directives;
mod faults;
mod grammar;
mod job;
mod keywords;
mod named;
mod naming;
mod operands;
mod options;
mod responses;
mod sizes;
mod tokens;
mod words;

pub use directives::parse_directives;
pub use faults::{DirectiveFault, DirectiveFaultKind, SplitFault};
pub use job::{
    Alias, Directives, Form, Input, Job, MapFile, MapForm, Order, OrderItem, Stack, Warning,
    WarningKind, has_header,
};
pub use responses::{response_word, text_asked};
pub use tokens::split_words;
pub use words::parse_words;
