//! What words ask `doslink` for: the job that options, directives or a line of LINK or TLINK say, with the files that they
//! name.
#![tactic(auto)]

mod asked;
mod definitions;
mod directive_names;
mod directives;
mod fault;
mod folders;
mod form_names;
mod fronts;
mod languages;
mod line_names;
mod line_text;
mod lines;
mod paths;
mod reading;
mod spoken;

pub use asked::{Asked, Request, asked_by};
pub use fault::AskingFault;
pub use folders::library_folders;
pub use languages::{Language, is_named, language_asked, language_of};
pub use paths::{
    extension_for, extension_of, first_file, is_output, other_form, path_after, with_extension,
};
pub use reading::Sources;
