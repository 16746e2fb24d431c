//! Records, modules and libraries read by their bytes, the records written again, and their printed forms.
#![tactic(auto)]

mod extended;
mod librarian;
mod library;
mod module;
mod record;
mod text;
mod wide;
