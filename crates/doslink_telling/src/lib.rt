//! What `doslink` tells: lines with people's names for what is at fault, the modules that are linked, and the table
//! behind a map.
#![tactic(auto)]

mod comdats;
mod communals;
mod duplicates;
mod faults;
mod kinds;
mod limit;
mod lines;
mod mapping;
mod missing;
mod offering;
mod symbols;
mod telling;
mod wanting;
mod warnings;

pub use comdats::push_comdat_clash;
pub use communals::{push_clash, push_entry_fault, push_unplaced};
pub use duplicates::push_duplicates;
pub use faults::{
    push_absent_line, push_endless_alias, push_fault, push_obstacle, push_order_line,
    push_overflow, push_path_line, push_stock_fault, push_unread_line, push_unwritten_line,
    push_wide_line,
};
pub use kinds::{Foreign, foreign_kind, push_foreign};
pub use limit::{Limit, push_rest, told_count};
pub use mapping::table;
pub use missing::{Unmet, push_missing_lines, unmet_names};
pub use offering::{Offering, offering_members};
pub use telling::{handed_saids, handed_text, member_word, module_word, module_words, word_at};
pub use warnings::{
    push_cut_stack, push_data_in_bss, push_excess, push_long_stack, push_more_line, push_no_code,
    push_no_program, push_no_stack, push_no_start, push_reached,
};
