//! The printed forms: names and hexadecimal numbers, the pieces of lines, and the lines of a record. Only lines in
//! memory take memory.
#![tactic(auto)]

mod details;
mod listing;
mod memory;
mod pieces;
mod print;

pub use details::{put_details, put_listing};
pub use listing::{put_head_line, record_name};
pub use memory::{Lines, push_pieces};
pub use pieces::{Piece, Printed, put_each};
pub use print::{
    Hexadecimal, put_count, put_hexadecimal, put_hexadecimal_bytes, put_name, put_pieces,
};
