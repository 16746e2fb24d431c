//! What a program's stack wants.

use std::alloc::{Allocator, Global};

/// What a program's stack wants to have a length that is asked for.
#[derive(Drop)]
pub enum Stack<A: Allocator + Copy = Global> {
    /// Nothing: it has that length.
    Enough,
    /// A module that has these bytes behind all others.
    Added(Vec<u8, A>),
    /// Fewer bytes: the modules ask for more.
    TooLong,
}
