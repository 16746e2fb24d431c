//! Lines of one kind, of which the first are told.
ghost use Rattle.std.specs.Prelude.{◌≡◌, ◌≤◌, ◌++◌, OnOk};
ghost use Rattle.doslink_telling.specs.Missing as spec;

use crate::warnings::push_more_line;
use std::alloc::{AllocError, Allocator};

/// How many lines of a kind are told, where not all of them are.
const MOST: usize = 20;

/// How many of so many are told: all, or the first of them.
pub fn told_count(count: usize, tells_all: bool) -> usize
    ensures told { result ≡ spec.told_count count tells_all }
    ensures within { result ≤ count }
{
    if tells_all || count <= MOST {
        count
    } else {
        MOST
    }
}

/// Appends how many more there are, where there are more.
pub fn push_rest<A: Allocator + Copy>(
    lines: &mut Vec<u8, A>,
    count: usize,
) -> Result<(), AllocError>
    ensures { OnOk result (lines.new.items ≡ lines.old.items ++ spec.rest_text count) }
{
    if count == 0 {
        return Ok(());
    }
    push_more_line(lines, count)
}

/// Lines of one kind.
#[derive(Drop)]
pub struct Limit<A: Allocator + Copy> {
    /// Their lines.
    lines: Vec<u8, A>,
    /// How many there are.
    count: usize,
    /// How many are told at most.
    most: usize,
}

impl<A: Allocator + Copy> Limit<A> {
    /// None yet. All are told, or the first of them.
    pub fn new(alloc: A, tells_all: bool) -> Limit<A> {
        Limit {
            lines: Vec::new(alloc),
            count: 0,
            most: if tells_all { usize::MAX } else { MOST },
        }
    }

    /// One more; its line goes behind these, if it is told.
    pub fn next(&mut self) -> Option<&mut Vec<u8, A>> {
        self.count = self.count.saturating_add(1);
        if self.most < self.count {
            return None;
        }
        Some(&mut self.lines)
    }

    /// Appends the lines, and how many more there are.
    pub fn append_to(&self, lines: &mut Vec<u8, A>) -> Result<(), AllocError> {
        lines.extend_from_slice(&self.lines)?;
        push_rest(lines, self.count.saturating_sub(self.most))
    }
}
