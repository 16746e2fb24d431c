//! The long names of an archive's members: lines of a table, by their places.

ghost use Rattle.std.specs.Prelude.{◌≡◌, ◌+◌, ◌<◌, ◌^◌, IfOk, if◌then◌else◌};
ghost use Rattle.omf_library.specs.Archive.{long_name, without_slash};
ghost use Rattle.omf_library.specs.Said.{bytes_said};
ghost use Rattle.omf_library.specs.inside.Lines.{AreMeasured, ends_line, line_lengths};

use std::alloc::{AllocError, Allocator};

/// The table of long names, and how long the line is that begins at each of its places, the last place first: so to look
/// a name up costs one step, however long it is and however many members have it.
#[derive(Drop)]
pub(crate) struct LongNames<'a, A: Allocator + Copy> {
    table: &'a [u8],
    lengths: Vec<usize, A>,
}

/// The name without a slash at its end.
#[tactic(auto, unfolding(crate::specs::Archive::without_slash))]
pub(crate) fn without_slash(name: &[u8]) -> &[u8]
    ensures { result.now ≡ without_slash name.now }
{
    match name {
        [front @ .., b'/'] => front,
        _ => name,
    }
}

/// How long the line is that begins with a byte, where that behind it has this length.
fn line_length(byte: u8, behind: usize) -> usize
    requires { behind + 1 < 2 ^ 64 }
    ensures { result ≡ (if ends_line byte then 0 else behind + 1) }
{
    if byte == b'\n' { 0 } else { behind + 1 }
}

/// How long the line is that begins at each place of a table, the last place first.
fn line_lengths<A: Allocator + Copy>(alloc: A, table: &[u8]) -> Result<Vec<usize, A>, AllocError>
    ensures { IfOk result (λ v. v.items ≡ line_lengths table.now) }
{
    let mut lengths = Vec::new(alloc);
    let mut place = table.len();
    let mut len = 0;
    while place > 0 {
        place -= 1;
        len = line_length(table[place], len);
        lengths.push(len)?;
    }
    Ok(lengths)
}

impl<'a, A: Allocator + Copy> LongNames<'a, A> {
    /// The names of a table.
    pub(crate) fn new(alloc: A, table: &'a [u8]) -> Result<Self, AllocError>
        ensures measured { IfOk result AreMeasured }
        ensures table { IfOk result (λ names. names.table.now ≡ table.entry.now) }
    {
        let lengths = line_lengths(alloc, table)?;
        Ok(LongNames { table, lengths })
    }

    /// The line at a place, without the slash at its end. None where the table ends before it.
    #[tactic(auto, unfolding(crate::specs::Archive::long_name))]
    pub(crate) fn get(&self, place: usize) -> Option<&'a [u8]>
        requires { AreMeasured self.now }
        ensures { bytes_said result ≡ long_name self.now.table.now place }
    {
        if place >= self.table.len() {
            return None;
        }
        let len = self.lengths[self.table.len() - 1 - place];
        let behind = &self.table[place..];
        Some(without_slash(&behind[..len]))
    }
}
