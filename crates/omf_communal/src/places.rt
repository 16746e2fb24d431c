//! Places and segments of variables, and what stands before these.

ghost use Rattle.std.specs.Prelude.{◌<◌, ◌≤◌, length};

use std::alloc::Allocator;

/// What stands in a module before its variables.
#[derive(Clone, Copy)]
pub(crate) struct Before {
    /// How many names it lists.
    pub names: u64,
    /// How many segments it defines.
    pub segments: u64,
    /// How many groups it defines.
    pub groups: u64,
}

/// What stands in a module before its variables, where there are indexes left for four names, a segment and a group.
#[derive(Clone, Copy)]
pub(crate) struct Room {
    pub names: u16,
    pub segments: u16,
    pub groups: u16,
    ghost names_in: { names ≤ 32763 },
    ghost segments_in: { segments ≤ 32766 },
    ghost groups_in: { groups ≤ 32766 },
}

/// The name of a variable.
#[derive(Clone, Copy)]
pub(crate) struct Place<'a> {
    pub name: &'a [u8],
    /// The index of its group, or 0.
    pub group: u16,
    /// The index of its segment.
    pub segment: u16,
    pub offset: u16,
    ghost short: { length name.now ≤ 255 },
    ghost group_in: { group ≤ 32767 },
    ghost segment_positive: { 0 < segment },
    ghost segment_in: { segment ≤ 32767 },
}

/// A segment of variables.
#[derive(Clone, Copy)]
pub(crate) struct Part {
    /// In bytes.
    pub length: u32,
    ghost in_segment: { length ≤ 65536 },
}

/// The places of the near variables, and where they end.
#[derive(Drop)]
pub(crate) struct Nears<'a, A: Allocator + Copy> {
    pub places: Vec<Place<'a>, A>,
    pub end: u64,
    ghost small: { end ≤ 65536 },
}
