//! Where everything stands.

/// Where a segment or a public stands: its address in bytes with its own frame in paragraphs.
#[derive(Clone, Copy, Debug, PartialEq, Eq)]
pub enum Position {
    /// Both counted from the start of the program, and moving with it. It has no frame where its group has no members.
    Relocatable(u32, Option<u16>),
    Absolute(u32, u16),
}

/// A combined segment: its addresses, the end being the first one past it, and its first part.
#[derive(Clone, Copy, Debug, PartialEq, Eq)]
pub struct Combined {
    pub start: u32,
    pub end: u32,
    /// The index of the first part's module among the inputs.
    pub input: usize,
    /// The index of the first part in its module.
    pub segment: usize,
}

/// A group: its frame, where it has members, and its first GRPDEF.
#[derive(Clone, Copy, Debug, PartialEq, Eq)]
pub struct GroupPlace {
    pub frame: Option<u16>,
    /// The index of the GRPDEF's module among the inputs.
    pub input: usize,
    /// The index of the GRPDEF in its module.
    pub group: usize,
}
