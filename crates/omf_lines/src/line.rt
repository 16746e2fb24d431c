//! A line number.

/// A line number of a source text, and where its code begins.
#[derive(Clone, Copy, Debug, PartialEq, Eq)]
pub struct Line {
    pub number: u16,
    /// The index of the group from whose frame its place counts, and 0 where it is the segment's own.
    pub group: u16,
    /// The index of its segment.
    pub segment: u16,
    /// Where its code begins in its module's part of the segment.
    pub offset: u16,
}
