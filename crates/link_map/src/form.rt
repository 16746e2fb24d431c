//! Whose form a map has, and what it shows.

/// The linker in whose form a map is written.
#[derive(Clone, Copy, Debug, PartialEq, Eq)]
pub enum MapForm {
    /// Microsoft's LINK.
    Link,
    /// Borland's TLINK: names stand in a narrower column, an empty line stands before the segments, and groups aren't
    /// listed.
    Tlink,
}

/// What a map shows.
#[derive(Clone, Copy, Debug, PartialEq, Eq)]
pub struct Shown {
    pub form: MapForm,
    /// Whether it has the detailed map of segments, in front of the publics.
    pub details: bool,
    /// Whether it has line numbers, behind the publics.
    pub line_numbers: bool,
}
