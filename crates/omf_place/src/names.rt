//! Which names agree.

/// Which names of publics and externals agree. Segment, class and group names always agree exactly.
#[derive(Clone, Copy, Debug, PartialEq, Eq)]
pub enum Names {
    /// Those of the same bytes.
    Exact,
    /// Those of the same bytes once 41H to 5AH have become 61H to 7AH.
    AsciiFolded,
}
