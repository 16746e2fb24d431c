//! The orders of classes that may be asked for.

/// A name in a list of classes.
#[derive(Clone, Copy, Debug)]
pub enum Item<'a> {
    /// The class of this name is next.
    Class(&'a [u8]),
    /// In the class that was named last, the segments of this name are next. Before any class it says nothing.
    Segment(&'a [u8]),
}

/// In what order the classes of a program stand, and in each its segments.
#[derive(Clone, Copy, Debug)]
pub enum Order<'a> {
    /// That in which they are first met.
    Meeting,
    /// Classes that end in CODE; those without a segment in the group DGROUP; of the others BEGDATA, then those that
    /// are neither BSS nor STACK, then BSS, then STACK. Those of one kind in the order in which they are first met.
    Dosseg {
        /// Whether 16 null bytes stand in front of what the modules have of a public segment named `_TEXT`, so that none
        /// of it has the offset 0.
        null_bytes: bool,
    },
    /// What is listed, in the order of the list, and behind it the rest in the order in which it is first met.
    Listed(&'a [Item<'a>]),
}
