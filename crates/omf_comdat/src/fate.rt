//! What becomes of the COMDAT records of a module.

/// What becomes of a COMDAT record of a module, in a link.
#[derive(Clone, Copy, Debug, PartialEq, Eq)]
pub enum ComdatFate {
    /// It opens a COMDAT that is taken, which has so many bytes with the records that go on with it.
    Opens { length: u64 },
    /// It goes on with one that is taken, as the COMDAT record before it in the module does or opens it.
    Continues,
    /// It is of one that is left out, since another one of its name is taken.
    LeftOut,
    /// It says that it goes on with the COMDAT record before it, which has another name or isn't there.
    Stray,
}
