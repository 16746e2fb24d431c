//! Communal variables, as entries, modules and programs have them.

ghost use Rattle.std.specs.Prelude.{◌≤◌, length};

/// Who knows a communal variable.
#[derive(Clone, Copy, Debug, PartialEq, Eq)]
pub enum Scope {
    /// All modules of a program: COMDEF declares it.
    Program,
    /// Its own module alone: LCOMDEF declares it.
    Module,
}

/// How far a communal variable lies, and how long it is.
#[derive(Clone, Copy, Debug, PartialEq, Eq)]
pub enum Extent {
    /// In the group DGROUP, of so many bytes.
    Near { length: u32 },
    /// In segments of its own, of so many elements, each of `size` bytes.
    Far { count: u32, size: u32 },
}

/// A name and its extent, and the bytes behind its entry.
#[derive(Clone, Copy)]
pub(crate) struct Entry<'a> {
    pub name: &'a [u8],
    pub extent: Extent,
    pub rest: &'a [u8],
    ghost short: { length name.now ≤ 255 },
}

/// A communal variable as a module declares it.
#[derive(Clone, Copy, Debug)]
pub struct Communal<'a> {
    /// How many bytes of the module stand before the record that declares it.
    pub place: u64,
    pub name: &'a [u8],
    pub extent: Extent,
    pub ghost short: { length name.now ≤ 255 },
}

/// Which variable of which module: both count from 0.
#[derive(Clone, Copy, Debug, PartialEq, Eq)]
pub struct Whose {
    pub module: usize,
    pub communal: usize,
}

/// What a module declares, and the names that it offers to others.
#[derive(Clone, Copy)]
pub struct Declaring<'m, 'a> {
    pub communals: &'m [Communal<'a>],
    pub offered: &'m [&'a [u8]],
}

/// A variable that a module declares.
#[derive(Clone, Copy)]
pub(crate) struct Declared<'a> {
    pub name: &'a [u8],
    pub extent: Extent,
    pub whose: Whose,
    ghost short: { length name.now ≤ 255 },
}

/// A communal variable of a program.
#[derive(Clone, Copy, Debug)]
pub struct Variable<'a> {
    /// Its name, as the first module that declares it spells it.
    pub name: &'a [u8],
    pub extent: Extent,
    /// Its first declaration.
    pub first: Whose,
    pub ghost short: { length name.now ≤ 255 },
}
