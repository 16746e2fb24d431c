//! What options ask for.
use crate::faults::FaultKind;
use doslink_words::Form;

/// The order of segments that options ask for.
#[derive(Clone, Copy, Debug, PartialEq, Eq)]
pub enum Ordering {
    /// The order of meeting, unless a module asks for DOSSEG.
    Meeting,
    /// DOSSEG.
    Dosseg,
    /// DOSSEG without null bytes.
    WithoutNulls,
}

/// What a line says that is no name: its options.
#[derive(Clone, Copy, Debug, PartialEq, Eq)]
pub struct Settings {
    /// Whether names of publics and externals agree only with regard to case.
    pub case_counts: bool,
    /// Whether no library is searched that only a module names.
    pub no_defaults: bool,
    /// Whether no map is written, whatever else is said of it.
    pub no_map: bool,
    /// Whether a map is written where none is named.
    pub makes_map: bool,
    /// Whether the map has the publics.
    pub publics: bool,
    /// Whether the map has line numbers.
    pub line_numbers: bool,
    /// Whether the map tells of each module's part of each segment.
    pub detailed: bool,
    /// Whether the file holds the bytes of all segments, of those without data too.
    pub writes_all: bool,
    /// Whether what is done is told.
    pub verbose: bool,
    /// The form of the program's file.
    pub form: Form,
    /// The order of segments.
    pub order: Ordering,
    /// How many bytes the stack has, 1 to 65,536, where that is said.
    pub stack: Option<u32>,
    /// The paragraphs behind its image that an EXE file asks for at most, where that is said.
    pub most_extra: Option<u16>,
}

/// What has no effect, or not all that it would have.
#[derive(Clone, Copy, Debug, PartialEq, Eq)]
pub enum Idle {
    /// Data for debuggers is asked for: none is written.
    Debug,
    /// The program is to be made smaller or faster: it runs the same without.
    Packing,
    /// An option that changes nothing here.
    Nothing,
    /// A statement of a file of definitions: none is followed.
    Definition,
}

/// What an option asks for.
#[derive(Clone, Copy)]
pub(crate) enum Setting {
    /// That names agree only with regard to case, or without.
    Case(bool),
    /// That no library is searched that only a module names, or that they are.
    NoDefaults(bool),
    /// That no map is written, or that it is.
    NoMap(bool),
    /// A map with publics, or without.
    Publics(bool),
    /// A map with line numbers, or without.
    LineNumbers(bool),
    /// A detailed map of segments, or none.
    Detailed(bool),
    /// That the bytes of all segments stand in the file, or those of data alone.
    WritesAll(bool),
    /// That what is done is told.
    Verbose,
    /// The form of the program's file.
    Form(Form),
    /// The order of segments.
    Order(Ordering),
    /// The stack's bytes.
    Stack(u32),
    /// The paragraphs behind its image that an EXE file asks for at most.
    MostExtra(u16),
    /// That libraries are looked for in the folders of its value, which `;` parts.
    Folders,
    /// That objects are looked for in the folders of its value too, which `;` parts.
    ObjectFolders,
    /// That the library of its value is left out where a module names it.
    LeavesOut,
    /// Nothing.
    Silent,
    /// Nothing, and a warning says so.
    Warned(Idle),
    /// What can't be done, so that the line is refused.
    Refused(FaultKind),
}
