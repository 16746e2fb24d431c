//! What a line can be at fault with.
ghost use Rattle.std.specs.Prelude.{◌≡◌};
ghost use Rattle.makefile_words.specs.declared.faults.WordFault.TheVariants as word_fault;
ghost use Rattle.makefile_words.specs.declared.faults.LineFault.TheVariants as line_fault;

use std::alloc::{AllocError, AllocFailed};
use thiserror::Error;

/// Why a line is no job.
#[derive(Clone, Copy, Debug, PartialEq, Eq, Error)]
pub enum LineFault<'a> {
    /// There was no memory.
    #[error("out of memory")]
    Memory,
    /// A word is at fault.
    #[error("at byte {place}: {word}: {kind}")]
    Word {
        /// How many bytes of the front and of the text behind it stand before the word, or before the token that is at
        /// fault.
        place: usize,
        /// The word.
        word: &'a str,
        /// What is wrong with it, or expected in its place.
        kind: FaultKind,
    },
}

impl<'a, T: Drop> From<AllocFailed<T>> for LineFault<'a> {
    ghost from_gives = { λ _ e. e ≡ line_fault.Memory };

    fn from(_error: AllocFailed<T>) -> LineFault<'a> {
        LineFault::Memory
    }
}

impl<'a> From<AllocError> for LineFault<'a> {
    ghost from_gives = { λ _ e. e ≡ line_fault.Memory };

    fn from(_error: AllocError) -> LineFault<'a> {
        LineFault::Memory
    }
}

/// What is wrong with a word, or expected in its place.
#[derive(Clone, Copy, Debug, PartialEq, Eq, Error)]
pub enum FaultKind {
    /// A quote isn't closed.
    #[error("a quote isn't closed")]
    UnclosedQuote,
    /// The line names no object.
    #[error("an object is expected")]
    NoObject,
    /// A field that has one name has a second one.
    #[error("a comma is expected: the field has its name")]
    SecondName,
    /// A comma stands behind the last field.
    #[error("no field is expected behind the definitions")]
    TooManyFields,
    /// Something stands behind `;`.
    #[error("nothing is expected behind `;`")]
    BehindEnd,
    /// A word that begins as an option and is none.
    #[error("unknown option")]
    UnknownOption,
    /// A name, or a mark of a line, where options alone stand.
    #[error("an option is expected")]
    NoOption,
    /// A word that may be folders of TLINK's `/L` or `/j`, and options as well.
    #[error("a blank is expected between options, and folders without one of an option's name")]
    TwoWays,
    /// An option's value isn't there, is no number, or is out of its range.
    #[error("a number from {least} to {most} is expected behind `:`")]
    WrongValue {
        /// The least number.
        least: u32,
        /// The greatest one.
        most: u32,
    },
    /// An option has a value that takes none.
    #[error("no value is expected behind the option")]
    NoValue,
    /// LINK's `/ONERROR` without the one value that it takes.
    #[error("NOEXE is expected behind `:`")]
    NoNoExe,
    /// A name of LINK that is cut too short.
    #[error("more of the option's name is expected: it is short for several")]
    ShortForSeveral,
    /// TLINK's `/L` without folders.
    #[error("folders are expected right behind the letter")]
    NoFolders,
    /// A folder of TLINK's `/L` or `/j` with a quote that isn't in front of it or at its end.
    #[error("a folder is expected between two quotes, or without")]
    PartlyQuoted,
    /// A file that has still to be read in the place of the word.
    #[error("a response file stands in the place of a name")]
    Response,
    /// A device that is no file.
    #[error("a file is expected, and no device")]
    Device,
    /// A statement of a file of definitions that would change the program.
    #[error("NAME, DESCRIPTION or STACKSIZE is expected: no other definition is followed")]
    Definitions,
    /// A statement DESCRIPTION of a file of definitions without its text.
    #[error("a text between quotes is expected, and nothing behind it")]
    NoDescription,
    /// A statement STACKSIZE of a file of definitions without its number.
    #[error("a number is expected, and nothing behind it")]
    NoStackSize,
    /// Overlays are asked for.
    #[error("overlays aren't made")]
    Overlays,
    /// Modules of p-code are asked for.
    #[error("p-code isn't linked")]
    PCode,
    /// An option for programs that aren't of DOS.
    #[error("no other program is written than one for DOS")]
    NotDos,
    /// An option that would change the program in a way that isn't done.
    #[error("the option would change the program, and isn't followed")]
    Refused,
}

// Why a word can't be followed.
#[derive(Clone, Copy)]
pub(crate) enum WordFault {
    // There was no memory.
    Memory,
    // This is wrong with it.
    Wrong(FaultKind),
}

impl<T: Drop> From<AllocFailed<T>> for WordFault {
    ghost from_gives = { λ _ e. e ≡ word_fault.Memory };

    fn from(_error: AllocFailed<T>) -> WordFault {
        WordFault::Memory
    }
}

impl From<AllocError> for WordFault {
    ghost from_gives = { λ _ e. e ≡ word_fault.Memory };

    fn from(_error: AllocError) -> WordFault {
        WordFault::Memory
    }
}

impl From<FaultKind> for WordFault {
    ghost from_gives = { λ kind e. e ≡ word_fault.Wrong kind };

    fn from(kind: FaultKind) -> WordFault {
        WordFault::Wrong(kind)
    }
}
