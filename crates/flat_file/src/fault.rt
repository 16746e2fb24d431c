//! What keeps a program from being a file of a form, and why one isn't written.
ghost use Rattle.std.specs.Prelude.{◌≡◌};
ghost use Rattle.flat_file.specs.Labels.{form_label};

use thiserror::Error;

/// What keeps a program from being a .COM or .SYS file, a raw image, or a file that begins at its start.
#[derive(Clone, Copy, Debug, PartialEq, Eq, Error)]
pub enum FormFault {
    /// 68: a word holds a segment address, to which the loader of an EXE file adds the paragraph.
    #[error("a segment address stands in it")]
    Relocated,
    /// 69: it has a stack segment, and no file without a header says where that is: the loader of a .COM file sets SS
    /// and SP.
    #[error("it has a stack segment")]
    StackSegment,
    /// 70: it doesn't start where its file may begin: at 100H of its first frame, and where the file isn't to be a .COM
    /// file at 0 of it too.
    #[error("it doesn't start where its file may begin")]
    OtherStart,
    /// 71: data stands below the file's first address: of a .COM file 100H, where DOS has the program segment prefix.
    #[error("data stands below the file's first address")]
    DataBelow,
    /// 72: it has more than 65,536 bytes, which are 65,280 from 100H on, those at its end that no data covers among
    /// them.
    #[error("it has more than the 65,536 bytes of a segment")]
    TooLong,
}

impl FormFault {
    /// The number and the name that the fault is printed with.
    pub fn label(self) -> (u8, &'static str)
        ensures number { result.0 ≡ (form_label self).0 }
        ensures name { result.1.now ≡ (form_label self).1 }
    {
        match self {
            FormFault::Relocated => (68, "Relocated"),
            FormFault::StackSegment => (69, "StackSegment"),
            FormFault::OtherStart => (70, "OtherStart"),
            FormFault::DataBelow => (71, "DataBelow"),
            FormFault::TooLong => (72, "TooLong"),
        }
    }
}

/// Why a file wasn't written.
#[derive(Clone, Copy, Debug, PartialEq, Eq, Error)]
pub enum FlatFault {
    /// The program can't be a file of the form.
    #[error("the form of the file: {0}")]
    Form(FormFault),
    /// The sink failed.
    #[error("the device failed")]
    Device,
}
