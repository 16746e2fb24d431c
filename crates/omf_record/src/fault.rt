//! Why no record begins where one had to.
ghost use Rattle.std.specs.Prelude.{◌≡◌};
ghost use Rattle.omf_record.specs.Labels.{no_record_label};

use omf_frame::FramingFault;
use thiserror::Error;

/// Why no record begins where one had to.
#[derive(Clone, Copy, Debug, PartialEq, Eq, Error)]
pub enum NoRecord {
    /// 2 to 4 and 41: the bytes are no frame.
    #[error("{0}")]
    Framing(FramingFault),
    /// 5: the type isn't one of the fourteen.
    #[error("its type is unknown")]
    Type,
    /// 6: the body isn't one of its type, from this byte of it on.
    #[error("its body is wrong at byte {at}")]
    Body { at: usize },
    /// 8: the input ends between records before MODEND.
    #[error("the input ends before MODEND")]
    NoEnd,
}

impl NoRecord {
    /// The number and the name that the fault is printed with.
    pub fn label(self) -> (u8, &'static str)
        ensures number { result.0 ≡ (no_record_label self).0 }
        ensures name { result.1.now ≡ (no_record_label self).1 }
    {
        match self {
            NoRecord::Framing(fault) => fault.label(),
            NoRecord::Type => (5, "Type"),
            NoRecord::Body { .. } => (6, "Body"),
            NoRecord::NoEnd => (8, "NoEnd"),
        }
    }
}
