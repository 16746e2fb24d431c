//! Segments as a SEGDEF defines them.

ghost use Rattle.std.specs.Prelude.{◌≡◌, ◌≤◌};
ghost use Rattle.omf_write.specs.Segments as segments;

use omf_record::{Alignment, Combination, SegmentDefinition, SegmentLength};

/// How a SEGDEF says a length of at most 65,536 bytes.
fn length_of(length: u32) -> SegmentLength
    requires { length ≤ 65536 }
    ensures { result ≡ segments.length_of length }
{
    if length == 65_536 {
        SegmentLength::Whole
    } else {
        SegmentLength::Word(length as u16)
    }
}

/// A segment of so many bytes, at most 65,536, with these indexes of its name and its class, and without an overlay.
pub fn segment_of_length(
    alignment: Alignment,
    combination: Combination,
    length: u32,
    name: u16,
    class: u16,
) -> SegmentDefinition
    requires { length ≤ 65536 }
    ensures { result ≡ segments.segment_of_length alignment combination length name class }
{
    SegmentDefinition {
        alignment,
        combination,
        length: length_of(length),
        name,
        class,
        overlay: 0,
    }
}
