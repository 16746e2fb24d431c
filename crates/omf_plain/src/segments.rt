//! Segments.

ghost use Rattle.std.specs.Prelude.{◌≡◌};
ghost use Rattle.omf_library.specs.Names.{texts};
ghost use Rattle.omf_plain.specs.Segments as segs;

use crate::fault::Obstacle;
use omf_library::listed_name;
use omf_record::{Alignment, Combination, SegmentDefinition, SegmentLength};
use omf_wide::WideSegment;

/// Whether what debuggers read has this class.
fn is_debug(class: &[u8]) -> bool
    ensures { result ≡ segs.is_debug class.now }
{
    class == b"DEBSYM".as_slice() || class == b"DEBTYP".as_slice() || class == b"DWARF".as_slice()
}

/// Whether a segment is kept out of the program, whose class has this index among the names before it.
pub(crate) fn is_kept_out(keep_debug: bool, names: &[&[u8]], class: u16) -> bool
    ensures { result ≡ segs.is_kept_out keep_debug (texts names.now) class }
{
    if keep_debug {
        return false;
    }
    match listed_name(names, class) {
        Some(class) => is_debug(class),
        None => false,
    }
}

/// What stays of a segment that is kept out.
pub(crate) fn nothing_of(segment: WideSegment) -> SegmentDefinition
    ensures { result ≡ segs.nothing_of segment }
{
    SegmentDefinition {
        alignment: Alignment::Byte,
        combination: Combination::Private,
        length: SegmentLength::Word(0),
        name: segment.name,
        class: segment.class,
        overlay: segment.overlay,
    }
}

/// The length of a segment of 16 bits.
fn plain_length(wide: bool, big: bool, length: u32) -> Result<SegmentLength, Obstacle>
    ensures { result ≡ segs.plain_length wide big length }
{
    if big {
        if wide {
            return Err(Obstacle::Above16Bits);
        }
        return if length == 0 {
            Ok(SegmentLength::Whole)
        } else {
            Err(Obstacle::Body)
        };
    }
    if length < 65_536 {
        Ok(SegmentLength::Word(length as u16))
    } else if length == 65_536 {
        Ok(SegmentLength::Whole)
    } else {
        Err(Obstacle::Above16Bits)
    }
}

/// The same segment, of 16 bits.
pub(crate) fn plain_segment(wide: bool, segment: WideSegment) -> Result<SegmentDefinition, Obstacle>
    ensures { result ≡ segs.plain_segment wide segment }
{
    let length = plain_length(wide, segment.big, segment.length)?;
    Ok(SegmentDefinition {
        alignment: segment.alignment,
        combination: segment.combination,
        length,
        name: segment.name,
        class: segment.class,
        overlay: segment.overlay,
    })
}
