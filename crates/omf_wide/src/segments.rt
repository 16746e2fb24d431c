//! Segments whose length has two bytes or four: SEGDEF.

ghost use Rattle.std.specs.Prelude.{◌≡◌, ◌<◌, ◌≤◌, ◌↔◌, ◌/◌, ◌%◌, ℕ, List, IsTrue, Option};
ghost use Rattle.omf_record.specs.Numbers.{bit};
ghost use Rattle.omf_wide.specs.declared.segments.WideSegment.{WideSegment};
ghost use Rattle.omf_wide.specs.inside.Segments as segs;

use omf_codec::choice::{Then, When};
use omf_codec::codec::{Blank, Codec, Field, Free, Made, Read};
use omf_codec::numbers::Number;
use omf_codec::output::{Output, Written};
use omf_codec::primitives::{Byte, First, Head, Index, Word, ZeroHead};
use omf_record::segments::{alignment_of, combination_of};
use omf_record::{Alignment, Combination, alignment_number, combination_number};
use std::alloc::Allocator;

/// What a SEGDEF says.
#[derive(Clone, Copy, Debug, PartialEq, Eq)]
pub struct WideSegment {
    pub alignment: Alignment,
    pub combination: Combination,
    /// The bit B: the segment has 65,536 bytes in 98H, and 4,294,967,296 in 99H, and its length has to be 0.
    pub big: bool,
    /// The bit P: operands and addresses of its code have 32 bits.
    pub use32: bool,
    /// How many bytes it has.
    pub length: u32,
    /// The index of its name.
    pub name: u16,
    /// The index of its class name.
    pub class: u16,
    /// The index of its overlay name, which acts on nothing.
    pub overlay: u16,
}

/// The byte A, C, B, P; the place of an absolute segment; its length; its three names.
pub type WideSegmentParts<const WIDE: bool> = Then<First<WideSegment>, WideSegmentTailField<WIDE>>;

/// What stands behind the byte.
type SegmentTail = (Option<(u16, u8)>, (u32, (u16, (u16, u16))));

/// The place, the length and the names behind the byte.
type TailParts<const WIDE: bool> = (
    When<32, 8, 0, (Word, Byte)>,
    (Number<WIDE>, (Index, (Index, Index))),
);

/// What stands behind the byte, as a field.
pub struct WideSegmentTailField<const WIDE: bool>;

impl<const WIDE: bool> Codec for WideSegmentTailField<WIDE> {
    type Item = SegmentTail;

    ghost Value = { segs.Tail };

    ghost format = { segs.Behind WIDE };

    ghost lawful = { segs.behind_lawful WIDE };

    fn put<O: Output>(item: &SegmentTail, number: u64, out: &mut O) -> Written {
        <TailParts<WIDE> as Codec>::put(item, number, out)
    }
}

impl<'a, A: Allocator + Copy, const WIDE: bool> Field<'a, A> for WideSegmentTailField<WIDE> {
    fn read(alloc: A, number: u64, bytes: &'a [u8]) -> Read<'a, SegmentTail> {
        <TailParts<WIDE> as Field<'a, A>>::read(alloc, number, bytes)
    }
}

impl<const WIDE: bool> Free for WideSegmentTailField<WIDE> {
    ghost free = { λ _ _. tt };
}

impl<const WIDE: bool> Blank for WideSegmentTailField<WIDE> {
    ghost blank = { segs.behind_blank WIDE };
}

impl Head for WideSegment {
    ghost Begins = { segs.IsAcbp };

    fn begins(byte: u8) -> bool {
        let combination = byte / 4 % 8;
        byte / 32 < 6 && combination_number(combination_of(u64::from(combination))) == combination
    }
}

impl ZeroHead for WideSegment {
    ghost zero = { segs.acbp_zero };
}

impl<const WIDE: bool> Made<WideSegmentParts<WIDE>> for WideSegment {
    type Item = WideSegment;

    ghost Value = { WideSegment };

    ghost format = { λ _. segs.segment WIDE };

    ghost is_made = { λ _. segs.segment_made WIDE };

    fn make(_number: u64, parts: (u64, SegmentTail)) -> WideSegment {
        segment_of(parts.0, parts.1)
    }

    fn parts(item: &WideSegment) -> (u64, SegmentTail) {
        segment_parts(*item)
    }
}

/// The segment that its byte A, C, B, P and what stands behind it say.
fn segment_of(byte: u64, tail: SegmentTail) -> WideSegment
    ensures { result ≡ segs.segment_of byte tail }
{
    let (absolute, (length, (name, (class, overlay)))) = tail;
    WideSegment {
        alignment: match absolute {
            Some((frame, offset)) => Alignment::Absolute { frame, offset },
            None => alignment_of(byte / 32),
        },
        combination: combination_of(byte / 4 % 8),
        big: byte / 2 % 2 == 1,
        use32: byte % 2 == 1,
        length,
        name,
        class,
        overlay,
    }
}

/// A flag as a bit.
fn bit(flag: bool) -> u8
    ensures bit { result ≡ bit flag }
    ensures small { result < 2 }
{
    if flag { 1 } else { 0 }
}

/// The byte A, C, B, P of a segment, and what stands behind it.
fn segment_parts(segment: WideSegment) -> (u64, SegmentTail)
    ensures { result ≡ (segs.acbp segment, segs.segment_tail segment) }
{
    let byte = 32 * alignment_number(segment.alignment)
        + 4 * combination_number(segment.combination)
        + 2 * bit(segment.big)
        + bit(segment.use32);
    let absolute = match segment.alignment {
        Alignment::Absolute { frame, offset } => Some((frame, offset)),
        _ => None,
    };
    (
        u64::from(byte),
        (
            absolute,
            (
                segment.length,
                (segment.name, (segment.class, segment.overlay)),
            ),
        ),
    )
}
