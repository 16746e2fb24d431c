//! Segments and groups: SEGDEF and GRPDEF.

ghost use Rattle.std.specs.Prelude.{◌≡◌, ◌≢◌, ◌<◌, ◌≤◌, ◌↔◌, ◌/◌, ◌%◌, ℕ, List, IsTrue, Option};
ghost use Rattle.omf_record.specs.Canonical as canon;
ghost use Rattle.omf_record.specs.Numbers.{segment_len, alignment_number, combination_number, length_code};
ghost use Rattle.omf_record.specs.declared.segments.SegmentDefinition.{SegmentDefinition};
ghost use Rattle.omf_record.specs.inside.Segments as segs;
ghost use Rattle.omf_record.specs.inside.Shapes as shapes;

use omf_codec::choice::{Then, When};
use omf_codec::codec::{Blank, Codec, Field, Free, Made, Of, Read};
use omf_codec::output::{Output, Written};
use omf_codec::primitives::{Byte, First, Head, Index, Word, Zero, ZeroHead};
use std::alloc::Allocator;

/// Where a segment may begin: the field A of a SEGDEF (TIS OMF 1.1, SEGDEF).
#[derive(Clone, Copy, Debug, PartialEq, Eq)]
pub enum Alignment {
    /// An absolute segment: it stands at 16 times the frame, plus the offset.
    Absolute { frame: u16, offset: u8 },
    Byte,
    Word,
    Paragraph,
    Page,
    DoubleWord,
}

/// How segments of one name are combined: the field C of a SEGDEF (TIS OMF 1.1, SEGDEF).
#[derive(Clone, Copy, Debug, PartialEq, Eq)]
pub enum Combination {
    Private,
    /// C = 2.
    Public2,
    /// C = 4, as `Public2`.
    Public4,
    Stack,
    Common,
    /// C = 7, as `Public2`.
    Public7,
}

/// The length of a segment in bytes.
#[derive(Clone, Copy, Debug, PartialEq, Eq)]
pub enum SegmentLength {
    /// Up to 65,535 bytes.
    Word(u16),
    /// 65,536 bytes: the bit B of a SEGDEF.
    Whole,
}

impl SegmentLength {
    /// How many bytes the segment has.
    pub fn bytes(self) -> u32
        ensures { result ≡ segment_len self }
    {
        match self {
            SegmentLength::Word(length) => u32::from(length),
            SegmentLength::Whole => 65536,
        }
    }
}

/// What a SEGDEF says.
#[derive(Clone, Copy, Debug, PartialEq, Eq)]
pub struct SegmentDefinition {
    pub alignment: Alignment,
    pub combination: Combination,
    pub length: SegmentLength,
    /// The index of its name.
    pub name: u16,
    /// The index of its class name.
    pub class: u16,
    /// The index of its overlay name, which acts on nothing.
    pub overlay: u16,
}

/// The alignment of this number, of a segment that isn't absolute.
pub fn alignment_of(number: u64) -> Alignment
    ensures { result ≡ segs.alignment_of number }
{
    match number {
        1 => Alignment::Byte,
        2 => Alignment::Word,
        3 => Alignment::Paragraph,
        4 => Alignment::Page,
        _ => Alignment::DoubleWord,
    }
}

/// The combination of this number, where one has it.
pub fn combination_of(number: u64) -> Combination
    ensures { result ≡ segs.combination_of number }
{
    match number {
        0 => Combination::Private,
        2 => Combination::Public2,
        4 => Combination::Public4,
        5 => Combination::Stack,
        6 => Combination::Common,
        _ => Combination::Public7,
    }
}

/// The field A of a SEGDEF, 0 to 5; 0 is absolute.
pub fn alignment_number(alignment: Alignment) -> u8
    ensures number { result ≡ alignment_number alignment }
    ensures small { result < 6 }
{
    match alignment {
        Alignment::Absolute {
            frame: _,
            offset: _,
        } => 0,
        Alignment::Byte => 1,
        Alignment::Word => 2,
        Alignment::Paragraph => 3,
        Alignment::Page => 4,
        Alignment::DoubleWord => 5,
    }
}

/// The field C of a SEGDEF: 0, 2, 4, 5, 6 or 7.
pub fn combination_number(combination: Combination) -> u8
    ensures number { result ≡ combination_number combination }
    ensures small { result < 8 }
{
    match combination {
        Combination::Private => 0,
        Combination::Public2 => 2,
        Combination::Public4 => 4,
        Combination::Stack => 5,
        Combination::Common => 6,
        Combination::Public7 => 7,
    }
}

/// The bit B: 1 where the segment has 65,536 bytes.
fn big(length: SegmentLength) -> u8
    ensures bit { result ≡ (length_code length).0 }
    ensures small { result < 2 }
{
    match length {
        SegmentLength::Word(_) => 0,
        SegmentLength::Whole => 1,
    }
}

/// The byte A, C, B, P; the place of an absolute segment; its length, two bytes 00 for 65,536; its three names.
pub type SegmentParts = Then<First<SegmentDefinition>, SegmentTailField>;

/// What stands behind the byte.
type SegmentTail = (
    Option<(u16, u8)>,
    ((Option<(u64, u64)>, Option<u16>), (u16, (u16, u16))),
);

/// Two bytes 00, or a word.
type Length = (
    When<2, 2, 1, (First<Zero>, First<Zero>)>,
    When<2, 2, 0, Word>,
);

/// The place, the length and the names behind the byte.
type TailParts = (
    When<32, 8, 0, (Word, Byte)>,
    (Length, (Index, (Index, Index))),
);

/// What stands behind the byte, as a field.
pub struct SegmentTailField;

impl Codec for SegmentTailField {
    type Item = SegmentTail;

    ghost Value = { segs.Tail };

    ghost format = { segs.Behind };

    ghost lawful = { segs.behind_lawful };

    fn put<O: Output>(item: &SegmentTail, number: u64, out: &mut O) -> Written {
        <TailParts as Codec>::put(item, number, out)
    }
}

impl<'a, A: Allocator + Copy> Field<'a, A> for SegmentTailField {
    fn read(alloc: A, number: u64, bytes: &'a [u8]) -> Read<'a, SegmentTail> {
        <TailParts as Field<'a, A>>::read(alloc, number, bytes)
    }
}

impl Free for SegmentTailField {
    ghost free = { λ _ _. tt };
}

impl ZeroHead for SegmentDefinition {
    ghost zero = { segs.acbp_zero };
}

impl Blank for SegmentTailField {
    ghost blank = { segs.behind_blank };
}

impl Head for SegmentDefinition {
    ghost Begins = { segs.IsAcbp };

    fn begins(byte: u8) -> bool {
        let combination = byte / 4 % 8;
        byte / 32 < 6
            && combination_number(combination_of(u64::from(combination))) == combination
            && byte % 2 == 0
    }
}

impl Made<SegmentParts> for SegmentDefinition {
    type Item = SegmentDefinition;

    ghost Value = { SegmentDefinition };

    ghost format = { λ _. segs.segment };

    ghost is_made = { λ _. segs.segment_made };

    fn make(_number: u64, parts: (u64, SegmentTail)) -> SegmentDefinition {
        segment_of(parts.0, parts.1)
    }

    fn parts(item: &SegmentDefinition) -> (u64, SegmentTail) {
        segment_parts(*item)
    }
}

/// The segment that its byte A, C, B, P and what stands behind it say.
fn segment_of(byte: u64, tail: SegmentTail) -> SegmentDefinition
    ensures { result ≡ segs.segment_of byte tail }
{
    let (absolute, ((_, length), (name, (class, overlay)))) = tail;
    SegmentDefinition {
        alignment: match absolute {
            Some((frame, offset)) => Alignment::Absolute { frame, offset },
            None => alignment_of(byte / 32),
        },
        combination: combination_of(byte / 4 % 8),
        length: match length {
            Some(length) => SegmentLength::Word(length),
            None => SegmentLength::Whole,
        },
        name,
        class,
        overlay,
    }
}

/// The byte A, C, B, P of a segment, and what stands behind it.
fn segment_parts(segment: SegmentDefinition) -> (u64, SegmentTail)
    ensures { result ≡ (canon.acbp segment, segs.segment_tail segment) }
{
    let byte = 32 * alignment_number(segment.alignment)
        + 4 * combination_number(segment.combination)
        + 2 * big(segment.length);
    let absolute = match segment.alignment {
        Alignment::Absolute { frame, offset } => Some((frame, offset)),
        _ => None,
    };
    let length = match segment.length {
        SegmentLength::Word(length) => (None, Some(length)),
        SegmentLength::Whole => (Some((0, 0)), None),
    };
    (
        u64::from(byte),
        (
            absolute,
            (length, (segment.name, (segment.class, segment.overlay))),
        ),
    )
}

/// The byte FFH.
pub struct Mark;

impl Head for Mark {
    ghost Begins = { shapes.IsMark };

    fn begins(byte: u8) -> bool {
        byte == 0xFF
    }
}

/// Components of groups: the segment of each.
pub struct Component;

impl Made<(First<Mark>, Index)> for Component {
    type Item = u16;

    ghost Value = { ℕ };

    ghost format = { λ _. shapes.component };

    ghost is_made = { λ _. shapes.component_made };

    #[tactic(auto, using(crate::specs::inside::Shapes::component_to))]
    fn make(_number: u64, (_, segment): (u64, u16)) -> u16 {
        segment
    }

    fn parts(item: &u16) -> (u64, u16) {
        (0xFF, *item)
    }
}
