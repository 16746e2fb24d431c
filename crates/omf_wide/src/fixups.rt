//! Threads, references and fix-ups of records whose displacements have two bytes or four: FIXUPP.

ghost use Rattle.std.specs.Prelude.{◌≡◌, ◌<◌, ◌≤◌, ◌↔◌, ◌/◌, ◌%◌, Bool, ℕ, List, IsTrue, Option};
ghost use Rattle.omf_wide.specs.Numbers.{location_number, location_width};
ghost use Rattle.omf_wide.specs.declared.fixups.WideReference.{WideReference};
ghost use Rattle.omf_wide.specs.declared.fixups.WideSubrecord.{WideSubrecord};
ghost use Rattle.omf_wide.specs.inside.References as refs;
ghost use Rattle.omf_wide.specs.inside.Subrecords as subs;

use omf_codec::choice::{Then, When};
use omf_codec::codec::{Blank, Codec, Field, Free, Made, Of, Read};
use omf_codec::numbers::Number;
use omf_codec::output::{Output, Written};
use omf_codec::primitives::{Byte, First, Head, Index};
use omf_record::fixups::{
    frame_method_index, frame_method_of, frame_number, reference_of, reference_parts,
    target_method_index, target_method_of, target_number, thread_of,
};
use omf_record::{
    Datum, FrameMethod, Location, Reference, TargetMethod, ThreadNumber, thread_number,
};
use std::alloc::Allocator;

/// What a fix-up or a start refers to.
#[derive(Clone, Copy, Debug, PartialEq, Eq)]
pub struct WideReference {
    pub frame: Datum<FrameMethod>,
    pub target: Datum<TargetMethod>,
    /// What is added to the target's address, in bytes. An absent one counts as 0.
    pub displacement: Option<u32>,
}

/// What a fix-up fixes: locations 0, 1, 2, 3, 5, 9 and 13 (TIS OMF 1.1, FIXUPP).
#[derive(Clone, Copy, Debug, PartialEq, Eq)]
pub enum WideLocation {
    Of16Bits(Location),
    /// 9, four bytes: an offset of 32 bits.
    Offset32,
    /// 13, four bytes, as `Offset32`.
    LoaderOffset32,
}

impl WideLocation {
    /// How many bytes the location has.
    pub fn width(self) -> u16
        ensures { result ≡ location_width self }
    {
        match self {
            WideLocation::Of16Bits(location) => location.width(),
            WideLocation::Offset32 | WideLocation::LoaderOffset32 => 4,
        }
    }
}

/// A fix-up of a place in the last data record before it.
#[derive(Clone, Copy, Debug, PartialEq, Eq)]
pub struct WideFixup {
    /// Whether the location holds a distance from itself, and not an offset in the frame.
    pub self_relative: bool,
    pub location: WideLocation,
    /// The place of the location's first byte, counted from the first data byte, at most 1,023.
    pub offset: u16,
    pub reference: WideReference,
}

/// A part of a FIXUPP record.
#[derive(Clone, Copy, Debug, PartialEq, Eq)]
pub enum WideSubrecord {
    /// Sets a frame thread.
    SetFrame(ThreadNumber, FrameMethod),
    /// Sets a target thread.
    SetTarget(ThreadNumber, TargetMethod),
    Fixup(WideFixup),
}

/// The number by which a fix-up's location is written: 0, 1, 2, 3, 5, 9 or 13.
fn wide_location_number(location: WideLocation) -> u8
    ensures number { result ≡ location_number location }
    ensures small { result < 14 }
{
    match location {
        WideLocation::Of16Bits(location) => omf_record::location_number(location),
        WideLocation::Offset32 => 9,
        WideLocation::LoaderOffset32 => 13,
    }
}

/// The location of this number, where one has it.
fn location_of(number: u64) -> WideLocation
    ensures { result ≡ subs.location_of number }
{
    match number {
        9 => WideLocation::Offset32,
        13 => WideLocation::LoaderOffset32,
        _ => WideLocation::Of16Bits(omf_record::fixups::location_of(number)),
    }
}

/// The fix data byte, and behind it the indexes and the displacement that it says stand there.
pub type WideReferenceParts<const WIDE: bool> = Then<
    First<Reference>,
    (
        When<64, 4, 0, Index>,
        (When<8, 2, 0, Index>, When<4, 2, 0, Number<WIDE>>),
    ),
>;

/// The indexes and the displacement behind it.
type ReferenceTail = (Option<u16>, (Option<u16>, Option<u32>));

impl<const WIDE: bool> Made<WideReferenceParts<WIDE>> for WideReference {
    type Item = WideReference;

    ghost Value = { WideReference };

    ghost format = { λ _. refs.reference WIDE };

    ghost is_made = { λ _. refs.reference_made WIDE };

    fn make(_number: u64, parts: (u64, ReferenceTail)) -> WideReference {
        wide_reference_of(parts.0, parts.1)
    }

    fn parts(item: &WideReference) -> (u64, ReferenceTail) {
        wide_reference_parts(*item)
    }
}

/// The reference that a fix data byte and what stands behind it say.
fn wide_reference_of(byte: u64, tail: ReferenceTail) -> WideReference
    ensures { result ≡ refs.reference_of byte tail }
{
    let (frame, (target, displacement)) = tail;
    let reference = reference_of(byte, (frame, (target, None)));
    WideReference {
        frame: reference.frame,
        target: reference.target,
        displacement,
    }
}

/// The fix data byte of a reference, and what stands behind it.
fn wide_reference_parts(reference: WideReference) -> (u64, ReferenceTail)
    ensures { result ≡ (refs.fix_data reference, refs.reference_tail reference) }
{
    let displacement = match reference.displacement {
        None => None,
        Some(_) => Some(0),
    };
    let (byte, (frame, (target, _))) = reference_parts(Reference {
        frame: reference.frame,
        target: reference.target,
        displacement,
    });
    (byte, (frame, (target, reference.displacement)))
}

/// A reference as a field of others.
pub struct WideReferenceField<const WIDE: bool>;

impl<const WIDE: bool> Codec for WideReferenceField<WIDE> {
    type Item = WideReference;

    ghost Value = { WideReference };

    ghost format = { λ _. refs.reference WIDE };

    ghost lawful = { λ _. refs.reference_lawful WIDE };

    fn put<O: Output>(item: &WideReference, number: u64, out: &mut O) -> Written {
        <Of<WideReferenceParts<WIDE>, WideReference> as Codec>::put(item, number, out)
    }
}

impl<'a, A: Allocator + Copy, const WIDE: bool> Field<'a, A> for WideReferenceField<WIDE> {
    fn read(alloc: A, number: u64, bytes: &'a [u8]) -> Read<'a, WideReference> {
        <Of<WideReferenceParts<WIDE>, WideReference> as Field<'a, A>>::read(alloc, number, bytes)
    }
}

impl<const WIDE: bool> Free for WideReferenceField<WIDE> {
    ghost free = { λ _ _. tt };
}

impl<const WIDE: bool> Blank for WideReferenceField<WIDE> {
    ghost blank = { λ _. refs.reference_blank WIDE };
}

/// The first byte, and what stands behind it.
pub type WideSubrecordParts<const WIDE: bool> = Then<
    First<WideSubrecord>,
    WideSubrecordTailField<WIDE>,
>;

/// The index of a target, that of a frame, or the low byte of a place and a reference.
type SubrecordTail = (
    Option<u16>,
    (Option<Option<u16>>, Option<(u8, WideReference)>),
);

/// The same, by its fields.
type TailParts<const WIDE: bool> = (
    When<64, 4, 0, Index>,
    (
        When<64, 4, 1, When<16, 2, 0, Index>>,
        When<128, 2, 1, (Byte, WideReferenceField<WIDE>)>,
    ),
);

/// What stands behind the first byte, as a field.
pub struct WideSubrecordTailField<const WIDE: bool>;

impl<const WIDE: bool> Codec for WideSubrecordTailField<WIDE> {
    type Item = SubrecordTail;

    ghost Value = { subs.Parts };

    ghost format = { subs.Behind WIDE };

    ghost lawful = { subs.behind_lawful WIDE };

    fn put<O: Output>(item: &SubrecordTail, number: u64, out: &mut O) -> Written {
        <TailParts<WIDE> as Codec>::put(item, number, out)
    }
}

impl<'a, A: Allocator + Copy, const WIDE: bool> Field<'a, A> for WideSubrecordTailField<WIDE> {
    fn read(alloc: A, number: u64, bytes: &'a [u8]) -> Read<'a, SubrecordTail> {
        <TailParts<WIDE> as Field<'a, A>>::read(alloc, number, bytes)
    }
}

impl<const WIDE: bool> Free for WideSubrecordTailField<WIDE> {
    ghost free = { λ _ _. tt };
}

impl<const WIDE: bool> Blank for WideSubrecordTailField<WIDE> {
    ghost blank = { subs.behind_blank WIDE };
}

impl Head for WideSubrecord {
    ghost Begins = { subs.IsFirst };

    fn begins(byte: u8) -> bool {
        let number = byte / 4;
        match byte / 64 {
            0 => number % 4 < 3,
            1 => number % 8 != 3 && number % 8 < 6,
            _ => wide_location_number(location_of(u64::from(number % 16))) == number % 16,
        }
    }
}

impl<const WIDE: bool> Made<WideSubrecordParts<WIDE>> for WideSubrecord {
    type Item = WideSubrecord;

    ghost Value = { WideSubrecord };

    ghost format = { λ _. subs.subrecord WIDE };

    ghost is_made = { λ _. subs.subrecord_made WIDE };

    fn make(_number: u64, parts: (u64, SubrecordTail)) -> WideSubrecord {
        subrecord_of(parts.0, parts.1)
    }

    fn parts(item: &WideSubrecord) -> (u64, SubrecordTail) {
        subrecord_parts(*item)
    }
}

/// The subrecord that its first byte and what stands behind it say.
fn subrecord_of(byte: u64, tail: SubrecordTail) -> WideSubrecord
    ensures { result ≡ subs.subrecord_of byte tail }
{
    let thread = thread_of(byte % 4);
    let (target, (frame, fixup)) = tail;
    match (fixup, frame, target) {
        (Some((low, reference)), _, _) => WideSubrecord::Fixup(WideFixup {
            self_relative: byte / 64 % 2 == 0,
            location: location_of(byte / 4 % 16),
            offset: (256 * (byte % 4) + u64::from(low)) as u16,
            reference,
        }),
        (None, Some(index), _) => WideSubrecord::SetFrame(
            thread,
            frame_method_of(byte / 4 % 8, index),
        ),
        (None, None, index) => WideSubrecord::SetTarget(
            thread,
            target_method_of(byte / 4 % 4, index.unwrap_or(0)),
        ),
    }
}

/// The first byte of a subrecord, and what stands behind it.
fn subrecord_parts(subrecord: WideSubrecord) -> (u64, SubrecordTail)
    ensures { result ≡ (subs.first_byte subrecord, subs.behind_first subrecord) }
{
    match subrecord {
        WideSubrecord::SetFrame(thread, method) => {
            let byte = u64::from(64 + 4 * frame_number(method) + thread_number(thread));
            (byte, (None, (Some(frame_method_index(method)), None)))
        }
        WideSubrecord::SetTarget(thread, method) => {
            let byte = u64::from(4 * target_number(method) + thread_number(thread));
            (byte, (Some(target_method_index(method)), (None, None)))
        }
        WideSubrecord::Fixup(fixup) => {
            let (byte, low) = (u64::from(fixup_byte(&fixup)), (fixup.offset % 256) as u8);
            (byte, (None, (None, Some((low, fixup.reference)))))
        }
    }
}

/// The first byte of a fix-up; one that begins nothing, where its place is too far.
fn fixup_byte(fixup: &WideFixup) -> u8
    ensures { result ≡ subs.fixup_byte fixup.now }
{
    if fixup.offset > 1023 {
        return 144;
    }
    let mode = if fixup.self_relative { 0 } else { 64 };
    128 + mode + 4 * wide_location_number(fixup.location) + (fixup.offset / 256) as u8
}
