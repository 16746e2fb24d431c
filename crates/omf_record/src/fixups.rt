//! Threads, references and fix-ups: FIXUPP, and the end of a module, MODEND.

ghost use Rattle.std.specs.Prelude.{◌≡◌, ◌≢◌, ◌<◌, ◌≤◌, ◌↔◌, ◌/◌, ◌%◌, Bool, ℕ, List, IsTrue, Option};
ghost use Rattle.omf_record.specs.Body.{ReferenceText};
ghost use Rattle.omf_record.specs.Canonical as canon;
ghost use Rattle.omf_record.specs.Numbers.{location_width, thread_number};
ghost use Rattle.omf_record.specs.inside.Fields.{frame_number, target_number, absent};
ghost use Rattle.omf_record.specs.Numbers.{location_number};
ghost use Rattle.omf_record.specs.Types.{Reference, Subrecord};
ghost use Rattle.omf_record.specs.inside.Ends as ends;
ghost use Rattle.omf_record.specs.inside.References as refs;
ghost use Rattle.omf_record.specs.inside.Subrecords as subs;

use omf_codec::choice::{Then, When};
use omf_codec::codec::{Blank, Codec, Field, Free, Made, Of, Read};
use omf_codec::output::{Output, Written};
use omf_codec::primitives::{Byte, First, Head, Index, Word, ZeroHead};
use std::alloc::Allocator;

/// The number of one of four frame threads, or of one of four target threads.
#[derive(Clone, Copy, Debug, PartialEq, Eq)]
pub enum ThreadNumber {
    Zero,
    One,
    Two,
    Three,
}

/// How a target is found: target methods T0, T1 and T2, and without a displacement T4, T5 and T6 (TIS OMF 1.1, FIXUPP).
#[derive(Clone, Copy, Debug, PartialEq, Eq)]
pub enum TargetMethod {
    /// T0 and T4: the segment with this index.
    Segment(u16),
    /// T1 and T5: the group with this index.
    Group(u16),
    /// T2 and T6: what the external name with this index stands for.
    External(u16),
}

/// How a frame is found: frame methods F0 to F2, F4 and F5 (TIS OMF 1.1, FIXUPP).
#[derive(Clone, Copy, Debug, PartialEq, Eq)]
pub enum FrameMethod {
    /// F0, F1 and F2: as the target is found by T0, T1 and T2.
    By(TargetMethod),
    /// F4: the segment of the data record that holds the location.
    Location,
    /// F5: the target's own frame.
    Target,
}

/// The frame or the target of a reference.
#[derive(Clone, Copy, Debug, PartialEq, Eq)]
pub enum Datum<M> {
    /// The method that this frame thread, or target thread, was last set to.
    Thread(ThreadNumber),
    By(M),
}

/// What a fix-up, or the start of a program, refers to.
#[derive(Clone, Copy, Debug, PartialEq, Eq)]
pub struct Reference {
    pub frame: Datum<FrameMethod>,
    pub target: Datum<TargetMethod>,
    /// What is added to the target's address, in bytes. An absent one counts as 0 and stays absent when written.
    pub displacement: Option<u16>,
}

/// What a fix-up fixes: locations 0, 1, 2, 3 and 5 (TIS OMF 1.1, FIXUPP).
#[derive(Clone, Copy, Debug, PartialEq, Eq)]
pub enum Location {
    /// One byte: the low byte of an offset.
    LowByte,
    /// A word.
    Offset,
    /// A word: a paragraph number.
    Base,
    /// Two words: an offset and, behind it, a base.
    Pointer,
    /// A word, as `Offset`.
    LoaderOffset,
}

impl Location {
    /// How many bytes the location has.
    pub fn width(self) -> u16
        ensures { result ≡ location_width self }
    {
        match self {
            Location::LowByte => 1,
            Location::Offset | Location::Base | Location::LoaderOffset => 2,
            Location::Pointer => 4,
        }
    }
}

/// A fix-up of a place in the last data record before it.
#[derive(Clone, Copy, Debug, PartialEq, Eq)]
pub struct Fixup {
    /// Whether the location holds a distance from itself, and not an offset in the frame.
    pub self_relative: bool,
    pub location: Location,
    /// The place of the location's first byte, counted from the first data byte, at most 1,023.
    pub offset: u16,
    pub reference: Reference,
}

/// A part of a FIXUPP record.
#[derive(Clone, Copy, Debug, PartialEq, Eq)]
pub enum Subrecord {
    /// Sets a frame thread.
    SetFrame(ThreadNumber, FrameMethod),
    /// Sets a target thread.
    SetTarget(ThreadNumber, TargetMethod),
    Fixup(Fixup),
}

/// The thread of this number.
pub fn thread_of(number: u64) -> ThreadNumber
    ensures { result ≡ refs.thread_of number }
{
    match number {
        0 => ThreadNumber::Zero,
        1 => ThreadNumber::One,
        2 => ThreadNumber::Two,
        _ => ThreadNumber::Three,
    }
}

/// The location of this number, where one has it.
pub fn location_of(number: u64) -> Location
    ensures { result ≡ subs.location_of number }
{
    match number {
        0 => Location::LowByte,
        1 => Location::Offset,
        2 => Location::Base,
        3 => Location::Pointer,
        _ => Location::LoaderOffset,
    }
}

/// The number of a thread, 0 to 3.
pub fn thread_number(thread: ThreadNumber) -> u8
    ensures number { result ≡ thread_number thread }
    ensures small { result < 4 }
{
    match thread {
        ThreadNumber::Zero => 0,
        ThreadNumber::One => 1,
        ThreadNumber::Two => 2,
        ThreadNumber::Three => 3,
    }
}

/// The number of a frame's method, F0 to F5.
pub fn frame_number(method: FrameMethod) -> u8
    ensures number { result ≡ frame_number method }
    ensures small { result < 6 }
{
    match method {
        FrameMethod::By(method) => target_number(method),
        FrameMethod::Location => 4,
        FrameMethod::Target => 5,
    }
}

/// The number of a target's method, T0 to T2.
pub fn target_number(method: TargetMethod) -> u8
    ensures number { result ≡ target_number method }
    ensures small { result < 3 }
{
    match method {
        TargetMethod::Segment(_) => 0,
        TargetMethod::Group(_) => 1,
        TargetMethod::External(_) => 2,
    }
}

/// The bit P: 1 where there is no displacement.
fn absent(displacement: Option<u16>) -> u8
    ensures bit { result ≡ absent displacement }
    ensures small { result < 2 }
{
    match displacement {
        None => 1,
        Some(_) => 0,
    }
}

/// The number by which a fix-up's location is written: 0, 1, 2, 3 or 5.
pub fn location_number(location: Location) -> u8
    ensures number { result ≡ location_number location }
    ensures small { result < 6 }
{
    match location {
        Location::LowByte => 0,
        Location::Offset => 1,
        Location::Base => 2,
        Location::Pointer => 3,
        Location::LoaderOffset => 5,
    }
}

/// The frame's method of this number, with the index behind it.
pub fn frame_method_of(number: u64, index: Option<u16>) -> FrameMethod
    ensures { result ≡ refs.frame_method_of number index }
{
    match index {
        Some(index) => FrameMethod::By(target_method_of(number, index)),
        None => match number {
            4 => FrameMethod::Location,
            _ => FrameMethod::Target,
        },
    }
}

/// The index behind a frame's method, where one stands there.
pub fn frame_method_index(method: FrameMethod) -> Option<u16>
    ensures { result ≡ refs.frame_method_index method }
{
    match method {
        FrameMethod::By(method) => Some(target_method_index(method)),
        FrameMethod::Location | FrameMethod::Target => None,
    }
}

/// The target's method of this number, with the index behind it.
pub fn target_method_of(number: u64, index: u16) -> TargetMethod
    ensures { result ≡ refs.target_method_of number index }
{
    match number {
        0 => TargetMethod::Segment(index),
        1 => TargetMethod::Group(index),
        _ => TargetMethod::External(index),
    }
}

/// The index behind a target's method.
pub fn target_method_index(method: TargetMethod) -> u16
    ensures { result ≡ refs.target_method_index method }
{
    match method {
        TargetMethod::Segment(index) | TargetMethod::Group(index) | TargetMethod::External(index) =>
            index,
    }
}

/// The frame that a fix data byte says, with the index behind it.
fn frame_datum_of(byte: u64, index: Option<u16>) -> Datum<FrameMethod>
    ensures { result ≡ refs.frame_datum_of byte index }
{
    if byte / 128 == 1 {
        Datum::Thread(thread_of(byte / 16 % 4))
    } else {
        Datum::By(frame_method_of(byte / 16 % 8, index))
    }
}

/// The target that a fix data byte says, with the index behind it.
fn target_datum_of(byte: u64, index: Option<u16>) -> Datum<TargetMethod>
    ensures { result ≡ refs.target_datum_of byte index }
{
    match index {
        Some(index) => Datum::By(target_method_of(byte % 4, index)),
        None => Datum::Thread(thread_of(byte % 4)),
    }
}

/// The bits of a frame in the fix data byte, and the index behind it.
fn frame_bits(frame: Datum<FrameMethod>) -> (u8, Option<u16>)
    ensures bits { result.0 ≡ canon.frame_bits frame }
    ensures small { result.0 < 192 }
    ensures index { result.1 ≡ refs.frame_datum_index frame }
{
    match frame {
        Datum::Thread(thread) => (128 + 16 * thread_number(thread), None),
        Datum::By(method) => (16 * frame_number(method), frame_method_index(method)),
    }
}

/// The bits of a target in the fix data byte, and the index behind it.
fn target_bits(target: Datum<TargetMethod>) -> (u8, Option<u16>)
    ensures bits { result.0 ≡ canon.target_bits target }
    ensures small { result.0 < 12 }
    ensures index { result.1 ≡ refs.target_datum_index target }
{
    match target {
        Datum::Thread(thread) => (8 + thread_number(thread), None),
        Datum::By(method) => (target_number(method), Some(target_method_index(method))),
    }
}

/// The fix data byte, and behind it the indexes and the displacement that it says stand there.
pub type ReferenceParts = Then<
    First<Reference>,
    (
        When<64, 4, 0, Index>,
        (When<8, 2, 0, Index>, When<4, 2, 0, Word>),
    ),
>;

/// The indexes and the displacement behind it.
pub type ReferenceTail = (Option<u16>, (Option<u16>, Option<u16>));

impl Head for Reference {
    ghost Begins = { refs.IsFixData };

    fn begins(byte: u8) -> bool {
        let (frame, target) = (byte / 16, byte % 16);
        frame != 3 && frame != 6 && frame != 7 && target != 3 && target != 7
    }
}

impl Made<ReferenceParts> for Reference {
    type Item = Reference;

    ghost Value = { Reference };

    ghost format = { λ _. refs.reference };

    ghost is_made = { λ _. refs.reference_made };

    fn make(_number: u64, parts: (u64, ReferenceTail)) -> Reference {
        reference_of(parts.0, parts.1)
    }

    fn parts(item: &Reference) -> (u64, ReferenceTail) {
        reference_parts(*item)
    }
}

/// The reference that a fix data byte and what stands behind it say.
pub fn reference_of(byte: u64, tail: ReferenceTail) -> Reference
    ensures { result ≡ refs.reference_of byte tail }
{
    Reference {
        frame: frame_datum_of(byte, tail.0),
        target: target_datum_of(byte, tail.1.0),
        displacement: tail.1.1,
    }
}

/// The fix data byte of a reference, and what stands behind it.
pub fn reference_parts(reference: Reference) -> (u64, ReferenceTail)
    ensures { result ≡ (canon.fix_data reference, refs.reference_tail reference) }
{
    let (frame, frame_index) = frame_bits(reference.frame);
    let (target, target_index) = target_bits(reference.target);
    let byte = u64::from(frame + 4 * absent(reference.displacement) + target);
    (byte, (frame_index, (target_index, reference.displacement)))
}

/// A reference as a field of others.
pub struct ReferenceField;

impl Codec for ReferenceField {
    type Item = Reference;

    ghost Value = { Reference };

    ghost format = { λ _. refs.reference };

    ghost lawful = { λ _. refs.reference_lawful };

    fn put<O: Output>(item: &Reference, number: u64, out: &mut O) -> Written {
        <Of<ReferenceParts, Reference> as Codec>::put(item, number, out)
    }
}

impl<'a, A: Allocator + Copy> Field<'a, A> for ReferenceField {
    fn read(alloc: A, number: u64, bytes: &'a [u8]) -> Read<'a, Reference> {
        <Of<ReferenceParts, Reference> as Field<'a, A>>::read(alloc, number, bytes)
    }
}

impl Free for ReferenceField {
    ghost free = { λ _ _. tt };
}

impl Blank for ReferenceField {
    ghost blank = { λ _. refs.reference_blank };
}

/// The first byte, and what stands behind it.
pub type SubrecordParts = Then<First<Subrecord>, SubrecordTailField>;

/// The index of a target, that of a frame, or the low byte of a place and a reference.
type SubrecordTail = (Option<u16>, (Option<Option<u16>>, Option<(u8, Reference)>));

/// The same, by its fields.
type TailParts = (
    When<64, 4, 0, Index>,
    (
        When<64, 4, 1, When<16, 2, 0, Index>>,
        When<128, 2, 1, (Byte, ReferenceField)>,
    ),
);

/// What stands behind the first byte, as a field.
pub struct SubrecordTailField;

impl Codec for SubrecordTailField {
    type Item = SubrecordTail;

    ghost Value = { subs.Parts };

    ghost format = { subs.Behind };

    ghost lawful = { subs.behind_lawful };

    fn put<O: Output>(item: &SubrecordTail, number: u64, out: &mut O) -> Written {
        <TailParts as Codec>::put(item, number, out)
    }
}

impl<'a, A: Allocator + Copy> Field<'a, A> for SubrecordTailField {
    fn read(alloc: A, number: u64, bytes: &'a [u8]) -> Read<'a, SubrecordTail> {
        <TailParts as Field<'a, A>>::read(alloc, number, bytes)
    }
}

impl Free for SubrecordTailField {
    ghost free = { λ _ _. tt };
}

impl Blank for SubrecordTailField {
    ghost blank = { subs.behind_blank };
}

impl Head for Subrecord {
    ghost Begins = { subs.IsFirst };

    fn begins(byte: u8) -> bool {
        let number = byte / 4;
        match byte / 64 {
            0 => number % 4 < 3,
            1 => number % 8 != 3 && number % 8 < 6,
            _ => location_number(location_of(u64::from(number % 16))) == number % 16,
        }
    }
}

impl Made<SubrecordParts> for Subrecord {
    type Item = Subrecord;

    ghost Value = { Subrecord };

    ghost format = { λ _. subs.subrecord };

    ghost is_made = { λ _. subs.subrecord_made };

    fn make(_number: u64, parts: (u64, SubrecordTail)) -> Subrecord {
        subrecord_of(parts.0, parts.1)
    }

    fn parts(item: &Subrecord) -> (u64, SubrecordTail) {
        subrecord_parts(*item)
    }
}

/// The subrecord that its first byte and what stands behind it say.
fn subrecord_of(byte: u64, tail: SubrecordTail) -> Subrecord
    ensures { result ≡ subs.subrecord_of byte tail }
{
    let thread = thread_of(byte % 4);
    let (target, (frame, fixup)) = tail;
    match (fixup, frame, target) {
        (Some((low, reference)), _, _) => Subrecord::Fixup(Fixup {
            self_relative: byte / 64 % 2 == 0,
            location: location_of(byte / 4 % 16),
            offset: (256 * (byte % 4) + u64::from(low)) as u16,
            reference,
        }),
        (None, Some(index), _) => Subrecord::SetFrame(thread, frame_method_of(byte / 4 % 8, index)),
        (None, None, index) => Subrecord::SetTarget(
            thread,
            target_method_of(byte / 4 % 4, index.unwrap_or(0)),
        ),
    }
}

/// The first byte of a subrecord, and what stands behind it.
fn subrecord_parts(subrecord: Subrecord) -> (u64, SubrecordTail)
    ensures { result ≡ (subs.first_byte subrecord, subs.behind_first subrecord) }
{
    match subrecord {
        Subrecord::SetFrame(thread, method) => {
            let byte = u64::from(64 + 4 * frame_number(method) + thread_number(thread));
            (byte, (None, (Some(frame_method_index(method)), None)))
        }
        Subrecord::SetTarget(thread, method) => {
            let byte = u64::from(4 * target_number(method) + thread_number(thread));
            (byte, (Some(target_method_index(method)), (None, None)))
        }
        Subrecord::Fixup(fixup) => {
            let (byte, low) = (u64::from(fixup_byte(&fixup)), (fixup.offset % 256) as u8);
            (byte, (None, (None, Some((low, fixup.reference)))))
        }
    }
}

/// The first byte of a fix-up; one that begins nothing, where its place is too far.
fn fixup_byte(fixup: &Fixup) -> u8
    ensures { result ≡ subs.fixup_byte fixup.now }
{
    if fixup.offset > 1023 {
        return 144;
    }
    let mode = if fixup.self_relative { 0 } else { 64 };
    128 + mode + 4 * location_number(fixup.location) + (fixup.offset / 256) as u8
}

/// The attribute byte of a MODEND.
pub struct Attribute;

impl Head for Attribute {
    ghost Begins = { ends.IsAttribute };

    fn begins(byte: u8) -> bool {
        byte / 64 % 2 == 0 || byte % 2 == 1
    }
}

impl ZeroHead for Attribute {
    ghost zero = { ends.attribute_zero };
}

/// The attribute byte, and a start where that says so.
pub type EndParts = Then<First<Attribute>, When<64, 2, 1, ReferenceField>>;

/// Whether the module is the main one, and its start.
pub type End = (bool, Option<Reference>);

impl Made<EndParts> for Attribute {
    type Item = End;

    ghost Value = { Bool × Option Reference };

    ghost format = { λ _. ends.module_end ReferenceText canon.reference };

    ghost is_made = { λ _. ends.end_made ReferenceText canon.reference };

    fn make(_number: u64, parts: (u64, Option<Reference>)) -> End {
        end_of(parts.0, parts.1)
    }

    fn parts(item: &End) -> (u64, Option<Reference>) {
        (end_byte(*item), item.1)
    }
}

/// The end of a module that its attribute byte and its start say.
fn end_of(byte: u64, start: Option<Reference>) -> End
    ensures { result ≡ ends.end_of byte start }
{
    (byte / 128 == 1, start)
}

/// The attribute byte: bit 7 of the main module, bits 6 and 0 where a start stands behind it.
fn end_byte(end: End) -> u64
    ensures { result ≡ ends.end_byte end }
{
    let main = if end.0 { 128 } else { 0 };
    match end.1 {
        Some(_) => main + 65,
        None => main,
    }
}
