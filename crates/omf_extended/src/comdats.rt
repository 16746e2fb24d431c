//! Data of which there may be some of one name: COMDAT.

ghost use Rattle.std.specs.Prelude.{◌≡◌, ◌≤◌, ◌<◌, ◌↔◌, ◌/◌, ◌%◌, ℕ, List, Option, IsTrue};
ghost use Rattle.omf_record.specs.Numbers.{bit};
ghost use Rattle.omf_record.specs.declared.externals.PublicBase.{PublicBase};
ghost use Rattle.omf_record.specs.inside.Shapes.{base, base_lawful};
ghost use Rattle.omf_extended.specs.Numbers as numbers;
ghost use Rattle.omf_extended.specs.declared.comdats.Comdat.{Comdat};
ghost use Rattle.omf_extended.specs.inside.Comdats as comdats;

use omf_codec::choice::{Then, When};
use omf_codec::codec::{Blank, Codec, Field, Free, Made, Of, Read};
use omf_codec::numbers::Number;
use omf_codec::output::{Output, Written};
use omf_codec::primitives::{First, Head, Index, ZeroHead};
use omf_record::PublicBase;
use omf_record::externals::BaseParts;
use std::alloc::Allocator;

/// Which of some COMDATs of one name is taken.
#[derive(Clone, Copy, Debug, PartialEq, Eq)]
pub enum ComdatSelection {
    /// 0: there may be one alone.
    NoMatch,
    /// 1: any of them.
    PickAny,
    /// 2: any of them, and all have to have the same size.
    SameSize,
    /// 3: any of them, and all have to have the same bytes.
    ExactMatch,
}

/// Where a COMDAT is put.
#[derive(Clone, Copy, Debug, PartialEq, Eq)]
pub enum ComdatAllocation {
    /// 0: into a segment, or at a paragraph.
    Explicit { base: PublicBase },
    /// 1: into code that is far, of 16 bits.
    FarCode,
    /// 2: into data that is far, of 16 bits.
    FarData,
    /// 3: into code of 32 bits.
    Code32,
    /// 4: into data of 32 bits.
    Data32,
}

/// At which multiples a COMDAT begins.
#[derive(Clone, Copy, Debug, PartialEq, Eq)]
pub enum ComdatAlignment {
    /// 0: as the segment that it is put into.
    OfSegment,
    /// 1.
    Byte,
    /// 2: of two bytes.
    Word,
    /// 3: of 16 bytes.
    Paragraph,
    /// 4: of 256 bytes.
    Page,
    /// 5: of four bytes.
    DoubleWord,
}

/// What a COMDAT says before its data.
#[derive(Clone, Copy, Debug, PartialEq, Eq)]
pub struct Comdat {
    /// Bit 0 of its flags: it goes on with the data of the one before it.
    pub continuation: bool,
    /// Bit 1: its data are blocks that are repeated, as in LIDATA.
    pub iterated: bool,
    /// Bit 2: its name is local to the module.
    pub local: bool,
    /// Bit 3: its data lie in a code segment.
    pub in_code: bool,
    pub selection: ComdatSelection,
    pub allocation: ComdatAllocation,
    pub alignment: ComdatAlignment,
    /// Where its data begin, in bytes from the front of all that have its name.
    pub offset: u32,
    pub type_index: u16,
    /// The index of its name.
    pub name: u16,
}

/// The flags; the attributes, and what stands behind them.
pub type ComdatParts<const WIDE: bool> = (
    First<Flags>,
    Then<First<Attributes>, ComdatTailField<WIDE>>,
);

/// The place of one that is put there.
pub struct BaseField;

impl Codec for BaseField {
    type Item = PublicBase;

    ghost Value = { PublicBase };

    ghost format = { λ _. base };

    ghost lawful = { λ _. base_lawful };

    fn put<O: Output>(item: &PublicBase, number: u64, out: &mut O) -> Written {
        <Of<BaseParts, PublicBase> as Codec>::put(item, number, out)
    }
}

impl<'a, A: Allocator + Copy> Field<'a, A> for BaseField {
    fn read(alloc: A, number: u64, bytes: &'a [u8]) -> Read<'a, PublicBase> {
        <Of<BaseParts, PublicBase> as Field<'a, A>>::read(alloc, number, bytes)
    }
}

impl Free for BaseField {
    ghost free = { λ _ _. tt };
}

impl Blank for BaseField {
    ghost blank = { λ _. comdats.base_blank };
}

/// The alignment, the offset, the type, the place of one that is put there, and the name.
type TailParts<const WIDE: bool> = (
    First<ComdatAlignment>,
    (Number<WIDE>, (Index, (When<1, 16, 0, BaseField>, Index))),
);

/// The same as values.
type ComdatTail = (u64, (u32, (u16, (Option<PublicBase>, u16))));

/// What stands behind the attributes, as a field.
pub struct ComdatTailField<const WIDE: bool>;

impl<const WIDE: bool> Codec for ComdatTailField<WIDE> {
    type Item = ComdatTail;

    ghost Value = { comdats.Tail };

    ghost format = { comdats.Behind WIDE };

    ghost lawful = { comdats.behind_laws WIDE };

    fn put<O: Output>(item: &ComdatTail, number: u64, out: &mut O) -> Written {
        <TailParts<WIDE> as Codec>::put(item, number, out)
    }
}

impl<'a, A: Allocator + Copy, const WIDE: bool> Field<'a, A> for ComdatTailField<WIDE> {
    fn read(alloc: A, number: u64, bytes: &'a [u8]) -> Read<'a, ComdatTail> {
        <TailParts<WIDE> as Field<'a, A>>::read(alloc, number, bytes)
    }
}

impl<const WIDE: bool> Free for ComdatTailField<WIDE> {
    ghost free = { λ _ _. tt };
}

impl<const WIDE: bool> Blank for ComdatTailField<WIDE> {
    ghost blank = { comdats.behind_blanks WIDE };
}

/// The flags of a COMDAT.
pub struct Flags;

impl Head for Flags {
    ghost Begins = { comdats.AreFlags };

    fn begins(byte: u8) -> bool {
        byte < 16
    }
}

impl ZeroHead for Flags {
    ghost zero = { comdats.flags_zero };
}

/// The attributes of a COMDAT: which is taken, and where it is put.
pub struct Attributes;

impl Head for Attributes {
    ghost Begins = { comdats.AreAttributes };

    fn begins(byte: u8) -> bool {
        byte / 16 < 4 && byte % 16 < 5
    }
}

impl ZeroHead for Attributes {
    ghost zero = { comdats.attributes_zero };
}

impl Head for ComdatAlignment {
    ghost Begins = { comdats.IsAlignment };

    fn begins(byte: u8) -> bool {
        byte < 6
    }
}

impl ZeroHead for ComdatAlignment {
    ghost zero = { comdats.alignment_zero };
}

impl<const WIDE: bool> Made<ComdatParts<WIDE>> for Comdat {
    type Item = Comdat;

    ghost Value = { Comdat };

    ghost format = { λ _. comdats.comdat WIDE };

    ghost is_made = { λ _. comdats.comdat_made WIDE };

    fn make(_number: u64, parts: (u64, (u64, ComdatTail))) -> Comdat {
        comdat_of(parts.0, parts.1.0, parts.1.1)
    }

    fn parts(item: &Comdat) -> (u64, (u64, ComdatTail)) {
        comdat_parts(*item)
    }
}

/// What the flags, the attributes and what stands behind them say.
fn comdat_of(flags: u64, attributes: u64, tail: ComdatTail) -> Comdat
    ensures { result ≡ comdats.comdat_of (flags, (attributes, tail)) }
{
    let (alignment, (offset, (type_index, (base, name)))) = tail;
    Comdat {
        continuation: flags % 2 == 1,
        iterated: flags / 2 % 2 == 1,
        local: flags / 4 % 2 == 1,
        in_code: flags / 8 % 2 == 1,
        selection: selection_of(attributes / 16),
        allocation: allocation_of(attributes % 16, base),
        alignment: alignment_of(alignment),
        offset,
        type_index,
        name,
    }
}

/// The selection of this number.
fn selection_of(number: u64) -> ComdatSelection
    ensures { result ≡ comdats.selection_of number }
{
    match number {
        0 => ComdatSelection::NoMatch,
        1 => ComdatSelection::PickAny,
        2 => ComdatSelection::SameSize,
        _ => ComdatSelection::ExactMatch,
    }
}

/// The allocation of this number, with the place of one that is put there.
fn allocation_of(number: u64, base: Option<PublicBase>) -> ComdatAllocation
    ensures { result ≡ comdats.allocation_of number base }
{
    match (base, number) {
        (Some(base), _) => ComdatAllocation::Explicit { base },
        (None, 1) => ComdatAllocation::FarCode,
        (None, 2) => ComdatAllocation::FarData,
        (None, 3) => ComdatAllocation::Code32,
        (None, _) => ComdatAllocation::Data32,
    }
}

/// The alignment of this number.
fn alignment_of(number: u64) -> ComdatAlignment
    ensures { result ≡ comdats.comdat_alignment_of number }
{
    match number {
        0 => ComdatAlignment::OfSegment,
        1 => ComdatAlignment::Byte,
        2 => ComdatAlignment::Word,
        3 => ComdatAlignment::Paragraph,
        4 => ComdatAlignment::Page,
        _ => ComdatAlignment::DoubleWord,
    }
}

/// A flag as a bit.
fn bit(flag: bool) -> u64
    ensures bit { result ≡ bit flag }
    ensures small { result < 2 }
{
    if flag { 1 } else { 0 }
}

/// The high four bits of the attributes.
fn selection_number(selection: ComdatSelection) -> u64
    ensures number { result ≡ numbers.selection_number selection }
    ensures small { result < 4 }
{
    match selection {
        ComdatSelection::NoMatch => 0,
        ComdatSelection::PickAny => 1,
        ComdatSelection::SameSize => 2,
        ComdatSelection::ExactMatch => 3,
    }
}

/// The low four bits of the attributes.
fn allocation_number(allocation: ComdatAllocation) -> u64
    ensures number { result ≡ numbers.allocation_number allocation }
    ensures small { result < 5 }
{
    match allocation {
        ComdatAllocation::Explicit { base: _ } => 0,
        ComdatAllocation::FarCode => 1,
        ComdatAllocation::FarData => 2,
        ComdatAllocation::Code32 => 3,
        ComdatAllocation::Data32 => 4,
    }
}

/// The byte of an alignment.
fn alignment_number(alignment: ComdatAlignment) -> u64
    ensures { result ≡ numbers.comdat_alignment_number alignment }
{
    match alignment {
        ComdatAlignment::OfSegment => 0,
        ComdatAlignment::Byte => 1,
        ComdatAlignment::Word => 2,
        ComdatAlignment::Paragraph => 3,
        ComdatAlignment::Page => 4,
        ComdatAlignment::DoubleWord => 5,
    }
}

/// The place of one that is put there.
fn base_in(allocation: ComdatAllocation) -> Option<PublicBase>
    ensures { result ≡ comdats.base_in allocation }
{
    match allocation {
        ComdatAllocation::Explicit { base } => Some(base),
        _ => None,
    }
}

/// The flags, the attributes and what stands behind them.
fn comdat_parts(comdat: Comdat) -> (u64, (u64, ComdatTail))
    ensures { result ≡ comdats.comdat_parts comdat }
{
    let flags = bit(comdat.continuation)
        + 2 * bit(comdat.iterated)
        + 4 * bit(comdat.local)
        + 8 * bit(comdat.in_code);
    let attributes = 16 * selection_number(comdat.selection) + allocation_number(comdat.allocation);
    (
        flags,
        (
            attributes,
            (
                alignment_number(comdat.alignment),
                (
                    comdat.offset,
                    (comdat.type_index, (base_in(comdat.allocation), comdat.name)),
                ),
            ),
        ),
    )
}
