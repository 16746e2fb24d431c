//! Names between modules, and lines: EXTDEF, PUBDEF and LINNUM.

ghost use Rattle.omf_record.specs.Record as says;
ghost use Rattle.omf_record.specs.Types.{Line, PublicBase};
ghost use Rattle.omf_record.specs.inside.Shapes as shapes;

use omf_codec::choice::{Then, When};
use omf_codec::codec::{Codec, Field, Filled, Free, Made, Of, Read};
use omf_codec::output::{Output, Written};
use omf_codec::primitives::{Index, Name, Word};
use std::alloc::Allocator;
use std::marker::PhantomData;

/// What the offsets of public names count from (TIS OMF 1.1, PUBDEF). A group index of 0 means no group.
#[derive(Clone, Copy, Debug, PartialEq, Eq)]
pub enum PublicBase {
    /// A paragraph number; written with the segment index 0.
    AtFrame { group: u16, frame: u16 },
    /// A segment, whose index isn't 0.
    InSegment { group: u16, segment: u16 },
}

/// A line number of a source text, and the offset of its first byte of code.
#[derive(Clone, Copy, Debug, PartialEq, Eq)]
pub struct Line {
    pub number: u16,
    pub offset: u16,
}

/// A name that a module uses and doesn't define.
#[derive(Clone, Copy, Debug)]
pub struct External<'a> {
    pub name: &'a [u8],
    pub type_index: u16,
}

/// A name that a module defines for others.
#[derive(Clone, Copy, Debug)]
pub struct Public<'a> {
    pub name: &'a [u8],
    pub offset: u16,
    pub type_index: u16,
}

impl<'a> Made<(Name<'a>, Index)> for External<'a> {
    type Item = External<'a>;

    ghost Value = { says.External };

    ghost format = { λ _. shapes.external };

    ghost is_made = { λ _. shapes.external_made };

    fn make(_number: u64, (name, type_index): (&'a [u8], u16)) -> External<'a> {
        External { name, type_index }
    }

    fn parts(item: &External<'a>) -> (&'a [u8], u16) {
        (item.name, item.type_index)
    }
}

impl<'a> Made<(Name<'a>, (Word, Index))> for Public<'a> {
    type Item = Public<'a>;

    ghost Value = { says.Public };

    ghost format = { λ _. shapes.public };

    ghost is_made = { λ _. shapes.public_made };

    fn make(_number: u64, (name, (offset, type_index)): (&'a [u8], (u16, u16))) -> Public<'a> {
        Public {
            name,
            offset,
            type_index,
        }
    }

    fn parts(item: &Public<'a>) -> (&'a [u8], (u16, u16)) {
        (item.name, (item.offset, item.type_index))
    }
}

impl Made<(Word, Word)> for Line {
    type Item = Line;

    ghost Value = { Line };

    ghost format = { λ _. shapes.line };

    ghost is_made = { λ _. shapes.line_made };

    fn make(_number: u64, (number, offset): (u16, u16)) -> Line {
        Line { number, offset }
    }

    fn parts(item: &Line) -> (u16, u16) {
        (item.number, item.offset)
    }
}

/// A group, a segment, and a frame behind the segment 0.
pub type BaseParts = (Index, Then<Index, When<1, 65_536, 0, Word>>);

impl Made<BaseParts> for PublicBase {
    type Item = PublicBase;

    ghost Value = { PublicBase };

    ghost format = { λ _. shapes.base };

    ghost is_made = { λ _. shapes.base_made };

    #[tactic(auto, using(crate::specs::inside::Shapes::base_to))]
    fn make(_number: u64, (group, (segment, frame)): (u16, (u16, Option<u16>))) -> PublicBase {
        match frame {
            Some(frame) => PublicBase::AtFrame { group, frame },
            None => PublicBase::InSegment { group, segment },
        }
    }

    fn parts(item: &PublicBase) -> (u16, (u16, Option<u16>)) {
        match *item {
            PublicBase::AtFrame { group, frame } => (group, (0, Some(frame))),
            PublicBase::InSegment { group, segment } => (group, (segment, None)),
        }
    }
}

/// External names as items of a list.
pub struct ExternalField<'a>(PhantomData<&'a [u8]>);

impl<'a> Codec for ExternalField<'a> {
    type Item = External<'a>;

    ghost Value = { says.External };

    ghost format = { λ _. shapes.external };

    ghost lawful = { λ _. shapes.external_lawful };

    fn put<O: Output>(item: &External<'a>, number: u64, out: &mut O) -> Written {
        <Of<(Name<'a>, Index), External<'a>> as Codec>::put(item, number, out)
    }
}

impl<'a, A: Allocator + Copy> Field<'a, A> for ExternalField<'a> {
    fn read(alloc: A, number: u64, bytes: &'a [u8]) -> Read<'a, External<'a>> {
        <Of<(Name<'a>, Index), External<'a>> as Field<'a, A>>::read(alloc, number, bytes)
    }
}

impl<'a> Free for ExternalField<'a> {
    ghost free = { λ _ _. tt };
}

impl<'a> Filled for ExternalField<'a> {
    ghost filled = { λ _. shapes.external_filled };
}

/// Public names as items of a list.
pub struct PublicField<'a>(PhantomData<&'a [u8]>);

impl<'a> Codec for PublicField<'a> {
    type Item = Public<'a>;

    ghost Value = { says.Public };

    ghost format = { λ _. shapes.public };

    ghost lawful = { λ _. shapes.public_lawful };

    fn put<O: Output>(item: &Public<'a>, number: u64, out: &mut O) -> Written {
        <Of<(Name<'a>, (Word, Index)), Public<'a>> as Codec>::put(item, number, out)
    }
}

impl<'a, A: Allocator + Copy> Field<'a, A> for PublicField<'a> {
    fn read(alloc: A, number: u64, bytes: &'a [u8]) -> Read<'a, Public<'a>> {
        <Of<(Name<'a>, (Word, Index)), Public<'a>> as Field<'a, A>>::read(alloc, number, bytes)
    }
}

impl<'a> Free for PublicField<'a> {
    ghost free = { λ _ _. tt };
}

impl<'a> Filled for PublicField<'a> {
    ghost filled = { λ _. shapes.public_filled };
}
