//! Names between modules, and lines, whose offsets have 16 bits in four bytes: PUBDEF, LINNUM and CEXTDEF.

ghost use Rattle.omf_record.specs.Record as says;
ghost use Rattle.omf_record.specs.declared.externals.Line.{Line};
ghost use Rattle.omf_wide.specs.declared.externals.ListedExternal.{ListedExternal};
ghost use Rattle.omf_wide.specs.inside.Publics as publics;

use omf_codec::codec::{Codec, Field, Filled, Free, Made, Of, Read};
use omf_codec::numbers::LongWord;
use omf_codec::output::{Output, Written};
use omf_codec::primitives::{Index, Name, Word};
use omf_record::{Line, Public};
use std::alloc::Allocator;
use std::marker::PhantomData;

/// Public names by their parts.
pub struct LongPublic<'a>(PhantomData<&'a [u8]>);

impl<'a> Made<(Name<'a>, (LongWord, Index))> for LongPublic<'a> {
    type Item = Public<'a>;

    ghost Value = { says.Public };

    ghost format = { λ _. publics.public };

    ghost is_made = { λ _. publics.public_made };

    fn make(_number: u64, (name, (offset, type_index)): (&'a [u8], (u16, u16))) -> Public<'a> {
        Public {
            name,
            offset,
            type_index,
        }
    }

    fn parts(item: &Public<'a>) -> (&'a [u8], (u16, u16)) {
        (item.name, (item.offset, item.type_index))
    }
}

/// Public names as items of a list.
pub struct LongPublicField<'a>(PhantomData<&'a [u8]>);

impl<'a> Codec for LongPublicField<'a> {
    type Item = Public<'a>;

    ghost Value = { says.Public };

    ghost format = { λ _. publics.public };

    ghost lawful = { λ _. publics.public_lawful };

    fn put<O: Output>(item: &Public<'a>, number: u64, out: &mut O) -> Written {
        <Of<(Name<'a>, (LongWord, Index)), LongPublic<'a>> as Codec>::put(item, number, out)
    }
}

impl<'a, A: Allocator + Copy> Field<'a, A> for LongPublicField<'a> {
    fn read(alloc: A, number: u64, bytes: &'a [u8]) -> Read<'a, Public<'a>> {
        <Of<(Name<'a>, (LongWord, Index)), LongPublic<'a>> as Field<'a, A>>::read(
            alloc, number, bytes,
        )
    }
}

impl<'a> Free for LongPublicField<'a> {
    ghost free = { λ _ _. tt };
}

impl<'a> Filled for LongPublicField<'a> {
    ghost filled = { λ _. publics.public_filled };
}

/// Lines by their parts.
pub struct LongLine;

impl Made<(Word, LongWord)> for LongLine {
    type Item = Line;

    ghost Value = { Line };

    ghost format = { λ _. publics.line };

    ghost is_made = { λ _. publics.line_made };

    fn make(_number: u64, (number, offset): (u16, u16)) -> Line {
        Line { number, offset }
    }

    fn parts(item: &Line) -> (u16, u16) {
        (item.number, item.offset)
    }
}

/// A name that a module uses and doesn't define, as the index of one that is listed.
#[derive(Clone, Copy, Debug, PartialEq, Eq)]
pub struct ListedExternal {
    pub name: u16,
    pub type_index: u16,
}

impl Made<(Index, Index)> for ListedExternal {
    type Item = ListedExternal;

    ghost Value = { ListedExternal };

    ghost format = { λ _. publics.listed };

    ghost is_made = { λ _. publics.listed_made };

    fn make(_number: u64, (name, type_index): (u16, u16)) -> ListedExternal {
        ListedExternal { name, type_index }
    }

    fn parts(item: &ListedExternal) -> (u16, u16) {
        (item.name, item.type_index)
    }
}
