//! Names that stand for others: ALIAS.

ghost use Rattle.omf_extended.specs.Said as says;
ghost use Rattle.omf_extended.specs.inside.Lists as lists;

use omf_codec::codec::{Codec, Field, Filled, Free, Made, Of, Read};
use omf_codec::output::{Output, Written};
use omf_codec::primitives::Name;
use std::alloc::Allocator;
use std::marker::PhantomData;

/// A name, and the one that it stands for: a reference to the first is one to the second.
#[derive(Clone, Copy, Debug)]
pub struct Alias<'a> {
    pub name: &'a [u8],
    pub substitute: &'a [u8],
}

impl<'a> Made<(Name<'a>, Name<'a>)> for Alias<'a> {
    type Item = Alias<'a>;

    ghost Value = { says.Standing };

    ghost format = { λ _. lists.standing };

    ghost is_made = { λ _. lists.standing_made };

    fn make(_number: u64, (name, substitute): (&'a [u8], &'a [u8])) -> Alias<'a> {
        Alias { name, substitute }
    }

    fn parts(item: &Alias<'a>) -> (&'a [u8], &'a [u8]) {
        (item.name, item.substitute)
    }
}

/// Aliases as items of a list.
pub struct AliasField<'a>(PhantomData<&'a [u8]>);

impl<'a> Codec for AliasField<'a> {
    type Item = Alias<'a>;

    ghost Value = { says.Standing };

    ghost format = { λ _. lists.standing };

    ghost lawful = { λ _. lists.standing_lawful };

    fn put<O: Output>(item: &Alias<'a>, number: u64, out: &mut O) -> Written {
        <Of<(Name<'a>, Name<'a>), Alias<'a>> as Codec>::put(item, number, out)
    }
}

impl<'a, A: Allocator + Copy> Field<'a, A> for AliasField<'a> {
    fn read(alloc: A, number: u64, bytes: &'a [u8]) -> Read<'a, Alias<'a>> {
        <Of<(Name<'a>, Name<'a>), Alias<'a>> as Field<'a, A>>::read(alloc, number, bytes)
    }
}

impl<'a> Free for AliasField<'a> {
    ghost free = { λ _ _. tt };
}

impl<'a> Filled for AliasField<'a> {
    ghost filled = { λ _. lists.standing_filled };
}
