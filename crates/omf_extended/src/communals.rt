//! The entries of COMDEF and LCOMDEF, up to one of which it isn't known what stands behind it.

ghost use Rattle.std.specs.Prelude.{◌≡◌, ◌≤◌, ◌++◌, ℕ, List, map};
ghost use Rattle.omf_codec.specs.inside.Format.{Found, Reads, WritesItem};
ghost use Rattle.omf_codec.specs.inside.PrimitiveLaws.{rest_of};
ghost use Rattle.omf_extended.specs.Body.{are_ended, is_other};
ghost use Rattle.omf_extended.specs.inside.Communals as comms;
ghost use Rattle.omf_wide.specs.Communals as says;
ghost use Rattle.omf_wide.specs.Communals.{plain_communal};
ghost use Rattle.omf_wide.specs.inside.Communals.{communal};

use omf_codec::codec::{Blank, Codec, Field, Filled, Free, Of, Read};
use omf_codec::output::{Output, Unwritten, Written};
use omf_codec::primitives::{Index, Name, Rest};
use omf_codec::whole::ToEnd;
use omf_wide::communals::ExtentField;
use omf_wide::{Communal, Extent};
use std::alloc::Allocator;
use std::marker::PhantomData;

/// Entries as items of a list.
pub struct CommunalField<'a>(PhantomData<&'a [u8]>);

impl<'a> Codec for CommunalField<'a> {
    type Item = Communal<'a>;

    ghost Value = { says.Communal };

    ghost format = { λ _. communal };

    ghost lawful = { λ _. comms.communal_lawful };

    fn put<O: Output>(item: &Communal<'a>, number: u64, out: &mut O) -> Written {
        <Of<(Name<'a>, (Index, ExtentField)), Communal<'a>> as Codec>::put(item, number, out)
    }
}

impl<'a, A: Allocator + Copy> Field<'a, A> for CommunalField<'a> {
    fn read(alloc: A, number: u64, bytes: &'a [u8]) -> Read<'a, Communal<'a>> {
        <Of<(Name<'a>, (Index, ExtentField)), Communal<'a>> as Field<'a, A>>::read(
            alloc, number, bytes,
        )
    }
}

impl<'a> Free for CommunalField<'a> {
    ghost free = { λ _ _. tt };
}

impl<'a> Filled for CommunalField<'a> {
    ghost filled = { λ _. comms.communal_filled };
}

/// The data type is neither 61H nor 62H.
fn is_other(extent: Extent) -> bool
    ensures { result ≡ is_other extent }
{
    matches!(extent, Extent::Other { data_type: _ })
}

/// Nothing stands behind the entries whose data types are known, and one of another is the last.
fn are_ended(communals: &[Communal<'_>], unknown: &[u8]) -> bool
    ensures { result ≡ are_ended (map plain_communal communals.now) unknown.now }
{
    match communals {
        [] => unknown.is_empty(),
        [communal, others @ ..] => {
            if is_other(communal.extent) {
                others.is_empty()
            } else {
                are_ended(others, unknown)
            }
        }
    }
}

/// Entries, and the bytes behind the last.
type Chain<'a, A> = (Vec<Communal<'a>, A>, &'a [u8]);

/// Writes entries, and the bytes behind the last.
fn put_chain<'a, A: Allocator + Copy, O: Output>(chain: &Chain<'a, A>, out: &mut O) -> Written
    ensures { WritesItem O.Takes O.Refuses comms.chain chain.now out.old out.new result }
{
    let (communals, unknown) = chain;
    if !are_ended(communals, unknown) {
        return Err(Unwritten);
    }
    <ToEnd<A, CommunalField<'a>> as Codec>::put(communals, 0, out)?;
    <Rest<'a> as Codec>::put(unknown, 0, out)
}

/// All of the bytes, and none behind them.
fn all(bytes: &[u8]) -> (&[u8], &[u8])
    ensures { Found rest_of bytes.now result.0.now result.1.now }
{
    (bytes, &bytes[bytes.len()..])
}

/// Reads entries up to the end, or up to one of another data type.
fn read_chain<'a, A: Allocator + Copy>(alloc: A, bytes: &'a [u8]) -> Read<'a, Chain<'a, A>>
    ensures { Reads comms.chain (λ x. (x.0, x.1.now)) bytes.now result }
{
    let mut communals = Vec::new(alloc);
    let mut rest = bytes;
    while !rest.is_empty() {
        let (communal, after) = <CommunalField<'a> as Field<'a, A>>::read(alloc, 0, rest)?;
        communals.push(communal)?;
        if is_other(communal.extent) {
            let (unknown, end) = all(after);
            return Ok(((communals, unknown), end));
        }
        rest = after;
    }
    Ok(((communals, rest), rest))
}

/// The entries, and the bytes behind the last.
pub struct ChainField<'a, A>(PhantomData<&'a [u8]>, PhantomData<A>);

impl<'a, A: Allocator + Copy> Codec for ChainField<'a, A> {
    type Item = Chain<'a, A>;

    ghost Value = { List says.Communal × List ℕ };

    ghost format = { λ _. comms.chain };

    ghost lawful = { λ _. comms.chain_lawful };

    fn put<O: Output>(item: &Chain<'a, A>, _number: u64, out: &mut O) -> Written {
        put_chain(item, out)
    }
}

impl<'a, A: Allocator + Copy> Field<'a, A> for ChainField<'a, A> {
    fn read(alloc: A, _number: u64, bytes: &'a [u8]) -> Read<'a, Chain<'a, A>> {
        read_chain(alloc, bytes)
    }
}

impl<'a, A: Allocator + Copy> Blank for ChainField<'a, A> {
    ghost blank = { λ _. comms.chain_blank };
}
