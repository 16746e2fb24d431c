//! Fields of one kind to the end, fields that are written one behind the other, and bytes that are one text.

ghost use Rattle.std.specs.Prelude.{◌≡◌, ◌≤◌, [], List, refl};
ghost use Rattle.omf_codec.specs.inside.Format.{WritesItem};
ghost use Rattle.omf_codec.specs.inside.FormatLaws.{both, to_end, each_lawful};
ghost use Rattle.omf_codec.specs.inside.Wholes.{IsEnding, ReadsWhole};

use crate::codec::{Blank, Codec, Field, Filled, Free, Read, ReadError};
use crate::output::{Output, Written};
use std::alloc::Allocator;
use std::marker::PhantomData;

/// Fields of one kind, to the end.
pub struct ToEnd<A, F>(PhantomData<A>, PhantomData<F>);

impl<A: Allocator + Copy, F: Free + Filled> Codec for ToEnd<A, F> {
    type Item = Vec<F::Item, A>;

    ghost Value = { List F.Value };

    ghost format = { λ n. to_end (F.format n) (λ v. v.items) };

    ghost lawful = { λ n. each_lawful (F.format n) (λ v. v.items) (F.lawful n) (F.free n) (F.filled n) };

    fn put<O: Output>(items: &Vec<F::Item, A>, number: u64, out: &mut O) -> Written {
        for item in items {
            F::put(item, number, out)?;
        }
        Ok(())
    }
}

impl<'a, A: Allocator + Copy, F: Free + Filled + Field<'a, A>> Field<'a, A> for ToEnd<A, F> {
    fn read(alloc: A, number: u64, bytes: &'a [u8]) -> Read<'a, Vec<F::Item, A>> {
        let mut items = Vec::new(alloc);
        let mut rest = bytes;
        while !rest.is_empty() {
            let (item, after) = F::read(alloc, number, rest)?;
            items.push(item)?;
            rest = after;
        }
        Ok((items, rest))
    }
}

impl<A: Allocator + Copy, F: Free + Filled> Blank for ToEnd<A, F> {
    ghost blank = { λ n. (0, [], refl) };
}

/// Writes a field, and another one behind it.
pub fn put_both<F: Free, G: Codec, O: Output>(
    first: &F::Item,
    second: &G::Item,
    out: &mut O,
) -> Written
    ensures { WritesItem O.Takes O.Refuses (both (F.format 0) (G.format 0)) (first.now, second.now)
        out.old out.new result }
{
    F::put(first, 0, out)?;
    G::put(second, 0, out)
}

/// Why bytes aren't the text of one value.
#[derive(Clone, Copy, Debug, PartialEq, Eq)]
pub enum WholeFault {
    Memory,
    /// They are no text: the length of their longest front that zeros complete.
    Text { at: usize },
}

/// The value that the bytes are the text of.
pub fn read_whole<'a, A: Allocator + Copy, F: Field<'a, A> + Blank>(
    alloc: A,
    bytes: &'a [u8],
) -> Result<F::Item, WholeFault>
    requires { IsEnding (F.format 0) }
    ensures { ReadsWhole (F.format 0) bytes.now result }
{
    match F::read(alloc, 0, bytes) {
        Ok((item, [])) => Ok(item),
        Ok((_, rest)) => Err(WholeFault::Text {
            at: bytes.len() - rest.len(),
        }),
        Err(ReadError::Memory) => Err(WholeFault::Memory),
        Err(ReadError::Refused(bad)) => Err(WholeFault::Text {
            at: bytes.len() - bad.len(),
        }),
    }
}
