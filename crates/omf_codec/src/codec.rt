//! A field of a body: one description of how it is read, measured and written.

ghost use Rattle.std.specs.Prelude.{◌≡◌, ◌≤◌, ◌++◌, [], ℕ, List};
ghost use Rattle.omf_codec.specs.inside.Format.{Format, Lawful, IsFree, Completes, IsFilled, Reads, WritesItem};
ghost use Rattle.omf_codec.specs.inside.Format.{IsMade, Makes, Splits};
ghost use Rattle.omf_codec.specs.inside.FormatLaws.{both, both_lawful, both_filled, both_blank};
ghost use Rattle.omf_codec.specs.inside.FormatLaws.{made_lawful, made_blank, made_filled};

use crate::output::{Output, Written};
use std::alloc::{AllocFailed, Allocator};
use std::marker::PhantomData;

/// Why a field could not be read.
#[derive(Debug, Drop)]
pub enum ReadError<'a> {
    Memory,
    /// The bytes from the fault on: none, where they end too early.
    Refused(&'a [u8]),
}

impl<'a, T: Drop> From<AllocFailed<T>> for ReadError<'a> {
    ghost use Rattle.omf_codec.specs.declared.codec.ReadError.TheVariants.{Memory};

    ghost from_gives = { λ _ e. e ≡ Memory };

    fn from(_e: AllocFailed<T>) -> ReadError<'a> {
        ReadError::Memory
    }
}

/// What was read, and the bytes behind it.
pub type Read<'a, T> = Result<(T, &'a [u8]), ReadError<'a>>;

/// How a field is spelled. That may depend on a number before it.
pub trait Codec {
    type Item: Drop;

    ghost Value: { Type 0 };

    ghost format: { ℕ → Format Self.Item Value };

    fn put<O: Output>(item: &Self::Item, number: u64, out: &mut O) -> Written
        ensures { WritesItem O.Takes O.Refuses (format number) item.now out.old out.new result };

    ghost lawful: { (number : ℕ) → Lawful (format number) };
}

/// A field that is read at the front of bytes.
pub trait Field<'a, A: Allocator + Copy>: Codec {
    fn read(alloc: A, number: u64, bytes: &'a [u8]) -> Read<'a, Self::Item>
        ensures { Reads (Self.format number) (λ x. (x.0, x.1.now)) bytes.now result };
}

/// Anything may stand behind it.
pub trait Free: Codec {
    ghost free: { (number : ℕ) → IsFree (Self.format number) };
}

/// Zeros make a text.
pub trait Blank: Codec {
    ghost blank: { (number : ℕ) → Completes (Self.format number) [] };
}

/// No text is empty.
pub trait Filled: Codec {
    ghost filled: { (number : ℕ) → IsFilled (Self.format number) };
}

/// One field behind another.
impl<F: Free, G: Codec> Codec for (F, G) {
    type Item = (F::Item, G::Item);

    ghost Value = { F.Value × G.Value };

    ghost format = { λ n. both (F.format n) (G.format n) };

    ghost lawful = { λ n. both_lawful (F.format n) (F.lawful n) (F.free n) (G.format n) (G.lawful n) };

    fn put<O: Output>(item: &(F::Item, G::Item), number: u64, out: &mut O) -> Written {
        F::put(&item.0, number, out)?;
        G::put(&item.1, number, out)
    }
}

impl<'a, A: Allocator + Copy, F: Field<'a, A> + Free, G: Field<'a, A> + Blank> Field<'a, A>
    for (F, G) {
    fn read(alloc: A, number: u64, bytes: &'a [u8]) -> Read<'a, (F::Item, G::Item)> {
        let (first, rest) = F::read(alloc, number, bytes)?;
        let (second, rest) = G::read(alloc, number, rest)?;
        Ok(((first, second), rest))
    }
}

impl<F: Free, G: Free> Free for (F, G) {
    ghost free = { λ n. G.free n };
}

impl<F: Free + Blank, G: Blank> Blank for (F, G) {
    ghost blank = { λ n. both_blank (F.format n) (G.format n) (F.blank n) (G.blank n) };
}

impl<F: Free + Filled, G: Codec> Filled for (F, G) {
    ghost filled = { λ n. both_filled (F.format n) (G.format n) (F.filled n) };
}

/// How values are spelled as parts of them are.
pub trait Made<P: Codec> {
    type Item: Drop;

    ghost Value: { Type 0 };

    ghost format: { ℕ → Format Self.Item Value };

    fn make(number: u64, parts: P::Item) -> Self::Item
        ensures { Makes (P.format number) (format number) parts result };

    fn parts(item: &Self::Item) -> P::Item
        ensures { (n : ℕ) → Splits (P.format n) (format n) ((P.format n).view result) ((format n).view item.now) };

    ghost is_made: { (number : ℕ) → IsMade (P.format number) (format number) };
}

/// A value of the second type's, spelled as the parts are.
pub struct Of<P, T>(PhantomData<P>, PhantomData<T>);

impl<P: Free, T: Made<P>> Codec for Of<P, T> {
    type Item = T::Item;

    ghost Value = { T.Value };

    ghost format = { T.format };

    ghost lawful = { λ n. made_lawful (P.format n) (T.format n) (T.is_made n) (P.lawful n) (P.free n) };

    fn put<O: Output>(item: &T::Item, number: u64, out: &mut O) -> Written {
        P::put(&T::parts(item), number, out)
    }
}

impl<'a, A: Allocator + Copy, P: Field<'a, A> + Free, T: Made<P>> Field<'a, A> for Of<P, T> {
    fn read(alloc: A, number: u64, bytes: &'a [u8]) -> Read<'a, T::Item> {
        let (parts, rest) = P::read(alloc, number, bytes)?;
        Ok((T::make(number, parts), rest))
    }
}

impl<P: Free, T: Made<P>> Free for Of<P, T> {
    ghost free = { λ n. (T.is_made n).free };
}

impl<P: Free + Blank, T: Made<P>> Blank for Of<P, T> {
    ghost blank = { λ n. made_blank (P.format n) (T.format n) (T.is_made n) (P.blank n) };
}

impl<P: Free + Filled, T: Made<P>> Filled for Of<P, T> {
    ghost filled = { λ n. made_filled (P.format n) (T.format n) (T.is_made n) (P.filled n) };
}
