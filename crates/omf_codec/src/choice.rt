//! Fields that depend on a number before them.

ghost use Rattle.std.specs.Prelude.{◌≡◌, ◌≤◌, ◌/◌, ◌%◌, ℕ, List, Option};
ghost use Rattle.omf_codec.specs.inside.FormatLaws.{behind, behind_lawful, behind_blank, behind_filled};
ghost use Rattle.omf_codec.specs.inside.FormatLaws.{when, when_lawful, when_blank, bits_at};

use crate::codec::{Blank, Codec, Field, Filled, Free, Read};
use crate::output::{Output, Unwritten, Written};
use crate::primitives::{First, Head, Index, Word};
use std::alloc::Allocator;
use std::marker::PhantomData;

/// A field whose value is a number.
pub trait Number: Codec {
    fn number(item: &Self::Item) -> u64
        ensures { (n : ℕ) → result ≡ (Self.format n).number ((Self.format n).view item.now) };
}

impl<H: Head> Number for First<H> {
    fn number(item: &u64) -> u64 {
        *item
    }
}

impl Number for Word {
    fn number(item: &u16) -> u64 {
        u64::from(*item)
    }
}

impl Number for Index {
    fn number(item: &u16) -> u64 {
        u64::from(*item)
    }
}

/// A number, and behind it a field that depends on it.
pub struct Then<N, F>(PhantomData<N>, PhantomData<F>);

impl<N: Number + Free, F: Free> Codec for Then<N, F> {
    type Item = (N::Item, F::Item);

    ghost Value = { N.Value × F.Value };

    ghost format = { λ n. behind (N.format n) (λ x. F.format ((N.format n).number x)) (λ rest. Unit {0}) };

    ghost lawful = { λ n. behind_lawful (N.format n) (λ x. F.format ((N.format n).number x)) (λ rest. Unit {0})
        (N.lawful n) (N.free n) (λ x. F.lawful ((N.format n).number x))
        (λ x rest e. F.free ((N.format n).number x) rest) };

    fn put<O: Output>(item: &(N::Item, F::Item), number: u64, out: &mut O) -> Written {
        N::put(&item.0, number, out)?;
        F::put(&item.1, N::number(&item.0), out)
    }
}

impl<
    'a,
    A: Allocator + Copy,
    N: Number + Free + Field<'a, A>,
    F: Free + Blank + Field<'a, A>,
> Field<'a, A> for Then<N, F> {
    fn read(alloc: A, number: u64, bytes: &'a [u8]) -> Read<'a, (N::Item, F::Item)> {
        let (first, rest) = N::read(alloc, number, bytes)?;
        let (second, rest) = F::read(alloc, N::number(&first), rest)?;
        Ok(((first, second), rest))
    }
}

impl<N: Number + Free, F: Free> Free for Then<N, F> {
    ghost free = { λ _ _. tt };
}

impl<N: Number + Free + Blank, F: Free + Blank> Blank for Then<N, F> {
    ghost blank = { λ n. behind_blank (N.format n) (λ x. F.format ((N.format n).number x)) (λ rest. Unit {0})
        (N.blank n) (λ x. F.blank ((N.format n).number x)) };
}

impl<N: Number + Free + Filled, F: Free> Filled for Then<N, F> {
    ghost filled = { λ n. behind_filled (N.format n) (λ x. F.format ((N.format n).number x)) (λ rest. Unit {0})
        (N.filled n) };
}

/// Some bits of a number: divided by the unit, modulo the count.
fn bits_at(unit: u64, count: u64, number: u64) -> u64
    ensures { result ≡ bits_at unit count number }
{
    if unit == 0 || count == 0 {
        return 0;
    }
    number / unit % count
}

/// A field that stands only where these bits of the number are these.
pub struct When<const UNIT: u64, const COUNT: u64, const BITS: u64, F>(PhantomData<F>);

impl<const UNIT: u64, const COUNT: u64, const BITS: u64, F: Free> Codec
    for When<UNIT, COUNT, BITS, F> {
    type Item = Option<F::Item>;

    ghost Value = { Option F.Value };

    ghost format = { λ n. when (bits_at UNIT COUNT n ≡ BITS) (F.format n) };

    ghost lawful = { λ n. when_lawful (bits_at UNIT COUNT n ≡ BITS) (F.format n) (F.lawful n) (F.free n) };

    fn put<O: Output>(item: &Option<F::Item>, number: u64, out: &mut O) -> Written {
        let stands = bits_at(UNIT, COUNT, number) == BITS;
        match item {
            Some(item) if stands => F::put(item, number, out),
            None if !stands => Ok(()),
            _ => Err(Unwritten),
        }
    }
}

impl<
    'a,
    A: Allocator + Copy,
    const UNIT: u64,
    const COUNT: u64,
    const BITS: u64,
    F: Free + Field<'a, A>,
> Field<'a, A> for When<UNIT, COUNT, BITS, F> {
    fn read(alloc: A, number: u64, bytes: &'a [u8]) -> Read<'a, Option<F::Item>> {
        if bits_at(UNIT, COUNT, number) != BITS {
            return Ok((None, bytes));
        }
        let (item, rest) = F::read(alloc, number, bytes)?;
        Ok((Some(item), rest))
    }
}

impl<const UNIT: u64, const COUNT: u64, const BITS: u64, F: Free> Free
    for When<UNIT, COUNT, BITS, F> {
    ghost free = { λ _ _. tt };
}

impl<const UNIT: u64, const COUNT: u64, const BITS: u64, F: Free + Blank> Blank
    for When<UNIT, COUNT, BITS, F> {
    ghost blank = { λ n. when_blank (bits_at UNIT COUNT n) BITS (F.format n) (F.blank n) };
}
