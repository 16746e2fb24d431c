//! Numbers of two bytes or four, and those of 16 bits in four.

ghost use Rattle.std.specs.Prelude.{◌≡◌, ◌≤◌, ℕ};
ghost use Rattle.omf_codec.specs.inside.Format.{Reads, WritesItem};
ghost use Rattle.omf_codec.specs.inside.Numbers as numbers;

use crate::codec::{Blank, Codec, Field, Filled, Free, Made, Of, Read};
use crate::output::{Output, Unwritten, Written};
use crate::primitives::{First, Word, Zero};
use std::alloc::Allocator;

/// A number of four bytes, the low one first.
pub type DoubleWord = Of<(Word, Word), Double>;

/// Numbers by their low word and their high one.
pub struct Double;

impl Made<(Word, Word)> for Double {
    type Item = u32;

    ghost Value = { ℕ };

    ghost format = { λ _. numbers.double };

    ghost is_made = { λ _. numbers.double_made };

    fn make(_number: u64, (low, high): (u16, u16)) -> u32 {
        u32::from(low) + 65_536 * u32::from(high)
    }

    fn parts(item: &u32) -> (u16, u16) {
        ((*item % 65_536) as u16, (*item / 65_536) as u16)
    }
}

/// A number of 16 bits in four bytes: a word, and two bytes 00.
pub type LongWord = Of<(Word, (First<Zero>, First<Zero>)), Long>;

/// Numbers by their low word, where the high one is 0.
pub struct Long;

impl Made<(Word, (First<Zero>, First<Zero>))> for Long {
    type Item = u16;

    ghost Value = { ℕ };

    ghost format = { λ _. numbers.long };

    ghost is_made = { λ _. numbers.long_made };

    fn make(_number: u64, (word, _): (u16, (u64, u64))) -> u16 {
        word
    }

    fn parts(item: &u16) -> (u16, (u64, u64)) {
        (*item, (0, 0))
    }
}

/// Reads a number of four bytes, or of two.
fn read_number<'a, A: Allocator + Copy>(alloc: A, wide: bool, bytes: &'a [u8]) -> Read<'a, u32>
    ensures { Reads (numbers.number wide) (λ x. (x.0, x.1.now)) bytes.now result }
{
    if wide {
        <DoubleWord as Field<'a, A>>::read(alloc, 0, bytes)
    } else {
        match <Word as Field<'a, A>>::read(alloc, 0, bytes) {
            Ok((word, rest)) => Ok((u32::from(word), rest)),
            Err(e) => Err(e),
        }
    }
}

/// Writes a number of four bytes, or of two.
fn put_number<O: Output>(wide: bool, item: u32, out: &mut O) -> Written
    ensures { WritesItem O.Takes O.Refuses (numbers.number wide) item out.old out.new result }
{
    if wide {
        DoubleWord::put(&item, 0, out)
    } else {
        match u16::try_from(item) {
            Ok(word) => Word::put(&word, 0, out),
            Err(_) => Err(Unwritten),
        }
    }
}

/// A number of four bytes where the flag is set, and else of two.
pub struct Number<const WIDE: bool>;

impl<const WIDE: bool> Codec for Number<WIDE> {
    type Item = u32;

    ghost Value = { ℕ };

    ghost format = { λ _. numbers.number WIDE };

    ghost lawful = { λ _. numbers.number_lawful WIDE };

    fn put<O: Output>(item: &u32, _number: u64, out: &mut O) -> Written {
        put_number(WIDE, *item, out)
    }
}

impl<'a, A: Allocator + Copy, const WIDE: bool> Field<'a, A> for Number<WIDE> {
    fn read(alloc: A, _number: u64, bytes: &'a [u8]) -> Read<'a, u32> {
        read_number(alloc, WIDE, bytes)
    }
}

impl<const WIDE: bool> Free for Number<WIDE> {
    ghost free = { λ _ _. tt };
}

impl<const WIDE: bool> Blank for Number<WIDE> {
    ghost blank = { λ _. numbers.number_blank WIDE };
}

impl<const WIDE: bool> Filled for Number<WIDE> {
    ghost filled = { λ _. numbers.number_filled WIDE };
}
