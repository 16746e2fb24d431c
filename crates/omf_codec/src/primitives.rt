//! Bytes, words, indexes, names, and the bytes that are left.

ghost use Rattle.std.specs.Prelude.{◌≡◌, ◌≤◌, ◌↔◌, ℕ, List, IsTrue, refl};
ghost use Rattle.omf_codec.specs.Language as spelled;
ghost use Rattle.omf_codec.specs.inside.Canonical as canon;
ghost use Rattle.omf_codec.specs.inside.Format.{Writes};
ghost use Rattle.omf_codec.specs.inside.PrimitiveLaws as fmt;

use crate::codec::{Blank, Codec, Field, Filled, Free, Read, ReadError};
use crate::output::{Output, Unwritten, Written};
use omf_frame::{read_index, read_name};
use std::alloc::Allocator;
use std::marker::PhantomData;

/// A byte of any value.
pub struct Byte;

impl Codec for Byte {
    type Item = u8;

    ghost Value = { ℕ };

    ghost format = { λ _. fmt.byte };

    ghost lawful = { λ _. fmt.byte_lawful };

    fn put<O: Output>(item: &u8, _number: u64, out: &mut O) -> Written {
        out.write(&[*item])
    }
}

impl<'a, A: Allocator + Copy> Field<'a, A> for Byte {
    fn read(_alloc: A, _number: u64, bytes: &'a [u8]) -> Read<'a, u8> {
        match bytes {
            [] => Err(ReadError::Refused(bytes)),
            [byte, rest @ ..] => Ok((*byte, rest)),
        }
    }
}

impl Free for Byte {
    ghost free = { λ _ _. tt };
}

impl Blank for Byte {
    ghost blank = { λ _. fmt.byte_blank };
}

/// Which bytes may begin something.
pub trait Head {
    ghost Begins: { ℕ → Type 0 };

    fn begins(byte: u8) -> bool
        ensures { IsTrue result ↔ Begins byte };
}

/// A byte that may begin something, as a number that fields behind it may depend on.
pub struct First<H>(PhantomData<H>);

impl<H: Head> Codec for First<H> {
    type Item = u64;

    ghost Value = { ℕ };

    ghost format = { λ _. fmt.fact_byte H.Begins };

    ghost lawful = { λ _. fmt.fact_byte_lawful H.Begins };

    fn put<O: Output>(item: &u64, _number: u64, out: &mut O) -> Written {
        match u8::try_from(*item) {
            Ok(byte) if H::begins(byte) => out.write(&[byte]),
            _ => Err(Unwritten),
        }
    }
}

impl<'a, A: Allocator + Copy, H: Head> Field<'a, A> for First<H> {
    fn read(_alloc: A, _number: u64, bytes: &'a [u8]) -> Read<'a, u64> {
        match bytes {
            [byte, rest @ ..] if H::begins(*byte) => Ok((u64::from(*byte), rest)),
            _ => Err(ReadError::Refused(bytes)),
        }
    }
}

impl<H: Head> Free for First<H> {
    ghost free = { λ _ _. tt };
}

/// Bytes of which 00 is one.
pub trait ZeroHead: Head {
    ghost zero: { Self.Begins 0 };
}

impl<H: ZeroHead> Blank for First<H> {
    ghost blank = { λ _. fmt.fact_byte_blank H.Begins H.zero };
}

/// The byte 00.
pub struct Zero;

impl Head for Zero {
    ghost Begins = { fmt.IsZero };

    fn begins(byte: u8) -> bool {
        byte == 0
    }
}

impl ZeroHead for Zero {
    ghost zero = { refl };
}

impl<H: Head> Filled for First<H> {
    ghost filled = { λ _. fmt.fact_byte_filled H.Begins };
}

/// A word, the low byte first.
pub struct Word;

impl Codec for Word {
    type Item = u16;

    ghost Value = { ℕ };

    ghost format = { λ _. fmt.word };

    ghost lawful = { λ _. fmt.word_lawful };

    fn put<O: Output>(item: &u16, _number: u64, out: &mut O) -> Written {
        out.write(&[(*item % 256) as u8, (*item / 256) as u8])
    }
}

impl<'a, A: Allocator + Copy> Field<'a, A> for Word {
    fn read(_alloc: A, _number: u64, bytes: &'a [u8]) -> Read<'a, u16> {
        if bytes.len() < 2 {
            return Err(ReadError::Refused(&bytes[bytes.len()..]));
        }
        Ok((u16::from(bytes[0]) + 256 * u16::from(bytes[1]), &bytes[2..]))
    }
}

impl Free for Word {
    ghost free = { λ _ _. tt };
}

impl Blank for Word {
    ghost blank = { λ _. fmt.word_blank };
}

impl Filled for Word {
    ghost filled = { λ _. fmt.word_filled };
}

/// An index, in one byte or two.
pub struct Index;

impl Codec for Index {
    type Item = u16;

    ghost Value = { ℕ };

    ghost format = { λ _. fmt.index };

    ghost lawful = { λ _. fmt.index_lawful };

    fn put<O: Output>(item: &u16, _number: u64, out: &mut O) -> Written {
        put_index(*item, out)
    }
}

/// Writes an index in its shortest form.
fn put_index<O: Output>(index: u16, out: &mut O) -> Written
    ensures { Writes O.Takes O.Refuses (spelled.Index index) (canon.index index) out.old out.new result }
{
    if index < 128 {
        out.write(&[index as u8])
    } else if index <= 32767 {
        out.write(&[(128 + index / 256) as u8, (index % 256) as u8])
    } else {
        Err(Unwritten)
    }
}

impl<'a, A: Allocator + Copy> Field<'a, A> for Index {
    fn read(_alloc: A, _number: u64, bytes: &'a [u8]) -> Read<'a, u16> {
        match read_index(bytes) {
            Some((index, len)) => Ok((index, &bytes[len..])),
            None => Err(ReadError::Refused(&bytes[bytes.len()..])),
        }
    }
}

impl Free for Index {
    ghost free = { λ _ _. tt };
}

impl Blank for Index {
    ghost blank = { λ _. fmt.index_blank };
}

impl Filled for Index {
    ghost filled = { λ _. fmt.index_filled };
}

/// A name behind the byte of its length.
pub struct Name<'a>(PhantomData<&'a [u8]>);

impl<'a> Codec for Name<'a> {
    type Item = &'a [u8];

    ghost Value = { List ℕ };

    ghost format = { λ _. fmt.name };

    ghost lawful = { λ _. fmt.name_lawful };

    fn put<O: Output>(item: &&'a [u8], _number: u64, out: &mut O) -> Written {
        put_name(item, out)
    }
}

/// Writes these bytes.
fn put_bytes<O: Output>(bytes: &[u8], out: &mut O) -> Written
    ensures { Writes O.Takes O.Refuses (spelled.Bytes bytes.now) bytes.now out.old out.new result }
{
    out.write(bytes)
}

/// Writes a name behind the byte of its length.
fn put_name<O: Output>(name: &[u8], out: &mut O) -> Written
    ensures { Writes O.Takes O.Refuses (spelled.Name name.now) (canon.name name.now) out.old out.new result }
{
    if name.len() > 255 {
        return Err(Unwritten);
    }
    out.write(&[name.len() as u8])?;
    put_bytes(name, out)
}

impl<'a, A: Allocator + Copy> Field<'a, A> for Name<'a> {
    fn read(_alloc: A, _number: u64, bytes: &'a [u8]) -> Read<'a, &'a [u8]> {
        match read_name(bytes) {
            Some((name, len)) => Ok((name, &bytes[len..])),
            None => Err(ReadError::Refused(&bytes[bytes.len()..])),
        }
    }
}

impl<'a> Free for Name<'a> {
    ghost free = { λ _ _. tt };
}

impl<'a> Blank for Name<'a> {
    ghost blank = { λ _. fmt.name_blank };
}

impl<'a> Filled for Name<'a> {
    ghost filled = { λ _. fmt.name_filled };
}

/// The bytes that are left.
pub struct Rest<'a>(PhantomData<&'a [u8]>);

impl<'a> Codec for Rest<'a> {
    type Item = &'a [u8];

    ghost Value = { List ℕ };

    ghost format = { λ _. fmt.rest_of };

    ghost lawful = { λ _. fmt.rest_lawful };

    fn put<O: Output>(item: &&'a [u8], _number: u64, out: &mut O) -> Written {
        put_bytes(item, out)
    }
}

impl<'a, A: Allocator + Copy> Field<'a, A> for Rest<'a> {
    fn read(_alloc: A, _number: u64, bytes: &'a [u8]) -> Read<'a, &'a [u8]> {
        Ok((bytes, &bytes[bytes.len()..]))
    }
}

impl<'a> Blank for Rest<'a> {
    ghost blank = { λ _. fmt.rest_blank };
}
