//! Repeated data of 32 bits: the blocks of LIDATA.

ghost use Rattle.std.specs.Prelude.{◌≡◌, ◌≤◌, ℕ, List, IfOk, map};
ghost use Rattle.omf_codec.specs.Language.{each};
ghost use Rattle.omf_codec.specs.inside.Format.{Reads};
ghost use Rattle.omf_codec.specs.inside.FormatLaws.{both};
ghost use Rattle.omf_codec.specs.inside.Numbers.{double};
ghost use Rattle.omf_codec.specs.inside.PrimitiveLaws.{index};
ghost use Rattle.omf_extended.specs.Answer.{RepeatedAnswers};
ghost use Rattle.omf_extended.specs.Body.{WideBlockText};
ghost use Rattle.omf_extended.specs.View.{wide_block_view};
ghost use Rattle.omf_extended.specs.inside.Repeated.{block, content};

use crate::fault::ExtendedFault;
use omf_codec::choice::{Then, When};
use omf_codec::codec::{Field, Read, ReadError};
use omf_codec::numbers::DoubleWord;
use omf_codec::primitives::{First, Index, Name, Word, Zero};
use std::alloc::{Allocator, Global};

/// A block of repeated data of 32 bits: its expansion is `repeat` copies of its content, or of its blocks' expansions
/// in order.
#[derive(Drop)]
#[derive_where(Debug)]
pub enum WideBlock<'a, A: Allocator + Copy = Global> {
    /// A content of at most 255 bytes.
    Content {
        repeat: u32,
        bytes: &'a [u8],
    },
    /// One block or more.
    Nested {
        repeat: u32,
        blocks: Vec<WideBlock<'a, A>, A>,
    },
}

/// What a LIDATA of 32 bits says: repeated data of a segment from an offset on.
#[derive(Drop)]
#[derive_where(Debug)]
pub struct WideRepeated<'a, A: Allocator + Copy = Global> {
    pub segment: u16,
    pub offset: u32,
    pub blocks: Vec<WideBlock<'a, A>, A>,
}

/// How often a block is repeated, how many blocks stand in it, and its content where none do.
type Head<'a> = (DoubleWord, Then<Word, When<1, 65_536, 0, Name<'a>>>);

/// The same of a block that none may stand in.
type Leaf<'a> = (DoubleWord, ((First<Zero>, First<Zero>), Name<'a>));

/// The bytes that are blocks, and these blocks.
#[derive(Drop)]
pub(crate) struct Blocks<'a, A: Allocator + Copy> {
    pub(crate) content: &'a [u8],
    pub(crate) blocks: Vec<WideBlock<'a, A>, A>,
}

/// Reads a block that may have blocks on so many levels below it.
fn read_block<'a, A: Allocator + Copy>(
    alloc: A,
    below: u32,
    bytes: &'a [u8],
) -> Read<'a, WideBlock<'a, A>>
    ensures { Reads (block below) (λ x. (wide_block_view x.0, x.1.now)) bytes.now result }
{
    if below == 0 {
        let ((repeat, (_, bytes)), rest) = <Leaf<'a> as Field<'a, A>>::read(alloc, 0, bytes)?;
        return Ok((WideBlock::Content { repeat, bytes }, rest));
    }
    let (head, mut rest) = <Head<'a> as Field<'a, A>>::read(alloc, 0, bytes)?;
    let (repeat, (count, content)) = head;
    if let Some(bytes) = content {
        return Ok((WideBlock::Content { repeat, bytes }, rest));
    }
    let mut blocks = Vec::new(alloc);
    for _ in 0..count {
        let (block, after) = read_block(alloc, below - 1, rest)?;
        blocks.push(block)?;
        rest = after;
    }
    Ok((WideBlock::Nested { repeat, blocks }, rest))
}

/// Bytes that are blocks to the end, which may have blocks on 63 levels below them.
fn read_content<'a, A: Allocator + Copy>(alloc: A, bytes: &'a [u8]) -> Read<'a, Blocks<'a, A>>
    ensures reads { Reads content (λ x. (x.0.content, x.1.now)) bytes.now result }
    ensures blocks { IfOk result
        (λ x. each (WideBlockText 63) (map wide_block_view x.0.blocks.items) x.0.content.now) }
{
    let mut blocks = Vec::new(alloc);
    let mut rest = bytes;
    while !rest.is_empty() {
        let (block, after) = read_block(alloc, 63, rest)?;
        blocks.push(block)?;
        rest = after;
    }
    let content = bytes;
    Ok((Blocks { content, blocks }, rest))
}

/// An offset, and blocks.
fn read_placed<'a, A: Allocator + Copy>(alloc: A, bytes: &'a [u8]) -> Read<'a, (u32, Blocks<'a, A>)>
    ensures reads { Reads (both double content) (λ x. ((x.0.0, x.0.1.content), x.1.now)) bytes.now result }
    ensures blocks { IfOk result
        (λ x. each (WideBlockText 63) (map wide_block_view x.0.1.blocks.items) x.0.1.content.now) }
{
    let (offset, rest) = <DoubleWord as Field<'a, A>>::read(alloc, 0, bytes)?;
    let (blocks, rest) = read_content(alloc, rest)?;
    Ok(((offset, blocks), rest))
}

/// A segment, an offset, and blocks.
pub(crate) fn read_lidata<'a, A: Allocator + Copy>(
    alloc: A,
    bytes: &'a [u8],
) -> Read<'a, (u16, (u32, Blocks<'a, A>))>
    ensures reads { Reads (both index (both double content)) (λ x. ((x.0.0, (x.0.1.0, x.0.1.1.content)), x.1.now))
        bytes.now result }
    ensures blocks { IfOk result
        (λ x. each (WideBlockText 63) (map wide_block_view x.0.1.1.blocks.items) x.0.1.1.content.now) }
{
    let (segment, rest) = <Index as Field<'a, A>>::read(alloc, 0, bytes)?;
    let (placed, rest) = read_placed(alloc, rest)?;
    Ok(((segment, placed), rest))
}

/// What the body of a LIDATA of 32 bits says, A3H, with its blocks as values, or the one fault that stands. `Memory`
/// where the blocks find none.
pub fn parse_wide_repeated<'a, A: Allocator + Copy + 'a>(
    alloc: A,
    bytes: &'a [u8],
) -> Result<WideRepeated<'a, A>, ExtendedFault>
    ensures { RepeatedAnswers bytes.now result }
{
    match read_lidata(alloc, bytes) {
        Ok(((segment, (offset, read)), _)) => Ok(WideRepeated {
            segment,
            offset,
            blocks: read.blocks,
        }),
        Err(ReadError::Memory) => Err(ExtendedFault::Memory),
        Err(ReadError::Refused(bad)) => Err(ExtendedFault::Body {
            at: bytes.len() - bad.len(),
        }),
    }
}
