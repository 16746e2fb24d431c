//! Repeated data: the blocks of LIDATA.

ghost use Rattle.std.specs.Prelude.{◌≡◌, ◌≤◌};
ghost use Rattle.omf_record.specs.Record as says;
ghost use Rattle.omf_record.specs.inside.Blocks as blocks;
ghost use Rattle.omf_codec.specs.inside.Format.{Reads, WritesItem};

use omf_codec::choice::{Then, When};
use omf_codec::codec::{Codec, Field, Filled, Free, Read};
use omf_codec::output::{Output, Unwritten, Written};
use omf_codec::primitives::{First, Name, Word, Zero};
use std::alloc::{Allocator, Global};
use std::marker::PhantomData;

/// A block of repeated data: its expansion is `repeat` copies of its content, or of its blocks' expansions in order.
#[derive(Drop)]
#[derive_where(Debug)]
pub enum Block<'a, A: Allocator + Copy = Global> {
    /// A content of at most 255 bytes.
    Content {
        repeat: u16,
        bytes: &'a [u8],
    },
    /// One block or more.
    Nested {
        repeat: u16,
        blocks: Vec<Block<'a, A>, A>,
    },
}

/// How often a block is repeated, how many blocks stand in it, and its content where none do.
type Head<'a> = (Word, Then<Word, When<1, 65_536, 0, Name<'a>>>);

/// The same of a block that none may stand in.
type Leaf<'a> = (Word, ((First<Zero>, First<Zero>), Name<'a>));

/// Writes a block that may have blocks on so many levels below it.
fn put_block<A: Allocator + Copy, O: Output>(
    block: &Block<'_, A>,
    below: u32,
    out: &mut O,
) -> Written
    ensures { WritesItem O.Takes O.Refuses (blocks.block below) block.now out.old out.new result }
{
    match block {
        Block::Content { repeat, bytes } => { Head::put(&(*repeat, (0, Some(*bytes))), 0, out) }
        Block::Nested { repeat, blocks } => {
            if below == 0 {
                return Err(Unwritten);
            }
            if blocks.len() > 65_535 {
                return Err(Unwritten);
            }
            Head::put(&(*repeat, (blocks.len() as u16, None)), 0, out)?;
            for inner in blocks {
                put_block(inner, below - 1, out)?;
            }
            Ok(())
        }
    }
}

/// Reads a block that may have blocks on so many levels below it.
fn read_block<'a, A: Allocator + Copy>(
    alloc: A,
    below: u32,
    bytes: &'a [u8],
) -> Read<'a, Block<'a, A>>
    ensures { Reads (blocks.block below) (λ x. (x.0, x.1.now)) bytes.now result }
{
    if below == 0 {
        let ((repeat, (_, bytes)), rest) = <Leaf<'a> as Field<'a, A>>::read(alloc, 0, bytes)?;
        return Ok((Block::Content { repeat, bytes }, rest));
    }
    let (head, mut rest) = <Head<'a> as Field<'a, A>>::read(alloc, 0, bytes)?;
    let (repeat, (count, content)) = head;
    if let Some(bytes) = content {
        return Ok((Block::Content { repeat, bytes }, rest));
    }
    let mut blocks = Vec::new(alloc);
    for _ in 0..count {
        let (block, after) = read_block(alloc, below - 1, rest)?;
        blocks.push(block)?;
        rest = after;
    }
    Ok((Block::Nested { repeat, blocks }, rest))
}

/// Outermost blocks, which may have blocks on 63 levels below them.
pub struct BlockField<'a, A>(PhantomData<&'a [u8]>, PhantomData<A>);

impl<'a, A: Allocator + Copy> Codec for BlockField<'a, A> {
    type Item = Block<'a, A>;

    ghost Value = { says.Block };

    ghost format = { λ _. blocks.block 63 };

    ghost lawful = { λ _. blocks.block_lawful 63 };

    fn put<O: Output>(item: &Block<'a, A>, _number: u64, out: &mut O) -> Written {
        put_block(item, 63, out)
    }
}

impl<'a, A: Allocator + Copy> Field<'a, A> for BlockField<'a, A> {
    fn read(alloc: A, _number: u64, bytes: &'a [u8]) -> Read<'a, Block<'a, A>> {
        read_block(alloc, 63, bytes)
    }
}

impl<'a, A: Allocator + Copy> Free for BlockField<'a, A> {
    ghost free = { λ _ _. tt };
}

impl<'a, A: Allocator + Copy> Filled for BlockField<'a, A> {
    ghost filled = { λ _. blocks.block_filled 63 };
}
