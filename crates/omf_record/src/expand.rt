//! Repeated data: its expansion.

ghost use Rattle.std.specs.Prelude.{◌≡◌, ◌≤◌, ◌<◌, ◌+◌, ◌*◌, ℕ, length, map, take, slice_index};
ghost use Rattle.std.specs.List.{repeat as copies};
ghost use Rattle.omf_record.specs.Expansion.{stored_len, all_stored_len, expansion_at};
ghost use Rattle.omf_record.specs.inside.Fields.{stored_from};
ghost use Rattle.omf_record.specs.Expansion.{expansions_at, expansion, bytes as byte_values, places, blocks_len};
ghost use Rattle.omf_record.specs.inside.Expansion.{repeat_of, once_at};
ghost use Rattle.omf_record.specs.Record.{blocks_of};
ghost use Rattle.omf_record.specs.View.{block_view};

use crate::blocks::Block;
use std::alloc::Allocator;

/// Lays copies of the first `once` items behind them, until there are `repeat` of them.
///
/// What is laid doubles in each turn.
fn repeat_front<T: Copy>(items: &mut [T], once: usize, repeat: usize)
    requires some { 0 < repeat }
    requires room { repeat * once ≤ length items.old }
    ensures { take (repeat * once) items.new ≡ copies repeat (take once items.old) }
{
    if once == 0 {
        return;
    }
    let len = repeat * once;
    let mut laid = once;
    while laid < len {
        let count = laid.min(len - laid);
        let (front, rest) = items.split_at_mut(laid);
        rest[..count].copy_from_slice(&front[..count]);
        laid += count;
    }
}

/// Numbers the items from `place` on.
fn number(items: &mut [u16], place: u16)
    requires { place + length items.old ≤ 65536 }
    ensures { (k : ℕ) → k < length items.new → slice_index items.new k ≡ place + k }
{
    for i in 0..items.len() {
        items[i] = (usize::from(place) + i) as u16;
    }
}

/// Lays a content, the first byte of which is stored at the place, into the fronts of the slices, and tells its
/// length.
#[inline]
fn lay_content(content: &[u8], place: u16, bytes: &mut [u8], stored: &mut [u16]) -> usize
    requires short { place + length content.now ≤ 65536 }
    requires room { length content.now ≤ length bytes.old }
    requires same { length bytes.old ≡ length stored.old }
    ensures len { result ≡ length content.now }
    ensures bytes { take result bytes.new ≡ byte_values (stored_from place content.now) }
    ensures stored { take result stored.new ≡ places (stored_from place content.now) }
{
    let len = content.len();
    bytes[..len].copy_from_slice(content);
    number(&mut stored[..len], place);
    len
}

/// How often a block repeats its content or its blocks.
#[inline]
fn repeat<A: Allocator + Copy>(block: &Block<'_, A>) -> usize
    ensures { result ≡ repeat_of (block_view block.now) }
{
    match block {
        Block::Content { repeat, bytes: _ } => usize::from(*repeat),
        Block::Nested { repeat, blocks: _ } => usize::from(*repeat),
    }
}

/// How many bytes a block takes in its record.
#[inline]
#[cycle(stored_len)]
fn block_len<A: Allocator + Copy>(block: &Block<'_, A>) -> u16
    requires { stored_len (block_view block.now) ≤ 65535 }
    ensures { result ≡ stored_len (block_view block.now) }
{
    match block {
        Block::Content { repeat: _, bytes } => 5 + bytes.len() as u16,
        Block::Nested { repeat: _, blocks } => 4 + blocks_stored_len(blocks),
    }
}

/// How many bytes blocks take in their record.
#[cycle(stored_len)]
fn blocks_stored_len<A: Allocator + Copy>(blocks: &[Block<'_, A>]) -> u16
    requires { all_stored_len (blocks_of (map block_view blocks.now)) ≤ 65535 }
    ensures { result ≡ all_stored_len (blocks_of (map block_view blocks.now)) }
{
    let mut len = 0;
    for block in blocks {
        len += block_len(block);
    }
    len
}

/// Lays one copy of what a block repeats, where the block is stored at the place, into the fronts of the slices, and
/// tells its length.
#[inline]
#[cycle(expand)]
fn expand_once<A: Allocator + Copy>(
    block: &Block<'_, A>,
    place: u16,
    bytes: &mut [u8],
    stored: &mut [u16],
) -> usize
    requires short { place + stored_len (block_view block.now) ≤ 65535 }
    requires room { length (once_at place (block_view block.now)) ≤ length bytes.old }
    requires same { length bytes.old ≡ length stored.old }
    ensures len { result ≡ length (once_at place (block_view block.now)) }
    ensures bytes { take result bytes.new ≡ byte_values (once_at place (block_view block.now)) }
    ensures stored { take result stored.new ≡ places (once_at place (block_view block.now)) }
{
    match block {
        Block::Content {
            repeat: _,
            bytes: content,
        } => lay_content(content, place + 5, bytes, stored),
        Block::Nested { repeat: _, blocks } => expand_all(blocks, place + 4, bytes, stored),
    }
}

/// Lays the expansion of a block that is stored at the place into the fronts of the slices, and tells its length.
#[inline]
#[cycle(expand)]
#[tactic(auto, using(crate::proofs::Expanded::once_fits))]
fn expand_block<A: Allocator + Copy>(
    block: &Block<'_, A>,
    place: u16,
    bytes: &mut [u8],
    stored: &mut [u16],
) -> usize
    requires short { place + stored_len (block_view block.now) ≤ 65535 }
    requires room { length (expansion_at place (block_view block.now)) ≤ length bytes.old }
    requires same { length bytes.old ≡ length stored.old }
    ensures len { result ≡ length (expansion_at place (block_view block.now)) }
    ensures bytes { take result bytes.new ≡ byte_values (expansion_at place (block_view block.now)) }
    ensures stored { take result stored.new ≡ places (expansion_at place (block_view block.now)) }
{
    let repeat = repeat(block);
    if repeat == 0 {
        return 0;
    }
    let once = expand_once(block, place, bytes, stored);
    repeat_front(bytes, once, repeat);
    repeat_front(stored, once, repeat);
    repeat * once
}

/// Lays the blocks' expansions, the first block of which is stored at the place, into the fronts of the slices, and
/// tells their length.
#[cycle(expand)]
fn expand_all<A: Allocator + Copy>(
    blocks: &[Block<'_, A>],
    place: u16,
    bytes: &mut [u8],
    stored: &mut [u16],
) -> usize
    requires short { place + all_stored_len (blocks_of (map block_view blocks.now)) ≤ 65535 }
    requires room { length (expansions_at place (blocks_of (map block_view blocks.now))) ≤ length bytes.old }
    requires same { length bytes.old ≡ length stored.old }
    ensures len { result ≡ length (expansions_at place (blocks_of (map block_view blocks.now))) }
    ensures bytes { take result bytes.new ≡ byte_values (expansions_at place (blocks_of (map block_view blocks.now))) }
    ensures stored { take result stored.new ≡ places (expansions_at place (blocks_of (map block_view blocks.now))) }
{
    let mut at = 0;
    let mut inner = place;
    for block in blocks {
        at += expand_block(block, inner, &mut bytes[at..], &mut stored[at..]);
        inner += block_len(block);
    }
    at
}

/// Lays the blocks' expansion, of at most 65,536 bytes, into `bytes`, and the place at which each byte is stored
/// into `stored`. Both have its length, which `expanded_len` tells; the blocks take at most 65,534 bytes in their
/// record.
#[tactic(auto, unfolding(crate::specs::Expansion::expansion, crate::specs::Expansion::blocks_len))]
pub fn expand_into<A: Allocator + Copy>(
    blocks: &[Block<'_, A>],
    bytes: &mut [u8],
    stored: &mut [u16],
)
    requires short { blocks_len (map block_view blocks.now) ≤ 65534 }
    requires bytes_len { length bytes.old ≡ length (expansion (map block_view blocks.now)) }
    requires stored_len { length stored.old ≡ length (expansion (map block_view blocks.now)) }
    requires small { length (expansion (map block_view blocks.now)) ≤ 65536 }
    ensures bytes { bytes.new ≡ byte_values (expansion (map block_view blocks.now)) }
    ensures stored { stored.new ≡ places (expansion (map block_view blocks.now)) }
{
    let _len = expand_all(blocks, 0, bytes, stored);
}
