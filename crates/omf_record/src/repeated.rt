//! Repeated data: the length of its expansion.

ghost use Rattle.std.specs.Prelude.{◌≡◌, ◌≤◌, ◌*◌, length, map};
ghost use Rattle.omf_record.specs.View.{block_view};
ghost use Rattle.omf_record.specs.Expansion.{expansion, capped};
ghost use Rattle.omf_record.specs.inside.Expansion.{expanded_len as block_len_of};

use crate::blocks::Block;
use std::alloc::Allocator;

/// What stands for any length above 65,536.
const TOO_LONG: u32 = 65_537;

/// A length so many times, or 65,537 where it is more than 65,536.
fn times(repeat: u16, len: u32) -> u32
    requires { len ≤ 65537 }
    ensures { result ≡ capped (repeat * len) }
{
    (u64::from(repeat) * u64::from(len)).min(u64::from(TOO_LONG)) as u32
}

/// The length of a block's expansion, or 65,537 where it is more than 65,536.
#[cycle(expanded_len)]
#[tactic(auto, using(crate::proofs::Expanded::cap_mul))]
fn block_expanded_len<A: Allocator + Copy>(block: &Block<'_, A>) -> u32
    ensures { result ≡ capped (block_len_of (block_view block.now)) }
{
    match block {
        Block::Content { repeat, bytes } => {
            times(*repeat, bytes.len().min(TOO_LONG as usize) as u32)
        }
        Block::Nested {
            repeat: 0,
            blocks: _,
        } => 0,
        Block::Nested { repeat, blocks } => times(*repeat, expanded_len(blocks)),
    }
}

/// The length of the blocks' expansion, or 65,537 where it is more than 65,536.
///
/// It takes a turn for a block at most, whatever the repeat counts are, and none below a repeat count of 0.
#[cycle(expanded_len)]
pub fn expanded_len<A: Allocator + Copy>(blocks: &[Block<'_, A>]) -> u32
    ensures { result ≡ capped (length (expansion (map block_view blocks.now))) }
{
    let mut total: u32 = 0;
    for block in blocks {
        total = (total + block_expanded_len(block)).min(TOO_LONG);
        if total == TOO_LONG {
            return total;
        }
    }
    total
}
