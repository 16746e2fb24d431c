//! Repeated data of 32 bits as that of 16.

ghost use Rattle.std.specs.Prelude.{◌≡◌, if◌then◌else◌, nat_lt, map, Ok, Err};
ghost use Rattle.omf_extended.specs.View.{wide_block_view};
ghost use Rattle.omf_record.specs.View.{block_view};
ghost use Rattle.omf_plain.specs.declared.fault.Obstacle.TheVariants.{Above16Bits};
ghost use Rattle.omf_plain.specs.inside.Steps.{plain_blocks};
ghost use Rattle.omf_plain.specs.View.{Answers};

use crate::fault::{Obstacle, PlainFault};
use omf_extended::WideBlock;
use omf_record::Block;
use std::alloc::Allocator;

/// A repeat count of 16 bits.
fn word_count(repeat: u32) -> Result<u16, Obstacle>
    ensures { result ≡ (if nat_lt repeat 65536 then Ok repeat else Err Above16Bits) }
{
    if repeat < 65_536 {
        Ok(repeat as u16)
    } else {
        Err(Obstacle::Above16Bits)
    }
}

/// Blocks of 32 bits as those of 16.
pub(crate) fn plain_blocks<'a, A: Allocator + Copy>(
    alloc: A,
    wide: &[WideBlock<'a, A>],
) -> Result<Vec<Block<'a, A>, A>, PlainFault>
    ensures { Answers (λ v. map block_view v.items) result (plain_blocks (map wide_block_view wide.now)) }
{
    let mut all = Vec::new(alloc);
    for block in wide {
        match block {
            WideBlock::Content { repeat, bytes } => {
                let repeat = word_count(*repeat)?;
                all.push(Block::Content { repeat, bytes })?;
            }
            WideBlock::Nested { repeat, blocks } => {
                let repeat = word_count(*repeat)?;
                let blocks = plain_blocks(alloc, blocks)?;
                all.push(Block::Nested { repeat, blocks })?;
            }
        }
    }
    Ok(all)
}
