//! The contents of repeated data, which a fix-up's location may not leave.
ghost use Rattle.std.specs.Prelude.{◌≡◌, ◌+◌, ◌++◌, ◌<◌, ◌≤◌, ◌^◌, length, map, IfOk};
ghost use Rattle.omf_record.specs.Record.{blocks_of};
ghost use Rattle.omf_record.specs.View.{block_view};
ghost use Rattle.omf_record.specs.Expansion.{all_stored_len, all_contents_at, blocks_len, contents};
ghost use Rattle.omf_module.specs.inside.Contents as spans;
ghost use Rattle.omf_module.specs.inside.Contents.{pair};

use omf_record::Block;
use std::alloc::{AllocError, Allocator};

/// A content: the stored place of its first byte, and its length.
#[derive(Clone, Copy, Debug)]
pub struct Content {
    place: usize,
    len: usize,
}

/// Whether so many stored places from one on lie wholly in a content.
fn lies_within(content: Content, at: usize, width: usize) -> bool
    ensures { result ≡ spans.lies_within at width (pair content) }
{
    content.place <= at && width <= content.len && at - content.place <= content.len - width
}

/// Whether so many stored places from one on lie wholly in one of the contents.
pub fn lies_in(contents: &[Content], at: usize, width: usize) -> bool
    ensures { result ≡ spans.lies_in (map pair contents.now) at width }
{
    for content in contents {
        if lies_within(*content, at, width) {
            return true;
        }
    }
    false
}

/// Lists the contents of blocks that are stored from a place on, and says where the blocks end.
fn list_contents<A: Allocator + Copy>(
    list: &mut Vec<Content, A>,
    blocks: &[Block<'_, A>],
    place: usize,
) -> Result<usize, AllocError>
    requires { place + all_stored_len (blocks_of (map block_view blocks.now)) < 2 ^ 32 }
    ensures { IfOk result (λ end. (end ≡ place + all_stored_len (blocks_of (map block_view blocks.now)))
        × (map pair list.new.items
        ≡ map pair list.old.items ++ all_contents_at place (blocks_of (map block_view blocks.now)))) }
{
    let mut place = place;
    for block in blocks {
        place = match block {
            Block::Content { bytes, .. } => {
                list.push(Content {
                    place: place + 5,
                    len: bytes.len(),
                })?;
                place + 5 + bytes.len()
            }
            Block::Nested { blocks, .. } => list_contents(list, blocks, place + 4)?,
        };
    }
    Ok(place)
}

/// The contents of a record's blocks.
#[tactic(auto, unfolding(omf_record::specs::Expansion::contents, omf_record::specs::Expansion::blocks_len))]
pub fn contents_of_blocks<A: Allocator + Copy>(
    alloc: A,
    blocks: &[Block<'_, A>],
) -> Result<Vec<Content, A>, AllocError>
    requires { blocks_len (map block_view blocks.now) ≤ 65534 }
    ensures { IfOk result (λ v. map pair v.items ≡ contents (map block_view blocks.now)) }
{
    let mut list = Vec::new(alloc);
    list_contents(&mut list, blocks, 0)?;
    Ok(list)
}
