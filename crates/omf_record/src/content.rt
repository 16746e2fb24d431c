//! Repeated data: its contents.

ghost use Rattle.std.specs.Prelude.{◌≤◌, ◌+◌, ◌↔◌, IsTrue, map};
ghost use Rattle.omf_record.specs.Expansion.{expansion, places, contents, LiesInOne, StandTogether, StandWhole};
ghost use Rattle.omf_record.specs.Expansion.{stored_len, all_stored_len, contents_at, all_contents_at};
ghost use Rattle.omf_record.specs.Record.{blocks_of};
ghost use Rattle.omf_record.specs.inside.Searching.{Finds};
ghost use Rattle.omf_record.specs.View.{block_view};

use crate::blocks::Block;
use std::alloc::Allocator;

/// Where stored places lie, as seen from blocks.
#[derive(Clone, Copy)]
enum Found {
    /// Wholly in one content.
    Inside,
    /// They begin before the end of the blocks, and aren't wholly in one content.
    Outside,
    /// They begin at or behind the end of the blocks, which is this place.
    Beyond(usize),
}

/// Looks for stored places in a block that is stored at `place`.
#[cycle(find)]
fn find_in_block<A: Allocator + Copy>(
    block: &Block<'_, A>,
    place: usize,
    at: u16,
    width: u16,
) -> Found
    requires { place ≤ at }
    ensures { Finds at width (place + stored_len (block_view block.now))
        (contents_at place (block_view block.now)) result }
{
    let (first, behind) = (usize::from(at), usize::from(at) + usize::from(width));
    match block {
        Block::Content { repeat: _, bytes } => {
            let end = place + 5 + bytes.len();
            if place + 5 <= first && behind <= end {
                Found::Inside
            } else if first < end {
                Found::Outside
            } else {
                Found::Beyond(end)
            }
        }
        Block::Nested { repeat: _, blocks } => {
            if first < place + 4 {
                Found::Outside
            } else {
                find_in_blocks(blocks, place + 4, at, width)
            }
        }
    }
}

/// Looks for stored places in blocks, the first of which is stored at `place`.
#[cycle(find)]
fn find_in_blocks<A: Allocator + Copy>(
    blocks: &[Block<'_, A>],
    place: usize,
    at: u16,
    width: u16,
) -> Found
    requires { place ≤ at }
    ensures { Finds at width (place + all_stored_len (blocks_of (map block_view blocks.now)))
        (all_contents_at place (blocks_of (map block_view blocks.now))) result }
{
    let mut inner = place;
    for block in blocks {
        match find_in_block(block, inner, at, width) {
            Found::Beyond(end) => inner = end,
            found => return found,
        }
    }
    Found::Beyond(inner)
}

/// Whether the stored places from `at` on, `width` of them, lie wholly in one content. Stored places count from the
/// first byte of the first block.
#[tactic(auto, unfolding(crate::specs::Expansion::contents))]
pub fn place_in_content<A: Allocator + Copy>(blocks: &[Block<'_, A>], at: u16, width: u16) -> bool
    ensures exact { IsTrue result ↔ LiesInOne at width (contents (map block_view blocks.now)) }
    // Wherever the expansion has a byte that is stored at `at`, the bytes of the other places follow it.
    ensures together { IsTrue result → StandTogether at width (places (expansion (map block_view blocks.now))) }
    // And each byte of the expansion that is stored at one of the places stands in a whole copy of them.
    ensures whole { IsTrue result → StandWhole at width (places (expansion (map block_view blocks.now))) }
{
    matches!(find_in_blocks(blocks, 0, at, width), Found::Inside)
}
