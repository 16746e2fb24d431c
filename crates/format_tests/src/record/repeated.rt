ghost use Rattle.std.specs.Prelude.{◌≤◌, map};
ghost use Rattle.omf_record.specs.Expansion.{blocks_len};
ghost use Rattle.omf_record.specs.View.{block_view};

use super::answers::{Ask, hold};
use omf_frame::Frame;
use omf_record::{Block, Record, expand_into, expanded_len, parse_record, place_in_content};
use std::alloc::{AllocError, Global};
use std::process::Abort;

/// The blocks of a LIDATA body that is sound, or none.
#[tactic(auto, unfolding(omf_record::specs::View::view, omf_record::specs::Expansion::data_len, omf_record::specs::Expansion::blocks_len))]
fn blocks_of<'a>(alloc: Global, body: &'a [u8]) -> Vec<Block<'a>>
    ensures { blocks_len (map block_view result.items) ≤ 65534 }
{
    match parse_record(alloc, &Frame::new(0, 0xA2, &body[..body.len().min(65_534)])) {
        Ok(
            Record::Lidata {
                segment: _,
                offset: _,
                blocks,
            },
        ) => blocks,
        _ => Vec::new(alloc),
    }
}

/// How many bytes the blocks of a LIDATA body expand to.
pub fn length(alloc: Global, body: &[u8]) -> Result<String, AllocError> {
    format!(in alloc; "{}", expanded_len(&blocks_of(alloc, body)))
}

/// The bytes that the blocks of a LIDATA body expand to, 16 at most, and the places that they are stored at.
pub fn expansion(alloc: Global, body: &[u8]) -> Result<String, AllocError> {
    let blocks = blocks_of(alloc, body);
    let len = expanded_len(&blocks) as usize;
    if len > 16 {
        return length(alloc, body);
    }
    let mut bytes = [0u8; 16];
    let mut places = [0u16; 16];
    expand_into(&blocks, &mut bytes[..len], &mut places[..len]);
    format!(in alloc; "{:?} at {:?}", &bytes[..len], &places[..len])
}

/// In the fourth row an empty block is repeated greatly, behind one byte.
#[test]
fn lengths(rt: HostRuntime) {
    let rows = "\
A20100000200010003000000024142 => 12
A2010000FFFF0100FFFF0100FFFF00000141 => 65537
A201000000000100FFFF0100FFFF00000141 => 0
A201000001000200010000000141FFFF0100FFFF0100FFFF000000 => 1
A201000000010100000100000141 => 65536
A2010000 => 0
A2010000020005000100000001410100000001420300010001000000024344010000000145010000000146 => 20";
    hold(&rt, rt.alloc(), Ask::Length, rows);
}

#[test]
fn expansions(rt: HostRuntime) {
    let rows = "\
A20100000200010003000000024142 => [65, 66, 65, 66, 65, 66, 65, 66, 65, 66, 65, 66] at \
[9, 10, 9, 10, 9, 10, 9, 10, 9, 10, 9, 10]
A201000003000000020000 => [0, 0, 0, 0, 0, 0] at [5, 6, 5, 6, 5, 6]
A201000001000200010000000141FFFF0100FFFF0100FFFF000000 => [65] at [9]
A201000001000000014102000200010000000142010000000143 => [65, 66, 67, 66, 67] at [5, 15, 21, 15, 21]";
    hold(&rt, rt.alloc(), Ask::Expansion, rows);
}

/// Whether so many bytes from this place on lie in one content of the blocks.
fn lie_inside<R: Abort>(rt: &R, blocks: &[Block<'_>], at: u16, width: u16, inside: bool) {
    assert_eq!(rt; place_in_content(blocks, at, width), inside, "{at} {width}");
}

#[test]
fn places_in_contents(rt: HostRuntime) {
    let body = [
        1, 0, 0, 1, 0, 0, 0, 1, 0x41, 2, 0, 2, 0, 1, 0, 0, 0, 2, 0x42, 0x44, 1, 0, 0, 0, 1, 0x43,
    ];
    let blocks = blocks_of(rt.alloc(), &body);
    lie_inside(&rt, &blocks, 5, 1, true);
    lie_inside(&rt, &blocks, 5, 2, false);
    lie_inside(&rt, &blocks, 4, 1, false);
    lie_inside(&rt, &blocks, 15, 2, true);
    lie_inside(&rt, &blocks, 14, 2, false);
    lie_inside(&rt, &blocks, 16, 1, true);
    lie_inside(&rt, &blocks, 16, 2, false);
    lie_inside(&rt, &blocks, 22, 1, true);
    lie_inside(&rt, &blocks, 23, 1, false);
    lie_inside(&rt, &blocks, 6000, 1, false);
}
