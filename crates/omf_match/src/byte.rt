//! Which segments of a module have a byte of a program's image.
ghost use Rattle.std.specs.Prelude.{◌≡◌, ◌<◌, ◌++◌, OnOk, All, length};
ghost use Rattle.std.specs.List.{flat_map};
ghost use Rattle.omf_module.specs.Seen.{segment_seen};
ghost use Rattle.omf_match.specs.Byte as spec;
ghost use Rattle.omf_match.specs.Places.{IsInside};

use crate::finding::{Stand, stands};
use byte_places::Index;
use omf_module::{Module, Segment};
use omf_text::{Piece, push_pieces};
use std::alloc::{AllocError, Allocator};

/// Appends the offset of a byte in a segment, which has a name and a class.
fn push_offset<A: Allocator + Copy>(
    lines: &mut Vec<u8, A>,
    segment: &Segment<'_>,
    offset: usize,
) -> Result<(), AllocError>
    ensures { OnOk result (lines.new.items ≡ lines.old.items ++ spec.offset_line (segment_seen segment.now) offset) }
{
    let pieces = [
        Piece::Text("  "),
        Piece::FilePlace(offset as u64),
        Piece::Text(" in "),
        Piece::Name(segment.name),
        Piece::Text(" "),
        Piece::Name(segment.class),
        Piece::Text("\n"),
    ];
    push_pieces(lines, pieces.as_slice())
}

/// The offset of the byte at an address in so many bytes that stand at a place, if it is one of them.
fn offset_in(place: usize, len: usize, address: usize) -> Option<usize>
    ensures { result ≡ spec.offset_in place len address }
{
    if place <= address && address - place < len {
        Some(address - place)
    } else {
        None
    }
}

/// Appends the line of a segment that stands at a place, if it has the byte at an address.
fn push_segment_byte<A: Allocator + Copy>(
    lines: &mut Vec<u8, A>,
    segment: &Segment<'_>,
    place: usize,
    address: usize,
) -> Result<(), AllocError>
    ensures { OnOk result (lines.new.items
        ≡ lines.old.items ++ spec.segment_byte_line address place (segment_seen segment.now)) }
{
    match offset_in(place, segment.length as usize, address) {
        Some(offset) => push_offset(lines, segment, offset),
        None => Ok(()),
    }
}

/// Appends the lines of the segments that have the byte at an address where they stand.
fn push_stand_bytes<A: Allocator + Copy, B: Allocator + Copy>(
    lines: &mut Vec<u8, A>,
    image: &[u8],
    from: &Module<B>,
    stands: &[Stand],
    address: usize,
) -> Result<(), AllocError>
    requires { All (IsInside from.now image.now) stands.now }
    ensures { OnOk result (lines.new.items
        ≡ lines.old.items ++ flat_map (spec.stand_byte_line from.now address) stands.now) }
{
    for stand in stands {
        push_segment_byte(lines, &from.segment(stand.segment), stand.place, address)?;
    }
    Ok(())
}

/// Appends what is printed of a module around the byte at an address of a program's image: of each of its segments that
/// has the byte, at one of the first places at which it stands, at most 16 of them, the byte's offset there.
///
/// # Errors
/// There was no memory. What was appended before stays.
pub fn push_byte<A: Allocator + Copy, B: Allocator + Copy, C: Allocator + Copy>(
    alloc: A,
    lines: &mut Vec<u8, A>,
    image: &Index<'_, B>,
    from: &Module<C>,
    address: usize,
) -> Result<(), AllocError>
    ensures { OnOk result (lines.new.items ≡ lines.old.items ++ spec.byte_lines from.now image.now address) }
{
    let found = stands(alloc, image, from)?;
    push_stand_bytes(lines, image.image(), from, &found, address)
}
