//! Bytes, in rows of 16.

ghost use Rattle.std.specs.Prelude.{◌≡◌, ◌+◌, ◌<◌, ◌++◌, OnOk};
ghost use Rattle.std.specs.List.{flat_map};
ghost use Rattle.doslib_show.specs.Data as spec;

use crate::parts::push_piece;
use omf_text::{Hexadecimal, Piece, push_pieces};
use std::alloc::{AllocError, Allocator};

/// How many bytes a row has.
const ROW: usize = 16;

/// Appends bytes, each behind a space.
pub(crate) fn push_spaced<A: Allocator + Copy>(
    lines: &mut Vec<u8, A>,
    bytes: &[u8],
) -> Result<(), AllocError>
    ensures { OnOk result (lines.new.items ≡ lines.old.items ++ flat_map spec.spaced bytes.now) }
{
    for byte in bytes {
        let pieces = [Piece::Text(" "), Piece::Byte(*byte)];
        push_pieces(lines, pieces.as_slice())?;
    }
    Ok(())
}

/// Appends a row of bytes, the first of which stands at this place.
fn push_byte_row<A: Allocator + Copy>(
    lines: &mut Vec<u8, A>,
    place: u64,
    bytes: &[u8],
) -> Result<(), AllocError>
    ensures { OnOk result (lines.new.items ≡ lines.old.items ++ spec.byte_row place bytes.now) }
{
    let digits = Hexadecimal::new(place, 4);
    let pieces = [Piece::Text("      "), Piece::Bytes(digits.as_bytes())];
    push_pieces(lines, pieces.as_slice())?;
    push_spaced(lines, bytes)?;
    push_piece(lines, Piece::Text("\n"))
}

/// Appends bytes from a place on, in as many rows as they need.
#[tactic(auto, unfolding(crate::specs::Data::data_rows))]
pub(crate) fn push_data<A: Allocator + Copy>(
    lines: &mut Vec<u8, A>,
    place: u32,
    bytes: &[u8],
) -> Result<(), AllocError>
    ensures { OnOk result (lines.new.items ≡ lines.old.items ++ spec.data_rows place bytes.now) }
{
    let mut next = u64::from(place);
    let mut rest = bytes;
    while !rest.is_empty() {
        let len = rest.len().min(ROW);
        push_byte_row(lines, next, &rest[..len])?;
        next += len as u64;
        rest = &rest[len..];
    }
    Ok(())
}
