//! The table of a map: each module with its segments.
ghost use Rattle.std.specs.Prelude.{◌<◌, ◌≡◌, [], ◌++◌, IfOk, OnOk, length, slice_get};
ghost use Rattle.std.specs.Option.{unwrap_or};
ghost use Rattle.omf_module.specs.Seen.{segment_seen};
ghost use Rattle.omf_place.specs.Bounded.{IsBounded};
ghost use Rattle.omf_place.specs.Layout.{places_of};
ghost use Rattle.omf_text.specs.Printing.{hexadecimal};
ghost use Rattle.omf_search.specs.Results.{bytes_of};
ghost use Rattle.doslink_telling.specs.Table as spec;

use crate::missing::header_name;
use omf_module::{Module, Segment};
use omf_place::{Layout, Position};
use omf_text::{Piece, push_pieces};
use std::alloc::{AllocError, Allocator};

/// An address as a number, and ` R` where it moves with the program, else ` A`.
fn place_of(position: Position) -> (u32, &'static str)
    ensures { hexadecimal 6 result.0 ++ result.1.now ≡ spec.address_text position }
{
    match position {
        Position::Relocatable(start, _) => (start, " R"),
        Position::Absolute(start, _) => (start, " A"),
    }
}

/// Appends where a segment starts, its length, its name and its class.
fn push_segment<A: Allocator + Copy>(
    text: &mut Vec<u8, A>,
    position: Position,
    segment: &Segment<'_>,
) -> Result<(), AllocError>
    ensures { OnOk result (text.new.items ≡ text.old.items ++ spec.segment_line position (segment_seen segment.now)) }
{
    let (start, mark) = place_of(position);
    let pieces = [
        Piece::Text(" "),
        Piece::Address(start),
        Piece::Text(mark),
        Piece::Text(" "),
        Piece::Address(segment.length),
        Piece::Text(" "),
        Piece::Name(segment.name),
        Piece::Text(" "),
        Piece::Name(segment.class),
        Piece::Text("\n"),
    ];
    push_pieces(text, pieces.as_slice())
}

/// Appends the segments of a module, which has this index.
fn push_segments<A: Allocator + Copy>(
    text: &mut Vec<u8, A>,
    layout: &Layout<A>,
    input: usize,
    from: &Module<A>,
) -> Result<(), AllocError>
    requires input { input < length layout.now.modules }
    requires placed { length (places_of layout.now input).segments ≡ length from.now.segments }
    ensures { OnOk result (text.new.items ≡ text.old.items ++ spec.segment_lines layout.now (input, from.now)) }
{
    for segment in 0..from.segment_count() {
        let position = layout.segment_position(input, segment);
        push_segment(text, position, &from.segment(segment))?;
    }
    Ok(())
}

/// Appends the line of a module: its name, and the word for where it stands.
fn push_module_line<'p, A: Allocator + Copy>(
    text: &mut Vec<u8, A>,
    word: &'p [u8],
    bytes: &'p [u8],
) -> Result<(), AllocError>
    ensures { OnOk result (text.new.items ≡ text.old.items ++ spec.module_line word.now bytes.now) }
{
    let pieces = [
        Piece::Name(header_name(bytes).unwrap_or(b"")),
        Piece::Text(" "),
        Piece::Bytes(word),
        Piece::Text("\n"),
    ];
    push_pieces(text, pieces.as_slice())
}

/// The slice with this index; empty behind the last.
pub(crate) fn slice_at<'s>(slices: &[&'s [u8]], index: usize) -> &'s [u8]
    ensures { result.now ≡ unwrap_or (slice_get (bytes_of slices.now) index) [] }
{
    match slices.get(index) {
        Some(slice) => slice,
        None => b"",
    }
}

/// The table of the modules that were linked, whose bytes and words these are.
pub fn table<A: Allocator + Copy>(
    alloc: A,
    modules: &[Module<A>],
    layout: &Layout<A>,
    inputs: &[&[u8]],
    words: &[&[u8]],
) -> Result<Vec<u8, A>, AllocError>
    requires { IsBounded modules.now layout.now }
    ensures { IfOk result (λ text. text.items
        ≡ spec.table modules.now layout.now (bytes_of inputs.now) (bytes_of words.now)) }
{
    let mut text = Vec::from_slice(alloc, b"modules\n")?;
    for (input, from) in modules.iter().enumerate() {
        push_module_line(&mut text, slice_at(words, input), slice_at(inputs, input))?;
        push_segments(&mut text, layout, input, from)?;
    }
    Ok(text)
}
