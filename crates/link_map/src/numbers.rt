//! The line numbers of a program, as the map lists them.
ghost use Rattle.std.specs.Prelude.{◌≡◌, ◌-◌, ◌*◌, ◌<◌, ◌≤◌, ◌++◌, IfOk, OnOk, Some, [], length, replicate, slice_get};
ghost use Rattle.std.specs.List.{flat_map};
ghost use Rattle.std.specs.Option.{unwrap_or};
ghost use Rattle.omf_lines.specs.Sorted.{Rise};
ghost use Rattle.omf_module.specs.Module.{Segment};
ghost use Rattle.omf_place.specs.Bounded.{IsBounded};
ghost use Rattle.omf_place.specs.Layout.{places_of, segment_position};
ghost use Rattle.link_map.specs.Numbers as spec;
ghost use Rattle.link_map.specs.Public.{listed_frame};
ghost use Rattle.link_map.specs.inside.Numbers.{HasPlaces, framed};

use itoa::Buffer;
use omf_lines::{Line, NumberedModule, lines_of_segment, numbered_module};
use omf_module::Module;
use omf_place::{Layout, Position};
use omf_text::Hexadecimal;
use std::alloc::{AllocError, Allocator};

/// The columns of a line number.
const NUMBER_WIDTH: usize = 6;

/// The blanks in front of a line number.
const BLANKS: [u8; NUMBER_WIDTH] = [b' '; NUMBER_WIDTH];

/// The bytes of a paragraph.
const PARAGRAPH_LEN: u64 = 16;

/// The bytes that offsets from a frame reach.
const FRAME_LEN: u64 = 65_536;

/// Where the inputs of a link come from.
#[derive(Clone, Copy)]
pub struct Sources<'s> {
    /// The bytes that each input is.
    pub inputs: &'s [&'s [u8]],
    /// The name of the file of each.
    pub files: &'s [&'s [u8]],
}

/// Where the code of a line begins.
#[derive(Clone, Copy)]
struct LinePlace {
    /// The paragraph from which the offset counts.
    frame: u64,
    offset: u64,
}

/// Appends pieces, one behind the other.
pub(crate) fn push_pieces<A: Allocator + Copy>(
    text: &mut Vec<u8, A>,
    pieces: &[&[u8]],
) -> Result<(), AllocError>
    ensures { OnOk result (text.new.items ≡ text.old.items ++ flat_map (λ piece. piece.now) pieces.now) }
{
    for piece in pieces {
        text.extend_from_slice(piece)?;
    }
    Ok(())
}

/// A frame that an address counts from: this one, or its own paragraph where this one doesn't reach it.
fn reaching(address: u64, frame: u16) -> u64
    ensures same { result ≡ listed_frame address frame }
    ensures below { 16 * result ≤ address }
{
    let start = PARAGRAPH_LEN * u64::from(frame);
    if start <= address && address < start + FRAME_LEN {
        u64::from(frame)
    } else {
        address / PARAGRAPH_LEN
    }
}

/// An address counted from its frame, or from its own paragraph where that doesn't reach it or there is none.
fn counted(address: u64, frame: Option<u16>) -> LinePlace
    ensures frame { result.frame ≡ framed address frame }
    ensures offset { result.offset ≡ address - 16 * framed address frame }
{
    let frame = match frame {
        Some(frame) => reaching(address, frame),
        None => address / PARAGRAPH_LEN,
    };
    LinePlace {
        frame,
        offset: address - PARAGRAPH_LEN * frame,
    }
}

/// An input of a link, whose lines are listed.
#[derive(Clone, Copy)]
struct NumberedInput<'n, A: Allocator + Copy, B: Allocator + Copy> {
    layout: &'n Layout<B>,
    /// Its module, and the index of that among the inputs.
    from: &'n Module<B>,
    input: usize,
    /// The name of its file.
    file: &'n [u8],
    /// What it says of lines.
    numbered: &'n NumberedModule<'n, A>,
}

impl<'n, A: Allocator + Copy, B: Allocator + Copy> NumberedInput<'n, A, B> {
    /// The frame of a line: that of its group, where the module has it, and else the segment's.
    fn line_frame(&self, group: u16, own: Option<u16>) -> Option<u16>
        requires { HasPlaces self.now.layout.now self.now.input self.now.from.now }
        ensures { result ≡ spec.line_frame (places_of self.now.layout.now self.now.input) group own }
    {
        let group = usize::from(group);
        if group == 0 || self.from.group_count() < group {
            return own;
        }
        self.layout.group_frame(self.input, group - 1)
    }

    /// Where the code of a line begins, whose segment stands there.
    fn line_place(&self, position: Position, line: &Line) -> LinePlace
        requires { HasPlaces self.now.layout.now self.now.input self.now.from.now }
        ensures frame { result.frame
            ≡ (spec.line_place (places_of self.now.layout.now self.now.input) line.now position).frame }
        ensures offset { result.offset
            ≡ (spec.line_place (places_of self.now.layout.now self.now.input) line.now position).offset }
    {
        match position {
            Position::Relocatable(start, own) => {
                let frame = self.line_frame(line.group, own);
                counted(u64::from(start) + u64::from(line.offset), frame)
            }
            Position::Absolute(start, frame) => counted(
                u64::from(start) + u64::from(line.offset),
                Some(frame),
            ),
        }
    }
}

/// The blanks in front of a line number of so many digits.
fn blanks(digits: usize) -> &'static [u8]
    ensures { result.now ≡ replicate (6 - digits) 32 }
{
    &BLANKS[..NUMBER_WIDTH.saturating_sub(digits)]
}

/// Appends a line number in its columns, and the place of its code.
fn push_number<A: Allocator + Copy>(
    text: &mut Vec<u8, A>,
    number: u16,
    place: LinePlace,
) -> Result<(), AllocError>
    ensures { OnOk result (text.new.items
        ≡ text.old.items ++ spec.number_text number place.frame place.offset) }
{
    let frame = Hexadecimal::new(place.frame, 4);
    let offset = Hexadecimal::new(place.offset, 4);
    let mut digits = Buffer::new();
    let number = digits.format(number);
    let pieces = [
        blanks(number.len()),
        number.as_bytes(),
        b" ".as_slice(),
        frame.as_bytes(),
        b":".as_slice(),
        offset.as_bytes(),
    ];
    push_pieces(text, pieces.as_slice())
}

/// The end of a row, behind the line that has this index among so many, where one ends there.
fn row_end(count: usize, index: usize) -> &'static [u8]
    requires { index < count }
    ensures { result.now ≡ spec.row_end count index }
{
    if index % 4 == 3 || index + 1 == count {
        b"\n"
    } else {
        b""
    }
}

/// Appends lines of a segment that stands there, four in a row.
fn push_rows<A: Allocator + Copy, B: Allocator + Copy>(
    text: &mut Vec<u8, A>,
    input: &NumberedInput<'_, A, B>,
    position: Position,
    lines: &[Line],
) -> Result<(), AllocError>
    requires { HasPlaces input.now.layout.now input.now.input input.now.from.now }
    ensures { OnOk result (text.new.items ≡ text.old.items
        ++ spec.number_rows (places_of input.now.layout.now input.now.input) position lines.now) }
{
    for (index, line) in lines.iter().enumerate() {
        push_number(text, line.number, input.line_place(position, line))?;
        text.extend_from_slice(row_end(lines.len(), index))?;
    }
    Ok(())
}

/// Appends what stands in front of the lines of a segment.
fn push_heading<A: Allocator + Copy>(
    text: &mut Vec<u8, A>,
    file: &[u8],
    name: &[u8],
    segment: &[u8],
) -> Result<(), AllocError>
    ensures { OnOk result
        (text.new.items ≡ text.old.items ++ spec.numbers_heading file.now name.now segment.now) }
{
    let pieces = [
        b"\nLine numbers for ".as_slice(),
        file,
        b"(".as_slice(),
        name,
        b") segment ".as_slice(),
        segment,
        b"\n\n".as_slice(),
    ];
    push_pieces(text, pieces.as_slice())
}

/// Appends the lines of a segment, by its index in its module, behind a heading; nothing where it has none.
fn push_segment<A: Allocator + Copy, B: Allocator + Copy>(
    text: &mut Vec<u8, A>,
    input: &NumberedInput<'_, A, B>,
    index: usize,
    lines: &[Line],
) -> Result<(), AllocError>
    requires placed { HasPlaces input.now.layout.now input.now.input input.now.from.now }
    requires within { index < length input.now.from.now.segments }
    ensures { (segment : Segment) → slice_get input.now.from.now.segments index ≡ Some segment
        → OnOk result (text.new.items ≡ text.old.items ++ spec.segment_numbers
        (places_of input.now.layout.now input.now.input) (segment_position input.now.layout.now input.now.input index)
        (spec.numbers_heading input.now.file.now input.now.numbered.now.name.now segment.name) lines.now) }
{
    if lines.is_empty() {
        return Ok(());
    }
    let segment = input.from.segment(index);
    push_heading(text, input.file, input.numbered.name, segment.name)?;
    let position = input.layout.segment_position(input.input, index);
    push_rows(text, input, position, lines)
}

/// Appends the lines of each segment of an input.
fn push_segments<A: Allocator + Copy, B: Allocator + Copy>(
    text: &mut Vec<u8, A>,
    input: &NumberedInput<'_, A, B>,
) -> Result<(), AllocError>
    requires placed { HasPlaces input.now.layout.now input.now.input input.now.from.now }
    requires rising { Rise input.now.numbered.now.lines.items }
    ensures { OnOk result (text.new.items ≡ text.old.items ++ spec.lines_in_segments input.now.layout.now
        input.now.file.now input.now.numbered.now.name.now input.now.numbered.now.lines.items
        (input.now.input, input.now.from.now)) }
{
    for index in 0..input.from.segment_count() {
        let lines = lines_of_segment(&input.numbered.lines, index + 1);
        push_segment(text, input, index, lines)?;
    }
    Ok(())
}

/// The slice with this index; empty behind the last.
pub(crate) fn slice_at<'s>(slices: &[&'s [u8]], index: usize) -> &'s [u8]
    ensures { result.now ≡ unwrap_or (slice_get (spec.bytes_of slices.now) index) [] }
{
    match slices.get(index) {
        Some(slice) => slice,
        None => b"",
    }
}

/// The lines of all modules, by the bytes that these are.
pub(crate) fn program_numbers<A: Allocator + Copy, B: Allocator + Copy>(
    alloc: A,
    modules: &[Module<B>],
    layout: &Layout<B>,
    sources: Sources<'_>,
) -> Result<Vec<u8, A>, AllocError>
    requires { IsBounded modules.now layout.now }
    ensures { IfOk result (λ text. text.items
        ≡ spec.number_lines modules.now layout.now (spec.bytes_of sources.entry.inputs.now)
        (spec.bytes_of sources.entry.files.now)) }
{
    let mut text = Vec::new(alloc);
    for (input, from) in modules.iter().enumerate() {
        let said = numbered_module(alloc, slice_at(sources.inputs, input))?;
        let numbered = NumberedInput {
            layout,
            from,
            input,
            file: slice_at(sources.files, input),
            numbered: &said,
        };
        push_segments(&mut text, &numbered)?;
    }
    Ok(text)
}
