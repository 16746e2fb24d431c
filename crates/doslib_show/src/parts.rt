//! The parts of lines.

ghost use Rattle.std.specs.Prelude.{◌≡◌, ◌≤◌, ◌++◌, OnOk};
ghost use Rattle.std.specs.List.{flat_map};
ghost use Rattle.omf_library.specs.Names.{texts};
ghost use Rattle.omf_record.specs.Numbers.{thread_number};
ghost use Rattle.omf_text.specs.Pieces.{printed};
ghost use Rattle.omf_text.specs.Printing.{hexadecimal};
ghost use Rattle.doslib_show.specs.More.{extent_text};
ghost use Rattle.doslib_show.specs.Names.{named};
ghost use Rattle.doslib_show.specs.Rows as spec;
ghost use Rattle.doslib_show.specs.inside.Parts.{part_text, plain_names};

use crate::names::Names;
use omf_library::listed_name;
use omf_record::{Alignment, Datum, FrameMethod, TargetMethod, ThreadNumber};
use omf_text::{Hexadecimal, Piece, push_pieces};
use omf_wide::Extent;
use std::alloc::{AllocError, Allocator};

/// A part of a line.
#[derive(Clone, Copy)]
pub(crate) enum Part<'a> {
    /// As it stands.
    Text(&'a str),
    /// Between two quotes.
    Name(&'a [u8]),
    /// In decimal.
    Number(usize),
    /// A place in a file: at least eight hexadecimal digits.
    Place(u64),
    /// At least four hexadecimal digits.
    Offset(u64),
    /// At least three hexadecimal digits.
    Location(u16),
    /// Two hexadecimal digits.
    Byte(u8),
    /// The name in a list with this index.
    Listed(u16),
    /// The segment with this index.
    Segment(u16),
    /// The group with this index, and nothing for 0.
    Group(u16),
    /// A thread by its number.
    Thread(ThreadNumber),
    /// How a target is found.
    TargetMethod(TargetMethod),
    /// How a frame is found.
    FrameMethod(FrameMethod),
    /// A target.
    Target(Datum<TargetMethod>),
    /// A frame.
    Frame(Datum<FrameMethod>),
    /// What is added to a target's address, nothing where it is absent.
    Displacement(Option<u32>),
    /// Where a segment begins.
    Alignment(Alignment),
    /// How far a communal variable lies, and how long it is.
    Extent(Extent),
}

/// Appends one piece.
pub(crate) fn push_piece<A: Allocator + Copy>(
    lines: &mut Vec<u8, A>,
    piece: Piece<'_>,
) -> Result<(), AllocError>
    ensures { OnOk result (lines.new.items ≡ lines.old.items ++ printed piece.entry) }
{
    push_pieces(lines, &[piece])
}

/// Appends the name with an index of these, else the index behind `#`.
fn push_named<A: Allocator + Copy>(
    lines: &mut Vec<u8, A>,
    names: &[&[u8]],
    index: u16,
) -> Result<(), AllocError>
    ensures { OnOk result (lines.new.items ≡ lines.old.items ++ named (texts names.now) index) }
{
    match listed_name(names, index) {
        Some(name) => push_piece(lines, Piece::Name(name)),
        None => push_pieces(lines, &[Piece::Text("#"), Piece::Index(index)]),
    }
}

/// Appends a word, and the name with an index of these behind it.
fn push_worded<A: Allocator + Copy>(
    lines: &mut Vec<u8, A>,
    word: &str,
    names: &[&[u8]],
    index: u16,
) -> Result<(), AllocError>
    ensures { OnOk result (lines.new.items ≡ lines.old.items ++ (word.now ++ named (texts names.now) index)) }
{
    push_piece(lines, Piece::Text(word))?;
    push_named(lines, names, index)
}

/// Appends a group, where there is one.
fn push_group<A: Allocator + Copy>(
    names: &Names<'_, A>,
    lines: &mut Vec<u8, A>,
    group: u16,
) -> Result<(), AllocError>
    ensures { OnOk result (lines.new.items ≡ lines.old.items ++ spec.group_of (plain_names names.now) group) }
{
    if group == 0 {
        return Ok(());
    }
    push_worded(lines, " group ", &names.groups, group)
}

/// Appends how a target is found.
fn push_target_method<A: Allocator + Copy>(
    names: &Names<'_, A>,
    lines: &mut Vec<u8, A>,
    method: TargetMethod,
) -> Result<(), AllocError>
    ensures { OnOk result (lines.new.items
        ≡ lines.old.items ++ spec.target_method (plain_names names.now) method) }
{
    match method {
        TargetMethod::Segment(index) => push_worded(lines, "segment ", &names.segments, index),
        TargetMethod::Group(index) => push_worded(lines, "group ", &names.groups, index),
        TargetMethod::External(index) => push_worded(lines, "external ", &names.externals, index),
    }
}

/// Appends how a frame is found.
fn push_frame_method<A: Allocator + Copy>(
    names: &Names<'_, A>,
    lines: &mut Vec<u8, A>,
    method: FrameMethod,
) -> Result<(), AllocError>
    ensures { OnOk result (lines.new.items
        ≡ lines.old.items ++ spec.frame_method (plain_names names.now) method) }
{
    match method {
        FrameMethod::By(method) => push_target_method(names, lines, method),
        FrameMethod::Location => push_piece(lines, Piece::Text("location")),
        FrameMethod::Target => push_piece(lines, Piece::Text("target")),
    }
}

/// Appends a thread by its number.
fn push_thread<A: Allocator + Copy>(
    lines: &mut Vec<u8, A>,
    thread: ThreadNumber,
) -> Result<(), AllocError>
    ensures { OnOk result (lines.new.items ≡ lines.old.items ++ spec.thread (thread_number thread)) }
{
    let pieces = [Piece::Text("thread "), Piece::Thread(thread)];
    push_pieces(lines, pieces.as_slice())
}

/// Appends a frame.
fn push_frame<A: Allocator + Copy>(
    names: &Names<'_, A>,
    lines: &mut Vec<u8, A>,
    frame: Datum<FrameMethod>,
) -> Result<(), AllocError>
    ensures { OnOk result (lines.new.items ≡ lines.old.items ++ spec.frame_datum (plain_names names.now) frame) }
{
    match frame {
        Datum::Thread(thread) => push_thread(lines, thread),
        Datum::By(method) => push_frame_method(names, lines, method),
    }
}

/// Appends a target.
fn push_target<A: Allocator + Copy>(
    names: &Names<'_, A>,
    lines: &mut Vec<u8, A>,
    target: Datum<TargetMethod>,
) -> Result<(), AllocError>
    ensures { OnOk result (lines.new.items ≡ lines.old.items ++ spec.target_datum (plain_names names.now) target) }
{
    match target {
        Datum::Thread(thread) => push_thread(lines, thread),
        Datum::By(method) => push_target_method(names, lines, method),
    }
}

/// Appends a number in at least so many hexadecimal digits.
fn push_hexadecimal<A: Allocator + Copy>(
    lines: &mut Vec<u8, A>,
    number: u64,
    width: usize,
) -> Result<(), AllocError>
    requires { width ≤ 16 }
    ensures { OnOk result (lines.new.items ≡ lines.old.items ++ hexadecimal width number) }
{
    push_piece(
        lines,
        Piece::Bytes(Hexadecimal::new(number, width).as_bytes()),
    )
}

/// Appends what is added to a target's address, nothing where it is absent.
fn push_displacement<A: Allocator + Copy>(
    lines: &mut Vec<u8, A>,
    displacement: Option<u32>,
) -> Result<(), AllocError>
    ensures { OnOk result (lines.new.items ≡ lines.old.items ++ spec.displacement displacement) }
{
    let Some(displacement) = displacement else {
        return Ok(());
    };
    let digits = Hexadecimal::new(u64::from(displacement), 4);
    let pieces = [
        Piece::Text(" displacement "),
        Piece::Bytes(digits.as_bytes()),
    ];
    push_pieces(lines, pieces.as_slice())
}

/// Appends where a segment begins.
fn push_alignment<A: Allocator + Copy>(
    lines: &mut Vec<u8, A>,
    alignment: Alignment,
) -> Result<(), AllocError>
    ensures { OnOk result (lines.new.items ≡ lines.old.items ++ spec.alignment alignment) }
{
    match alignment {
        Alignment::Absolute { frame, offset } => {
            let pieces = [
                Piece::Text("absolute frame "),
                Piece::Word(frame),
                Piece::Text(" offset "),
                Piece::Byte(offset),
            ];
            push_pieces(lines, pieces.as_slice())
        }
        Alignment::Byte => push_piece(lines, Piece::Text("byte")),
        Alignment::Word => push_piece(lines, Piece::Text("word")),
        Alignment::Paragraph => push_piece(lines, Piece::Text("paragraph")),
        Alignment::Page => push_piece(lines, Piece::Text("page")),
        Alignment::DoubleWord => push_piece(lines, Piece::Text("dword")),
    }
}

/// Appends how far a communal variable lies, and how long it is.
fn push_extent<A: Allocator + Copy>(
    lines: &mut Vec<u8, A>,
    extent: Extent,
) -> Result<(), AllocError>
    ensures { OnOk result (lines.new.items ≡ lines.old.items ++ extent_text extent) }
{
    match extent {
        Extent::Near { length } => {
            let pieces = [Piece::Text(" near "), Piece::Count(length as usize)];
            push_pieces(lines, pieces.as_slice())
        }
        Extent::Far { elements, size } => {
            let pieces = [
                Piece::Text(" far "),
                Piece::Count(elements as usize),
                Piece::Text(" x "),
                Piece::Count(size as usize),
            ];
            push_pieces(lines, pieces.as_slice())
        }
        Extent::Other { data_type } => {
            let pieces = [Piece::Text(" data "), Piece::Byte(data_type)];
            push_pieces(lines, pieces.as_slice())
        }
    }
}

/// Appends a part of a line.
fn push_part<A: Allocator + Copy>(
    names: &Names<'_, A>,
    lines: &mut Vec<u8, A>,
    part: Part<'_>,
) -> Result<(), AllocError>
    ensures { OnOk result (lines.new.items ≡ lines.old.items ++ part_text (plain_names names.now) part.entry) }
{
    match part {
        Part::Text(text) => push_piece(lines, Piece::Text(text)),
        Part::Name(name) => push_piece(lines, Piece::Name(name)),
        Part::Number(number) => push_piece(lines, Piece::Count(number)),
        Part::Place(place) => push_piece(lines, Piece::FilePlace(place)),
        Part::Offset(offset) => push_hexadecimal(lines, offset, 4),
        Part::Location(place) => push_piece(lines, Piece::Place(place)),
        Part::Byte(byte) => push_piece(lines, Piece::Byte(byte)),
        Part::Listed(index) => push_named(lines, &names.listed, index),
        Part::Segment(index) => push_named(lines, &names.segments, index),
        Part::Group(index) => push_group(names, lines, index),
        Part::Thread(thread) => push_thread(lines, thread),
        Part::TargetMethod(method) => push_target_method(names, lines, method),
        Part::FrameMethod(method) => push_frame_method(names, lines, method),
        Part::Target(target) => push_target(names, lines, target),
        Part::Frame(frame) => push_frame(names, lines, frame),
        Part::Displacement(displacement) => push_displacement(lines, displacement),
        Part::Alignment(alignment) => push_alignment(lines, alignment),
        Part::Extent(extent) => push_extent(lines, extent),
    }
}

/// Appends the parts of a line, one behind the other.
pub(crate) fn push_parts<A: Allocator + Copy>(
    names: &Names<'_, A>,
    lines: &mut Vec<u8, A>,
    parts: &[Part<'_>],
) -> Result<(), AllocError>
    ensures { OnOk result (lines.new.items
        ≡ lines.old.items ++ flat_map (part_text (plain_names names.now)) parts.now) }
{
    for part in parts {
        push_part(names, lines, *part)?;
    }
    Ok(())
}
