//! The line numbers of a module, by its records' frames alone.

ghost use Rattle.std.specs.Prelude.{◌≡◌, ◌<◌, ◌++◌, [], ◌∷◌, filter, length, map, IfOk, IfSome, OnOk};
ghost use Rattle.std.specs.List.{flat_map};
ghost use Rattle.omf_frame.specs.Lending.{plain_frame};
ghost use Rattle.omf_library.specs.Entries.{entries};
ghost use Rattle.omf_library.specs.Said.{bytes_said};
ghost use Rattle.omf_lines.specs.Lines.{is_in_16_bits, line_of, lines_in, name_in, name_of, pair_front};
ghost use Rattle.omf_lines.specs.Lines.{wide_pair_front, wide_pairs};
ghost use Rattle.omf_lines.specs.Lines as spec;
ghost use Rattle.omf_lines.specs.Sorted.{AreBySegment};
ghost use Rattle.omf_lines.specs.inside.Views.{pair_said};

use crate::line::Line;
use crate::sorted::sort_by_segment;
use omf_frame::Frame;
use omf_library::{module_frames, take_index, take_name};
use std::alloc::{AllocError, Allocator, Global};

/// The types of a record of line numbers: with offsets of two bytes, and of four.
const LINNUM: u8 = 0x94;

const LINNUM_32: u8 = 0x95;

/// What a module says of line numbers.
#[derive(Drop)]
pub struct NumberedModule<'a, A: Allocator + Copy = Global> {
    /// The module's own name, which is that of its source text for most compilers.
    pub name: &'a [u8],
    /// Its line numbers by their segments' indexes, and those of one segment in order of records.
    pub lines: Vec<Line, A>,
}

/// A line number and an offset at the front of the bytes, a word each, and the bytes behind them. None where these end
/// inside them.
fn take_pair(bytes: &[u8]) -> Option<((u16, u16), &[u8])>
    ensures said { pair_said result ≡ pair_front bytes.now }
    ensures shorter { IfSome result (λ x. length x.1.now < length bytes.now) }
{
    let [low, high, from_low, from_high, rest @ ..] = bytes else {
        return None;
    };
    let number = u16::from(*low) + 256 * u16::from(*high);
    let offset = u16::from(*from_low) + 256 * u16::from(*from_high);
    Some(((number, offset), rest))
}

/// A line number, a word, and an offset of four bytes at the front of the bytes, and the bytes behind them. None where
/// these end inside them.
fn take_wide_pair(bytes: &[u8]) -> Option<((u16, u32), &[u8])>
    ensures said { pair_said result ≡ wide_pair_front bytes.now }
    ensures shorter { IfSome result (λ x. length x.1.now < length bytes.now) }
{
    let [low, high, first, second, third, fourth, rest @ ..] = bytes else {
        return None;
    };
    let number = u16::from(*low) + 256 * u16::from(*high);
    let low_word = u32::from(*first) + 256 * u32::from(*second);
    let high_word = u32::from(*third) + 256 * u32::from(*fourth);
    Some(((number, low_word + 65_536 * high_word), rest))
}

/// Appends the lines of a group and a segment that bytes hold, as far as they hold whole ones.
fn push_pairs<A: Allocator + Copy>(
    group: u16,
    segment: u16,
    bytes: &[u8],
    lines: &mut Vec<Line, A>,
) -> Result<(), AllocError>
    ensures { OnOk result
        (lines.new.items ≡ lines.old.items ++ map (line_of group segment) (entries pair_front bytes.now)) }
{
    let mut rest = bytes;
    while let Some((pair, after)) = take_pair(rest) {
        lines.push(Line {
            number: pair.0,
            group,
            segment,
            offset: pair.1,
        })?;
        rest = after;
    }
    Ok(())
}

/// Appends a line of a group and a segment, where its offset is one of 16 bits.
fn push_wide_line<A: Allocator + Copy>(
    group: u16,
    segment: u16,
    number: u16,
    offset: u32,
    lines: &mut Vec<Line, A>,
) -> Result<(), AllocError>
    ensures { OnOk result (lines.new.items
        ≡ lines.old.items ++ map (line_of group segment) (filter is_in_16_bits ((number, offset) ∷ []))) }
{
    if offset > 65_535 {
        return Ok(());
    }
    lines.push(Line {
        number,
        group,
        segment,
        offset: offset as u16,
    })?;
    Ok(())
}

/// Appends the lines of a group and a segment that bytes hold with offsets of four bytes, as far as they hold whole
/// ones. One whose offset is above 65,535 is in no segment, and left out.
fn push_wide_pairs<A: Allocator + Copy>(
    group: u16,
    segment: u16,
    bytes: &[u8],
    lines: &mut Vec<Line, A>,
) -> Result<(), AllocError>
    ensures { OnOk result
        (lines.new.items ≡ lines.old.items ++ map (line_of group segment) (wide_pairs bytes.now)) }
{
    let mut rest = bytes;
    while let Some((pair, after)) = take_wide_pair(rest) {
        push_wide_line(group, segment, pair.0, pair.1, lines)?;
        rest = after;
    }
    Ok(())
}

/// Appends the lines of a record.
#[tactic(auto, unfolding(crate::specs::Lines::lines_in))]
fn push_lines<A: Allocator + Copy>(
    frame: &Frame<'_>,
    lines: &mut Vec<Line, A>,
) -> Result<(), AllocError>
    ensures { OnOk result (lines.new.items ≡ lines.old.items ++ lines_in (plain_frame frame.now)) }
{
    if frame.kind != LINNUM && frame.kind != LINNUM_32 {
        return Ok(());
    }
    let Some((group, rest)) = take_index(frame.body) else {
        return Ok(());
    };
    let Some((segment, pairs)) = take_index(rest) else {
        return Ok(());
    };
    if frame.kind == LINNUM {
        push_pairs(group, segment, pairs, lines)
    } else {
        push_wide_pairs(group, segment, pairs, lines)
    }
}

/// The lines of records, in their order.
fn lines_of<A: Allocator + Copy>(alloc: A, frames: &[Frame<'_>]) -> Result<Vec<Line, A>, AllocError>
    ensures { IfOk result (λ v. v.items ≡ flat_map lines_in (map plain_frame frames.now)) }
{
    let mut lines = Vec::new(alloc);
    for frame in frames {
        push_lines(frame, &mut lines)?;
    }
    Ok(lines)
}

/// The name in a record that heads a module. None where it is another.
fn name_in<'a>(frame: &Frame<'a>) -> Option<&'a [u8]>
    ensures { bytes_said result ≡ name_in (plain_frame frame.now) }
{
    if frame.kind != 0x80 && frame.kind != 0x82 {
        return None;
    }
    let (name, _) = take_name(frame.body)?;
    Some(name)
}

/// The name of the module of these records.
pub fn module_name<'a>(frames: &[Frame<'a>]) -> &'a [u8]
    ensures { result.now ≡ name_of (map plain_frame frames.now) }
{
    match frames.first() {
        Some(frame) => name_in(frame).unwrap_or(b""),
        None => b"",
    }
}

/// The line numbers of the module whose records begin the bytes, up to the first record that ends a module, or before
/// the first that is no record. What stands behind the last whole line of a record is passed over, and so is a record
/// that ends before its segment, and a line whose offset is above 65,535.
pub fn numbered_module<'a, A: Allocator + Copy>(
    alloc: A,
    bytes: &'a [u8],
) -> Result<NumberedModule<'a, A>, AllocError>
    ensures name { IfOk result (λ m. m.name.now ≡ spec.module_name bytes.now) }
    ensures lines { IfOk result (λ m. AreBySegment (spec.module_lines bytes.now) m.lines.items) }
{
    let frames = module_frames(alloc, bytes)?;
    let name = module_name(&frames);
    let mut lines = lines_of(alloc, &frames)?;
    sort_by_segment(&mut lines)?;
    Ok(NumberedModule { name, lines })
}
