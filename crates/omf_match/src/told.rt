//! What `match` prints of a module in a program.
ghost use Rattle.std.specs.Prelude.{◌≡◌, ◌+◌, ◌^◌, ◌<◌, ◌≤◌, ◌++◌, OnOk, All, drop, length, map, slice_index};
ghost use Rattle.std.specs.List.{flat_map, range_with_len};
ghost use Rattle.omf_module.specs.Seen.{data_seen, segment_seen};
ghost use Rattle.omf_match.specs.Told as spec;
ghost use Rattle.omf_match.specs.Places.{IsInside};

use crate::finding::{Stand, stands};
use byte_places::{Index, Span, gaps};
use omf_module::{DataRecord, Module, ResolvedFixup, Segment};
use omf_record::{Location, TargetMethod};
use omf_text::{Piece, push_pieces};
use std::alloc::{AllocError, Allocator};

/// The name of a segment, by its index from 1; empty where there is none.
fn segment_name<A: Allocator + Copy>(from: &Module<A>, index: u16) -> &[u8]
    ensures { result.now ≡ spec.segment_name from.now index }
{
    let index = usize::from(index).saturating_sub(1);
    if index < from.segment_count() {
        from.segment(index).name
    } else {
        &[]
    }
}

/// The name of a group, by its index from 1; empty where there is none.
fn group_name<A: Allocator + Copy>(from: &Module<A>, index: u16) -> &[u8]
    ensures { result.now ≡ spec.group_name from.now index }
{
    let index = usize::from(index).saturating_sub(1);
    if index < from.group_count() {
        from.group(index).name
    } else {
        &[]
    }
}

/// An external name, by its index from 1; empty where there is none.
fn external_name<A: Allocator + Copy>(from: &Module<A>, index: u16) -> &[u8]
    ensures { result.now ≡ spec.external_name from.now index }
{
    let index = usize::from(index).saturating_sub(1);
    if index < from.external_count() {
        from.external(index).name
    } else {
        &[]
    }
}

/// The name of a target.
fn target_name<A: Allocator + Copy>(from: &Module<A>, target: TargetMethod) -> &[u8]
    ensures { result.now ≡ spec.target_name from.now target }
{
    match target {
        TargetMethod::Segment(index) => segment_name(from, index),
        TargetMethod::Group(index) => group_name(from, index),
        TargetMethod::External(index) => external_name(from, index),
    }
}

/// The word for what a target is.
fn target_word(target: TargetMethod) -> &'static str
    ensures { result.now ≡ spec.target_word target }
{
    match target {
        TargetMethod::Segment(_) => "segment ",
        TargetMethod::Group(_) => "group ",
        TargetMethod::External(_) => "external ",
    }
}

/// The word of a location that is self-relative.
fn mode_word(self_relative: bool) -> &'static str
    ensures { result.now ≡ spec.mode_word self_relative }
{
    if self_relative { "self " } else { "" }
}

/// The byte at a place, 0 behind the last one.
fn byte_at(bytes: &[u8], place: usize) -> u8
    ensures { result ≡ slice_index bytes.now place }
{
    if place < bytes.len() { bytes[place] } else { 0 }
}

/// The word of two bytes, low byte first.
fn word_of(low: u8, high: u8) -> u16
    ensures { result ≡ spec.word_of low high }
{
    u16::from_le_bytes([low, high])
}

/// The bytes from a place on.
fn bytes_from(bytes: &[u8], place: usize) -> &[u8]
    ensures { result.now ≡ drop place bytes.now }
{
    if place < bytes.len() {
        &bytes[place..]
    } else {
        &[]
    }
}

/// Appends what stands in a location at the front of these bytes.
fn push_value<A: Allocator + Copy>(
    lines: &mut Vec<u8, A>,
    location: Location,
    bytes: &[u8],
) -> Result<(), AllocError>
    ensures { OnOk result (lines.new.items ≡ lines.old.items ++ spec.value location bytes.now) }
{
    let low = word_of(byte_at(bytes, 0), byte_at(bytes, 1));
    let high = word_of(byte_at(bytes, 2), byte_at(bytes, 3));
    match location {
        Location::LowByte => push_pieces(lines, [Piece::Byte(byte_at(bytes, 0))].as_slice()),
        Location::Pointer => push_pieces(
            lines,
            [Piece::Word(high), Piece::Text(":"), Piece::Word(low)].as_slice(),
        ),
        Location::Offset | Location::Base | Location::LoaderOffset => {
            push_pieces(lines, [Piece::Word(low)].as_slice())
        }
    }
}

/// Appends the front of the line of a place: its address behind so many spaces.
fn push_address<A: Allocator + Copy>(
    lines: &mut Vec<u8, A>,
    spaces: &str,
    address: usize,
) -> Result<(), AllocError>
    ensures { OnOk result (lines.new.items ≡ lines.old.items ++ spec.address_text spaces.now address) }
{
    let pieces = [
        Piece::Text(spaces),
        Piece::FilePlace(address as u64),
        Piece::Text(" "),
    ];
    push_pieces(lines, pieces.as_slice())
}

/// Appends the end of the line of a fix-up: its target.
fn push_target<A: Allocator + Copy, B: Allocator + Copy>(
    lines: &mut Vec<u8, A>,
    from: &Module<B>,
    fixup: &ResolvedFixup,
) -> Result<(), AllocError>
    ensures { OnOk result (lines.new.items ≡ lines.old.items ++ spec.target_text from.now fixup.now) }
{
    let pieces = [
        Piece::Text(" "),
        Piece::Text(mode_word(fixup.self_relative)),
        Piece::Text(target_word(fixup.target)),
        Piece::Name(target_name(from, fixup.target)),
        Piece::Text("\n"),
    ];
    push_pieces(lines, pieces.as_slice())
}

/// Appends the line of a segment that stands at a place.
fn push_segment_line<A: Allocator + Copy>(
    lines: &mut Vec<u8, A>,
    segment: &Segment<'_>,
    place: usize,
) -> Result<(), AllocError>
    ensures { OnOk result (lines.new.items ≡ lines.old.items ++ spec.segment_line (segment_seen segment.now) place) }
{
    let pieces = [
        Piece::Text("  "),
        Piece::FilePlace(place as u64),
        Piece::Text(" "),
        Piece::Size(segment.length as usize),
        Piece::Text(" "),
        Piece::Name(segment.name),
        Piece::Text(" "),
        Piece::Name(segment.class),
        Piece::Text("\n"),
    ];
    push_pieces(lines, pieces.as_slice())
}

/// A module, and the image in which its segments stand.
#[derive(Drop)]
struct Shown<'a, A: Allocator + Copy> {
    image: &'a [u8],
    from: &'a Module<A>,
}

impl<'a, A: Allocator + Copy> Shown<'a, A> {
    /// Appends the line of a fix-up whose location stands at an address.
    fn push_fixup<B: Allocator + Copy>(
        &self,
        lines: &mut Vec<u8, B>,
        address: usize,
        fixup: &ResolvedFixup,
    ) -> Result<(), AllocError>
        ensures { OnOk result (lines.new.items
            ≡ lines.old.items ++ spec.fixup_line self.now.from.now self.now.image.now address fixup.now) }
    {
        push_address(lines, "    ", address)?;
        push_value(lines, fixup.location, bytes_from(self.image, address))?;
        push_target(lines, self.from, fixup)
    }

    /// Appends the line of a fix-up at the address of a byte, where that was stored at the first place of its location.
    fn push_hit<B: Allocator + Copy>(
        &self,
        lines: &mut Vec<u8, B>,
        address: usize,
        stored: u16,
        fixup: &ResolvedFixup,
    ) -> Result<(), AllocError>
        ensures { OnOk result (lines.new.items
            ≡ lines.old.items ++ spec.hit_line self.now.from.now self.now.image.now fixup.now address stored) }
    {
        if stored == fixup.offset {
            self.push_fixup(lines, address, fixup)?;
        }
        Ok(())
    }

    /// Appends the lines of a fix-up on a data record whose first byte stands at an address.
    fn push_hits<B: Allocator + Copy>(
        &self,
        lines: &mut Vec<u8, B>,
        start: usize,
        places: &[u16],
        fixup: &ResolvedFixup,
    ) -> Result<(), AllocError>
        requires { start + length places.now < 2 ^ 64 }
        ensures { OnOk result (lines.new.items ≡ lines.old.items
            ++ spec.hit_lines self.now.from.now self.now.image.now start places.now fixup.now) }
    {
        for index in 0..places.len() {
            self.push_hit(lines, start + index, places[index], fixup)?;
        }
        Ok(())
    }

    /// Appends the lines of the fix-ups on a data record whose first byte stands at an address.
    fn push_fixups<B: Allocator + Copy>(
        &self,
        lines: &mut Vec<u8, B>,
        start: usize,
        record: &DataRecord<'_>,
    ) -> Result<(), AllocError>
        requires { start + length record.now.places.now < 2 ^ 64 }
        ensures { OnOk result (lines.new.items ≡ lines.old.items ++ flat_map
            (spec.hit_lines self.now.from.now self.now.image.now start record.now.places.now) record.now.fixups.now) }
    {
        for fixup in record.fixups {
            self.push_hits(lines, start, record.places, fixup)?;
        }
        Ok(())
    }

    /// Appends the lines of the fix-ups on a data record, if it is one of the segment that stands at a place.
    fn push_record<B: Allocator + Copy>(
        &self,
        lines: &mut Vec<u8, B>,
        place: usize,
        segment: usize,
        record: &DataRecord<'_>,
    ) -> Result<(), AllocError>
        requires lengths { length record.now.bytes.now ≡ length record.now.places.now }
        requires small { record.now.offset + length record.now.bytes.now ≤ 65536 }
        requires inside { place < length self.now.image.now }
        ensures { OnOk result (lines.new.items ≡ lines.old.items
            ++ spec.record_lines self.now.from.now self.now.image.now place segment (data_seen record.now)) }
    {
        if usize::from(record.segment) == segment {
            self.push_fixups(lines, place + usize::from(record.offset), record)?;
        }
        Ok(())
    }

    /// Appends the lines of the fix-ups on the data records of the segment that stands at a place.
    fn push_records<B: Allocator + Copy>(
        &self,
        lines: &mut Vec<u8, B>,
        place: usize,
        segment: usize,
    ) -> Result<(), AllocError>
        requires { place < length self.now.image.now }
        ensures { OnOk result (lines.new.items ≡ lines.old.items ++ flat_map
            (spec.record_lines self.now.from.now self.now.image.now place segment) self.now.from.now.data_records) }
    {
        self.from.promises();
        for index in 0..self.from.data_record_count() {
            self.push_record(lines, place, segment, &self.from.data_record(index))?;
        }
        Ok(())
    }

    /// Appends the lines of the segment that stands at a place.
    fn push_stand<B: Allocator + Copy>(
        &self,
        lines: &mut Vec<u8, B>,
        stand: Stand,
    ) -> Result<(), AllocError>
        requires segment { stand.segment < length self.now.from.now.segments }
        requires inside { stand.place < length self.now.image.now }
        ensures { OnOk result (lines.new.items ≡ lines.old.items
            ++ spec.stand_lines self.now.from.now self.now.image.now stand) }
    {
        push_segment_line(lines, &self.from.segment(stand.segment), stand.place)?;
        self.push_records(lines, stand.place, stand.segment)
    }

    /// Appends the lines of the segments that stand at places.
    fn push_stands<B: Allocator + Copy>(
        &self,
        lines: &mut Vec<u8, B>,
        stands: &[Stand],
    ) -> Result<(), AllocError>
        requires { All (IsInside self.now.from.now self.now.image.now) stands.now }
        ensures { OnOk result (lines.new.items ≡ lines.old.items
            ++ flat_map (spec.stand_lines self.now.from.now self.now.image.now) stands.now) }
    {
        for stand in stands {
            self.push_stand(lines, *stand)?;
        }
        Ok(())
    }
}

/// Appends the bytes that the segments of a module have where they stand.
fn push_spans<A: Allocator + Copy, B: Allocator + Copy>(
    spans: &mut Vec<Span, A>,
    image: &[u8],
    from: &Module<B>,
    stands: &[Stand],
) -> Result<(), AllocError>
    requires { All (IsInside from.now image.now) stands.now }
    ensures { OnOk result (spans.new.items ≡ spans.old.items ++ map (spec.span_of from.now) stands.now) }
{
    for stand in stands {
        let len = from.segment(stand.segment).length as usize;
        spans.push(Span {
            start: stand.place,
            end: stand.place + len,
        })?;
    }
    Ok(())
}

/// Appends what is printed of a module in a program's image, and the bytes of the image that its segments have: for
/// each of its segments that is looked for the first places, at most 16 of them, at which it stands, with what stands
/// there in the locations of its fix-ups.
///
/// # Errors
/// There was no memory. What was appended before stays.
pub fn push_module<A: Allocator + Copy, B: Allocator + Copy, C: Allocator + Copy>(
    alloc: A,
    lines: &mut Vec<u8, A>,
    spans: &mut Vec<Span, A>,
    image: &Index<'_, B>,
    from: &Module<C>,
) -> Result<(), AllocError>
    ensures lines { OnOk result (lines.new.items ≡ lines.old.items ++ spec.module_lines from.now image.now) }
    ensures spans { OnOk result (spans.new.items ≡ spans.old.items ++ spec.module_spans from.now image.now) }
{
    let found = stands(alloc, image, from)?;
    let shown = Shown {
        image: image.image(),
        from,
    };
    shown.push_stands(lines, &found)?;
    push_spans(spans, image.image(), from, &found)
}

/// Appends the line of a module, by its file's path and its name, and what is printed of it; nothing where that is
/// nothing.
pub fn push_titled<'p, A: Allocator + Copy>(
    lines: &mut Vec<u8, A>,
    path: &'p str,
    name: &'p [u8],
    told: &'p [u8],
) -> Result<(), AllocError>
    ensures { OnOk result (lines.new.items ≡ lines.old.items ++ spec.titled path.now name.now told.now) }
{
    if told.is_empty() {
        return Ok(());
    }
    let pieces = [
        Piece::Text("module "),
        Piece::Name(path.as_bytes()),
        Piece::Text(" "),
        Piece::Name(name),
        Piece::Text("\n"),
        Piece::Bytes(told),
    ];
    push_pieces(lines, pieces.as_slice())
}

/// Appends the line of a gap.
fn push_gap<A: Allocator + Copy>(lines: &mut Vec<u8, A>, gap: Span) -> Result<(), AllocError>
    ensures { OnOk result (lines.new.items ≡ lines.old.items ++ spec.gap_line gap) }
{
    let pieces = [
        Piece::Text("left "),
        Piece::FilePlace(gap.start as u64),
        Piece::Text(" "),
        Piece::Size(gap.end.saturating_sub(gap.start)),
        Piece::Text("\n"),
    ];
    push_pieces(lines, pieces.as_slice())
}

/// Appends the lines of the bytes of an image of this length that no span has.
///
/// # Errors
/// There was no memory. What was appended before stays.
pub fn push_left<A: Allocator + Copy>(
    alloc: A,
    lines: &mut Vec<u8, A>,
    spans: &[Span],
    len: usize,
) -> Result<(), AllocError>
    ensures { OnOk result (lines.new.items ≡ lines.old.items ++ spec.left_lines spans.now len) }
{
    for gap in &gaps(alloc, spans, len)? {
        push_gap(lines, *gap)?;
    }
    Ok(())
}
