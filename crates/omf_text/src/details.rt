//! The lines of a record: what it says. Nothing here takes memory.
ghost use Rattle.std.specs.Prelude.{◌≡◌, ◌+◌, ◌-◌, ◌^◌, ◌<◌, ◌++◌, [], None, Some, length, map};
ghost use Rattle.std.specs.List.{flat_map};
ghost use Rattle.omf_frame.specs.Device.{Writes};
ghost use Rattle.omf_record.specs.Record as says;
ghost use Rattle.omf_record.specs.View.{block_view, external_view, public_view, view};
ghost use Rattle.omf_text.specs.Details as spec;
ghost use Rattle.omf_text.specs.Details.{details};
ghost use Rattle.omf_text.specs.Listing.{head_line};

use crate::listing::put_head_line;
use crate::pieces::{Piece, Printed, put_each};
use omf_frame::{IoFault, Sink};
use omf_record::{
    Block, External, Fixup, FrameMethod, Line, Public, PublicBase, Record, Reference,
    SegmentDefinition, Subrecord, TargetMethod, ThreadNumber, expanded_len,
};
use std::alloc::Allocator;

// Writes the line of a name.
fn put_name_line<K: Sink>(sink: &mut K, name: &[u8]) -> Result<(), IoFault>
    requires { K.failures sink.old < 2 ^ 64 - 1 }
    ensures { Writes K.written K.failures sink.old sink.new (spec.name_line name.now) result }
{
    let pieces = [Piece::Text("  name "), Piece::Name(name), Piece::Text("\n")];
    put_each(sink, pieces.as_slice())
}

// Writes the line of a THEADR.
#[tactic(auto, unfolding(crate::specs::Details::details))]
fn put_header<K: Sink>(sink: &mut K, name: &[u8]) -> Result<(), IoFault>
    requires { K.failures sink.old < 2 ^ 64 - 1 }
    ensures { Writes K.written K.failures sink.old sink.new (details (says.Theadr name.now)) result }
{
    put_name_line(sink, name)
}

// Writes the line of a COMENT.
#[tactic(auto, unfolding(crate::specs::Details::details))]
fn put_comment<K: Sink>(sink: &mut K, kind: u8, class: u8, bytes: &[u8]) -> Result<(), IoFault>
    requires { K.failures sink.old < 2 ^ 64 - 1 }
    ensures { Writes K.written K.failures sink.old sink.new (details (says.Coment kind class bytes.now)) result }
{
    let pieces = [
        Piece::Text("  comment "),
        Piece::Byte(kind),
        Piece::Text(" "),
        Piece::Byte(class),
        Piece::Text(" "),
        Piece::CommentBytes(bytes),
        Piece::Text("\n"),
    ];
    put_each(sink, pieces.as_slice())
}

// The end of a module without a start.
#[tactic(auto, unfolding(crate::specs::Details::details))]
fn put_plain_end<K: Sink>(sink: &mut K, main: bool) -> Result<(), IoFault>
    requires { K.failures sink.old < 2 ^ 64 - 1 }
    ensures { Writes K.written K.failures sink.old sink.new (details (says.Modend main None)) result }
{
    let pieces = [
        Piece::Text("  main "),
        Piece::Bit(main),
        Piece::Text(" start 0\n"),
    ];
    put_each(sink, pieces.as_slice())
}

// The end of a module with a start.
#[tactic(auto, unfolding(crate::specs::Details::details))]
fn put_start<K: Sink>(sink: &mut K, main: bool, start: Reference) -> Result<(), IoFault>
    requires { K.failures sink.old < 2 ^ 64 - 1 }
    ensures { Writes K.written K.failures sink.old sink.new (details (says.Modend main (Some start))) result }
{
    let pieces = [
        Piece::Text("  main "),
        Piece::Bit(main),
        Piece::Text(" start 1 frame "),
        Piece::Frame(start.frame),
        Piece::Text(" target "),
        Piece::Target(start.target),
        Piece::Displacement(start.displacement),
        Piece::Text("\n"),
    ];
    put_each(sink, pieces.as_slice())
}

// Writes the line of the end of a module.
fn put_end<K: Sink>(sink: &mut K, main: bool, start: Option<Reference>) -> Result<(), IoFault>
    requires { K.failures sink.old < 2 ^ 64 - 1 }
    ensures { Writes K.written K.failures sink.old sink.new (details (says.Modend main start)) result }
{
    match start {
        None => put_plain_end(sink, main),
        Some(start) => put_start(sink, main, start),
    }
}

// Writes the line of a SEGDEF.
#[tactic(auto, unfolding(crate::specs::Details::details))]
fn put_segment<K: Sink>(sink: &mut K, segment: &SegmentDefinition) -> Result<(), IoFault>
    requires { K.failures sink.old < 2 ^ 64 - 1 }
    ensures { Writes K.written K.failures sink.old sink.new (details (says.Segdef segment.now)) result }
{
    let pieces = [
        Piece::Text("  align "),
        Piece::Alignment(segment.alignment),
        Piece::Text(" combine "),
        Piece::Combination(segment.combination),
        Piece::Text(" length "),
        Piece::Length(segment.length),
        Piece::Text(" name "),
        Piece::Index(segment.name),
        Piece::Text(" class "),
        Piece::Index(segment.class),
        Piece::Text(" overlay "),
        Piece::Index(segment.overlay),
        Piece::Absolute(segment.alignment),
        Piece::Text("\n"),
    ];
    put_each(sink, pieces.as_slice())
}

// Writes the line of the name of a GRPDEF.
fn put_group_line<K: Sink>(sink: &mut K, name: u16) -> Result<(), IoFault>
    requires { K.failures sink.old < 2 ^ 64 - 1 }
    ensures { Writes K.written K.failures sink.old sink.new (spec.group_line name) result }
{
    let pieces = [
        Piece::Text("  group "),
        Piece::Index(name),
        Piece::Text("\n"),
    ];
    put_each(sink, pieces.as_slice())
}

// Writes the line of a base that is no paragraph.
fn put_base_line<K: Sink>(sink: &mut K, group: u16, segment: u16) -> Result<(), IoFault>
    requires { K.failures sink.old < 2 ^ 64 - 1 }
    ensures { Writes K.written K.failures sink.old sink.new (spec.base_line group segment []) result }
{
    let pieces = [
        Piece::Text("  base group "),
        Piece::Index(group),
        Piece::Text(" segment "),
        Piece::Index(segment),
        Piece::Text("\n"),
    ];
    put_each(sink, pieces.as_slice())
}

// Writes the line of the base of publics.
fn put_base<K: Sink>(sink: &mut K, base: PublicBase) -> Result<(), IoFault>
    requires { K.failures sink.old < 2 ^ 64 - 1 }
    ensures { Writes K.written K.failures sink.old sink.new (spec.public_base base) result }
{
    match base {
        PublicBase::AtFrame { group, frame } => {
            let pieces = [
                Piece::Text("  base group "),
                Piece::Index(group),
                Piece::Text(" segment "),
                Piece::Index(0),
                Piece::Text(" frame "),
                Piece::Word(frame),
                Piece::Text("\n"),
            ];
            put_each(sink, pieces.as_slice())
        }
        PublicBase::InSegment { group, segment } => put_base_line(sink, group, segment),
    }
}

// Writes the line of an LEDATA.
#[tactic(auto, unfolding(crate::specs::Details::details))]
fn put_data<K: Sink>(sink: &mut K, segment: u16, offset: u16, bytes: &[u8]) -> Result<(), IoFault>
    requires { K.failures sink.old < 2 ^ 64 - 1 }
    ensures { Writes K.written K.failures sink.old sink.new (details (says.Ledata segment offset bytes.now)) result }
{
    let pieces = [
        Piece::Text("  data segment "),
        Piece::Index(segment),
        Piece::Text(" offset "),
        Piece::Word(offset),
        Piece::Text(" bytes "),
        Piece::Count(bytes.len()),
        Piece::Text("\n"),
    ];
    put_each(sink, pieces.as_slice())
}

// Writes the line of an LIDATA.
#[tactic(auto, unfolding(crate::specs::Details::details))]
fn put_repeated<K: Sink, A: Allocator + Copy>(
    sink: &mut K,
    segment: u16,
    offset: u16,
    blocks: &[Block<'_, A>],
) -> Result<(), IoFault>
    requires { K.failures sink.old < 2 ^ 64 - 1 }
    ensures { Writes K.written K.failures sink.old sink.new
        (details (says.Lidata segment offset (map block_view blocks.now))) result }
{
    let pieces = [
        Piece::Text("  data segment "),
        Piece::Index(segment),
        Piece::Text(" offset "),
        Piece::Word(offset),
        Piece::Text(" blocks "),
        Piece::Count(blocks.len()),
        Piece::Text(" expanded "),
        Piece::Expanded(expanded_len(blocks)),
        Piece::Text("\n"),
    ];
    put_each(sink, pieces.as_slice())
}

// Writes the line of a frame thread that is set.
fn put_frame_thread<K: Sink>(
    sink: &mut K,
    thread: ThreadNumber,
    method: FrameMethod,
) -> Result<(), IoFault>
    requires { K.failures sink.old < 2 ^ 64 - 1 }
    ensures { Writes K.written K.failures sink.old sink.new
        (spec.subrecord_line (Subrecord.SetFrame thread method)) result }
{
    let pieces = [
        Piece::Text("  thread frame "),
        Piece::Thread(thread),
        Piece::Text(" "),
        Piece::FrameMethod(method),
        Piece::Text("\n"),
    ];
    put_each(sink, pieces.as_slice())
}

// Writes the line of a target thread that is set.
fn put_target_thread<K: Sink>(
    sink: &mut K,
    thread: ThreadNumber,
    method: TargetMethod,
) -> Result<(), IoFault>
    requires { K.failures sink.old < 2 ^ 64 - 1 }
    ensures { Writes K.written K.failures sink.old sink.new
        (spec.subrecord_line (Subrecord.SetTarget thread method)) result }
{
    let pieces = [
        Piece::Text("  thread target "),
        Piece::Thread(thread),
        Piece::Text(" "),
        Piece::TargetMethod(method),
        Piece::Text("\n"),
    ];
    put_each(sink, pieces.as_slice())
}

// Writes the line of a fix-up.
fn put_fixup<K: Sink>(sink: &mut K, fixup: Fixup) -> Result<(), IoFault>
    requires { K.failures sink.old < 2 ^ 64 - 1 }
    ensures { Writes K.written K.failures sink.old sink.new (spec.subrecord_line (Subrecord.Fixup fixup)) result }
{
    let pieces = [
        Piece::Text("  fixup at "),
        Piece::Place(fixup.offset),
        Piece::Text(" "),
        Piece::Mode(fixup.self_relative),
        Piece::Text(" location "),
        Piece::Location(fixup.location),
        Piece::Text(" frame "),
        Piece::Frame(fixup.reference.frame),
        Piece::Text(" target "),
        Piece::Target(fixup.reference.target),
        Piece::Displacement(fixup.reference.displacement),
        Piece::Text("\n"),
    ];
    put_each(sink, pieces.as_slice())
}

impl<'a, K: Sink> Printed<K> for &'a [u8] {
    ghost text = { λ name. spec.name_line name.now };

    fn put(&self, sink: &mut K) -> Result<(), IoFault> {
        put_name_line(sink, self)
    }
}

impl<K: Sink> Printed<K> for Line {
    ghost text = { spec.number_line };

    fn put(&self, sink: &mut K) -> Result<(), IoFault> {
        let pieces = [
            Piece::Text("  line "),
            Piece::Index(self.number),
            Piece::Text(" offset "),
            Piece::Word(self.offset),
            Piece::Text("\n"),
        ];
        put_each(sink, pieces.as_slice())
    }
}

/// A component of a group: its segment.
impl<K: Sink> Printed<K> for u16 {
    ghost text = { spec.component_line };

    fn put(&self, sink: &mut K) -> Result<(), IoFault> {
        let pieces = [
            Piece::Text("  segment "),
            Piece::Index(*self),
            Piece::Text("\n"),
        ];
        put_each(sink, pieces.as_slice())
    }
}

impl<K: Sink> Printed<K> for Subrecord {
    ghost text = { spec.subrecord_line };

    fn put(&self, sink: &mut K) -> Result<(), IoFault> {
        match *self {
            Subrecord::SetFrame(thread, method) => put_frame_thread(sink, thread, method),
            Subrecord::SetTarget(thread, method) => put_target_thread(sink, thread, method),
            Subrecord::Fixup(fixup) => put_fixup(sink, fixup),
        }
    }
}

// Writes the lines of an LNAMES.
#[tactic(auto, unfolding(crate::specs::Details::details))]
fn put_names<K: Sink>(sink: &mut K, names: &[&[u8]]) -> Result<(), IoFault>
    requires { K.failures sink.old < 2 ^ 64 - 1 }
    ensures { Writes K.written K.failures sink.old sink.new
        (details (says.Lnames (map (λ n. n.now) names.now))) result }
{
    put_each(sink, names)
}

// The word before a name that is local to its module.
fn scope(local: bool) -> &'static str
    ensures { result.now ≡ spec.scope local }
{
    if local { "local " } else { "" }
}

// Writes the line of an external.
fn put_external<K: Sink>(sink: &mut K, local: bool, external: &External<'_>) -> Result<(), IoFault>
    requires { K.failures sink.old < 2 ^ 64 - 1 }
    ensures { Writes K.written K.failures sink.old sink.new
        (spec.external_line local (external_view external.now)) result }
{
    let pieces = [
        Piece::Text("  "),
        Piece::Text(scope(local)),
        Piece::Text("external "),
        Piece::Name(external.name),
        Piece::Text(" type "),
        Piece::Index(external.type_index),
        Piece::Text("\n"),
    ];
    put_each(sink, pieces.as_slice())
}

// Writes the lines of an EXTDEF.
fn put_externals<K: Sink>(sink: &mut K, local: bool, names: &[External<'_>]) -> Result<(), IoFault>
    requires { K.failures sink.old < 2 ^ 64 - 1 }
    ensures { Writes K.written K.failures sink.old sink.new
        (flat_map (spec.external_line local) (map external_view names.now)) result }
{
    for external in names {
        put_external(sink, local, external)?;
    }
    Ok(())
}

// Writes the lines of a FIXUPP.
#[tactic(auto, unfolding(crate::specs::Details::details))]
fn put_subrecords<K: Sink>(sink: &mut K, subrecords: &[Subrecord]) -> Result<(), IoFault>
    requires { K.failures sink.old < 2 ^ 64 - 1 }
    ensures { Writes K.written K.failures sink.old sink.new (details (says.Fixupp subrecords.now)) result }
{
    put_each(sink, subrecords)
}

// Writes the lines of a GRPDEF.
#[tactic(auto, unfolding(crate::specs::Details::details))]
fn put_group<K: Sink>(sink: &mut K, name: u16, segments: &[u16]) -> Result<(), IoFault>
    requires { K.failures sink.old < 2 ^ 64 - 1 }
    ensures { Writes K.written K.failures sink.old sink.new (details (says.Grpdef name segments.now)) result }
{
    put_group_line(sink, name)?;
    put_each(sink, segments)
}

// Writes the line of a public.
fn put_public<K: Sink>(sink: &mut K, local: bool, public: &Public<'_>) -> Result<(), IoFault>
    requires { K.failures sink.old < 2 ^ 64 - 1 }
    ensures { Writes K.written K.failures sink.old sink.new (spec.public_line local (public_view public.now)) result }
{
    let pieces = [
        Piece::Text("  "),
        Piece::Text(scope(local)),
        Piece::Text("public "),
        Piece::Name(public.name),
        Piece::Text(" offset "),
        Piece::Word(public.offset),
        Piece::Text(" type "),
        Piece::Index(public.type_index),
        Piece::Text("\n"),
    ];
    put_each(sink, pieces.as_slice())
}

// Writes the lines of publics, without that of their base.
fn put_public_lines<K: Sink>(
    sink: &mut K,
    local: bool,
    publics: &[Public<'_>],
) -> Result<(), IoFault>
    requires { K.failures sink.old < 2 ^ 64 - 1 }
    ensures { Writes K.written K.failures sink.old sink.new
        (flat_map (spec.public_line local) (map public_view publics.now)) result }
{
    for public in publics {
        put_public(sink, local, public)?;
    }
    Ok(())
}

// Writes the lines of a PUBDEF.
fn put_publics<K: Sink>(
    sink: &mut K,
    local: bool,
    base: PublicBase,
    publics: &[Public<'_>],
) -> Result<(), IoFault>
    requires { K.failures sink.old < 2 ^ 64 - 1 }
    ensures { Writes K.written K.failures sink.old sink.new
        (spec.public_base base ++ flat_map (spec.public_line local) (map public_view publics.now)) result }
{
    put_base(sink, base)?;
    put_public_lines(sink, local, publics)
}

// Writes the lines of a LINNUM.
#[tactic(auto, unfolding(crate::specs::Details::details))]
fn put_lines<K: Sink>(sink: &mut K, group: u16, segment: u16, lines: &[Line]) -> Result<(), IoFault>
    requires { K.failures sink.old < 2 ^ 64 - 1 }
    ensures { Writes K.written K.failures sink.old sink.new (details (says.Linnum group segment lines.now)) result }
{
    put_base_line(sink, group, segment)?;
    put_each(sink, lines)
}

/// Writes the lines of a record.
#[tactic(auto, unfolding(omf_record::specs::View::view, crate::specs::Details::details))]
pub fn put_details<K: Sink, A: Allocator + Copy>(
    sink: &mut K,
    record: &Record<'_, A>,
) -> Result<(), IoFault>
    requires { K.failures sink.old < 2 ^ 64 - 1 }
    ensures { Writes K.written K.failures sink.old sink.new (details (view «record».now)) result }
{
    match record {
        Record::Theadr { name } => put_header(sink, name),
        Record::Coment { kind, class, bytes } => put_comment(sink, *kind, *class, bytes),
        Record::Modend { main, start } => put_end(sink, *main, *start),
        Record::Extdef { local, names } => put_externals(sink, *local, names),
        Record::Pubdef {
            local,
            base,
            publics,
        } => put_publics(sink, *local, *base, publics),
        Record::Linnum {
            group,
            segment,
            lines,
        } => put_lines(sink, *group, *segment, lines),
        Record::Lnames { names } => put_names(sink, names),
        Record::Segdef { segment } => put_segment(sink, segment),
        Record::Grpdef { name, segments } => put_group(sink, *name, segments),
        Record::Fixupp { subrecords } => put_subrecords(sink, subrecords),
        Record::Ledata {
            segment,
            offset,
            bytes,
        } => put_data(sink, *segment, *offset, bytes),
        Record::Lidata {
            segment,
            offset,
            blocks,
        } => put_repeated(sink, *segment, *offset, blocks),
    }
}

/// Writes the head line and the lines of a record that stands at this place, has this type and a body
/// of this length, in bytes.
pub fn put_listing<K: Sink, A: Allocator + Copy>(
    sink: &mut K,
    place: u64,
    kind: u8,
    length: usize,
    record: &Record<'_, A>,
) -> Result<(), IoFault>
    requires { K.failures sink.old < 2 ^ 64 - 1 }
    ensures { Writes K.written K.failures sink.old sink.new
        (head_line place kind length ++ details (view «record».now)) result }
{
    put_head_line(sink, place, kind, length)?;
    put_details(sink, record)
}
