//! The lines of the map, and the whole of it.
ghost use Rattle.std.specs.Prelude.{◌≡◌, ◌+◌, ◌-◌, ◌^◌, ◌<◌, [], IfOk, if◌then◌else◌, length, replicate};
ghost use Rattle.std.specs.List.{flat_map};
ghost use Rattle.omf_frame.specs.Device.{Writes};
ghost use Rattle.omf_module.specs.Seen.{group_seen, segment_seen};
ghost use Rattle.omf_place.specs.Bounded.{IsBounded};
ghost use Rattle.link_map.specs.Map as spec;
ghost use Rattle.link_map.specs.Detailed.{detail_lines};
ghost use Rattle.link_map.specs.Map.{WritesMap, link_map_text, numbered_map_text, shown_map_text};
ghost use Rattle.link_map.specs.Numbers.{bytes_of, number_lines};
ghost use Rattle.link_map.specs.inside.Listed.{all_seen};
ghost use Rattle.link_map.specs.inside.Texts.{map_with};

use crate::fault::MapFault;
use crate::form::{MapForm, Shown};
use crate::numbers::{Sources, program_numbers};
use crate::parts::program_details;
use crate::public::{ListedPublic, put_publics};
use crate::publics::{Orders, in_orders};
use omf_frame::{IoFault, Sink, put_all};
use omf_image::{Program, Registers};
use omf_module::{Group, Module, Segment};
use omf_place::{Combined, GroupPlace, Layout};
use omf_text::{Hexadecimal, put_pieces};
use std::alloc::{AllocError, Allocator, Global};

/// The blanks of a name's columns.
const BLANKS: [u8; 22] = [b' '; 22];

/// What a map tells of: modules that were linked, where they stand, and their program.
#[derive(Drop)]
pub struct LinkedProgram<'a, A: Allocator + Copy = Global> {
    pub modules: &'a [Module<A>],
    pub layout: &'a Layout<A>,
    pub program: &'a Program<A>,
}

/// The heading of the segments.
fn heading(form: MapForm) -> &'static [u8]
    ensures { result.now ≡ spec.heading form }
{
    match form {
        MapForm::Link => b"\n Start  Stop   Length Name                   Class\n",
        MapForm::Tlink => b"\n Start  Stop   Length Name               Class\n\n",
    }
}

/// The columns of a name.
fn name_width(form: MapForm) -> usize
    ensures same { result ≡ spec.name_width form }
    ensures few { result < 23 }
{
    match form {
        MapForm::Link => 22,
        MapForm::Tlink => 18,
    }
}

/// The blanks behind a name, up to the end of its columns.
fn blanks<'n>(form: MapForm, name: &'n [u8]) -> &'n [u8]
    ensures { result.now ≡ replicate (spec.name_width form - length name.now) 32 }
{
    &BLANKS[..name_width(form).saturating_sub(name.len())]
}

/// The address of a segment's last byte; of one of length 0 that of its start.
fn stop(start: u32, size: u32) -> u32
    requires { start + size < 2 ^ 32 }
    ensures { result ≡ spec.stop start size }
{
    if size == 0 { start } else { start + size - 1 }
}

/// Writes the line of a segment that starts at this address and has this many bytes.
fn put_segment<K: Sink>(
    sink: &mut K,
    form: MapForm,
    start: u32,
    size: u32,
    segment: &Segment<'_>,
) -> Result<(), IoFault>
    requires working { K.failures sink.old < 2 ^ 64 - 1 }
    requires small { start + size < 2 ^ 32 }
    ensures { Writes K.written K.failures sink.old sink.new
        (spec.segment_line form start size (segment_seen segment.now)) result }
{
    let first = Hexadecimal::new(u64::from(start), 5);
    let last = Hexadecimal::new(u64::from(stop(start, size)), 5);
    let length = Hexadecimal::new(u64::from(size), 5);
    let pieces = [
        b" ".as_slice(),
        first.as_bytes(),
        b"H ".as_slice(),
        last.as_bytes(),
        b"H ".as_slice(),
        length.as_bytes(),
        b"H ".as_slice(),
        segment.name,
        blanks(form, segment.name),
        b" ".as_slice(),
        segment.class,
        b"\n".as_slice(),
    ];
    put_pieces(sink, pieces.as_slice())
}

/// Writes the line of a combined segment.
#[tactic(auto, unfolding(crate::specs::Map::combined_line))]
fn put_combined<K: Sink, A: Allocator + Copy>(
    sink: &mut K,
    form: MapForm,
    modules: &[Module<A>],
    combined: &Combined,
) -> Result<(), IoFault>
    requires { K.failures sink.old < 2 ^ 64 - 1 }
    ensures { Writes K.written K.failures sink.old sink.new
        (spec.combined_line form modules.now combined.now) result }
{
    let Some(module) = modules.get(combined.input) else {
        return Ok(());
    };
    if combined.segment >= module.segment_count() {
        return Ok(());
    }
    let size = combined.end.saturating_sub(combined.start);
    let segment = module.segment(combined.segment);
    put_segment(sink, form, combined.start, size, &segment)
}

/// Writes the lines of the combined segments.
fn put_all_combined<K: Sink, A: Allocator + Copy>(
    sink: &mut K,
    form: MapForm,
    modules: &[Module<A>],
    layout: &Layout<A>,
) -> Result<(), IoFault>
    requires { K.failures sink.old < 2 ^ 64 - 1 }
    ensures { Writes K.written K.failures sink.old sink.new
        (flat_map (spec.combined_line form modules.now) layout.now.combined) result }
{
    for index in 0..layout.combined_len() {
        put_combined(sink, form, modules, &layout.combined(index))?;
    }
    Ok(())
}

/// Writes the lines of segments behind their heading.
#[tactic(auto, unfolding(crate::specs::Map::segment_lines))]
fn put_segments<K: Sink, A: Allocator + Copy>(
    sink: &mut K,
    form: MapForm,
    modules: &[Module<A>],
    layout: &Layout<A>,
) -> Result<(), IoFault>
    requires { K.failures sink.old < 2 ^ 64 - 1 }
    ensures { Writes K.written K.failures sink.old sink.new (spec.segment_lines form modules.now layout.now) result }
{
    put_all(sink, heading(form))?;
    put_all_combined(sink, form, modules, layout)
}

/// Writes the frame and the name of a group that has members, and nothing of another.
fn put_named_group<K: Sink>(
    sink: &mut K,
    frame: Option<u16>,
    group: &Group<'_>,
) -> Result<(), IoFault>
    requires { K.failures sink.old < 2 ^ 64 - 1 }
    ensures { Writes K.written K.failures sink.old sink.new (spec.named_group frame (group_seen group.now)) result }
{
    let Some(frame) = frame else {
        return Ok(());
    };
    let digits = Hexadecimal::new(u64::from(frame), 4);
    let pieces = [
        b" ".as_slice(),
        digits.as_bytes(),
        b":0   ".as_slice(),
        group.name,
        b"\n".as_slice(),
    ];
    put_pieces(sink, pieces.as_slice())
}

/// Writes the line of a group.
#[tactic(auto, unfolding(crate::specs::Map::group_line))]
fn put_group<K: Sink, A: Allocator + Copy>(
    sink: &mut K,
    modules: &[Module<A>],
    group: &GroupPlace,
) -> Result<(), IoFault>
    requires { K.failures sink.old < 2 ^ 64 - 1 }
    ensures { Writes K.written K.failures sink.old sink.new (spec.group_line modules.now group.now) result }
{
    let Some(module) = modules.get(group.input) else {
        return Ok(());
    };
    if group.group >= module.group_count() {
        return Ok(());
    }
    put_named_group(sink, group.frame, &module.group(group.group))
}

/// Writes the lines of all groups.
fn put_all_groups<K: Sink, A: Allocator + Copy>(
    sink: &mut K,
    modules: &[Module<A>],
    layout: &Layout<A>,
) -> Result<(), IoFault>
    requires { K.failures sink.old < 2 ^ 64 - 1 }
    ensures { Writes K.written K.failures sink.old sink.new
        (flat_map (spec.group_line modules.now) layout.now.groups) result }
{
    for index in 0..layout.group_len() {
        put_group(sink, modules, &layout.group(index))?;
    }
    Ok(())
}

/// Writes the lines of groups behind their heading, where the form has them.
#[tactic(auto, unfolding(crate::specs::Map::group_lines))]
fn put_groups<K: Sink, A: Allocator + Copy>(
    sink: &mut K,
    form: MapForm,
    modules: &[Module<A>],
    layout: &Layout<A>,
) -> Result<(), IoFault>
    requires { K.failures sink.old < 2 ^ 64 - 1 }
    ensures { Writes K.written K.failures sink.old sink.new (spec.group_lines form modules.now layout.now) result }
{
    match form {
        MapForm::Link => {
            put_all(sink, b"\n Origin   Group\n")?;
            put_all_groups(sink, modules, layout)
        }
        MapForm::Tlink => Ok(()),
    }
}

/// Writes the lines of the publics in both orders, each behind its heading.
fn put_orders<K: Sink>(
    sink: &mut K,
    by_name: &[ListedPublic<'_>],
    by_value: &[ListedPublic<'_>],
) -> Result<(), IoFault>
    requires { K.failures sink.old < 2 ^ 64 - 1 }
    ensures { Writes K.written K.failures sink.old sink.new
        (spec.order_lines (all_seen by_name.now) (all_seen by_value.now)) result }
{
    put_all(sink, b"\n  Address         Publics by Name\n\n")?;
    put_publics(sink, by_name)?;
    put_all(sink, b"\n  Address         Publics by Value\n\n")?;
    put_publics(sink, by_value)
}

/// Writes where the program starts.
fn put_start<K: Sink>(sink: &mut K, registers: Registers) -> Result<(), IoFault>
    requires { K.failures sink.old < 2 ^ 64 - 1 }
    ensures { Writes K.written K.failures sink.old sink.new (spec.start_line registers) result }
{
    let cs = Hexadecimal::new(u64::from(registers.cs), 4);
    let ip = Hexadecimal::new(u64::from(registers.ip), 4);
    let pieces = [
        b"\nProgram entry point at ".as_slice(),
        cs.as_bytes(),
        b":".as_slice(),
        ip.as_bytes(),
        b"\n".as_slice(),
    ];
    put_pieces(sink, pieces.as_slice())
}

/// The texts that a map has where they are asked for.
#[derive(Clone, Copy)]
struct Asked<'t> {
    /// The detailed map of segments.
    details: &'t [u8],
    /// The line numbers.
    numbers: &'t [u8],
}

/// Writes the whole map, with the publics in both orders, and with these texts.
fn put_lines<K: Sink, A: Allocator + Copy, B: Allocator + Copy>(
    sink: &mut K,
    form: MapForm,
    linked: &LinkedProgram<'_, A>,
    orders: &Orders<'_, B>,
    asked: Asked<'_>,
) -> Result<(), IoFault>
    requires { K.failures sink.old < 2 ^ 64 - 1 }
    ensures { Writes K.written K.failures sink.old sink.new
        (map_with form linked.now.modules.now linked.now.layout.now linked.now.program.now
        (all_seen orders.now.by_name.items) (all_seen orders.now.by_value.items)
        asked.entry.details.now asked.entry.numbers.now) result }
{
    put_segments(sink, form, linked.modules, linked.layout)?;
    put_groups(sink, form, linked.modules, linked.layout)?;
    put_all(sink, asked.details)?;
    put_orders(sink, &orders.by_name, &orders.by_value)?;
    put_all(sink, asked.numbers)?;
    put_start(sink, linked.program.registers())
}

/// Writes the map of a program in the form of LINK or of TLINK: its segments, its groups where the form has them, its
/// publics by name and by value, and where it starts. A public is listed by a frame and its offset from there, which
/// make its address.
///
/// # Errors
/// There was no memory for the orders of the publics, and nothing was written; or the sink failed.
pub fn write_link_map<K: Sink, A: Allocator + Copy, B: Allocator + Copy>(
    alloc: B,
    sink: &mut K,
    form: MapForm,
    linked: &LinkedProgram<'_, A>,
) -> Result<(), MapFault>
    requires { K.failures sink.old < 2 ^ 64 - 1 }
    ensures { WritesMap K.written K.failures sink.old sink.new
        (link_map_text form linked.now.modules.now linked.now.layout.now linked.now.program.now) result }
{
    let orders = in_orders(alloc, linked.modules, linked.layout)?;
    let asked = Asked {
        details: b"",
        numbers: b"",
    };
    put_lines(sink, form, linked, &orders, asked)?;
    Ok(())
}

/// Writes the same map with the line numbers of the modules behind the publics: of each module in order of inputs, and
/// of each of its segments that has any. A line is listed where a public of its group and its segment would be, with
/// its offset.
///
/// # Errors
/// There was no memory for the orders of the publics or for the lines, and nothing was written; or the sink failed.
pub fn write_numbered_map<K: Sink, A: Allocator + Copy, B: Allocator + Copy>(
    alloc: B,
    sink: &mut K,
    form: MapForm,
    linked: &LinkedProgram<'_, A>,
    sources: Sources<'_>,
) -> Result<(), MapFault>
    requires working { K.failures sink.old < 2 ^ 64 - 1 }
    requires bounded { IsBounded linked.now.modules.now linked.now.layout.now }
    ensures { WritesMap K.written K.failures sink.old sink.new
        (numbered_map_text form linked.now.modules.now linked.now.layout.now linked.now.program.now
        (bytes_of sources.entry.inputs.now) (bytes_of sources.entry.files.now)) result }
{
    let shown = Shown {
        form,
        details: false,
        line_numbers: true,
    };
    write_shown_map(alloc, sink, shown, linked, sources)
}

/// The detailed map of segments, where it is shown.
fn shown_details<A: Allocator + Copy, B: Allocator + Copy>(
    alloc: B,
    shown: Shown,
    linked: &LinkedProgram<'_, A>,
    sources: Sources<'_>,
) -> Result<Vec<u8, B>, AllocError>
    requires { IsBounded linked.now.modules.now linked.now.layout.now }
    ensures { IfOk result (λ text. text.items ≡ if shown.details
        then detail_lines linked.now.modules.now linked.now.layout.now (bytes_of sources.entry.inputs.now) else []) }
{
    if shown.details {
        program_details(alloc, linked.modules, linked.layout, sources.inputs)
    } else {
        Ok(Vec::new(alloc))
    }
}

/// The line numbers, where they are shown.
fn shown_numbers<A: Allocator + Copy, B: Allocator + Copy>(
    alloc: B,
    shown: Shown,
    linked: &LinkedProgram<'_, A>,
    sources: Sources<'_>,
) -> Result<Vec<u8, B>, AllocError>
    requires { IsBounded linked.now.modules.now linked.now.layout.now }
    ensures { IfOk result (λ text. text.items ≡ if shown.line_numbers
        then number_lines linked.now.modules.now linked.now.layout.now (bytes_of sources.entry.inputs.now)
        (bytes_of sources.entry.files.now) else []) }
{
    if shown.line_numbers {
        program_numbers(alloc, linked.modules, linked.layout, sources)
    } else {
        Ok(Vec::new(alloc))
    }
}

/// Writes the same map with what is shown besides: in front of the publics the detailed map of segments, which has each
/// module's part of a segment in order of address, and behind them the line numbers.
///
/// # Errors
/// There was no memory for the orders of the publics or for what is shown besides, and nothing was written; or the sink
/// failed.
pub fn write_shown_map<K: Sink, A: Allocator + Copy, B: Allocator + Copy>(
    alloc: B,
    sink: &mut K,
    shown: Shown,
    linked: &LinkedProgram<'_, A>,
    sources: Sources<'_>,
) -> Result<(), MapFault>
    requires working { K.failures sink.old < 2 ^ 64 - 1 }
    requires bounded { IsBounded linked.now.modules.now linked.now.layout.now }
    ensures { WritesMap K.written K.failures sink.old sink.new
        (shown_map_text shown linked.now.modules.now linked.now.layout.now linked.now.program.now
        (bytes_of sources.entry.inputs.now) (bytes_of sources.entry.files.now)) result }
{
    let orders = in_orders(alloc, linked.modules, linked.layout)?;
    let details = shown_details(alloc, shown, linked, sources)?;
    let numbers = shown_numbers(alloc, shown, linked, sources)?;
    let asked = Asked {
        details: &details,
        numbers: &numbers,
    };
    put_lines(sink, shown.form, linked, &orders, asked)?;
    Ok(())
}
