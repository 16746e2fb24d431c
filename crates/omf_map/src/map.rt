//! The lines of a map, and the whole of it. Nothing here takes memory.
ghost use Rattle.std.specs.Prelude.{◌≡◌, ◌+◌, ◌-◌, ◌*◌, ◌^◌, ◌<◌};
ghost use Rattle.std.specs.List.{flat_map};
ghost use Rattle.omf_frame.specs.Device.{Writes};
ghost use Rattle.omf_module.specs.Seen.{public_seen, segment_seen};
ghost use Rattle.omf_map.specs.Map as spec;
ghost use Rattle.omf_map.specs.Map.{map_text};
ghost use Rattle.omf_text.specs.Printing.{left};

use omf_frame::{IoFault, Sink, put_all};
use omf_image::Program;
use omf_module::{Kind, Module, PublicSymbol, Segment, Standing};
use omf_place::{Combined, GroupPlace, Layout, Position};
use omf_text::{Hexadecimal, Piece, put_each, put_hexadecimal, put_pieces};
use std::alloc::Allocator;

// The kind of a segment, with spaces behind it.
fn kind_column(standing: Standing) -> &'static str
    ensures { result.now ≡ left 8 (spec.kind_name standing) }
{
    match standing {
        Standing::Absolute { .. } => "absolute",
        Standing::Relocatable { kind, .. } => match kind {
            Kind::Private => "private ",
            Kind::Public => "public  ",
            Kind::Stack => "stack   ",
            Kind::Common => "common  ",
        },
    }
}

// Writes the line of a segment that starts at this address and has this many bytes.
fn put_segment<K: Sink>(
    sink: &mut K,
    start: u32,
    size: u32,
    segment: &Segment<'_>,
) -> Result<(), IoFault>
    requires { K.failures sink.old < 2 ^ 64 - 1 }
    ensures { Writes K.written K.failures sink.old sink.new
        (spec.segment_line start size (segment_seen segment.now)) result }
{
    let pieces = [
        Piece::Address(start),
        Piece::Text(" "),
        Piece::Address(size),
        Piece::Text(" "),
        Piece::Text(kind_column(segment.standing)),
        Piece::Text(" "),
        Piece::Name(segment.name),
        Piece::Text(" "),
        Piece::Name(segment.class),
        Piece::Text("\n"),
    ];
    put_each(sink, pieces.as_slice())
}

// Writes the line of a combined segment.
#[tactic(auto, unfolding(crate::specs::Map::combined_line))]
fn put_combined<K: Sink, A: Allocator + Copy>(
    sink: &mut K,
    modules: &[Module<A>],
    combined: &Combined,
) -> Result<(), IoFault>
    requires { K.failures sink.old < 2 ^ 64 - 1 }
    ensures { Writes K.written K.failures sink.old sink.new (spec.combined_line modules.now combined.now) result }
{
    let Some(module) = modules.get(combined.input) else {
        return Ok(());
    };
    if combined.segment >= module.segment_count() {
        return Ok(());
    }
    let size = combined.end.saturating_sub(combined.start);
    put_segment(
        sink,
        combined.start,
        size,
        &module.segment(combined.segment),
    )
}

// The address of a paragraph's byte.
fn absolute_start(frame: u16, offset: u8) -> u32
    ensures { result ≡ 16 * frame + offset }
{
    16 * u32::from(frame) + u32::from(offset)
}

// Writes the line of an absolute segment, and nothing of another.
#[tactic(auto, unfolding(crate::specs::Map::absolute_line))]
fn put_absolute<K: Sink>(sink: &mut K, segment: &Segment<'_>) -> Result<(), IoFault>
    requires { K.failures sink.old < 2 ^ 64 - 1 }
    ensures { Writes K.written K.failures sink.old sink.new (spec.absolute_line (segment_seen segment.now)) result }
{
    let Standing::Absolute { frame, offset } = segment.standing else {
        return Ok(());
    };
    put_segment(sink, absolute_start(frame, offset), segment.length, segment)
}

// Writes the lines of a module's absolute segments.
fn put_absolutes<K: Sink, A: Allocator + Copy>(
    sink: &mut K,
    module: &Module<A>,
) -> Result<(), IoFault>
    requires { K.failures sink.old < 2 ^ 64 - 1 }
    ensures { Writes K.written K.failures sink.old sink.new (flat_map spec.absolute_line «module».now.segments) result }
{
    for segment in 0..module.segment_count() {
        put_absolute(sink, &module.segment(segment))?;
    }
    Ok(())
}

// Writes the lines of all absolute segments.
fn put_all_absolutes<K: Sink, A: Allocator + Copy>(
    sink: &mut K,
    modules: &[Module<A>],
) -> Result<(), IoFault>
    requires { K.failures sink.old < 2 ^ 64 - 1 }
    ensures { Writes K.written K.failures sink.old sink.new
        (flat_map (λ m. flat_map spec.absolute_line m.segments) modules.now) result }
{
    for module in modules {
        put_absolutes(sink, module)?;
    }
    Ok(())
}

// Writes the lines of the combined segments.
fn put_all_combined<K: Sink, A: Allocator + Copy>(
    sink: &mut K,
    modules: &[Module<A>],
    layout: &Layout<A>,
) -> Result<(), IoFault>
    requires { K.failures sink.old < 2 ^ 64 - 1 }
    ensures { Writes K.written K.failures sink.old sink.new
        (flat_map (spec.combined_line modules.now) layout.now.combined) result }
{
    for index in 0..layout.combined_len() {
        put_combined(sink, modules, &layout.combined(index))?;
    }
    Ok(())
}

// Writes the paragraph of a group's frame, where it has members.
fn put_frame<K: Sink>(sink: &mut K, frame: Option<u16>) -> Result<(), IoFault>
    requires { K.failures sink.old < 2 ^ 64 - 1 }
    ensures { Writes K.written K.failures sink.old sink.new (spec.frame_text frame) result }
{
    match frame {
        None => put_all(sink, b"----"),
        Some(frame) => put_hexadecimal(sink, u64::from(frame), 4),
    }
}

// Writes the line of a group.
#[tactic(auto, unfolding(crate::specs::Map::group_line))]
fn put_group<K: Sink, A: Allocator + Copy>(
    sink: &mut K,
    modules: &[Module<A>],
    group: &GroupPlace,
) -> Result<(), IoFault>
    requires { K.failures sink.old < 2 ^ 64 - 1 }
    ensures { Writes K.written K.failures sink.old sink.new (spec.group_line modules.now group.now) result }
{
    let Some(module) = modules.get(group.input) else {
        return Ok(());
    };
    if group.group >= module.group_count() {
        return Ok(());
    }
    let named = module.group(group.group);
    put_frame(sink, group.frame)?;
    let pieces = [Piece::Text(" "), Piece::Name(named.name), Piece::Text("\n")];
    put_each(sink, pieces.as_slice())
}

// Writes where a public stands, and whether it moves with the program.
fn put_address<K: Sink>(sink: &mut K, position: Position) -> Result<(), IoFault>
    requires { K.failures sink.old < 2 ^ 64 - 1 }
    ensures { Writes K.written K.failures sink.old sink.new (spec.address_text position) result }
{
    match position {
        Position::Relocatable(address, _) => {
            let digits = Hexadecimal::new(u64::from(address), 6);
            let pieces = [digits.as_bytes(), b" R".as_slice()];
            put_pieces(sink, pieces.as_slice())
        }
        Position::Absolute(address, _) => {
            let digits = Hexadecimal::new(u64::from(address), 6);
            let pieces = [digits.as_bytes(), b" A".as_slice()];
            put_pieces(sink, pieces.as_slice())
        }
    }
}

// Writes the line of a public.
#[tactic(auto, unfolding(crate::specs::Map::public_line))]
fn put_public<K: Sink, A: Allocator + Copy>(
    sink: &mut K,
    layout: &Layout<A>,
    symbol: &PublicSymbol<'_>,
) -> Result<(), IoFault>
    requires { K.failures sink.old < 2 ^ 64 - 1 }
    ensures { Writes K.written K.failures sink.old sink.new
        (spec.public_line layout.now (public_seen symbol.now)) result }
{
    if symbol.local {
        return Ok(());
    }
    let Some(position) = layout.public(symbol.name) else {
        return Ok(());
    };
    put_address(sink, position)?;
    let pieces = [
        Piece::Text(" "),
        Piece::Name(symbol.name),
        Piece::Text("\n"),
    ];
    put_each(sink, pieces.as_slice())
}

// Writes the lines of a module's publics.
fn put_publics<K: Sink, A: Allocator + Copy>(
    sink: &mut K,
    layout: &Layout<A>,
    module: &Module<A>,
) -> Result<(), IoFault>
    requires { K.failures sink.old < 2 ^ 64 - 1 }
    ensures { Writes K.written K.failures sink.old sink.new
        (flat_map (spec.public_line layout.now) «module».now.publics) result }
{
    for public in 0..module.public_symbol_count() {
        put_public(sink, layout, &module.public_symbol(public))?;
    }
    Ok(())
}

// Writes the lines of segments behind their heading.
#[tactic(auto, unfolding(crate::specs::Map::segment_lines))]
fn put_segment_lines<K: Sink, A: Allocator + Copy>(
    sink: &mut K,
    modules: &[Module<A>],
    layout: &Layout<A>,
) -> Result<(), IoFault>
    requires { K.failures sink.old < 2 ^ 64 - 1 }
    ensures { Writes K.written K.failures sink.old sink.new (spec.segment_lines modules.now layout.now) result }
{
    put_all(sink, b"segments\n")?;
    put_all_combined(sink, modules, layout)?;
    put_all_absolutes(sink, modules)
}

// Writes the lines of the groups.
fn put_all_groups<K: Sink, A: Allocator + Copy>(
    sink: &mut K,
    modules: &[Module<A>],
    layout: &Layout<A>,
) -> Result<(), IoFault>
    requires { K.failures sink.old < 2 ^ 64 - 1 }
    ensures { Writes K.written K.failures sink.old sink.new
        (flat_map (spec.group_line modules.now) layout.now.groups) result }
{
    for index in 0..layout.group_len() {
        put_group(sink, modules, &layout.group(index))?;
    }
    Ok(())
}

// Writes the lines of groups behind their heading.
#[tactic(auto, unfolding(crate::specs::Map::group_lines))]
fn put_group_lines<K: Sink, A: Allocator + Copy>(
    sink: &mut K,
    modules: &[Module<A>],
    layout: &Layout<A>,
) -> Result<(), IoFault>
    requires { K.failures sink.old < 2 ^ 64 - 1 }
    ensures { Writes K.written K.failures sink.old sink.new (spec.group_lines modules.now layout.now) result }
{
    put_all(sink, b"groups\n")?;
    put_all_groups(sink, modules, layout)
}

// Writes the lines of the publics of all modules.
fn put_all_publics<K: Sink, A: Allocator + Copy>(
    sink: &mut K,
    modules: &[Module<A>],
    layout: &Layout<A>,
) -> Result<(), IoFault>
    requires { K.failures sink.old < 2 ^ 64 - 1 }
    ensures { Writes K.written K.failures sink.old sink.new
        (flat_map (λ m. flat_map (spec.public_line layout.now) m.publics) modules.now) result }
{
    for module in modules {
        put_publics(sink, layout, module)?;
    }
    Ok(())
}

// Writes the lines of publics behind their heading.
#[tactic(auto, unfolding(crate::specs::Map::public_lines))]
fn put_public_lines<K: Sink, A: Allocator + Copy>(
    sink: &mut K,
    modules: &[Module<A>],
    layout: &Layout<A>,
) -> Result<(), IoFault>
    requires { K.failures sink.old < 2 ^ 64 - 1 }
    ensures { Writes K.written K.failures sink.old sink.new (spec.public_lines modules.now layout.now) result }
{
    put_all(sink, b"publics\n")?;
    put_all_publics(sink, modules, layout)
}

// Writes the registers at the start, the size, and how many words are relocated.
#[tactic(auto, unfolding(crate::specs::Map::program_lines))]
fn put_program<K: Sink, A: Allocator + Copy>(
    sink: &mut K,
    program: &Program<A>,
) -> Result<(), IoFault>
    requires { K.failures sink.old < 2 ^ 64 - 1 }
    ensures { Writes K.written K.failures sink.old sink.new (spec.program_lines program.now) result }
{
    let registers = program.registers();
    let pieces = [
        Piece::Text("entry "),
        Piece::Word(registers.cs),
        Piece::Text(":"),
        Piece::Word(registers.ip),
        Piece::Text("\nstack "),
        Piece::Word(registers.ss),
        Piece::Text(":"),
        Piece::Word(registers.sp),
        Piece::Text("\nsize "),
        Piece::Address(program.size()),
        Piece::Text("\nrelocations "),
        Piece::Count(program.relocations().len()),
        Piece::Text("\n"),
    ];
    put_each(sink, pieces.as_slice())
}

/// Writes the map of a program that was linked of these modules by this layout: its segments, groups and
/// publics, its registers and its size in bytes, and how many words are relocated. Takes no memory.
///
/// # Errors
/// The sink failed.
pub fn put_map<K: Sink, A: Allocator + Copy>(
    sink: &mut K,
    modules: &[Module<A>],
    layout: &Layout<A>,
    program: &Program<A>,
) -> Result<(), IoFault>
    requires { K.failures sink.old < 2 ^ 64 - 1 }
    ensures { Writes K.written K.failures sink.old sink.new (map_text modules.now layout.now program.now) result }
{
    put_segment_lines(sink, modules, layout)?;
    put_group_lines(sink, modules, layout)?;
    put_public_lines(sink, modules, layout)?;
    put_program(sink, program)
}
