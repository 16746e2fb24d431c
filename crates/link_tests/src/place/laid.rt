//! What a test places and writes down.

ghost use Rattle.std.specs.Prelude.{◌≡◌, ◌<◌, length};
ghost use Rattle.omf_place.specs.Bounded.{ArePlacesOf, IsBounded};
ghost use Rattle.omf_place.specs.Layout.{places_of};

use omf_module::Module;
use omf_place::{Combined, GroupPlace, Layout, Names, PlaceFault, Position, place};
use rows::{push_text, read_modules, read_row, same};
use std::alloc::{AllocError, Allocator, Global};
use std::test::*;

/// Appends an address and a frame. What is absolute has a `=`.
pub fn push_place(text: &mut String, position: Position) -> Result<(), AllocError> {
    match position {
        Position::Relocatable(address, Some(frame)) => write!(text, " {address}/{frame}"),
        Position::Relocatable(address, None) => write!(text, " {address}/-"),
        Position::Absolute(address, frame) => write!(text, " ={address}/={frame}"),
    }
}

fn push_segments<A: Allocator + Copy>(
    text: &mut String,
    says: &Module<A>,
    layout: &Layout<A>,
    input: usize,
) -> Result<(), AllocError>
    requires input { input < length layout.now.modules }
    requires segments { length (places_of layout.now input).segments ≡ length says.now.segments }
{
    for segment in 0..says.segment_count() {
        push_place(text, layout.segment_position(input, segment))?;
    }
    text.push_str(" |")
}

fn push_frame(text: &mut String, frame: Option<u16>) -> Result<(), AllocError> {
    match frame {
        Some(frame) => write!(text, " {frame}"),
        None => text.push_str(" -"),
    }
}

fn push_groups<A: Allocator + Copy>(
    text: &mut String,
    says: &Module<A>,
    layout: &Layout<A>,
    input: usize,
) -> Result<(), AllocError>
    requires input { input < length layout.now.modules }
    requires groups { length (places_of layout.now input).groups ≡ length says.now.groups }
{
    for group in 0..says.group_count() {
        push_frame(text, layout.group_frame(input, group))?;
    }
    Ok(())
}

/// What is said of a module.
fn push_module<A: Allocator + Copy>(
    text: &mut String,
    says: &Module<A>,
    layout: &Layout<A>,
    input: usize,
) -> Result<(), AllocError>
    requires input { input < length layout.now.modules }
    requires places { ArePlacesOf layout.now.size says.now (places_of layout.now input) }
{
    push_segments(text, says, layout, input)?;
    push_groups(text, says, layout, input)
}

fn push_combined<A: Allocator + Copy>(
    text: &mut String,
    layout: &Layout<A>,
) -> Result<(), AllocError> {
    for index in 0..layout.combined_len() {
        let Combined {
            start,
            end,
            input,
            segment,
        } = layout.combined(index);
        write!(text, " {start}-{end} {input}.{segment}")?;
    }
    text.push_str(";")
}

fn push_all_groups<A: Allocator + Copy>(
    text: &mut String,
    layout: &Layout<A>,
) -> Result<(), AllocError> {
    for index in 0..layout.group_len() {
        let GroupPlace {
            frame,
            input,
            group,
        } = layout.group(index);
        push_frame(text, frame)?;
        write!(text, " {input}.{group}")?;
    }
    Ok(())
}

fn push_public<A: Allocator + Copy>(
    text: &mut String,
    layout: &Layout<A>,
) -> Result<(), AllocError> {
    match layout.public(b"x") {
        Some(place) => {
            text.push_str("; x")?;
            push_place(text, place)
        }
        None => Ok(()),
    }
}

/// The size; each segment's address and frame, by input, and after `|` the frames of its GRPDEFs' groups; the combined
/// segments and the groups, each with its first; and the public `x`. What is absolute has a `=`.
fn describe<A: Allocator + Copy>(
    alloc: Global,
    modules: &[Module<A>],
    layout: &Layout<A>,
) -> Result<String, AllocError>
    requires { IsBounded modules.now layout.now }
{
    let size = layout.size();
    let mut text = format!(in alloc; "size {size}:")?;
    for (input, says) in modules.iter().enumerate() {
        push_module(&mut text, says, layout, input)?;
    }
    text.push_str(";")?;
    push_combined(&mut text, layout)?;
    push_all_groups(&mut text, layout)?;
    push_public(&mut text, layout)?;
    Ok(text)
}

/// The fault, and the name that it has.
pub fn describe_fault<A: Allocator + Copy>(
    alloc: Global,
    fault: PlaceFault<A>,
) -> Result<String, AllocError> {
    let mut text = format!(in alloc; "{fault}")?;
    match fault {
        PlaceFault::SegmentTooLong { name }
        | PlaceFault::GroupTooLong { name }
        | PlaceFault::DuplicatePublic { name } => {
            text.push(' ')?;
            push_text(&mut text, &name)?;
        }
        PlaceFault::Memory | PlaceFault::ProgramTooLarge => {}
    }
    Ok(text)
}

/// What is said of the layout of modules, or the fault.
pub fn placed<A: Allocator + Copy>(
    alloc: A,
    words: Global,
    names: Names,
    modules: &[Module<A>],
) -> Result<String, AllocError> {
    match place(alloc, modules, names) {
        Ok(layout) => describe(words, modules, &layout),
        Err(fault) => describe_fault(words, fault),
    }
}

/// What is said of inputs.
pub fn outcome<A: Allocator + Copy>(
    alloc: A,
    words: Global,
    names: Names,
    inputs: &[Vec<u8>],
) -> Result<String, AllocError> {
    match read_modules(alloc, inputs) {
        Ok(modules) => placed(alloc, words, names, &modules),
        Err(fault) => format!(in words; "{fault}"),
    }
}

/// This is said of inputs.
pub fn expect(alloc: Global, names: Names, inputs: &[Vec<u8>], wanted: &str) -> Result<(), Fail> {
    let said = outcome(alloc, alloc, names, inputs)?;
    same(said.as_str(), wanted)
}

/// The inputs of each row of a table give what is wanted of them.
pub fn run(alloc: Global, names: Names, table: &str) -> Result<(), Fail> {
    for row in table.split("\n\n") {
        let row = read_row(alloc, row)?;
        expect(alloc, names, &row.inputs, row.wanted)?;
    }
    Ok(())
}
