//! The parts of what a record says, each in a row of its own.

ghost use Rattle.std.specs.Prelude.{◌≡◌, ◌++◌, ℕ, List, OnOk, map};
ghost use Rattle.std.specs.List.{flat_map};
ghost use Rattle.omf_record.specs.Record.{blocks_of};
ghost use Rattle.omf_record.specs.View.{block_view, external_view, public_view};
ghost use Rattle.doslib_show.specs.Names.{Names as PlainNames};
ghost use Rattle.doslib_show.specs.Rows as spec;
ghost use Rattle.doslib_show.specs.inside.Parts.{plain_names};

use crate::data::push_spaced;
use crate::names::Names;
use crate::parts::{Part, push_parts, push_piece};
use omf_record::{Block, External, Line, Location, Public};
use omf_text::{Piece, push_pieces};
use omf_wide::{ListedExternal, WideFixup, WideLocation, WideSubrecord};
use std::alloc::{AllocError, Allocator};

/// What may stand in rows many times.
pub(crate) trait Row<A: Allocator + Copy> {
    // Its row, by the names before it.
    ghost text: { PlainNames → Self → List ℕ };

    /// Appends it.
    fn push(&self, names: &Names<'_, A>, lines: &mut Vec<u8, A>) -> Result<(), AllocError>
        ensures { OnOk result (lines.new.items ≡ lines.old.items ++ text (plain_names names.now) self.now) };
}

/// Appends a row for each item.
pub(crate) fn push_rows<T: Row<A>, A: Allocator + Copy>(
    names: &Names<'_, A>,
    lines: &mut Vec<u8, A>,
    items: &[T],
) -> Result<(), AllocError>
    ensures { OnOk result (lines.new.items ≡ lines.old.items ++ flat_map (T.text (plain_names names.now)) items.now) }
{
    for item in items {
        item.push(names, lines)?;
    }
    Ok(())
}

/// A name of LNAMES.
impl<'a, A: Allocator + Copy> Row<A> for &'a [u8] {
    ghost text = { λ _ name. spec.name_row name.now };

    fn push(&self, names: &Names<'_, A>, lines: &mut Vec<u8, A>) -> Result<(), AllocError> {
        let parts = [Part::Text("      "), Part::Name(self), Part::Text("\n")];
        push_parts(names, lines, parts.as_slice())
    }
}

impl<'a, A: Allocator + Copy> Row<A> for External<'a> {
    ghost text = { λ _ e. spec.external_row (external_view e) };

    fn push(&self, names: &Names<'_, A>, lines: &mut Vec<u8, A>) -> Result<(), AllocError> {
        let parts = [
            Part::Text("      "),
            Part::Name(self.name),
            Part::Text(" type "),
            Part::Number(usize::from(self.type_index)),
            Part::Text("\n"),
        ];
        push_parts(names, lines, parts.as_slice())
    }
}

impl<A: Allocator + Copy> Row<A> for ListedExternal {
    ghost text = { spec.listed_row };

    fn push(&self, names: &Names<'_, A>, lines: &mut Vec<u8, A>) -> Result<(), AllocError> {
        let parts = [
            Part::Text("      "),
            Part::Listed(self.name),
            Part::Text(" type "),
            Part::Number(usize::from(self.type_index)),
            Part::Text("\n"),
        ];
        push_parts(names, lines, parts.as_slice())
    }
}

impl<'a, A: Allocator + Copy> Row<A> for Public<'a> {
    ghost text = { λ _ p. spec.public_row (public_view p) };

    fn push(&self, names: &Names<'_, A>, lines: &mut Vec<u8, A>) -> Result<(), AllocError> {
        let parts = [
            Part::Text("      "),
            Part::Name(self.name),
            Part::Text(" offset "),
            Part::Offset(u64::from(self.offset)),
            Part::Text(" type "),
            Part::Number(usize::from(self.type_index)),
            Part::Text("\n"),
        ];
        push_parts(names, lines, parts.as_slice())
    }
}

/// A segment of a group.
impl<A: Allocator + Copy> Row<A> for u16 {
    ghost text = { spec.component_row };

    fn push(&self, names: &Names<'_, A>, lines: &mut Vec<u8, A>) -> Result<(), AllocError> {
        let parts = [
            Part::Text("      "),
            Part::Text("segment "),
            Part::Segment(*self),
            Part::Text("\n"),
        ];
        push_parts(names, lines, parts.as_slice())
    }
}

impl<A: Allocator + Copy> Row<A> for Line {
    ghost text = { λ _. spec.line_row };

    fn push(&self, names: &Names<'_, A>, lines: &mut Vec<u8, A>) -> Result<(), AllocError> {
        let parts = [
            Part::Text("      "),
            Part::Text("line "),
            Part::Number(usize::from(self.number)),
            Part::Text(" offset "),
            Part::Offset(u64::from(self.offset)),
            Part::Text("\n"),
        ];
        push_parts(names, lines, parts.as_slice())
    }
}

/// The word for what a fix-up fixes.
fn location_word(location: WideLocation) -> &'static str
    ensures { result.now ≡ spec.location_word location }
{
    match location {
        WideLocation::Of16Bits(Location::LowByte) => "byte",
        WideLocation::Of16Bits(Location::Offset) => "offset16",
        WideLocation::Of16Bits(Location::Base) => "base",
        WideLocation::Of16Bits(Location::Pointer) => "pointer",
        WideLocation::Of16Bits(Location::LoaderOffset) => "loader16",
        WideLocation::Offset32 => "offset32",
        WideLocation::LoaderOffset32 => "loader32",
    }
}

/// The word for what a fix-up counts from.
fn mode_word(self_relative: bool) -> &'static str
    ensures { result.now ≡ spec.mode self_relative }
{
    if self_relative {
        "self-relative"
    } else {
        "segment-relative"
    }
}

/// Appends the row of a fix-up.
fn push_fixup<A: Allocator + Copy>(
    names: &Names<'_, A>,
    lines: &mut Vec<u8, A>,
    fixup: WideFixup,
) -> Result<(), AllocError>
    ensures { OnOk result (lines.new.items
        ≡ lines.old.items ++ spec.subrecord_row (plain_names names.now) (WideSubrecord.Fixup fixup)) }
{
    let parts = [
        Part::Text("      "),
        Part::Text("at "),
        Part::Location(fixup.offset),
        Part::Text(" "),
        Part::Text(mode_word(fixup.self_relative)),
        Part::Text(" "),
        Part::Text(location_word(fixup.location)),
        Part::Text(" "),
        Part::Text("frame "),
        Part::Frame(fixup.reference.frame),
        Part::Text(" target "),
        Part::Target(fixup.reference.target),
        Part::Displacement(fixup.reference.displacement),
        Part::Text("\n"),
    ];
    push_parts(names, lines, parts.as_slice())
}

impl<A: Allocator + Copy> Row<A> for WideSubrecord {
    ghost text = { spec.subrecord_row };

    fn push(&self, names: &Names<'_, A>, lines: &mut Vec<u8, A>) -> Result<(), AllocError> {
        match *self {
            WideSubrecord::SetFrame(number, method) => {
                let parts = [
                    Part::Text("      "),
                    Part::Text("frame "),
                    Part::Thread(number),
                    Part::Text(" "),
                    Part::FrameMethod(method),
                    Part::Text("\n"),
                ];
                push_parts(names, lines, parts.as_slice())
            }
            WideSubrecord::SetTarget(number, method) => {
                let parts = [
                    Part::Text("      "),
                    Part::Text("target "),
                    Part::Thread(number),
                    Part::Text(" "),
                    Part::TargetMethod(method),
                    Part::Text("\n"),
                ];
                push_parts(names, lines, parts.as_slice())
            }
            WideSubrecord::Fixup(fixup) => push_fixup(names, lines, fixup),
        }
    }
}

/// Appends how often a block is repeated, and a word.
fn push_copies<A: Allocator + Copy>(
    lines: &mut Vec<u8, A>,
    repeat: u16,
    word: &str,
) -> Result<(), AllocError>
    ensures { OnOk result (lines.new.items ≡ lines.old.items ++ spec.copies repeat word.now) }
{
    let pieces = [Piece::Text(" "), Piece::Index(repeat), Piece::Text(word)];
    push_pieces(lines, pieces.as_slice())
}

/// Appends a block of repeated data.
#[cycle(push_block)]
fn push_block<A: Allocator + Copy>(
    lines: &mut Vec<u8, A>,
    block: &Block<'_, A>,
) -> Result<(), AllocError>
    ensures { OnOk result (lines.new.items ≡ lines.old.items ++ spec.block_text (block_view block.now)) }
{
    match block {
        Block::Content { repeat, bytes } => {
            push_copies(lines, *repeat, " x")?;
            push_spaced(lines, bytes)
        }
        Block::Nested { repeat, blocks } => {
            push_copies(lines, *repeat, " x (")?;
            push_blocks(lines, blocks)?;
            push_piece(lines, Piece::Text(" )"))
        }
    }
}

/// Appends blocks of repeated data.
#[cycle(push_block)]
fn push_blocks<A: Allocator + Copy>(
    lines: &mut Vec<u8, A>,
    blocks: &[Block<'_, A>],
) -> Result<(), AllocError>
    ensures { OnOk result (lines.new.items
        ≡ lines.old.items ++ spec.blocks_text (blocks_of (map block_view blocks.now))) }
{
    for block in blocks {
        push_block(lines, block)?;
    }
    Ok(())
}

impl<'a, A: Allocator + Copy> Row<A> for Block<'a, A> {
    ghost text = { λ _ block. spec.block_row (block_view block) };

    fn push(&self, _names: &Names<'_, A>, lines: &mut Vec<u8, A>) -> Result<(), AllocError> {
        push_piece(lines, Piece::Text("     "))?;
        push_block(lines, self)?;
        push_piece(lines, Piece::Text("\n"))
    }
}
