//! What is printed of what a record says of the types that came after Intel's.

ghost use Rattle.std.specs.Prelude.{◌≡◌, ◌++◌, OnOk, map};
ghost use Rattle.std.specs.List.{concat};
ghost use Rattle.omf_extended.specs.View.{extended_view, plain_alias};
ghost use Rattle.omf_wide.specs.Communals.{plain_communal};
ghost use Rattle.doslib_show.specs.More as spec;
ghost use Rattle.doslib_show.specs.Rows.{public_base};
ghost use Rattle.doslib_show.specs.inside.Parts.{plain_names};

use crate::data::push_data;
use crate::names::Names;
use crate::parts::{Part, push_parts};
use crate::rows::{Row, push_rows};
use crate::said::{flag, push_end, push_header};
use omf_extended::{
    Alias, Comdat, ComdatAlignment, ComdatAllocation, ComdatSelection, Extended, Patch,
    PatchLocation, SymbolLine,
};
use omf_record::PublicBase;
use omf_wide::Communal;
use std::alloc::{AllocError, Allocator};

impl<'a, A: Allocator + Copy> Row<A> for Communal<'a> {
    ghost text = { λ _ c. spec.communal_row (plain_communal c) };

    fn push(&self, names: &Names<'_, A>, lines: &mut Vec<u8, A>) -> Result<(), AllocError> {
        let parts = [
            Part::Text("      "),
            Part::Name(self.name),
            Part::Text(" type "),
            Part::Number(usize::from(self.type_index)),
            Part::Extent(self.extent),
            Part::Text("\n"),
        ];
        push_parts(names, lines, parts.as_slice())
    }
}

impl<'a, A: Allocator + Copy> Row<A> for Alias<'a> {
    ghost text = { λ _ a. spec.alias_row (plain_alias a) };

    fn push(&self, names: &Names<'_, A>, lines: &mut Vec<u8, A>) -> Result<(), AllocError> {
        let parts = [
            Part::Text("      "),
            Part::Name(self.name),
            Part::Text(" is "),
            Part::Name(self.substitute),
            Part::Text("\n"),
        ];
        push_parts(names, lines, parts.as_slice())
    }
}

impl<A: Allocator + Copy> Row<A> for SymbolLine {
    ghost text = { λ _. spec.symbol_row };

    fn push(&self, names: &Names<'_, A>, lines: &mut Vec<u8, A>) -> Result<(), AllocError> {
        let parts = [
            Part::Text("      "),
            Part::Text("line "),
            Part::Number(usize::from(self.number)),
            Part::Text(" offset "),
            Part::Offset(u64::from(self.offset)),
            Part::Text("\n"),
        ];
        push_parts(names, lines, parts.as_slice())
    }
}

impl<A: Allocator + Copy> Row<A> for Patch {
    ghost text = { λ _. spec.patch_row };

    fn push(&self, names: &Names<'_, A>, lines: &mut Vec<u8, A>) -> Result<(), AllocError> {
        let parts = [
            Part::Text("      "),
            Part::Text("at "),
            Part::Offset(u64::from(self.offset)),
            Part::Text(" add "),
            Part::Offset(u64::from(self.value)),
            Part::Text("\n"),
        ];
        push_parts(names, lines, parts.as_slice())
    }
}

/// The word for what a value is added to.
fn patch_word(location: PatchLocation) -> &'static str
    ensures { result.now ≡ spec.patch_word location }
{
    match location {
        PatchLocation::Byte => " byte",
        PatchLocation::Word => " word",
        PatchLocation::DoubleWord => " dword",
    }
}

/// The word for which COMDATs of one name are taken.
fn selection_word(selection: ComdatSelection) -> &'static str
    ensures { result.now ≡ spec.selection_word selection }
{
    match selection {
        ComdatSelection::NoMatch => " one",
        ComdatSelection::PickAny => " any",
        ComdatSelection::SameSize => " same-size",
        ComdatSelection::ExactMatch => " same",
    }
}

/// The word for at which multiples a COMDAT begins.
fn alignment_word(alignment: ComdatAlignment) -> &'static str
    ensures { result.now ≡ spec.comdat_alignment alignment }
{
    match alignment {
        ComdatAlignment::OfSegment => "",
        ComdatAlignment::Byte => " byte",
        ComdatAlignment::Word => " word",
        ComdatAlignment::Paragraph => " paragraph",
        ComdatAlignment::Page => " page",
        ComdatAlignment::DoubleWord => " dword",
    }
}

/// Appends the base of a COMDAT.
fn push_comdat_base<A: Allocator + Copy>(
    names: &Names<'_, A>,
    lines: &mut Vec<u8, A>,
    base: PublicBase,
) -> Result<(), AllocError>
    ensures { OnOk result (lines.new.items
        ≡ lines.old.items ++ concat (public_base (plain_names names.now) base)) }
{
    match base {
        PublicBase::AtFrame { group, frame } => {
            let parts = [
                Part::Group(group),
                Part::Text(" frame "),
                Part::Offset(u64::from(frame)),
            ];
            push_parts(names, lines, parts.as_slice())
        }
        PublicBase::InSegment { group, segment } => {
            let parts = [
                Part::Group(group),
                Part::Text(" segment "),
                Part::Segment(segment),
            ];
            push_parts(names, lines, parts.as_slice())
        }
    }
}

/// Appends where a COMDAT is put.
fn push_allocation<A: Allocator + Copy>(
    names: &Names<'_, A>,
    lines: &mut Vec<u8, A>,
    allocation: ComdatAllocation,
) -> Result<(), AllocError>
    ensures { OnOk result (lines.new.items
        ≡ lines.old.items ++ concat (spec.allocation_text (plain_names names.now) allocation)) }
{
    match allocation {
        ComdatAllocation::Explicit { base } => push_comdat_base(names, lines, base),
        ComdatAllocation::FarCode => push_parts(names, lines, &[Part::Text(" far code")]),
        ComdatAllocation::FarData => push_parts(names, lines, &[Part::Text(" far data")]),
        ComdatAllocation::Code32 => push_parts(names, lines, &[Part::Text(" code32")]),
        ComdatAllocation::Data32 => push_parts(names, lines, &[Part::Text(" data32")]),
    }
}

/// Appends the name of a COMDAT, its flags, and how it is chosen.
fn push_comdat_words<A: Allocator + Copy>(
    names: &Names<'_, A>,
    lines: &mut Vec<u8, A>,
    comdat: Comdat,
) -> Result<(), AllocError>
    ensures { OnOk result (lines.new.items
        ≡ lines.old.items ++ spec.comdat_words (plain_names names.now) comdat) }
{
    let parts = [
        Part::Text(" "),
        Part::Listed(comdat.name),
        Part::Text(flag(comdat.continuation, " continued")),
        Part::Text(flag(comdat.iterated, " repeated")),
        Part::Text(flag(comdat.local, " local")),
        Part::Text(flag(comdat.in_code, " code")),
        Part::Text(selection_word(comdat.selection)),
    ];
    push_parts(names, lines, parts.as_slice())
}

/// Appends where a COMDAT begins, its type, and of how many bytes its data are.
fn push_comdat_numbers<A: Allocator + Copy>(
    names: &Names<'_, A>,
    lines: &mut Vec<u8, A>,
    comdat: Comdat,
    size: usize,
) -> Result<(), AllocError>
    ensures { OnOk result (lines.new.items ≡ lines.old.items ++ spec.comdat_numbers comdat size) }
{
    let parts = [
        Part::Text(alignment_word(comdat.alignment)),
        Part::Text(" offset "),
        Part::Offset(u64::from(comdat.offset)),
        Part::Text(" type "),
        Part::Number(usize::from(comdat.type_index)),
        Part::Text(" bytes "),
        Part::Number(size),
        Part::Text("\n"),
    ];
    push_parts(names, lines, parts.as_slice())
}

/// Appends what a COMDAT says before its data, of which there are so many bytes.
fn push_comdat_head<A: Allocator + Copy>(
    names: &Names<'_, A>,
    lines: &mut Vec<u8, A>,
    comdat: Comdat,
    size: usize,
) -> Result<(), AllocError>
    ensures { OnOk result (lines.new.items
        ≡ lines.old.items ++ spec.comdat_head (plain_names names.now) comdat size) }
{
    push_comdat_words(names, lines, comdat)?;
    push_allocation(names, lines, comdat.allocation)?;
    push_comdat_numbers(names, lines, comdat, size)
}

/// Appends a COMDAT.
fn push_comdat<A: Allocator + Copy>(
    names: &Names<'_, A>,
    lines: &mut Vec<u8, A>,
    comdat: Comdat,
    bytes: &[u8],
) -> Result<(), AllocError>
    ensures { OnOk result (lines.new.items
        ≡ lines.old.items ++ spec.comdat_text (plain_names names.now) comdat bytes.now) }
{
    push_comdat_head(names, lines, comdat, bytes.len())?;
    push_data(lines, comdat.offset, bytes)
}

/// Appends communal variables, and bytes of which nothing is known.
fn push_communals<A: Allocator + Copy>(
    names: &Names<'_, A>,
    lines: &mut Vec<u8, A>,
    communals: &[Communal<'_>],
    unknown: &[u8],
) -> Result<(), AllocError>
    ensures { OnOk result (lines.new.items
        ≡ lines.old.items ++ spec.communals_text (map plain_communal communals.now) unknown.now) }
{
    push_end(lines)?;
    push_rows(names, lines, communals)?;
    push_data(lines, 0, unknown)
}

/// Appends aliases.
fn push_aliases<A: Allocator + Copy>(
    names: &Names<'_, A>,
    lines: &mut Vec<u8, A>,
    aliases: &[Alias<'_>],
) -> Result<(), AllocError>
    ensures { OnOk result (lines.new.items ≡ lines.old.items ++ spec.aliases_text (map plain_alias aliases.now)) }
{
    push_end(lines)?;
    push_rows(names, lines, aliases)
}

/// Appends the line numbers of a COMDAT.
fn push_symbols<A: Allocator + Copy>(
    names: &Names<'_, A>,
    lines: &mut Vec<u8, A>,
    name: u16,
    continuation: &str,
    symbols: &[SymbolLine],
) -> Result<(), AllocError>
    ensures { OnOk result (lines.new.items ≡ lines.old.items
        ++ spec.symbols_text (plain_names names.now) name continuation.now symbols.now) }
{
    let parts = [
        Part::Text(" "),
        Part::Listed(name),
        Part::Text(continuation),
        Part::Text("\n"),
    ];
    push_parts(names, lines, parts.as_slice())?;
    push_rows(names, lines, symbols)
}

/// Appends what is added to places of a segment.
fn push_patches<A: Allocator + Copy>(
    names: &Names<'_, A>,
    lines: &mut Vec<u8, A>,
    segment: u16,
    location: PatchLocation,
    patches: &[Patch],
) -> Result<(), AllocError>
    ensures { OnOk result (lines.new.items
        ≡ lines.old.items ++ spec.patches_text (plain_names names.now) segment location patches.now) }
{
    let parts = [
        Part::Text(" segment "),
        Part::Segment(segment),
        Part::Text(patch_word(location)),
        Part::Text("\n"),
    ];
    push_parts(names, lines, parts.as_slice())?;
    push_rows(names, lines, patches)
}

/// Appends what is added to places of a COMDAT.
fn push_named_patches<A: Allocator + Copy>(
    names: &Names<'_, A>,
    lines: &mut Vec<u8, A>,
    name: u16,
    location: PatchLocation,
    patches: &[Patch],
) -> Result<(), AllocError>
    ensures { OnOk result (lines.new.items
        ≡ lines.old.items ++ spec.named_patches_text (plain_names names.now) name location patches.now) }
{
    let parts = [
        Part::Text(" "),
        Part::Listed(name),
        Part::Text(patch_word(location)),
        Part::Text("\n"),
    ];
    push_parts(names, lines, parts.as_slice())?;
    push_rows(names, lines, patches)
}

/// Appends repeated data of 32 bits, its blocks as they stand there.
fn push_content<A: Allocator + Copy>(
    names: &Names<'_, A>,
    lines: &mut Vec<u8, A>,
    segment: u16,
    offset: u32,
    content: &[u8],
) -> Result<(), AllocError>
    ensures { OnOk result (lines.new.items
        ≡ lines.old.items ++ spec.content_text (plain_names names.now) segment offset content.now) }
{
    let parts = [
        Part::Text(" segment "),
        Part::Segment(segment),
        Part::Text(" offset "),
        Part::Offset(u64::from(offset)),
        Part::Text(" bytes "),
        Part::Number(content.len()),
        Part::Text("\n"),
    ];
    push_parts(names, lines, parts.as_slice())?;
    push_data(lines, 0, content)
}

/// Appends what a vendor's translator says.
fn push_vendor<A: Allocator + Copy>(
    names: &Names<'_, A>,
    lines: &mut Vec<u8, A>,
    vendor: u16,
    bytes: &[u8],
) -> Result<(), AllocError>
    ensures { OnOk result (lines.new.items ≡ lines.old.items ++ spec.vendor_text vendor bytes.now) }
{
    let parts = [
        Part::Text(" vendor "),
        Part::Offset(u64::from(vendor)),
        Part::Text(" bytes "),
        Part::Number(bytes.len()),
        Part::Text("\n"),
    ];
    push_parts(names, lines, parts.as_slice())?;
    push_data(lines, 0, bytes)
}

/// Appends what a record says.
#[tactic(auto, unfolding(omf_extended::specs::View::extended_view, crate::specs::More::more_text))]
pub(crate) fn push_more<A: Allocator + Copy>(
    names: &Names<'_, A>,
    lines: &mut Vec<u8, A>,
    more: &Extended<'_, A>,
) -> Result<(), AllocError>
    ensures { OnOk result (lines.new.items
        ≡ lines.old.items ++ spec.more_text (plain_names names.now) (extended_view more.now)) }
{
    match more {
        Extended::Comdef {
            local: _,
            communals,
            unknown,
        } => push_communals(names, lines, communals, unknown),
        Extended::Alias { aliases } => push_aliases(names, lines, aliases),
        Extended::Comdat {
            wide: _,
            comdat,
            bytes,
        } => push_comdat(names, lines, *comdat, bytes),
        Extended::Linsym {
            wide: _,
            continuation,
            name,
            lines: symbols,
        } => push_symbols(
            names,
            lines,
            *name,
            flag(*continuation, " continued"),
            symbols,
        ),
        Extended::Bakpat {
            wide: _,
            segment,
            location,
            patches,
        } => push_patches(names, lines, *segment, *location, patches),
        Extended::Nbkpat {
            wide: _,
            location,
            name,
            patches,
        } => push_named_patches(names, lines, *name, *location, patches),
        Extended::Lidata {
            segment,
            offset,
            content,
        } => push_content(names, lines, *segment, *offset, content),
        Extended::Vernum { text } => push_header(names, lines, text),
        Extended::Vendext { vendor, bytes } => push_vendor(names, lines, *vendor, bytes),
    }
}
