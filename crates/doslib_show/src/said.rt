//! What is printed of what a record says, behind the name of its type.

ghost use Rattle.std.specs.Prelude.{◌≡◌, ◌++◌, [], OnOk, map};
ghost use Rattle.omf_library.specs.Names.{texts};
ghost use Rattle.omf_record.specs.View.{block_view, external_view, public_view, view};
ghost use Rattle.omf_wide.specs.View.{said_view};
ghost use Rattle.doslib_show.specs.Rows as rows;
ghost use Rattle.doslib_show.specs.Said as spec;
ghost use Rattle.doslib_show.specs.inside.Meaning.{meaning_view};
ghost use Rattle.doslib_show.specs.inside.Parts.{plain_names};

use crate::data::push_data;
use crate::meaning::Meaning;
use crate::more::push_more;
use crate::names::Names;
use crate::parts::{Part, push_parts, push_piece};
use crate::rows::push_rows;
use crate::types::{is_text, push_class_title};
use omf_record::{Alignment, Block, Combination, External, Line, Public, PublicBase, Record};
use omf_text::{Piece, push_pieces};
use omf_types::CommentClass;
use omf_wide::{ListedExternal, Said, WideReference, WideSegment, WideSubrecord};
use std::alloc::{AllocError, Allocator};

/// Appends the end of a line.
pub(crate) fn push_end<A: Allocator + Copy>(lines: &mut Vec<u8, A>) -> Result<(), AllocError>
    ensures { OnOk result (lines.new.items ≡ lines.old.items ++ rows.rest []) }
{
    push_piece(lines, Piece::Text("\n"))
}

/// Appends a name.
pub(crate) fn push_header<A: Allocator + Copy>(
    names: &Names<'_, A>,
    lines: &mut Vec<u8, A>,
    name: &[u8],
) -> Result<(), AllocError>
    ensures { OnOk result (lines.new.items ≡ lines.old.items ++ rows.name_rest name.now) }
{
    let parts = [Part::Text(" "), Part::Name(name), Part::Text("\n")];
    push_parts(names, lines, parts.as_slice())
}

/// Appends the bytes of a comment, which are a text or aren't.
fn push_comment_bytes<A: Allocator + Copy>(
    names: &Names<'_, A>,
    lines: &mut Vec<u8, A>,
    text: bool,
    bytes: &[u8],
) -> Result<(), AllocError>
    ensures { OnOk result (lines.new.items ≡ lines.old.items ++ spec.comment_bytes text bytes.now) }
{
    if text {
        return push_header(names, lines, bytes);
    }
    push_unknown(names, lines, bytes)
}

/// Appends a comment.
fn push_comment<A: Allocator + Copy>(
    names: &Names<'_, A>,
    lines: &mut Vec<u8, A>,
    head: (u8, u8),
    known: Option<CommentClass>,
    bytes: &[u8],
) -> Result<(), AllocError>
    ensures { OnOk result (lines.new.items
        ≡ lines.old.items ++ spec.comment_text head.0 head.1 known bytes.now) }
{
    let pieces = [
        Piece::Text(" type "),
        Piece::Byte(head.0),
        Piece::Text(" class "),
        Piece::Byte(head.1),
    ];
    push_pieces(lines, pieces.as_slice())?;
    push_class_title(lines, known)?;
    push_comment_bytes(names, lines, is_text(known), bytes)
}

/// Appends the base of public names.
fn push_base<A: Allocator + Copy>(
    names: &Names<'_, A>,
    lines: &mut Vec<u8, A>,
    base: PublicBase,
) -> Result<(), AllocError>
    ensures { OnOk result (lines.new.items
        ≡ lines.old.items ++ rows.rest (rows.public_base (plain_names names.now) base)) }
{
    match base {
        PublicBase::AtFrame { group, frame } => {
            let parts = [
                Part::Group(group),
                Part::Text(" frame "),
                Part::Offset(u64::from(frame)),
                Part::Text("\n"),
            ];
            push_parts(names, lines, parts.as_slice())
        }
        PublicBase::InSegment { group, segment } => push_segment_base(names, lines, group, segment),
    }
}

/// Appends a group, where there is one, and a segment.
fn push_segment_base<A: Allocator + Copy>(
    names: &Names<'_, A>,
    lines: &mut Vec<u8, A>,
    group: u16,
    segment: u16,
) -> Result<(), AllocError>
    ensures { OnOk result (lines.new.items
        ≡ lines.old.items ++ rows.rest (rows.segment_base (plain_names names.now) group segment)) }
{
    let parts = [
        Part::Group(group),
        Part::Text(" segment "),
        Part::Segment(segment),
        Part::Text("\n"),
    ];
    push_parts(names, lines, parts.as_slice())
}

/// Appends public names.
fn push_publics<A: Allocator + Copy>(
    names: &Names<'_, A>,
    lines: &mut Vec<u8, A>,
    base: PublicBase,
    publics: &[Public<'_>],
) -> Result<(), AllocError>
    ensures { OnOk result (lines.new.items
        ≡ lines.old.items ++ spec.publics_text (plain_names names.now) base (map public_view publics.now)) }
{
    push_base(names, lines, base)?;
    push_rows(names, lines, publics)
}

/// Appends line numbers.
fn push_lines<A: Allocator + Copy>(
    names: &Names<'_, A>,
    lines: &mut Vec<u8, A>,
    group: u16,
    segment: u16,
    numbers: &[Line],
) -> Result<(), AllocError>
    ensures { OnOk result (lines.new.items
        ≡ lines.old.items ++ spec.lines_text (plain_names names.now) group segment numbers.now) }
{
    push_segment_base(names, lines, group, segment)?;
    push_rows(names, lines, numbers)
}

/// Appends names.
fn push_names<A: Allocator + Copy>(
    names: &Names<'_, A>,
    lines: &mut Vec<u8, A>,
    new: &[&[u8]],
) -> Result<(), AllocError>
    ensures { OnOk result (lines.new.items ≡ lines.old.items ++ spec.names_text (texts new.now)) }
{
    push_end(lines)?;
    push_rows(names, lines, new)
}

/// Appends externals.
fn push_externals<A: Allocator + Copy>(
    names: &Names<'_, A>,
    lines: &mut Vec<u8, A>,
    externals: &[External<'_>],
) -> Result<(), AllocError>
    ensures { OnOk result (lines.new.items
        ≡ lines.old.items ++ spec.externals_text (map external_view externals.now)) }
{
    push_end(lines)?;
    push_rows(names, lines, externals)
}

/// Appends a group.
fn push_group<A: Allocator + Copy>(
    names: &Names<'_, A>,
    lines: &mut Vec<u8, A>,
    name: u16,
    segments: &[u16],
) -> Result<(), AllocError>
    ensures { OnOk result (lines.new.items
        ≡ lines.old.items ++ spec.group_text (plain_names names.now) name segments.now) }
{
    let parts = [Part::Text(" "), Part::Listed(name), Part::Text("\n")];
    push_parts(names, lines, parts.as_slice())?;
    push_rows(names, lines, segments)
}

/// Appends data.
fn push_enumerated<A: Allocator + Copy>(
    names: &Names<'_, A>,
    lines: &mut Vec<u8, A>,
    segment: u16,
    offset: u16,
    bytes: &[u8],
) -> Result<(), AllocError>
    ensures { OnOk result (lines.new.items
        ≡ lines.old.items ++ spec.data_text (plain_names names.now) segment offset bytes.now) }
{
    let parts = [
        Part::Text(" segment "),
        Part::Segment(segment),
        Part::Text(" offset "),
        Part::Offset(u64::from(offset)),
        Part::Text(" bytes "),
        Part::Number(bytes.len()),
        Part::Text("\n"),
    ];
    push_parts(names, lines, parts.as_slice())?;
    push_data(lines, u32::from(offset), bytes)
}

/// Appends repeated data.
fn push_repeated<A: Allocator + Copy>(
    names: &Names<'_, A>,
    lines: &mut Vec<u8, A>,
    segment: u16,
    offset: u16,
    blocks: &[Block<'_, A>],
) -> Result<(), AllocError>
    ensures { OnOk result (lines.new.items
        ≡ lines.old.items ++ spec.repeated_text (plain_names names.now) segment offset (map block_view blocks.now)) }
{
    let parts = [
        Part::Text(" segment "),
        Part::Segment(segment),
        Part::Text(" offset "),
        Part::Offset(u64::from(offset)),
        Part::Text("\n"),
    ];
    push_parts(names, lines, parts.as_slice())?;
    push_rows(names, lines, blocks)
}

/// Appends what one of the fourteen says.
#[tactic(auto, unfolding(omf_record::specs::View::view, crate::specs::Said::record_text))]
fn push_record<A: Allocator + Copy>(
    names: &Names<'_, A>,
    lines: &mut Vec<u8, A>,
    record: &Record<'_, A>,
) -> Result<(), AllocError>
    ensures { OnOk result (lines.new.items
        ≡ lines.old.items ++ spec.record_text (plain_names names.now) (view «record».now)) }
{
    match record {
        Record::Theadr { name } => push_header(names, lines, name),
        Record::Extdef {
            local: _,
            names: externals,
        } => push_externals(names, lines, externals),
        Record::Pubdef {
            local: _,
            base,
            publics,
        } => push_publics(names, lines, *base, publics),
        Record::Linnum {
            group,
            segment,
            lines: numbers,
        } => push_lines(names, lines, *group, *segment, numbers),
        Record::Lnames { names: new } => push_names(names, lines, new),
        Record::Grpdef { name, segments } => push_group(names, lines, *name, segments),
        Record::Ledata {
            segment,
            offset,
            bytes,
        } => push_enumerated(names, lines, *segment, *offset, bytes),
        Record::Lidata {
            segment,
            offset,
            blocks,
        } => push_repeated(names, lines, *segment, *offset, blocks),
        Record::Coment { .. }
        | Record::Modend { .. }
        | Record::Segdef { .. }
        | Record::Fixupp { .. } => push_end(lines),
    }
}

/// The word where it stands there.
pub(crate) fn flag(set: bool, word: &'static str) -> &'static str
    ensures { result.now ≡ rows.flag set word.now }
{
    if set { word } else { "" }
}

/// The word for how a segment is combined.
fn combination_word(combination: Combination) -> &'static str
    ensures { result.now ≡ rows.combination combination }
{
    match combination {
        Combination::Private => "private",
        Combination::Public2 => "public",
        Combination::Public4 => "public4",
        Combination::Stack => "stack",
        Combination::Common => "common",
        Combination::Public7 => "public7",
    }
}

/// Appends a segment.
fn push_segment<A: Allocator + Copy>(
    names: &Names<'_, A>,
    lines: &mut Vec<u8, A>,
    segment: WideSegment,
) -> Result<(), AllocError>
    ensures { OnOk result (lines.new.items
        ≡ lines.old.items ++ spec.segment_text (plain_names names.now) segment) }
{
    let parts = [
        Part::Text(" "),
        Part::Listed(segment.name),
        Part::Text(" class "),
        Part::Listed(segment.class),
        Part::Text(" overlay "),
        Part::Listed(segment.overlay),
        Part::Text(" "),
        Part::Alignment(segment.alignment),
        Part::Text(" "),
        Part::Text(combination_word(segment.combination)),
        Part::Text(" length "),
        Part::Number(segment.length as usize),
        Part::Text(flag(segment.big, " big")),
        Part::Text(flag(segment.use32, " use32")),
        Part::Text("\n"),
    ];
    push_parts(names, lines, parts.as_slice())
}

/// Appends the end of a module.
fn push_module_end<A: Allocator + Copy>(
    names: &Names<'_, A>,
    lines: &mut Vec<u8, A>,
    main: bool,
    start: Option<WideReference>,
) -> Result<(), AllocError>
    ensures { OnOk result (lines.new.items
        ≡ lines.old.items ++ spec.end_text (plain_names names.now) main start) }
{
    let main = Part::Text(flag(main, " main"));
    match start {
        None => push_parts(names, lines, &[main, Part::Text("\n")]),
        Some(start) => {
            let parts = [
                main,
                Part::Text(" start "),
                Part::Text("frame "),
                Part::Frame(start.frame),
                Part::Text(" target "),
                Part::Target(start.target),
                Part::Displacement(start.displacement),
                Part::Text("\n"),
            ];
            push_parts(names, lines, parts.as_slice())
        }
    }
}

/// Appends threads and fix-ups.
fn push_subrecords<A: Allocator + Copy>(
    names: &Names<'_, A>,
    lines: &mut Vec<u8, A>,
    subrecords: &[WideSubrecord],
) -> Result<(), AllocError>
    ensures { OnOk result (lines.new.items
        ≡ lines.old.items ++ spec.subrecords_text (plain_names names.now) subrecords.now) }
{
    push_end(lines)?;
    push_rows(names, lines, subrecords)
}

/// Appends externals that have names of the list.
fn push_listed<A: Allocator + Copy>(
    names: &Names<'_, A>,
    lines: &mut Vec<u8, A>,
    externals: &[ListedExternal],
) -> Result<(), AllocError>
    ensures { OnOk result (lines.new.items
        ≡ lines.old.items ++ spec.listed_text (plain_names names.now) externals.now) }
{
    push_end(lines)?;
    push_rows(names, lines, externals)
}

/// Appends what a record says.
#[tactic(auto, unfolding(omf_wide::specs::View::said_view, crate::specs::Said::said_text))]
fn push_said<A: Allocator + Copy>(
    names: &Names<'_, A>,
    lines: &mut Vec<u8, A>,
    said: &Said<'_, A>,
) -> Result<(), AllocError>
    ensures { OnOk result (lines.new.items
        ≡ lines.old.items ++ spec.said_text (plain_names names.now) (said_view said.now)) }
{
    match said {
        Said::Plain(record) => push_record(names, lines, record),
        Said::Fixupp {
            wide: _,
            subrecords,
        } => push_subrecords(names, lines, subrecords),
        Said::Modend {
            wide: _,
            main,
            start,
        } => push_module_end(names, lines, *main, *start),
        Said::Segdef { wide: _, segment } => push_segment(names, lines, *segment),
        Said::Cextdef { names: externals } => push_listed(names, lines, externals),
    }
}

/// Appends a line that ends in how many bytes a body has, and its bytes.
fn push_unknown<A: Allocator + Copy>(
    names: &Names<'_, A>,
    lines: &mut Vec<u8, A>,
    body: &[u8],
) -> Result<(), AllocError>
    ensures { OnOk result (lines.new.items ≡ lines.old.items ++ spec.unknown_text body.now) }
{
    let parts = [
        Part::Text(" bytes "),
        Part::Number(body.len()),
        Part::Text("\n"),
    ];
    push_parts(names, lines, parts.as_slice())?;
    push_data(lines, 0, body)
}

/// Appends from which byte on a body is wrong, and its bytes.
fn push_wrong<A: Allocator + Copy>(
    names: &Names<'_, A>,
    lines: &mut Vec<u8, A>,
    body: &[u8],
    at: usize,
) -> Result<(), AllocError>
    ensures { OnOk result (lines.new.items ≡ lines.old.items ++ spec.wrong_text body.now at) }
{
    let parts = [
        Part::Text(" wrong at byte "),
        Part::Number(at),
        Part::Text(" of "),
        Part::Number(body.len()),
        Part::Text("\n"),
    ];
    push_parts(names, lines, parts.as_slice())?;
    push_data(lines, 0, body)
}

/// Appends what a body means.
pub(crate) fn push_meaning<A: Allocator + Copy>(
    names: &Names<'_, A>,
    lines: &mut Vec<u8, A>,
    body: &[u8],
    meaning: &Meaning<'_, A>,
) -> Result<(), AllocError>
    ensures { OnOk result (lines.new.items
        ≡ lines.old.items ++ spec.meaning_text (plain_names names.now) body.now (meaning_view meaning.now)) }
{
    match meaning {
        Meaning::Says(said) => push_said(names, lines, said),
        Meaning::SaysMore(more) => push_more(names, lines, more),
        Meaning::Comments {
            kind,
            class,
            known,
            bytes,
        } => push_comment(names, lines, (*kind, *class), *known, bytes),
        Meaning::Unknown => push_unknown(names, lines, body),
        Meaning::Wrong { at } => push_wrong(names, lines, body, *at),
    }
}
