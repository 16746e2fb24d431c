//! The records of the order module.

ghost use Rattle.std.specs.Prelude.{◌≡◌, ◌++◌, ◌<◌, ◌≤◌, [], ◌∷◌, IfOk, IfSome, OnOk, length, map};
ghost use Rattle.std.specs.List.{AllByRecursion};
ghost use Rattle.std.specs.Option.{option_to_list};
ghost use Rattle.omf_record.specs.Record.{Lnames};
ghost use Rattle.omf_record.specs.View.{view, public_view};
ghost use Rattle.omf_order.specs.Records as records;
ghost use Rattle.omf_write.specs.inside.Fits.{IsName};
ghost use Rattle.omf_order.specs.inside.Fits.{Fits, FitsMark, IsShortPart};
ghost use Rattle.omf_order.specs.inside.Held.{mark_view, names_view, part_view, parts_view, plan_view};

use crate::parts::Part;
use crate::planning::{Mark, Plan};
use omf_module::Kind;
use omf_record::{Alignment, Combination, Public, PublicBase, Record, SegmentDefinition};
use omf_write::{put_end, put_header, put_names, put_record, segment_of_length};
use std::alloc::{AllocError, Allocator};

/// What stands in front of `_TEXT`.
const NULL_BYTES: [u8; 16] = [0; 16];

/// How a SEGDEF says an alignment.
fn alignment_of(bytes: u16) -> Alignment
    ensures { result ≡ records.alignment_of bytes }
{
    match bytes {
        1 => Alignment::Byte,
        2 => Alignment::Word,
        4 => Alignment::DoubleWord,
        16 => Alignment::Paragraph,
        _ => Alignment::Page,
    }
}

/// How a SEGDEF says a kind.
fn combination_of(kind: Kind) -> Combination
    ensures { result ≡ records.combination_of kind }
{
    match kind {
        Kind::Private => Combination::Private,
        Kind::Public => Combination::Public2,
        Kind::Stack => Combination::Stack,
        Kind::Common => Combination::Common,
    }
}

/// Whether a part has null bytes, where these are asked for.
fn has_nulls(null_bytes: bool, part: &Part<'_>) -> bool
    ensures { result ≡ records.has_nulls null_bytes (part_view part.now) }
{
    null_bytes && matches!(part.kind, Kind::Public) && part.name == b"_TEXT".as_slice()
}

/// The length of a part that has null bytes or not.
fn length_of(has_nulls: bool) -> u32
    ensures { result ≡ records.length_of has_nulls }
{
    if has_nulls {
        NULL_BYTES.len() as u32
    } else {
        0
    }
}

/// The definition of the part at a place, which counts from 0, with null bytes or without.
fn definition(place: usize, has_nulls: bool, part: &Part<'_>) -> SegmentDefinition
    requires { place < 16383 }
    ensures { result ≡ records.definition place has_nulls (part_view part.now) }
{
    segment_of_length(
        alignment_of(part.alignment),
        combination_of(part.kind),
        length_of(has_nulls),
        2 * place as u16 + 2,
        2 * place as u16 + 3,
    )
}

/// Appends LNAMES with one name.
#[tactic(auto, unfolding(omf_record::specs::View::view))]
fn put_name<A: Allocator + Copy>(
    alloc: A,
    name: &[u8],
    out: &mut Vec<u8, A>,
) -> Result<(), AllocError>
    requires { length name.now ≤ 255 }
    ensures { OnOk result (out.new.items ≡ out.old.items ++ records.record_bytes (Lnames (name.now ∷ []))) }
{
    let mut names = Vec::new(alloc);
    names.push(name)?;
    put_record(alloc, 0x96, &Record::Lnames { names }, out)
}

/// Appends SEGDEF of the part at a place, with null bytes or without.
#[tactic(auto, unfolding(omf_record::specs::View::view))]
fn put_segment<A: Allocator + Copy>(
    alloc: A,
    place: usize,
    has_nulls: bool,
    part: &Part<'_>,
    out: &mut Vec<u8, A>,
) -> Result<(), AllocError>
    requires { place < 16383 }
    ensures { OnOk result (out.new.items ≡
        out.old.items ++ records.record_bytes (records.segment_record place has_nulls (part_view part.now))) }
{
    let segment = definition(place, has_nulls, part);
    put_record(alloc, 0x98, &Record::Segdef { segment }, out)
}

/// Appends LEDATA of the null bytes of the part at a place.
#[tactic(auto, unfolding(omf_record::specs::View::view))]
fn put_null_bytes<A: Allocator + Copy>(
    alloc: A,
    place: usize,
    out: &mut Vec<u8, A>,
) -> Result<(), AllocError>
    requires { place < 16383 }
    ensures { OnOk result
        (out.new.items ≡ out.old.items ++ records.record_bytes (records.null_record place)) }
{
    let data = Record::Ledata {
        segment: segment_index(place),
        offset: 0,
        bytes: &NULL_BYTES,
    };
    put_record(alloc, 0xA0, &data, out)
}

/// Appends the null bytes of the part at a place, if it has any.
fn put_nulls<A: Allocator + Copy>(
    alloc: A,
    place: usize,
    has_nulls: bool,
    out: &mut Vec<u8, A>,
) -> Result<(), AllocError>
    requires { place < 16383 }
    ensures { OnOk result
        (out.new.items ≡ out.old.items ++ records.records_bytes (records.null_records place has_nulls)) }
{
    if has_nulls {
        put_null_bytes(alloc, place, out)?;
    }
    Ok(())
}

/// Appends the names, the SEGDEF and the null bytes of the part at a place.
fn put_part<A: Allocator + Copy>(
    alloc: A,
    place: usize,
    null_bytes: bool,
    part: &Part<'_>,
    out: &mut Vec<u8, A>,
) -> Result<(), AllocError>
    requires place { place < 16383 }
    requires short { IsShortPart (part_view part.now) }
    ensures { OnOk result (out.new.items ≡
        out.old.items ++ records.records_bytes (records.records_of null_bytes place (part_view part.now))) }
{
    let has_nulls = has_nulls(null_bytes, part);
    put_names(alloc, part.name, part.class, out)?;
    put_segment(alloc, place, has_nulls, part, out)?;
    put_nulls(alloc, place, has_nulls, out)
}

/// Appends the records of each part.
fn put_parts<A: Allocator + Copy>(
    alloc: A,
    null_bytes: bool,
    parts: &[Part<'_>],
    out: &mut Vec<u8, A>,
) -> Result<(), AllocError>
    requires count { length parts.now ≤ 16383 }
    requires short { AllByRecursion IsShortPart (parts_view parts.now) }
    ensures { OnOk result (out.new.items ≡
        out.old.items ++ records.records_bytes (records.part_records null_bytes 0 (parts_view parts.now))) }
{
    for (place, part) in parts.iter().enumerate() {
        put_part(alloc, place, null_bytes, part, out)?;
    }
    Ok(())
}

/// The segment indexes of the parts of the marks.
fn mark_segments<A: Allocator + Copy>(
    alloc: A,
    data_end: Option<usize>,
    bss_end: Option<usize>,
) -> Result<Vec<u16, A>, AllocError>
    requires data_end { IfSome data_end (λ place. place < 16383) }
    requires bss_end { IfSome bss_end (λ place. place < 16383) }
    ensures { IfOk result (λ v. v.items ≡
        map records.segment_index (option_to_list data_end ++ option_to_list bss_end)) }
{
    let mut segments = Vec::new(alloc);
    if let Some(place) = data_end {
        segments.push(segment_index(place))?;
    }
    if let Some(place) = bss_end {
        segments.push(segment_index(place))?;
    }
    Ok(segments)
}

/// Appends the GRPDEF of DGROUP with these segments, if there are any.
#[tactic(auto, unfolding(omf_record::specs::View::view))]
fn put_group<A: Allocator + Copy>(
    alloc: A,
    segments: Vec<u16, A>,
    out: &mut Vec<u8, A>,
) -> Result<(), AllocError>
    requires few { length segments.items ≤ 2 }
    requires small { AllByRecursion (λ n. n ≤ 16383) segments.items }
    ensures { OnOk result
        (out.new.items ≡ out.old.items ++ records.records_bytes (records.group_records segments.items)) }
{
    if segments.is_empty() {
        return Ok(());
    }
    put_record(alloc, 0x9A, &Record::Grpdef { name: 1, segments }, out)
}

/// Public names at the begin of a segment.
fn publics_of<'a, A: Allocator + Copy>(
    alloc: A,
    names: &[&'a [u8]],
) -> Result<Vec<Public<'a>, A>, AllocError>
    ensures { IfOk result (λ v. map public_view v.items ≡ map records.public_of (names_view names.now)) }
{
    let mut publics = Vec::new(alloc);
    for name in names {
        publics.push(Public {
            name,
            offset: 0,
            type_index: 0,
        })?;
    }
    Ok(publics)
}

/// The segment index of the part at a place.
fn segment_index(place: usize) -> u16
    requires { place < 16383 }
    ensures { result ≡ records.segment_index place }
{
    place as u16 + 1
}

/// Appends the PUBDEF of names at the begin of the part at a place.
#[tactic(auto, unfolding(omf_record::specs::View::view))]
fn put_publics<A: Allocator + Copy>(
    alloc: A,
    place: usize,
    names: &[&[u8]],
    out: &mut Vec<u8, A>,
) -> Result<(), AllocError>
    requires place { place < 16383 }
    requires few { length names.now ≤ 2 }
    requires names { AllByRecursion IsName (names_view names.now) }
    ensures { OnOk result (out.new.items ≡
        out.old.items ++ records.record_bytes (records.mark_record (names_view names.now) place)) }
{
    let base = PublicBase::InSegment {
        group: 1,
        segment: segment_index(place),
    };
    let publics = publics_of(alloc, names)?;
    put_record(
        alloc,
        0x90,
        &Record::Pubdef {
            local: false,
            base,
            publics,
        },
        out,
    )
}

/// Appends the PUBDEF of a mark, if it has a part.
fn put_mark<A: Allocator + Copy>(
    alloc: A,
    mark: &Mark<'_, A>,
    out: &mut Vec<u8, A>,
) -> Result<(), AllocError>
    requires { FitsMark 16383 (mark_view mark.now) }
    ensures { OnOk result (out.new.items ≡ out.old.items
        ++ records.records_bytes (records.mark_records (mark_view mark.now).names (mark_view mark.now).part)) }
{
    match mark.part {
        None => Ok(()),
        Some(place) => put_publics(alloc, place, &mark.names, out),
    }
}

/// Appends the records behind those of the parts.
fn put_last<A: Allocator + Copy>(
    alloc: A,
    plan: &Plan<'_, A>,
    out: &mut Vec<u8, A>,
) -> Result<(), AllocError>
    requires { Fits (plan_view plan.now) }
    ensures { OnOk result
        (out.new.items ≡ out.old.items ++ records.records_bytes (records.last_records (plan_view plan.now))) }
{
    let segments = mark_segments(alloc, plan.data_end.part, plan.bss_end.part)?;
    put_group(alloc, segments, out)?;
    put_mark(alloc, &plan.data_end, out)?;
    put_mark(alloc, &plan.bss_end, out)?;
    put_end(alloc, out)
}

/// Appends the records of a plan.
pub(crate) fn put_module<A: Allocator + Copy>(
    alloc: A,
    plan: &Plan<'_, A>,
    out: &mut Vec<u8, A>,
) -> Result<(), AllocError>
    requires { Fits (plan_view plan.now) }
    ensures { OnOk result (out.new.items ≡ out.old.items ++ records.module_bytes (plan_view plan.now)) }
{
    put_header(alloc, b"doslink", out)?;
    put_name(alloc, b"DGROUP", out)?;
    put_parts(alloc, plan.null_bytes, &plan.parts, out)?;
    put_last(alloc, plan, out)
}
