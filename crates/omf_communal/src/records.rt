//! The records of variables, and those of a module that has nothing else.

ghost use Rattle.std.specs.Prelude.{◌≡◌, ◌++◌, ◌<◌, ◌≤◌, Some, OnOk, if◌then◌else◌, length, map};
ghost use Rattle.std.specs.Option.{option_map};
ghost use Rattle.omf_record.specs.View.{view};
ghost use Rattle.omf_write.specs.Records.{record_bytes, records_bytes};
ghost use Rattle.omf_communal.specs.Records as records;
ghost use Rattle.omf_communal.specs.inside.Planned.{parts_said, places_said, plan_said, room_said};

use crate::places::{Part, Place, Room};
use crate::planning::{Plan, whole_room};
use omf_record::{Alignment, Combination, Public, PublicBase, Record};
use omf_write::{put_end, put_header, put_names, put_record, segment_of_length};
use std::alloc::{AllocError, Allocator};

/// Appends the SEGDEF of the near segment, and the GRPDEF of DGROUP with it.
#[tactic(auto, unfolding(omf_record::specs::View::view))]
fn put_near<A: Allocator + Copy>(
    alloc: A,
    room: Room,
    part: &Part,
    out: &mut Vec<u8, A>,
) -> Result<(), AllocError>
    ensures { OnOk result (out.new.items ≡
        out.old.items ++ records_bytes (records.near_records (room_said room) (Some part.now.length))) }
{
    let segment = segment_of_length(
        Alignment::Word,
        Combination::Public2,
        part.length,
        room.names + 2,
        room.names + 3,
    );
    put_record(alloc, 0x98, &Record::Segdef { segment }, out)?;
    let mut segments = Vec::new(alloc);
    segments.push(room.segments + 1)?;
    let name = room.names + 1;
    put_record(alloc, 0x9A, &Record::Grpdef { name, segments }, out)
}

/// Appends the SEGDEF of a far segment.
#[tactic(auto, unfolding(omf_record::specs::View::view))]
fn put_far<A: Allocator + Copy>(
    alloc: A,
    room: Room,
    part: &Part,
    out: &mut Vec<u8, A>,
) -> Result<(), AllocError>
    ensures { OnOk result (out.new.items ≡
        out.old.items ++ record_bytes (records.far_record (room_said room) part.now.length)) }
{
    let segment = segment_of_length(
        Alignment::Paragraph,
        Combination::Private,
        part.length,
        room.names + 4,
        room.names + 4,
    );
    put_record(alloc, 0x98, &Record::Segdef { segment }, out)
}

/// Appends the SEGDEFs of the far segments.
fn put_fars<A: Allocator + Copy>(
    alloc: A,
    room: Room,
    parts: &[Part],
    out: &mut Vec<u8, A>,
) -> Result<(), AllocError>
    ensures { OnOk result (out.new.items ≡
        out.old.items ++ records_bytes (map (records.far_record (room_said room)) (parts_said parts.now))) }
{
    for part in parts {
        put_far(alloc, room, part, out)?;
    }
    Ok(())
}

/// What is said of the variables of a module, beside their plan.
#[derive(Clone, Copy)]
pub(crate) struct Form {
    /// They are local to it.
    pub local: bool,
    /// The near ones are in the segment `_BSS`.
    pub in_bss: bool,
}

/// The type of PUBDEF, or of LPUBDEF.
fn public_type(local: bool) -> u8
    ensures { result ≡ if local then 0xB6 else 0x90 }
{
    if local { 0xB6 } else { 0x90 }
}

/// Where a variable stands.
#[derive(Clone, Copy)]
struct Standing {
    /// The index of its group, or 0.
    group: u16,
    /// The index of its segment.
    segment: u16,
    offset: u16,
    ghost group_in: { group ≤ 32767 },
    ghost segment_positive: { 0 < segment },
    ghost segment_in: { segment ≤ 32767 },
}

/// Appends the PUBDEF or LPUBDEF of the name of a variable.
#[tactic(auto, unfolding(omf_record::specs::View::view))]
fn put_public<A: Allocator + Copy>(
    alloc: A,
    local: bool,
    name: &[u8],
    standing: Standing,
    out: &mut Vec<u8, A>,
) -> Result<(), AllocError>
    requires { length name.now ≤ 255 }
    ensures { OnOk result (out.new.items ≡ out.old.items ++ record_bytes (records.place_record local (record {
      name = name.now;
      group = standing.group;
      segment = standing.segment;
      offset = standing.offset;
    }))) }
{
    let mut publics = Vec::new(alloc);
    publics.push(Public {
        name,
        offset: standing.offset,
        type_index: 0,
    })?;
    let base = PublicBase::InSegment {
        group: standing.group,
        segment: standing.segment,
    };
    let record = Record::Pubdef {
        local,
        base,
        publics,
    };
    put_record(alloc, public_type(local), &record, out)
}

/// Appends the PUBDEFs or LPUBDEFs of the names of variables.
fn put_places<A: Allocator + Copy>(
    alloc: A,
    local: bool,
    places: &[Place<'_>],
    out: &mut Vec<u8, A>,
) -> Result<(), AllocError>
    ensures { OnOk result (out.new.items ≡
        out.old.items ++ records_bytes (map (records.place_record local) (places_said places.now))) }
{
    for place in places {
        let standing = Standing {
            group: place.group,
            segment: place.segment,
            offset: place.offset,
        };
        put_public(alloc, local, place.name, standing, out)?;
    }
    Ok(())
}

/// The name of the near segment.
fn near_name(in_bss: bool) -> &'static [u8]
    ensures name { result.now ≡ records.near_name in_bss }
    ensures short { length result.now ≤ 255 }
{
    if in_bss { b"_BSS" } else { b"c_common" }
}

/// Appends the near segment and its group, if there is one.
fn put_nears<A: Allocator + Copy>(
    alloc: A,
    room: Room,
    near: &Option<Part>,
    out: &mut Vec<u8, A>,
) -> Result<(), AllocError>
    ensures { OnOk result (out.new.items ≡ out.old.items
        ++ records_bytes (records.near_records (room_said room) (option_map (λ p. p.length) near.now))) }
{
    match near {
        Some(part) => put_near(alloc, room, part, out),
        None => Ok(()),
    }
}

/// Appends the records behind the names.
fn put_placed<A: Allocator + Copy>(
    alloc: A,
    local: bool,
    room: Room,
    plan: &Plan<'_, A>,
    out: &mut Vec<u8, A>,
) -> Result<(), AllocError>
    ensures { OnOk result (out.new.items ≡
        out.old.items ++ records_bytes (records.placed_records local (room_said room) (plan_said plan.now))) }
{
    put_nears(alloc, room, &plan.near, out)?;
    put_fars(alloc, room, &plan.far, out)?;
    put_places(alloc, local, &plan.places, out)
}

/// Appends the records of variables.
fn put_variables<A: Allocator + Copy>(
    alloc: A,
    form: Form,
    room: Room,
    plan: &Plan<'_, A>,
    out: &mut Vec<u8, A>,
) -> Result<(), AllocError>
    ensures { OnOk result (out.new.items ≡ out.old.items
        ++ records_bytes (records.variable_records form.local form.in_bss (room_said room) (plan_said plan.now))) }
{
    put_names(alloc, b"DGROUP", near_name(form.in_bss), out)?;
    put_names(alloc, b"BSS", b"FAR_BSS", out)?;
    put_placed(alloc, form.local, room, plan, out)
}

/// Appends the records of a module of variables.
pub(crate) fn put_module<A: Allocator + Copy>(
    alloc: A,
    form: Form,
    plan: &Plan<'_, A>,
    out: &mut Vec<u8, A>,
) -> Result<(), AllocError>
    ensures { OnOk result (out.new.items ≡
        out.old.items ++ records.module_bytes form.local form.in_bss (plan_said plan.now)) }
{
    put_header(alloc, b"communal", out)?;
    put_variables(alloc, form, whole_room(), plan, out)?;
    put_end(alloc, out)
}
