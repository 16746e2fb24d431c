//! Where variables stand.

ghost use Rattle.std.specs.Prelude.{◌≡◌, ◌+◌, ◌*◌, ◌<◌, ◌≤◌, ◌++◌, Ok, IfOk, OnOk, length, map, MatchResult};
ghost use Rattle.omf_library.specs.Members.{joined};
ghost use Rattle.omf_communal.specs.Answers.{IsPlanFault};
ghost use Rattle.omf_communal.specs.Deciding.{variable_said};
ghost use Rattle.omf_communal.specs.Plan as planned;
ghost use Rattle.std.specs.Option.{option_map};
ghost use Rattle.omf_communal.specs.inside.Planned.{parts_said, places_said, plan_said, room_said};
ghost use Rattle.omf_communal.specs.inside.Planned.{AreFars, AreNears, IsRoom};

use crate::declarations::{Extent, Variable};
use crate::fault::PlanFault;
use crate::places::{Before, Nears, Part, Place, Room};
use std::alloc::{AllocError, Allocator};

/// The greatest length of a segment.
const SEGMENT_LIMIT: u64 = 65_536;

/// The greatest index of a name, a segment or a group.
const INDEX_LIMIT: u64 = 32_767;

/// The segments of variables, and their names.
#[derive(Drop)]
pub(crate) struct Plan<'a, A: Allocator + Copy> {
    /// The segment of near variables, the first, if there is one.
    pub near: Option<Part>,
    /// The segments of far variables.
    pub far: Vec<Part, A>,
    pub places: Vec<Place<'a>, A>,
}

/// The room behind what stands before variables. None where no indexes are left for four names, a segment and a group.
pub(crate) fn room_behind(before: Before) -> Option<Room>
    ensures { IsRoom before result }
{
    let is_full = before.names > INDEX_LIMIT - 4
        || before.segments >= INDEX_LIMIT
        || before.groups >= INDEX_LIMIT;
    if is_full {
        return None;
    }
    Some(Room {
        names: before.names as u16,
        segments: before.segments as u16,
        groups: before.groups as u16,
    })
}

/// The room of a module that has nothing but variables.
pub(crate) fn whole_room() -> Room
    ensures { room_said result ≡ planned.nothing_before }
{
    Room {
        names: 0,
        segments: 0,
        groups: 0,
    }
}

/// Where a near variable of a length begins behind so many bytes.
fn near_start(at: u64, length: u32) -> u64
    requires { at ≤ 65536 }
    ensures start { result ≡ planned.near_start at length }
    ensures small { result ≤ 65537 }
{
    if length <= 1 { at } else { at + at % 2 }
}

/// Where a variable of a length ends that begins behind so many bytes.
fn near_end(start: u64, length: u32) -> u64
    requires { start ≤ 65537 }
    ensures { result ≡ start + length }
{
    start + u64::from(length)
}

/// Adds the place of a near variable behind so many bytes, and says where the bytes behind it begin.
fn push_near<'a, A: Allocator + Copy>(
    room: Room,
    places: &mut Vec<Place<'a>, A>,
    at: u64,
    index: usize,
    variable: &Variable<'a>,
) -> Result<u64, PlanFault>
    requires { at ≤ 65536 }
    ensures placed { MatchResult result
        (λ _. joined (places_said places.old.items)
        (planned.near_place (room_said room) at index variable.now.name.now variable.now.extent)
        ≡ Ok (places_said places.new.items))
        (λ e. IsPlanFault e (planned.near_place (room_said room) at index variable.now.name.now variable.now.extent)) }
    ensures next { IfOk result (λ next. next ≡ planned.near_next at variable.now.extent) }
    ensures small { IfOk result (λ next. next ≤ 65536) }
{
    let Extent::Near { length } = variable.extent else {
        return Ok(at);
    };
    let start = near_start(at, length);
    let end = near_end(start, length);
    if start >= SEGMENT_LIMIT || end > SEGMENT_LIMIT {
        return Err(PlanFault::NearTooLong { variable: index });
    }
    places.push(Place {
        name: variable.name,
        group: room.groups + 1,
        segment: room.segments + 1,
        offset: start as u16,
    })?;
    Ok(end)
}

/// The places of the near variables, behind each other.
fn near_places<'a, A: Allocator + Copy>(
    alloc: A,
    room: Room,
    variables: &[Variable<'a>],
) -> Result<Nears<'a, A>, PlanFault>
    ensures { MatchResult result
        (λ n. AreNears (room_said room) (map variable_said variables.now) n)
        (λ e. IsPlanFault e (planned.near_places (room_said room) 0 0 (map variable_said variables.now))) }
{
    let mut places = Vec::new(alloc);
    let mut end = 0;
    for (index, variable) in variables.iter().enumerate() {
        end = push_near(room, &mut places, end, index, variable)?;
    }
    Ok(Nears { places, end })
}

/// How many bytes so many elements of a size have.
fn byte_count(count: u32, size: u32) -> u64
    ensures value { result ≡ count * size }
    ensures small { result ≤ 18446744065119617025 }
{
    u64::from(count) * u64::from(size)
}

/// How many segments so many bytes need.
fn part_count(bytes: u64) -> u64
    requires { bytes ≤ 18446744065119617025 }
    ensures count { result ≡ planned.part_count bytes }
    ensures positive { 0 < result }
    ensures small { result ≤ 281474976710656 }
{
    bytes.div_ceil(SEGMENT_LIMIT).max(1)
}

/// Whether an element would lie over the edge of a segment.
fn is_cut(count: u32, size: u32) -> bool
    ensures { result ≡ planned.is_cut count size }
{
    byte_count(count, size) > SEGMENT_LIMIT && SEGMENT_LIMIT % u64::from(size) != 0
}

/// Appends the segments of so many bytes.
fn push_parts<A: Allocator + Copy>(parts: &mut Vec<Part, A>, bytes: u64) -> Result<(), AllocError>
    requires small { bytes ≤ 18446744065119617025 }
    requires few { planned.part_count bytes ≤ 32767 }
    ensures { OnOk result (parts_said parts.new.items ≡ parts_said parts.old.items ++ planned.part_lengths bytes) }
{
    for part in 0..part_count(bytes) {
        let length = bytes
            .saturating_sub(SEGMENT_LIMIT * part)
            .min(SEGMENT_LIMIT) as u32;
        parts.push(Part { length })?;
    }
    Ok(())
}

/// The segments of the far variables, and the places of these.
#[derive(Drop)]
struct Fars<'a, A: Allocator + Copy> {
    parts: Vec<Part, A>,
    places: Vec<Place<'a>, A>,
}

/// Adds a far variable in this segment and those behind it, and says which segment is behind these.
fn push_far<'a, A: Allocator + Copy>(
    fars: &mut Fars<'a, A>,
    segment: u64,
    index: usize,
    variable: &Variable<'a>,
) -> Result<u64, PlanFault>
    requires positive { 0 < segment }
    requires small { segment ≤ 32768 }
    ensures placed { MatchResult result
        (λ _. joined (places_said fars.old.places.items)
        (planned.far_place segment index variable.now.name.now variable.now.extent)
        ≡ Ok (places_said fars.new.places.items))
        (λ e. IsPlanFault e (planned.far_place segment index variable.now.name.now variable.now.extent)) }
    ensures parts { OnOk result (parts_said fars.new.parts.items ≡
        parts_said fars.old.parts.items ++ planned.far_lengths_of variable.now.extent) }
    ensures next { IfOk result (λ next. next ≡ planned.far_next segment variable.now.extent) }
    ensures next_positive { IfOk result (λ next. 0 < next) }
    ensures next_small { IfOk result (λ next. next ≤ 32768) }
{
    let Extent::Far { count, size } = variable.extent else {
        return Ok(segment);
    };
    if is_cut(count, size) {
        return Err(PlanFault::CutElement { variable: index });
    }
    let bytes = byte_count(count, size);
    let next = segment + part_count(bytes);
    if next > INDEX_LIMIT + 1 {
        return Err(PlanFault::TooManySegments { variable: index });
    }
    push_parts(&mut fars.parts, bytes)?;
    fars.places.push(Place {
        name: variable.name,
        group: 0,
        segment: segment as u16,
        offset: 0,
    })?;
    Ok(next)
}

/// The far variables, from this segment on.
fn far_places<'a, A: Allocator + Copy>(
    alloc: A,
    first: u64,
    variables: &[Variable<'a>],
) -> Result<Fars<'a, A>, PlanFault>
    requires positive { 0 < first }
    requires small { first ≤ 32768 }
    ensures { MatchResult result
        (λ f. AreFars first (map variable_said variables.now) f)
        (λ e. IsPlanFault e (planned.far_places first 0 (map variable_said variables.now))) }
{
    let mut fars = Fars {
        parts: Vec::new(alloc),
        places: Vec::new(alloc),
    };
    let mut segment = first;
    for (index, variable) in variables.iter().enumerate() {
        segment = push_far(&mut fars, segment, index, variable)?;
    }
    Ok(fars)
}

/// The segment of the near variables, if there are any.
fn near_segment<A: Allocator + Copy>(nears: &Nears<'_, A>) -> Option<Part>
    ensures { option_map (λ p. p.length) result ≡
        planned.near_segment (places_said nears.now.places.items) nears.now.end }
{
    if nears.places.is_empty() {
        None
    } else {
        Some(Part {
            length: nears.end as u32,
        })
    }
}

/// The index of the first segment of far variables, where these near ones have places.
fn far_first(room: Room, places: &[Place<'_>]) -> u64
    ensures first { result ≡ planned.far_first (room_said room) (places_said places.now) }
    ensures positive { 0 < result }
    ensures small { result ≤ 32768 }
{
    if places.is_empty() {
        u64::from(room.segments) + 1
    } else {
        u64::from(room.segments) + 2
    }
}

/// The plan for variables behind what leaves this room.
pub(crate) fn make_plan<'a, A: Allocator + Copy>(
    alloc: A,
    room: Room,
    variables: &[Variable<'a>],
) -> Result<Plan<'a, A>, PlanFault>
    ensures { MatchResult result
        (λ p. planned.plan (room_said room) (map variable_said variables.now) ≡ Ok (plan_said p))
        (λ e. IsPlanFault e (planned.plan (room_said room) (map variable_said variables.now))) }
{
    let nears = near_places(alloc, room, variables)?;
    let near = near_segment(&nears);
    let mut places = nears.places;
    let fars = far_places(alloc, far_first(room, &places), variables)?;
    places.extend_from_slice(&fars.places)?;
    Ok(Plan {
        near,
        far: fars.parts,
        places,
    })
}
