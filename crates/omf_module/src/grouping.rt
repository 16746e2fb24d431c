//! The segments of a class as members of a group of their module.
ghost use Rattle.std.specs.Prelude.{◌≡◌, ℕ, ◌≤◌, ◌&&◌, nat_lt, List, length, map, take, slice_set, false, IfOk};
ghost use Rattle.std.specs.List.{list_any, AllByRecursion};
ghost use Rattle.std.specs.Option.{option_map};
ghost use Rattle.omf_module.specs.Grouped as spec;
ghost use Rattle.omf_module.specs.Grouped.{greatest_index, grouped};
ghost use Rattle.omf_module.specs.Seen.{segment_seen};
ghost use Rattle.omf_module.specs.Sound.{IsShort};
ghost use Rattle.omf_module.specs.inside.Grouping.{unmarked};
ghost use Rattle.omf_module.specs.inside.Store as stored;

use crate::checks::{entry, is_absolute};
use crate::entries::{DataEntry, PublicEntry};
use crate::lookups::{Module, Segment};
use crate::store::Store;
use crate::{ResolvedFixup, Start};
use omf_record::{FrameMethod, PublicBase, TargetMethod};
use std::alloc::{AllocError, Allocator};

/// The greatest index of a segment or a group that a record can have.
const GREATEST_INDEX: usize = 32_767;

/// Whether a segment is one of the class, and no absolute one.
fn is_of_class(segment: Segment<'_>, class: &[u8]) -> bool
    ensures { result ≡ spec.is_of_class class.now (segment_seen segment.entry) }
{
    segment.class == class && !is_absolute(segment.standing)
}

/// Of each segment that a record can name, whether it is one of the class that is placed.
fn of_class<A: Allocator + Copy>(
    alloc: A,
    store: &Store<A>,
    class: &[u8],
) -> Result<Vec<bool, A>, AllocError>
    ensures { IfOk result (λ v. v.items
        ≡ map (spec.is_of_class class.now) (take greatest_index store.now.segments)) }
{
    let mut marks = Vec::new(alloc);
    for index in 0..store.segment_count().min(GREATEST_INDEX) {
        marks.push(is_of_class(store.segment(index), class))?;
    }
    Ok(marks)
}

/// Takes away the mark at a number, where there is one.
fn unmark(marks: &mut [bool], number: usize)
    ensures { marks.new ≡ slice_set marks.old number false }
{
    if number < marks.len() {
        marks[number] = false;
    }
}

/// Takes away the marks at these numbers.
fn unmark_all(marks: &mut [bool], numbers: &[u16])
    ensures { marks.new ≡ unmarked numbers.now marks.old }
{
    for number in numbers {
        unmark(marks, usize::from(*number));
    }
}

/// Of each segment that a record can name, whether it joins the group of its class.
fn joining<A: Allocator + Copy>(
    alloc: A,
    store: &Store<A>,
    class: &[u8],
) -> Result<Vec<bool, A>, AllocError>
    ensures { IfOk result (λ v. v.items ≡ spec.joining class.now store.now.segments store.now.groups) }
{
    let mut marks = of_class(alloc, store, class)?;
    for index in 0..store.group_count() {
        unmark_all(&mut marks, store.group(index).members);
    }
    Ok(marks)
}

/// Whether some segment joins.
fn some_join(joined: &[bool]) -> bool
    ensures { result ≡ list_any (λ joins. joins) joined.now }
{
    joined.iter().any(|joins| *joins)
}

/// Whether a module with so many parts of groups gets one more: some segment joins, and an index is left.
fn gets_part(joined: &[bool], groups: usize) -> bool
    ensures { result ≡ (list_any (λ joins. joins) joined.now && nat_lt groups greatest_index) }
{
    some_join(joined) && groups < GREATEST_INDEX
}

/// The numbers of the segments that join, counted from 0.
fn members_of<A: Allocator + Copy>(alloc: A, joined: &[bool]) -> Result<Vec<u16, A>, AllocError>
    requires { length joined.now ≤ greatest_index }
    ensures { IfOk result (λ v. v.items ≡ spec.members joined.now) }
{
    let mut members = Vec::new(alloc);
    for (number, joins) in joined.iter().enumerate() {
        if *joins {
            members.push(number as u16)?;
        }
    }
    Ok(members)
}

/// Whether a target, or a frame that is found as one, is a segment that joins.
fn is_member(joined: &[bool], method: TargetMethod) -> bool
    ensures { result ≡ spec.is_member joined.now method }
{
    match method {
        TargetMethod::Segment(index) => entry(joined, index).copied().unwrap_or(false),
        TargetMethod::Group(_) | TargetMethod::External(_) => false,
    }
}

/// Whether a frame is that of a segment that joins; here is the segment of the location, counted from 0.
fn has_members_frame(joined: &[bool], here: u16, target: TargetMethod, frame: FrameMethod) -> bool
    ensures { result ≡ spec.has_members_frame joined.now here target frame }
{
    match frame {
        FrameMethod::By(method) => is_member(joined, method),
        FrameMethod::Location => joined.get(usize::from(here)).copied().unwrap_or(false),
        FrameMethod::Target => is_member(joined, target),
    }
}

/// The group's frame in place of that of a segment that joins.
fn frame_in(
    joined: &[bool],
    group: u16,
    here: u16,
    target: TargetMethod,
    frame: FrameMethod,
) -> FrameMethod
    ensures { result ≡ spec.frame_in joined.now group here target frame }
{
    if has_members_frame(joined, here, target, frame) {
        FrameMethod::By(TargetMethod::Group(group))
    } else {
        frame
    }
}

/// What a public counts from: the group, where its segment joins and it is of none.
fn base_in(joined: &[bool], group: u16, base: PublicBase) -> PublicBase
    ensures { result ≡ spec.base_in joined.now group base }
{
    match base {
        PublicBase::InSegment {
            group: own,
            segment,
        } => {
            let is_grouped = own == 0 && is_member(joined, TargetMethod::Segment(segment));
            let group = if is_grouped { group } else { own };
            PublicBase::InSegment { group, segment }
        }
        PublicBase::AtFrame { .. } => base,
    }
}

/// Counts a fix-up from the group; here is the segment of its data, counted from 0.
fn fixup_in(joined: &[bool], group: u16, here: u16, fixup: ResolvedFixup) -> ResolvedFixup
    ensures { result ≡ spec.fixup_in joined.now group here fixup }
{
    ResolvedFixup {
        frame: frame_in(joined, group, here, fixup.target, fixup.frame),
        ..fixup
    }
}

/// Counts the fix-ups on data of a segment from the group.
fn group_fixups(fixups: &mut [ResolvedFixup], joined: &[bool], group: u16, here: u16)
    ensures { fixups.new ≡ map (spec.fixup_in joined.now group here) fixups.old }
{
    for index in 0..fixups.len() {
        fixups[index] = fixup_in(joined, group, here, fixups[index]);
    }
}

/// Counts a public from the group.
fn public_in(joined: &[bool], group: u16, public: PublicEntry) -> PublicEntry
    ensures says { (bytes : List ℕ) → stored.public_symbol bytes result
        ≡ spec.public_in joined.now group (stored.public_symbol bytes public) }
    ensures name { result.name ≡ public.name }
{
    PublicEntry {
        base: base_in(joined, group, public.base),
        ..public
    }
}

/// Counts publics from the group.
pub fn group_publics(publics: &mut [PublicEntry], joined: &[bool], group: u16)
    ensures says { (bytes : List ℕ) → map (stored.public_symbol bytes) publics.new
        ≡ map (spec.public_in joined.now group) (map (stored.public_symbol bytes) publics.old) }
    ensures inside { (bytes : List ℕ) → AllByRecursion (stored.PublicIsIn bytes) publics.old
        → AllByRecursion (stored.PublicIsIn bytes) publics.new }
{
    for index in 0..publics.len() {
        publics[index] = public_in(joined, group, publics[index]);
    }
}

/// Counts the fix-ups of data records from the group.
pub fn group_data<A: Allocator + Copy>(
    data_records: &mut [DataEntry<A>],
    joined: &[bool],
    group: u16,
)
    ensures says { (bytes places : List ℕ) → map (stored.data_record bytes places) data_records.new
        ≡ map (spec.data_in joined.now group) (map (stored.data_record bytes places) data_records.old) }
    ensures inside { (bytes places : List ℕ) → AllByRecursion (stored.DataIsIn bytes places) data_records.old
        → AllByRecursion (stored.DataIsIn bytes places) data_records.new }
{
    for index in 0..data_records.len() {
        let data = &mut data_records[index];
        let here = data.segment;
        group_fixups(&mut data.fixups, joined, group, here);
    }
}

/// Counts a start from the group, where there is one.
fn start_in(joined: &[bool], group: u16, start: Option<Start>) -> Option<Start>
    ensures { result ≡ option_map (spec.start_in joined.now group) start }
{
    start.map(|start| Start {
        frame: frame_in(joined, group, 0, start.target, start.frame),
        ..start
    })
}

/// The module with all its segments of a class in a group of this name, but for absolute ones and those that it has in
/// a group already. What counted from the frame of one of them counts from the group's: frames of fix-ups and of the
/// start, and publics. Where no segment joins, the module stays as it is.
///
/// A part of the group is added behind the module's own groups, also where one has that name: parts of one name are one
/// group. Where that part would have an index above 32,767, the module stays as it is too.
pub fn group_class<A: Allocator + Copy>(
    alloc: A,
    module: Module<A>,
    class: &[u8],
    name: &[u8],
) -> Result<Module<A>, AllocError>
    requires { IsShort name.now }
    ensures { IfOk result (λ given. given ≡ grouped class.now name.now «module») }
{
    let (mut store, start) = module.into_parts();
    let marks = joining(alloc, &store, class)?;
    let joined = marks.as_slice();
    let groups = store.group_count();
    if !gets_part(joined, groups) {
        return Ok(Module::from_parts(store, start));
    }
    let group = groups as u16 + 1;
    store.push_members(name, members_of(alloc, joined)?)?;
    store.count_from_group(joined, group);
    let start = start_in(joined, group, start);
    Ok(Module::from_parts(store, start))
}
