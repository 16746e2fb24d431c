//! Groups: all GRPDEFs of one name are one group.

ghost use Rattle.std.specs.Prelude.{◌≡◌, ◌+◌, ◌*◌, ◌++◌, ◌<◌, ℕ, List, Some, IfOk, OnOk, if◌then◌else◌, length, map};
ghost use Rattle.std.specs.Prelude.{find, nat_lt};
ghost use Rattle.std.specs.List.{AllByRecursion};
ghost use Rattle.std.specs.Str.{bytes_eq};
ghost use Rattle.std.specs.Option.{option_map};
ghost use Rattle.omf_place.specs.Excess.{excess_in, group_excess, group_excesses};
ghost use Rattle.omf_place.specs.Faults.{GroupTooLong, group_fault};
ghost use Rattle.omf_place.specs.Parts.{Site, sites};
ghost use Rattle.omf_place.specs.Tables.{frame_of_group, group_span, grpdefs as program_grpdefs, grpdefs_of};
ghost use Rattle.omf_place.specs.Tables.{is_first_grpdef, placed_groups as program_groups};
ghost use Rattle.omf_place.specs.inside.Groups.{AreGroups, AreGrpdefs, entry_in, entry_with, grpdef_view, join};
ghost use Rattle.omf_place.specs.inside.Groups.{reach_in, reach_of_span, reached, widened};
ghost use Rattle.omf_place.specs.inside.Named.{named_slices, value_of};
ghost use Rattle.omf_place.specs.inside.OfProgram.{is_long_group, IsPlacedProgram, of_program};
ghost use Rattle.omf_place.specs.inside.Program.{HasComponents, IsPlacedInput, input_view};

use crate::inputs::{Input, PlacedProgram};
use crate::layout::GroupPlace;
use crate::stands::Stand;
use indexmap::IndexMap;
use std::alloc::{AllocError, Allocator};
use std::hash::{BuildHasherDefault, FoldHasher};

/// The least frame and the greatest end of some combined segments.
#[derive(Clone, Copy)]
pub(crate) struct Reach {
    pub frame: u16,
    pub end: u32,
}

impl Reach {
    /// Whether the end is more than 65,536 bytes above the frame.
    fn is_long(self) -> bool
        ensures { result ≡ nat_lt (16 * self.frame + 65536) self.end }
    {
        16 * u32::from(self.frame) + 65536 < self.end
    }

    /// By how many bytes the end is more than 65,536 above the frame.
    fn excess(self) -> u32
        ensures { result ≡ excess_in self.frame self.end }
    {
        self.end.saturating_sub(16 * u32::from(self.frame) + 65536)
    }
}

/// A GRPDEF, with what its components reach, where it has any.
#[derive(Clone, Copy)]
pub(crate) struct Grpdef<'a> {
    pub input: usize,
    pub group: usize,
    pub name: &'a [u8],
    pub reach: Option<Reach>,
}

/// A group: what its members reach, where it has any, and its first GRPDEF.
#[derive(Clone, Copy)]
pub(crate) struct GroupEntry {
    pub reach: Option<Reach>,
    pub input: usize,
    pub group: usize,
}

/// What a segment reaches with others before it.
fn widen(reach: Option<Reach>, stand: Stand) -> Reach
    ensures { result ≡ widened reach stand }
{
    match reach {
        None => Reach {
            frame: stand.frame,
            end: stand.end,
        },
        Some(reach) => Reach {
            frame: reach.frame.min(stand.frame),
            end: reach.end.max(stand.end),
        },
    }
}

/// What some segments of a module reach.
fn reach_of(members: &[u16], stands: &[Stand]) -> Option<Reach>
    requires { AllByRecursion (λ k. k < length stands.now) members.now }
    ensures { result ≡ reach_in stands.now members.now }
{
    let mut reach = None;
    for member in members {
        reach = Some(widen(reach, stands[usize::from(*member)]));
    }
    reach
}

/// What two lists of segments reach together.
fn joined(one: Option<Reach>, other: Option<Reach>) -> Option<Reach>
    ensures { result ≡ join one other }
{
    match (one, other) {
        (None, other) => other,
        (one, None) => one,
        (Some(one), Some(other)) => Some(Reach {
            frame: one.frame.min(other.frame),
            end: one.end.max(other.end),
        }),
    }
}

/// Adds the GRPDEFs of a module.
fn push_grpdefs<'a, A: Allocator + Copy>(
    all: &mut Vec<Grpdef<'a>, A>,
    input: &Input<'a, A>,
) -> Result<(), AllocError>
    requires { HasComponents input.now }
    ensures { OnOk result ((ss : List Site) (addresses : List ℕ) → IsPlacedInput ss addresses input.now →
        map grpdef_view all.new.items ≡
        map grpdef_view all.old.items ++ map (reached ss addresses) (grpdefs_of (input_view input.now))) }
{
    for index in 0..input.says.group_count() {
        let group = input.says.group(index);
        all.push(Grpdef {
            input: input.input,
            group: index,
            name: group.name,
            reach: reach_of(group.members, input.stands),
        })?;
    }
    Ok(())
}

/// The GRPDEFs of a program, in order.
fn collect_grpdefs<'a, A: Allocator + Copy>(
    alloc: A,
    program: &PlacedProgram<'a, A>,
) -> Result<Vec<Grpdef<'a>, A>, AllocError>
    requires { IsPlacedProgram program.now }
    ensures { IfOk result (λ v. of_program AreGrpdefs program.now v.items) }
{
    let mut all = Vec::new(alloc);
    for input in &program.inputs {
        push_grpdefs(&mut all, input)?;
    }
    Ok(all)
}

/// The group of a name, where there was one before, with a GRPDEF more.
fn with_grpdef(entry: Option<GroupEntry>, grpdef: &Grpdef<'_>) -> GroupEntry
    ensures { result ≡ entry_with entry (grpdef_view grpdef.now) }
{
    match entry {
        None => GroupEntry {
            reach: grpdef.reach,
            input: grpdef.input,
            group: grpdef.group,
        },
        Some(entry) => GroupEntry {
            reach: joined(entry.reach, grpdef.reach),
            input: entry.input,
            group: entry.group,
        },
    }
}

/// Groups by name, in order of first meeting. The hash has a fixed seed.
type ByName<'a, A> = IndexMap<&'a [u8], GroupEntry, BuildHasherDefault<FoldHasher>, A>;

/// Adds a GRPDEF to the group of its name.
fn add_grpdef<'a, A: Allocator + Copy>(
    by_name: &mut ByName<'a, A>,
    grpdef: &Grpdef<'a>,
) -> Result<(), AllocError>
    ensures { OnOk result ((q : List ℕ) → value_of (named_slices by_name.new.entries) q ≡
        (if bytes_eq grpdef.now.name.now q
        then Some (entry_with (value_of (named_slices by_name.old.entries) grpdef.now.name.now)
        (grpdef_view grpdef.now))
        else value_of (named_slices by_name.old.entries) q)) }
{
    let entry = with_grpdef(by_name.get(&grpdef.name).copied(), grpdef);
    by_name.insert(grpdef.name, entry)?;
    Ok(())
}

/// The groups of a program.
#[derive(Drop)]
pub(crate) struct Groups<'a, A: Allocator + Copy> {
    pub program: &'a PlacedProgram<'a, A>,
    pub grpdefs: Vec<Grpdef<'a>, A>,
    by_name: ByName<'a, A>,
    ghost listed: { of_program AreGrpdefs program.now grpdefs.items },
    ghost named: { of_program AreGroups program.now (named_slices by_name.entries) },
}

impl<'a, A: Allocator + Copy> Groups<'a, A> {
    /// The groups of a program.
    pub(crate) fn collect(alloc: A, program: &'a PlacedProgram<'a, A>) -> Result<Self, AllocError>
        requires { IsPlacedProgram program.now }
        ensures { IfOk result (λ groups. groups.program.now ≡ program.now) }
    {
        let grpdefs = collect_grpdefs(alloc, program)?;
        let mut by_name: ByName<'a, A> = IndexMap::new(alloc);
        for grpdef in &grpdefs {
            add_grpdef(&mut by_name, grpdef)?;
        }
        Ok(Groups {
            program,
            grpdefs,
            by_name,
        })
    }

    /// The group of a name.
    fn get(&self, name: &[u8]) -> Option<GroupEntry>
        ensures { result ≡ of_program
            (λ ms addresses. entry_in (sites ms) addresses (program_grpdefs ms)) self.now.program.now name.now }
    {
        self.by_name.get(&name).copied()
    }

    /// What the members of a group reach, where it has any.
    fn reach(&self, name: &[u8]) -> Option<Reach>
        ensures { result ≡ option_map reach_of_span (of_program group_span self.now.program.now name.now) }
    {
        match self.get(name) {
            None => None,
            Some(entry) => entry.reach,
        }
    }

    /// The frame of a group, where it has members.
    pub(crate) fn frame(&self, name: &[u8]) -> Option<u16>
        ensures { result ≡ of_program frame_of_group self.now.program.now name.now }
    {
        match self.reach(name) {
            None => None,
            Some(reach) => Some(reach.frame),
        }
    }

    /// Whether a group ends more than 65,536 bytes above its frame.
    fn is_long(&self, name: &[u8]) -> bool
        ensures { result ≡ of_program is_long_group self.now.program.now name.now }
    {
        match self.reach(name) {
            None => false,
            Some(reach) => reach.is_long(),
        }
    }

    /// Whether a GRPDEF is the first of its name.
    fn is_first(&self, grpdef: &Grpdef<'_>) -> bool
        ensures { (sites : List Site) → result ≡ of_program is_first_grpdef self.now.program.now
            (record { input = grpdef.now.input; group = grpdef.now.group; name = grpdef.now.name.now; sites = sites }) }
    {
        match self.get(grpdef.name) {
            None => false,
            Some(entry) => entry.input == grpdef.input && entry.group == grpdef.group,
        }
    }

    /// The first group that ends more than 65,536 bytes above its frame, in order of first meeting: its first GRPDEF.
    pub(crate) fn first_long(&self) -> Option<&Grpdef<'a>>
        ensures { option_map (λ g. GroupTooLong g.now.name.now) result ≡ of_program group_fault self.now.program.now }
    {
        for grpdef in &self.grpdefs {
            if self.is_long(grpdef.name) {
                return Some(grpdef);
            }
        }
        None
    }

    /// By how many bytes a group ends more than 65,536 above its frame.
    fn excess(&self, name: &[u8]) -> u32
        ensures { result ≡ of_program group_excess self.now.program.now name.now }
    {
        match self.reach(name) {
            None => 0,
            Some(reach) => reach.excess(),
        }
    }

    /// By how many bytes the first group, in order of first meeting, is too long that is.
    pub(crate) fn first_excess(&self) -> Option<u32>
        ensures { result ≡ find (nat_lt 0) (of_program group_excesses self.now.program.now) }
    {
        match self.first_long() {
            None => None,
            Some(first) => Some(self.excess(first.name)),
        }
    }
}

/// The groups, in order of first meeting.
pub(crate) fn placed_groups<A: Allocator + Copy>(
    alloc: A,
    groups: &Groups<'_, A>,
) -> Result<Vec<GroupPlace, A>, AllocError>
    ensures { IfOk result (λ v. v.items ≡ of_program program_groups groups.now.program.now) }
{
    let mut all = Vec::new(alloc);
    for grpdef in &groups.grpdefs {
        if groups.is_first(grpdef) {
            all.push(GroupPlace {
                frame: groups.frame(grpdef.name),
                input: grpdef.input,
                group: grpdef.group,
            })?;
        }
    }
    Ok(all)
}

/// The frame of each GRPDEF's group.
pub(crate) fn frames_of<A: Allocator + Copy>(
    alloc: A,
    input: &Input<'_, A>,
    groups: &Groups<'_, A>,
) -> Result<Vec<Option<u16>, A>, AllocError>
    ensures { IfOk result (λ v. v.items ≡
        map (λ g. of_program frame_of_group groups.now.program.now g.name) input.now.says.now.groups) }
{
    let mut frames = Vec::new(alloc);
    for index in 0..input.says.group_count() {
        frames.push(groups.frame(input.says.group(index).name))?;
    }
    Ok(frames)
}
