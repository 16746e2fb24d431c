//! Placement of modules.

ghost use Rattle.std.specs.Prelude.{◌≡◌, ◌≤◌, ◌<◌, None, Some, Ok, Err, IfErr, IfOk, IfSome, map, OnOk};
ghost use Rattle.std.specs.Prelude.{find, nat_lt};
ghost use Rattle.std.specs.List.{AllByRecursion};
ghost use Rattle.std.specs.Option.{option_or};
ghost use Rattle.omf_module.specs.Sound.{SegmentFits};
ghost use Rattle.omf_place.specs.Bounded.{IsBounded};
ghost use Rattle.omf_place.specs.Excess.{IsExcessOf, group_excesses};
ghost use Rattle.omf_place.specs.Faults.{IsPlacedAs, segment_fault};
ghost use Rattle.omf_place.specs.inside.Steps.{later_fault, size_fault};
ghost use Rattle.omf_place.specs.Layout.{layout_at};
ghost use Rattle.omf_place.specs.inside.Numbered.{IsNumberedFrom};
ghost use Rattle.omf_place.specs.Parts.{placement_order, sites as sites_of};
ghost use Rattle.omf_place.specs.inside.OfProgram.{IsPlacedProgram, of_program};
ghost use Rattle.omf_place.specs.inside.Ranks.{rank};
ghost use Rattle.omf_place.specs.Placed.{IsPlaced};
ghost use Rattle.omf_place.specs.inside.Placing.{IsOnlyPlacement};
ghost use Rattle.omf_place.specs.Said.{said};
ghost use Rattle.omf_place.specs.inside.Sites.{sites_view};
ghost use Rattle.omf_place.specs.inside.Small.{IsSmall};
ghost use Rattle.omf_place.specs.inside.Spans.{AreSpans, addresses_in};

use crate::faults::{PlaceFault, segment_too_long};
use crate::groups::Groups;
use crate::inputs::{PlacedProgram, collect_inputs};
use crate::laying::lay_out;
use crate::lookups::Layout;
use crate::names::Names;
use crate::order::{Rank, placement_ranks, segment_places};
use crate::sites::{Site, collect_sites};
use crate::spans::{
    SegmentSpan, combined_segments, first_long_segment, first_segment_excess, segment_spans,
};
use crate::stands::collect_stands;
use crate::starts::place_parts;
use omf_module::Module;
use std::alloc::{AllocError, Allocator};

/// The greatest size of a program in bytes.
const GREATEST_SIZE: u128 = 1_048_560;

/// The order of the parts, where the segments stand, and the size of the program.
#[derive(Drop)]
pub(crate) struct Started<A: Allocator + Copy> {
    ranks: Vec<Rank, A>,
    pub spans: Vec<SegmentSpan, A>,
    size: u128,
}

/// Orders the parts and gives every segment its address.
pub(crate) fn start_parts<A: Allocator + Copy>(
    alloc: A,
    sites: &[Site<'_>],
) -> Result<Started<A>, AllocError>
    requires numbered { IsNumberedFrom 0 (sites_view sites.now) }
    requires sound { AllByRecursion (λ a. SegmentFits a.segment) (sites_view sites.now) }
    ensures order { IfOk result
        (λ s. s.ranks.items ≡ map (rank (sites_view sites.now)) (placement_order (sites_view sites.now))) }
    ensures spans { IfOk result (λ s. AreSpans (sites_view sites.now) s.spans.items) }
    ensures placed { IfOk result (λ s. IsPlaced (sites_view sites.now) (addresses_in s.spans.items) s.size) }
    ensures only { IfOk result (λ s. IsOnlyPlacement (sites_view sites.now) (addresses_in s.spans.items) s.size) }
    ensures small { IfOk result (λ s. IsSmall (addresses_in s.spans.items)) }
{
    let places = segment_places(alloc, sites)?;
    let ranks = placement_ranks(alloc, sites, &places)?;
    let placing = place_parts(alloc, sites, &ranks, &places)?;
    let spans = segment_spans(alloc, sites, &places, &placing.addresses)?;
    Ok(Started {
        ranks,
        spans,
        size: placing.size,
    })
}

/// Refuses a combined segment that is too long, and then a program that is too large.
fn check_segments<A: Allocator + Copy>(
    alloc: A,
    sites: &[Site<'_>],
    started: &Started<A>,
) -> Result<(), PlaceFault<A>>
    requires order { started.now.ranks.items ≡
        map (rank (sites_view sites.now)) (placement_order (sites_view sites.now)) }
    requires numbered { IsNumberedFrom 0 (sites_view sites.now) }
    requires spans { AreSpans (sites_view sites.now) started.now.spans.items }
    requires small { IsSmall (addresses_in started.now.spans.items) }
    ensures segments { OnOk result
        (segment_fault (sites_view sites.now) (addresses_in started.now.spans.items) ≡ None) }
    ensures size { OnOk result (started.now.size ≤ 1048560) }
    ensures fault { IfErr result (λ e. IfSome (said e) (λ f.
        option_or (segment_fault (sites_view sites.now) (addresses_in started.now.spans.items))
        (size_fault started.now.size) ≡ Some f)) }
{
    if let Some(first) = first_long_segment(sites, &started.ranks, &started.spans) {
        return Err(segment_too_long(alloc, first.segment.name));
    }
    if GREATEST_SIZE < started.size {
        return Err(PlaceFault::ProgramTooLarge);
    }
    Ok(())
}

/// The layout of modules whose parts stand, and no segment of which is too long.
fn place_started<A: Allocator + Copy>(
    alloc: A,
    modules: &[Module<A>],
    names: Names,
    sites: &[Site<'_>],
    started: &Started<A>,
) -> Result<Layout<A>, PlaceFault<A>>
    requires made { sites_view sites.now ≡ sites_of modules.now }
    requires numbered { IsNumberedFrom 0 (sites_view sites.now) }
    requires sound { AllByRecursion (λ a. SegmentFits a.segment) (sites_view sites.now) }
    requires order { started.now.ranks.items ≡
        map (rank (sites_view sites.now)) (placement_order (sites_view sites.now)) }
    requires spans { AreSpans (sites_view sites.now) started.now.spans.items }
    requires placed { IsPlaced (sites_view sites.now) (addresses_in started.now.spans.items) started.now.size }
    requires size { started.now.size ≤ 1048560 }
    ensures apart { OnOk result (later_fault names modules.now (addresses_in started.now.spans.items) ≡ None) }
    ensures layout { IfOk result
        (λ l. l ≡ layout_at names modules.now (addresses_in started.now.spans.items) started.now.size) }
    ensures fault { IfErr result
        (λ e. IfSome (said e) (λ f. later_fault names modules.now (addresses_in started.now.spans.items) ≡ Some f)) }
{
    let stands = collect_stands(alloc, sites, &started.spans)?;
    let combined = combined_segments(alloc, sites, &started.ranks, &started.spans)?;
    let inputs = collect_inputs(alloc, modules, sites, &stands)?;
    let program = PlacedProgram {
        modules,
        stands: &stands,
        inputs,
    };
    lay_out(alloc, names, &program, started.size as u32, combined)
}

/// Places the parts of modules, in order of inputs, and finds their groups and publics.
///
/// Of several faults the one with the smallest number is named: a combined segment that is too long, the first in the
/// order of placement; a program that is too large; a group that is too long, the first in order of first meeting; a
/// public whose name an earlier one has, or a local public whose name an earlier one of its module has, the first in
/// order of inputs and records. `names` says which names of publics agree.
pub fn place<A: Allocator + Copy>(
    alloc: A,
    modules: &[Module<A>],
    names: Names,
) -> Result<Layout<A>, PlaceFault<A>>
    ensures layout { IfOk result (λ l. IsPlacedAs names modules.now (Ok l)) }
    ensures bounded { IfOk result (λ l. IsBounded modules.now l) }
    ensures fault { IfErr result (λ e. IfSome (said e) (λ f. IsPlacedAs names modules.now (Err f))) }
{
    let sites = collect_sites(alloc, modules)?;
    let started = start_parts(alloc, &sites)?;
    check_segments(alloc, &sites, &started)?;
    place_started(alloc, modules, names, &sites, &started)
}

/// By how many bytes the first group is too long that is.
fn program_excess<A: Allocator + Copy>(
    alloc: A,
    program: &PlacedProgram<'_, A>,
) -> Result<Option<u32>, AllocError>
    requires { IsPlacedProgram program.now }
    ensures { IfOk result (λ bytes. bytes ≡ find (nat_lt 0) (of_program group_excesses program.now)) }
{
    let groups = Groups::collect(alloc, program)?;
    Ok(groups.first_excess())
}

/// By how many bytes the first group is too long that is, of modules whose parts stand.
fn group_excess<A: Allocator + Copy>(
    alloc: A,
    modules: &[Module<A>],
    sites: &[Site<'_>],
    started: &Started<A>,
) -> Result<Option<u32>, AllocError>
    requires made { sites_view sites.now ≡ sites_of modules.now }
    requires numbered { IsNumberedFrom 0 (sites_view sites.now) }
    requires sound { AllByRecursion (λ a. SegmentFits a.segment) (sites_view sites.now) }
    requires spans { AreSpans (sites_view sites.now) started.now.spans.items }
    requires placed { IsPlaced (sites_view sites.now) (addresses_in started.now.spans.items) started.now.size }
    requires size { started.now.size ≤ 1048560 }
    ensures { IfOk result (λ bytes. bytes ≡
        find (nat_lt 0) (group_excesses modules.now (addresses_in started.now.spans.items))) }
{
    let stands = collect_stands(alloc, sites, &started.spans)?;
    let inputs = collect_inputs(alloc, modules, sites, &stands)?;
    let program = PlacedProgram {
        modules,
        stands: &stands,
        inputs,
    };
    program_excess(alloc, &program)
}

/// By how many bytes what `place` refuses for its length is too long: of a combined segment or a group, how far it ends
/// above the 65,536 bytes of its frame; of a program, how many it has above 1,048,560. At least 1, and none where
/// nothing is too long.
///
/// It is that of the first that is, in the order of the faults of `place`. Names of publics aren't looked at.
pub fn excess<A: Allocator + Copy>(
    alloc: A,
    modules: &[Module<A>],
) -> Result<Option<u128>, AllocError>
    ensures { IfOk result (λ bytes. IsExcessOf modules.now bytes) }
{
    let sites = collect_sites(alloc, modules)?;
    let started = start_parts(alloc, &sites)?;
    if let Some(bytes) = first_segment_excess(&sites, &started.ranks, &started.spans) {
        return Ok(Some(bytes));
    }
    let over = started.size.saturating_sub(GREATEST_SIZE);
    if 0 < over {
        return Ok(Some(over));
    }
    match group_excess(alloc, modules, &sites, &started)? {
        None => Ok(None),
        Some(bytes) => Ok(Some(u128::from(bytes))),
    }
}
