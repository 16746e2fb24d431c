//! Where the parts start.

ghost use Rattle.std.specs.Prelude.{◌≡◌, ◌+◌, ◌*◌, ◌<◌, ◌≤◌, ◌^◌, ◌||◌, not, IfOk, length, map};
ghost use Rattle.std.specs.List.{AllByRecursion};
ghost use Rattle.omf_module.specs.declared.Kind.TheVariants.{Stack, Common};
ghost use Rattle.omf_module.specs.Sound.{SegmentFits};
ghost use Rattle.omf_place.specs.inside.Keys.{segment_place};
ghost use Rattle.omf_place.specs.inside.Numbered.{IsNumberedFrom};
ghost use Rattle.omf_place.specs.Parts.{is_kind, placement_order};
ghost use Rattle.omf_place.specs.inside.Ranks.{rank};
ghost use Rattle.omf_place.specs.Placed.{IsPlaced, IsNextStart, FollowFrom};
ghost use Rattle.omf_place.specs.inside.Placing.{IsOnlyPlacement};
ghost use Rattle.omf_place.specs.inside.Sites.{site, sites_view};
ghost use Rattle.omf_place.specs.inside.Small.{IsSmall};
ghost use Rattle.omf_place.specs.declared.greatest.Asked.TheVariants.{Alignment, Length};
ghost use Rattle.omf_place.specs.inside.Greatest.{HoldsGreatest, answer};
ghost use Rattle.omf_place.specs.inside.Walk.{IsUnitBounded, KeepsOthers, Places, measured, settled, settled_by};
ghost use Rattle.omf_place.specs.inside.Walk.{unit_measure, units};

use crate::greatest::{Asked, greatest_of};
use crate::order::Rank;
use crate::sites::Site;
use omf_module::{Kind, Standing};
use std::alloc::{AllocError, Allocator};

/// The alignment and the length in bytes with which a part is placed.
#[derive(Clone, Copy)]
pub(crate) struct Measure {
    pub alignment: u128,
    pub length: u128,
}

/// The least multiple of an alignment that isn't below an end.
fn next_start(end: u128, alignment: u128) -> u128
    requires alignment { 0 < alignment }
    requires room { end + alignment ≤ 2 ^ 128 }
    ensures { IsNextStart end alignment result }
{
    let over = end % alignment;
    if over == 0 {
        end
    } else {
        end + (alignment - over)
    }
}

impl Site<'_> {
    /// Whether it is a part of a common segment.
    fn is_common(&self) -> bool
        ensures { result ≡ is_kind Common self.now.segment.standing }
    {
        matches!(
            self.segment.standing,
            Standing::Relocatable {
                kind: Kind::Common,
                ..
            }
        )
    }

    /// Whether it is a part of a stack segment.
    fn is_stack(&self) -> bool
        ensures { result ≡ is_kind Stack self.now.segment.standing }
    {
        matches!(
            self.segment.standing,
            Standing::Relocatable {
                kind: Kind::Stack,
                ..
            }
        )
    }
}

/// How a part is placed, by the greatest alignment and length of the parts that combine with it.
fn part_measure(segment: &Site<'_>, leads: bool, alignment: u128, length: u128) -> Measure
    ensures { result ≡ measured (site segment.now) leads alignment length }
{
    if segment.is_common() {
        Measure { alignment, length }
    } else if segment.is_stack() && !leads {
        Measure {
            alignment: 1,
            length: u128::from(segment.segment.length),
        }
    } else {
        Measure {
            alignment: u128::from(segment.alignment()),
            length: u128::from(segment.segment.length),
        }
    }
}

/// How each segment is placed, by the greatest alignment and length of each combined segment.
fn measure_parts<A: Allocator + Copy>(
    alloc: A,
    sites: &[Site<'_>],
    places: &[usize],
    alignments: &[u128],
    lengths: &[u128],
) -> Result<Vec<Measure, A>, AllocError>
    requires numbered { IsNumberedFrom 0 (sites_view sites.now) }
    requires places { places.now ≡ map (segment_place (sites_view sites.now)) (sites_view sites.now) }
    requires alignment_count { length alignments.now ≡ length sites.now }
    requires alignments { HoldsGreatest (sites_view sites.now) (answer Alignment) alignments.now }
    requires length_count { length lengths.now ≡ length sites.now }
    requires lengths { HoldsGreatest (sites_view sites.now) (answer Length) lengths.now }
    ensures { IfOk result (λ v. v.items ≡ map (unit_measure (sites_view sites.now)) (sites_view sites.now)) }
{
    let mut all = Vec::new(alloc);
    for (i, segment) in sites.iter().enumerate() {
        let first = places[i];
        all.push(part_measure(segment, first == i, alignments[first], lengths[first]))?;
    }
    Ok(all)
}

/// How each segment is placed.
fn measures<A: Allocator + Copy>(
    alloc: A,
    sites: &[Site<'_>],
    places: &[usize],
) -> Result<Vec<Measure, A>, AllocError>
    requires numbered { IsNumberedFrom 0 (sites_view sites.now) }
    requires places { places.now ≡ map (segment_place (sites_view sites.now)) (sites_view sites.now) }
    ensures { IfOk result (λ v. v.items ≡ map (unit_measure (sites_view sites.now)) (sites_view sites.now)) }
{
    let alignments = greatest_of(alloc, sites, places, Asked::Alignment)?;
    let lengths = greatest_of(alloc, sites, places, Asked::Length)?;
    measure_parts(alloc, sites, places, &alignments, &lengths)
}

/// Gives a unit its address, after an end, and answers where it ends. Any other part of a common segment waits.
fn place_unit(
    addresses: &mut [u128],
    segment: &Site<'_>,
    leads: bool,
    as_is: Measure,
    end: u128,
) -> u128
    requires within { segment.now.position < length addresses.old }
    requires positive { 0 < as_is.alignment }
    requires alignment { as_is.alignment ≤ 256 }
    requires length { as_is.length ≤ 65536 }
    requires room { end + 65792 < 2 ^ 128 }
    ensures { Places (not (is_kind Common segment.now.segment.standing) || leads) as_is end
        addresses.old addresses.new result segment.now.position }
{
    if segment.is_common() && !leads {
        return end;
    }
    let start = next_start(end, as_is.alignment);
    addresses[segment.position] = start;
    start + as_is.length
}

/// Gives each unit its address, in the order of placement, and answers where the last one ends.
fn place_units(
    addresses: &mut [u128],
    sites: &[Site<'_>],
    ranks: &[Rank],
    measures: &[Measure],
) -> u128
    requires order { ranks.now ≡ map (rank (sites_view sites.now)) (placement_order (sites_view sites.now)) }
    requires numbered { IsNumberedFrom 0 (sites_view sites.now) }
    requires measures { measures.now ≡ map (unit_measure (sites_view sites.now)) (sites_view sites.now) }
    requires bounds { AllByRecursion (IsUnitBounded (sites_view sites.now)) (placement_order (sites_view sites.now)) }
    requires table { length addresses.old ≡ length sites.now }
    ensures follow { FollowFrom (sites_view sites.now) addresses.new 0 (units (sites_view sites.now)) result }
    ensures kept { KeepsOthers (sites_view sites.now) addresses.old addresses.new }
    ensures small { result < 2 ^ 127 }
{
    let mut end = 0;
    for rank in ranks {
        let segment = &sites[rank.own];
        let leads = rank.segment == rank.own;
        end = place_unit(addresses, segment, leads, measures[rank.own], end);
    }
    end
}

/// The address of a segment, from its own as a unit and that of its combined segment's first part.
fn settled_address(segment: &Site<'_>, standing: Standing, own: u128, first: u128) -> u128
    ensures { result ≡ settled_by (site segment.now) own first standing }
{
    match standing {
        Standing::Absolute { frame, offset } => 16 * u128::from(frame) + u128::from(offset),
        Standing::Relocatable { .. } => { if segment.is_common() { first } else { own } }
    }
}

/// The address of each segment, once the units have theirs.
fn settle<A: Allocator + Copy>(
    alloc: A,
    addresses: &[u128],
    sites: &[Site<'_>],
    places: &[usize],
) -> Result<Vec<u128, A>, AllocError>
    requires numbered { IsNumberedFrom 0 (sites_view sites.now) }
    requires places { places.now ≡ map (segment_place (sites_view sites.now)) (sites_view sites.now) }
    requires table { length addresses.now ≡ length sites.now }
    ensures { IfOk result (λ v. v.items ≡ map (settled (sites_view sites.now) addresses.now) (sites_view sites.now)) }
{
    let mut all = Vec::new(alloc);
    for (i, segment) in sites.iter().enumerate() {
        let first = places[i];
        let address = settled_address(
            segment,
            segment.segment.standing,
            addresses[i],
            addresses[first],
        );
        all.push(address)?;
    }
    Ok(all)
}

/// The address of every segment, by position, and the size of the program.
#[derive(Drop)]
pub(crate) struct Placing<A: Allocator + Copy> {
    pub addresses: Vec<u128, A>,
    pub size: u128,
}

/// Gives each unit its address.
fn start_units<A: Allocator + Copy>(
    alloc: A,
    sites: &[Site<'_>],
    ranks: &[Rank],
    places: &[usize],
) -> Result<Placing<A>, AllocError>
    requires numbered { IsNumberedFrom 0 (sites_view sites.now) }
    requires order { ranks.now ≡ map (rank (sites_view sites.now)) (placement_order (sites_view sites.now)) }
    requires places { places.now ≡ map (segment_place (sites_view sites.now)) (sites_view sites.now) }
    requires bounds { AllByRecursion (IsUnitBounded (sites_view sites.now)) (placement_order (sites_view sites.now)) }
    ensures len { IfOk result (λ p. length p.addresses.items ≡ length sites.now) }
    ensures follow { IfOk result
        (λ p. FollowFrom (sites_view sites.now) p.addresses.items 0 (units (sites_view sites.now)) p.size) }
    ensures small { IfOk result (λ p. p.size < 2 ^ 127) }
{
    let measures = measures(alloc, sites, places)?;
    let mut addresses = vec![in alloc; 0u128; sites.len()]?;
    let size = place_units(&mut addresses, sites, ranks, &measures);
    Ok(Placing { addresses, size })
}

/// Places the parts.
pub(crate) fn place_parts<A: Allocator + Copy>(
    alloc: A,
    sites: &[Site<'_>],
    ranks: &[Rank],
    places: &[usize],
) -> Result<Placing<A>, AllocError>
    requires numbered { IsNumberedFrom 0 (sites_view sites.now) }
    requires sound { AllByRecursion (λ a. SegmentFits a.segment) (sites_view sites.now) }
    requires order { ranks.now ≡ map (rank (sites_view sites.now)) (placement_order (sites_view sites.now)) }
    requires places { places.now ≡ map (segment_place (sites_view sites.now)) (sites_view sites.now) }
    ensures placed { IfOk result (λ p. IsPlaced (sites_view sites.now) p.addresses.items p.size) }
    ensures only { IfOk result (λ p. IsOnlyPlacement (sites_view sites.now) p.addresses.items p.size) }
    ensures small { IfOk result (λ p. IsSmall p.addresses.items) }
{
    let started = start_units(alloc, sites, ranks, places)?;
    let addresses = settle(alloc, &started.addresses, sites, places)?;
    Ok(Placing {
        addresses,
        size: started.size,
    })
}
