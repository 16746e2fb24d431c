//! Where combined segments start and end.

ghost use Rattle.std.specs.Prelude.{◌≡◌, ◌+◌, ◌*◌, ◌/◌, ◌<◌, ◌^◌, ◌&&◌, nat_eq, nat_lt, IfOk, find, length, map};
ghost use Rattle.std.specs.List.{AllByRecursion};
ghost use Rattle.std.specs.Option.{option_map};
ghost use Rattle.omf_place.specs.inside.Steps.{is_long_segment};
ghost use Rattle.omf_place.specs.inside.Keys.{segment_place};
ghost use Rattle.omf_place.specs.inside.Numbered.{IsNumberedFrom};
ghost use Rattle.omf_place.specs.Excess.{excess_in, segment_excesses};
ghost use Rattle.omf_place.specs.Parts.{placement_order};
ghost use Rattle.omf_place.specs.inside.Ranks.{rank};
ghost use Rattle.omf_place.specs.inside.Sites.{site, sites_view};
ghost use Rattle.omf_place.specs.inside.Small.{IsSmall};
ghost use Rattle.omf_place.specs.inside.Spans.{AreSpans, IsLow, addresses_in, span_of};
ghost use Rattle.omf_place.specs.Tables.{combined_segment as combined_at, leaders};
ghost use Rattle.omf_place.specs.declared.greatest.Asked.TheVariants.{End};
ghost use Rattle.omf_place.specs.inside.Greatest.{HoldsGreatest, answer};

use crate::greatest::{Asked, greatest_of};
use crate::layout::Combined;
use crate::order::Rank;
use crate::sites::Site;
use std::alloc::{AllocError, Allocator};

/// The address of a segment, and the start and the end of its combined segment.
#[derive(Clone, Copy)]
pub(crate) struct SegmentSpan {
    pub address: u128,
    pub start: u128,
    pub end: u128,
}

impl SegmentSpan {
    /// Whether the combined segment ends more than 65,536 bytes above its frame.
    fn is_long(self) -> bool
        requires { self.start < 2 ^ 127 }
        ensures { result ≡ nat_lt (16 * (self.start / 16) + 65536) self.end }
    {
        16 * (self.start / 16) + 65536 < self.end
    }

    /// By how many bytes the combined segment ends more than 65,536 above its frame.
    fn excess(self) -> u128
        requires { self.start < 2 ^ 127 }
        ensures { result ≡ excess_in (self.start / 16) self.end }
    {
        self.end.saturating_sub(16 * (self.start / 16) + 65536)
    }
}

/// Where each segment stands, and where its combined segment starts and ends.
fn gather_spans<A: Allocator + Copy>(
    alloc: A,
    sites: &[Site<'_>],
    places: &[usize],
    addresses: &[u128],
    ends: &[u128],
) -> Result<Vec<SegmentSpan, A>, AllocError>
    requires numbered { IsNumberedFrom 0 (sites_view sites.now) }
    requires places { places.now ≡ map (segment_place (sites_view sites.now)) (sites_view sites.now) }
    requires table { length addresses.now ≡ length sites.now }
    requires count { length ends.now ≡ length sites.now }
    requires ends { HoldsGreatest (sites_view sites.now) (answer (End addresses)) ends.now }
    ensures { IfOk result (λ v. v.items ≡ map (span_of (sites_view sites.now) addresses.now) (sites_view sites.now)) }
{
    let mut all = Vec::new(alloc);
    for (i, place) in places.iter().enumerate() {
        let place = *place;
        all.push(SegmentSpan {
            address: addresses[i],
            start: addresses[place],
            end: ends[place],
        })?;
    }
    Ok(all)
}

/// For each segment, the start and the end of its combined segment.
pub(crate) fn segment_spans<A: Allocator + Copy>(
    alloc: A,
    sites: &[Site<'_>],
    places: &[usize],
    addresses: &[u128],
) -> Result<Vec<SegmentSpan, A>, AllocError>
    requires numbered { IsNumberedFrom 0 (sites_view sites.now) }
    requires places { places.now ≡ map (segment_place (sites_view sites.now)) (sites_view sites.now) }
    requires table { length addresses.now ≡ length sites.now }
    requires small { IsSmall addresses.now }
    ensures { IfOk result (λ v. v.items ≡ map (span_of (sites_view sites.now) addresses.now) (sites_view sites.now)) }
{
    let ends = greatest_of(alloc, sites, places, Asked::End(addresses))?;
    gather_spans(alloc, sites, places, addresses, &ends)
}

/// Whether a part is the first of its combined segment, and that one is too long.
fn is_long_leader(rank: Rank, span: SegmentSpan) -> bool
    requires { span.start < 2 ^ 127 }
    ensures { result ≡ nat_eq rank.segment rank.own && nat_lt (16 * (span.start / 16) + 65536) span.end }
{
    rank.segment == rank.own && span.is_long()
}

/// The first combined segment, in the order of placement, that ends more than 65,536 bytes above its frame: its first
/// part.
pub(crate) fn first_long_segment<'s, 'a>(
    sites: &'s [Site<'a>],
    ranks: &[Rank],
    spans: &[SegmentSpan],
) -> Option<&'s Site<'a>>
    requires order { ranks.now ≡ map (rank (sites_view sites.now)) (placement_order (sites_view sites.now)) }
    requires numbered { IsNumberedFrom 0 (sites_view sites.now) }
    requires spans { AreSpans (sites_view sites.now) spans.now }
    requires small { IsSmall (addresses_in spans.now) }
    ensures { option_map (λ a. site a.now) result ≡
        find (is_long_segment (sites_view sites.now) (addresses_in spans.now)) (leaders (sites_view sites.now)) }
{
    for rank in ranks {
        let a = &sites[rank.own];
        if is_long_leader(*rank, spans[rank.own]) {
            return Some(a);
        }
    }
    None
}

/// By how many bytes the first combined segment, in the order of placement, is too long that is.
pub(crate) fn first_segment_excess(
    sites: &[Site<'_>],
    ranks: &[Rank],
    spans: &[SegmentSpan],
) -> Option<u128>
    requires order { ranks.now ≡ map (rank (sites_view sites.now)) (placement_order (sites_view sites.now)) }
    requires numbered { IsNumberedFrom 0 (sites_view sites.now) }
    requires spans { AreSpans (sites_view sites.now) spans.now }
    requires small { IsSmall (addresses_in spans.now) }
    ensures { result ≡ find (nat_lt 0) (segment_excesses (sites_view sites.now) (addresses_in spans.now)) }
{
    match first_long_segment(sites, ranks, spans) {
        None => None,
        Some(first) => Some(spans[first.position].excess()),
    }
}

/// The combined segments, in the order of placement.
pub(crate) fn combined_segments<A: Allocator + Copy>(
    alloc: A,
    sites: &[Site<'_>],
    ranks: &[Rank],
    spans: &[SegmentSpan],
) -> Result<Vec<Combined, A>, AllocError>
    requires order { ranks.now ≡ map (rank (sites_view sites.now)) (placement_order (sites_view sites.now)) }
    requires numbered { IsNumberedFrom 0 (sites_view sites.now) }
    requires spans { AreSpans (sites_view sites.now) spans.now }
    requires low { AllByRecursion IsLow spans.now }
    ensures { IfOk result (λ v. v.items ≡
        map (combined_at (sites_view sites.now) (addresses_in spans.now)) (leaders (sites_view sites.now))) }
{
    let mut all = Vec::new(alloc);
    for rank in ranks {
        if rank.segment == rank.own {
            all.push(combined_segment(&sites[rank.own], spans[rank.own]))?;
        }
    }
    Ok(all)
}

/// A combined segment, by its first part.
fn combined_segment(first: &Site<'_>, span: SegmentSpan) -> Combined
    requires { IsLow span }
    ensures { result ≡ record {
      start = span.start;
      end = span.end;
      input = first.now.input;
      segment = first.now.number;
    } }
{
    Combined {
        start: span.start as u32,
        end: span.end as u32,
        input: first.input,
        segment: first.number,
    }
}
