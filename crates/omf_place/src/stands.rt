//! Where each segment stands, in the numbers of a layout.

ghost use Rattle.std.specs.Prelude.{◌≡◌, ◌<◌, IfOk, map};
ghost use Rattle.std.specs.List.{AllByRecursion};
ghost use Rattle.omf_place.specs.inside.Sites.{sites_view};
ghost use Rattle.omf_place.specs.inside.Spans.{AreSpans, IsLow, addresses_in};
ghost use Rattle.omf_place.specs.inside.Stands.{IsFramed, StartsLow, placed_by, stand_by, stand_of};

use crate::layout::Position;
use crate::sites::Site;
use crate::spans::SegmentSpan;
use omf_module::Standing;
use std::alloc::{AllocError, Allocator};

/// The address of a segment, the frame of its combined segment or, where it is absolute, its own, and its combined
/// segment's end.
#[derive(Clone, Copy)]
pub(crate) struct Stand {
    pub address: u32,
    pub frame: u16,
    pub end: u32,
}

/// Where a segment stands, in narrow numbers.
fn stand_in(standing: Standing, span: SegmentSpan) -> Stand
    requires low { IsLow span }
    requires framed { IsFramed standing span }
    ensures { result ≡ stand_by standing span }
{
    let frame = match standing {
        Standing::Absolute { frame, .. } => frame,
        Standing::Relocatable { .. } => (span.start / 16) as u16,
    };
    Stand {
        address: span.address as u32,
        frame,
        end: span.end as u32,
    }
}

/// Where each segment stands.
pub(crate) fn collect_stands<A: Allocator + Copy>(
    alloc: A,
    sites: &[Site<'_>],
    spans: &[SegmentSpan],
) -> Result<Vec<Stand, A>, AllocError>
    requires spans { AreSpans (sites_view sites.now) spans.now }
    requires low { AllByRecursion IsLow spans.now }
    requires framed { AllByRecursion (StartsLow (sites_view sites.now) (addresses_in spans.now))
        (sites_view sites.now) }
    ensures { IfOk result (λ v. v.items ≡
        map (stand_of (sites_view sites.now) (addresses_in spans.now)) (sites_view sites.now)) }
{
    let mut all = Vec::new(alloc);
    for (i, a) in sites.iter().enumerate() {
        all.push(stand_in(a.segment.standing, spans[i]))?;
    }
    Ok(all)
}

/// A segment, placed.
pub(crate) fn placed_segment(standing: Standing, stand: Stand) -> Position
    ensures { result ≡ placed_by standing stand }
{
    match standing {
        Standing::Absolute { frame, offset } => {
            Position::Absolute(16 * u32::from(frame) + u32::from(offset), frame)
        }
        Standing::Relocatable { .. } => Position::Relocatable(stand.address, Some(stand.frame)),
    }
}
