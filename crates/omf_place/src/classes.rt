//! Whether a class stands in one frame.

ghost use Rattle.std.specs.Prelude.{◌≡◌, ◌/◌, Some, true, not, IfOk};
ghost use Rattle.std.specs.Option.{option_map_or};
ghost use Rattle.omf_place.specs.Classes as spec;
ghost use Rattle.omf_place.specs.Classes.{TellsFit};
ghost use Rattle.omf_place.specs.Faults.{is_too_long};
ghost use Rattle.omf_place.specs.Tables.{widen};
ghost use Rattle.omf_place.specs.inside.Sites.{site, sites_view};
ghost use Rattle.omf_place.specs.inside.Spans.{AreSpans, addresses_in};

use crate::placing::start_parts;
use crate::sites::{Site, collect_sites};
use crate::spans::SegmentSpan;
use omf_module::Module;
use std::alloc::{AllocError, Allocator};

/// The most bytes from a frame's first to the end of what it reaches.
const FRAME_REACH: u128 = 65_536;

/// Whether a segment is a part of a class.
fn is_of(segment: &Site<'_>, class: &[u8]) -> bool
    ensures { result ≡ spec.is_of class.now (site segment.now) }
{
    segment.is_part() && segment.segment.class == class
}

/// The least start and the greatest end of some combined segments and of one more.
fn widened(span: Option<(u128, u128)>, more: SegmentSpan) -> (u128, u128)
    ensures { Some result ≡ widen span more.start more.end }
{
    match span {
        None => (more.start, more.end),
        Some((start, end)) => (start.min(more.start), end.max(more.end)),
    }
}

/// The least start and the greatest end of a class, where it has parts.
fn class_span(sites: &[Site<'_>], spans: &[SegmentSpan], class: &[u8]) -> Option<(u128, u128)>
    requires { AreSpans (sites_view sites.now) spans.now }
    ensures { result ≡ spec.class_span (sites_view sites.now) (addresses_in spans.now) class.now }
{
    let mut span = None;
    for (index, segment) in sites.iter().enumerate() {
        if is_of(segment, class) {
            span = Some(widened(span, spans[index]));
        }
    }
    span
}

/// Whether what starts and ends so ends at most 65,536 bytes above its frame.
fn is_in_frame(span: Option<(u128, u128)>) -> bool
    ensures { result ≡ option_map_or (λ s. not (is_too_long (s.0 / 16) s.1)) span true }
{
    match span {
        None => true,
        Some((start, end)) => end.saturating_sub(start / 16 * 16) <= FRAME_REACH,
    }
}

/// Whether all segments of a class, with what combines with them, end at most 65,536 bytes above the paragraph in which
/// the first of them starts, as modules are placed in order of inputs. Absolute segments don't count.
///
/// A group of such segments is never too long then. It is told of modules that `place` refuses, too.
pub fn class_fits<A: Allocator + Copy>(
    alloc: A,
    modules: &[Module<A>],
    class: &[u8],
) -> Result<bool, AllocError>
    ensures { IfOk result (λ fits. TellsFit modules.now class.now fits) }
{
    let sites = collect_sites(alloc, modules)?;
    let started = start_parts(alloc, &sites)?;
    Ok(is_in_frame(class_span(&sites, &started.spans, class)))
}
