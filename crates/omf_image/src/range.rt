//! The range tests of a fix-up whose frame and target are known.

ghost use Rattle.std.specs.Prelude.{◌≡◌, ◌+◌, ◌∷◌, []};
ghost use Rattle.std.specs.List.{list_all};
ghost use Rattle.omf_image.specs.declared.faults.FixKind.TheVariants.{Mixed, OutOfFrame, ShortTooFar};
ghost use Rattle.std.specs.Bool.{then_some};
ghost use Rattle.omf_module.specs.Before.{first};
ghost use Rattle.omf_image.specs.Faults.{is_mixed, out_of_frame, too_far, in_frame};
ghost use Rattle.omf_image.specs.inside.Distances.{fits_short};

use crate::faults::FixKind;
use crate::reference::Resolved;
use omf_record::Location;

/// Whether the location lies in the frame at each hit.
fn are_framed(resolved: &Resolved, start: u32, hits: &[u32]) -> bool
    ensures { result ≡ list_all (λ i. in_frame resolved.now (start + i)) hits.now }
{
    hits.iter()
        .all(|at| resolved.in_frame(u64::from(start) + u64::from(*at)))
}

/// Whether the distance fits a signed byte at each hit.
fn are_near(resolved: &Resolved, start: u32, hits: &[u32]) -> bool
    ensures { result ≡ list_all (λ i. fits_short resolved.now (start + i)) hits.now }
{
    hits.iter().all(|at| resolved.fits_short(u64::from(start) + u64::from(*at)))
}

/// Whether the target, or a location, lies outside of the frame.
fn is_out_of_frame(
    resolved: &Resolved,
    self_relative: bool,
    location: Location,
    start: u32,
    hits: &[u32],
) -> bool
    ensures { result ≡ out_of_frame self_relative location resolved.now hits.now start }
{
    match (self_relative, location) {
        (true, _) => !resolved.is_framed() | !are_framed(resolved, start, hits),
        (false, Location::Base) => false,
        (false, _) => !resolved.is_framed(),
    }
}

/// Whether a distance does not fit a signed byte.
fn is_too_far(
    resolved: &Resolved,
    self_relative: bool,
    location: Location,
    start: u32,
    hits: &[u32],
) -> bool
    ensures { result ≡ too_far self_relative location resolved.now hits.now start }
{
    match (self_relative, location) {
        (true, Location::LowByte) => !are_near(resolved, start, hits),
        (_, _) => false,
    }
}

/// The first range test that fails, at the hits of a location in data that stands at `start`.
pub fn range_fault(
    resolved: &Resolved,
    self_relative: bool,
    location: Location,
    start: u32,
    hits: &[u32],
) -> Option<FixKind>
    ensures { result ≡ first (then_some (is_mixed self_relative location resolved.now) Mixed
        ∷ then_some (out_of_frame self_relative location resolved.now hits.now start) OutOfFrame
        ∷ then_some (too_far self_relative location resolved.now hits.now start) ShortTooFar ∷ []) }
{
    if resolved.is_mixed(self_relative, location) {
        Some(FixKind::Mixed)
    } else if is_out_of_frame(resolved, self_relative, location, start, hits) {
        Some(FixKind::OutOfFrame)
    } else if is_too_far(resolved, self_relative, location, start, hits) {
        Some(FixKind::ShortTooFar)
    } else {
        None
    }
}
