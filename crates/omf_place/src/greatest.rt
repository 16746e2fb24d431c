//! The greatest of what is asked of the parts of each combined segment.

ghost use Rattle.std.specs.Prelude.{◌≡◌, ◌<◌, ℕ, IfOk, length, map, slice_index};
ghost use Rattle.std.specs.List.{AllByRecursion};
ghost use Rattle.omf_place.specs.inside.Greatest.{CanAnswer, HoldsGreatest, answer, greatest_at};
ghost use Rattle.omf_place.specs.inside.Keys.{segment_place};
ghost use Rattle.omf_place.specs.inside.Numbered.{IsNumberedFrom};
ghost use Rattle.omf_place.specs.inside.Sites.{site, sites_view};

use crate::sites::Site;
use std::alloc::{AllocError, Allocator};

/// What is asked of a segment.
#[derive(Clone, Copy)]
pub(crate) enum Asked<'a> {
    Alignment,
    Length,
    /// Where it ends, by the addresses of all segments.
    End(&'a [u128]),
}

impl Asked<'_> {
    /// What a segment answers.
    fn of(self, segment: &Site<'_>) -> u128
        requires { CanAnswer self (site segment.now) }
        ensures { result ≡ answer self.entry (site segment.now) }
    {
        let length = u128::from(segment.segment.length);
        match self {
            Asked::Alignment => u128::from(segment.alignment()),
            Asked::Length => length,
            Asked::End(addresses) => addresses[segment.position] + length,
        }
    }
}

/// At each place that is a first one, the greatest value of those first met there; 0 at the others.
fn greatest_by_first<A: Allocator + Copy>(
    alloc: A,
    firsts: &[usize],
    values: &[u128],
) -> Result<Vec<u128, A>, AllocError>
    requires same { length values.now ≡ length firsts.now }
    requires within { AllByRecursion (λ first. first < length firsts.now) firsts.now }
    ensures len { IfOk result (λ v. length v.items ≡ length firsts.now) }
    ensures each { IfOk result
        (λ v. (k : ℕ) → k < length firsts.now → slice_index v.items k ≡ greatest_at firsts.now values.now k) }
{
    let mut greatest = vec![in alloc; 0u128; firsts.len()]?;
    for (i, first) in firsts.iter().enumerate() {
        let first = *first;
        greatest[first] = greatest[first].max(values[i]);
    }
    Ok(greatest)
}

/// At the place of each combined segment, the greatest that its parts answer.
pub(crate) fn greatest_of<A: Allocator + Copy>(
    alloc: A,
    sites: &[Site<'_>],
    places: &[usize],
    asked: Asked<'_>,
) -> Result<Vec<u128, A>, AllocError>
    requires numbered { IsNumberedFrom 0 (sites_view sites.now) }
    requires places { places.now ≡ map (segment_place (sites_view sites.now)) (sites_view sites.now) }
    requires asked { AllByRecursion (CanAnswer asked) (sites_view sites.now) }
    ensures len { IfOk result (λ v. length v.items ≡ length sites.now) }
    ensures each { IfOk result (λ v. HoldsGreatest (sites_view sites.now) (answer asked.entry) v.items) }
{
    let mut answers = Vec::new(alloc);
    for segment in sites {
        answers.push(asked.of(segment))?;
    }
    greatest_by_first(alloc, places, &answers)
}
