//! Where two images differ.
ghost use Rattle.std.specs.Prelude.{◌≡◌, ◌≢◌, MatchOption, take, slice_get};

/// The place of the first byte at which two images differ: a byte of one that isn't the other's, or that the other,
/// which ends there, hasn't. None where they are the same.
pub fn first_difference(first: &[u8], second: &[u8]) -> Option<usize>
    ensures { MatchOption result (first.now ≡ second.now)
        (λ place. (take place first.now ≡ take place second.now)
        × (slice_get first.now place ≢ slice_get second.now place)) }
{
    let shared = first.len().min(second.len());
    for place in 0..shared {
        if first[place] != second[place] {
            return Some(place);
        }
    }
    if first.len() == second.len() {
        None
    } else {
        Some(shared)
    }
}
