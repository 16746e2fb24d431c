//! Names in an order, in which those that agree stand together.

ghost use Rattle.std.specs.Prelude.{◌≡◌};
ghost use Rattle.std.specs.Cmp.Lexicographic.{slice_cmp};
ghost use Rattle.std.specs.Ordering.{nat_cmp};
ghost use Rattle.omf_alias.specs.Ordered.{compared};
ghost use Rattle.omf_alias.specs.inside.Folded.{folded};

use omf_place::Names;
use std::cmp::Ordering;

/// How bytes stand to others, once 41H to 5AH have become 61H to 7AH.
fn folded_order(one: &[u8], other: &[u8]) -> Ordering
    ensures { result ≡ slice_cmp nat_cmp (folded one.now) (folded other.now) }
{
    let shared = one.len().min(other.len());
    for at in 0..shared {
        let order = one[at]
            .to_ascii_lowercase()
            .cmp(&other[at].to_ascii_lowercase());
        if order.is_ne() {
            return order;
        }
    }
    one.len().cmp(&other.len())
}

/// How a name stands to another one: `Equal` where they agree.
pub(crate) fn order(names: Names, one: &[u8], other: &[u8]) -> Ordering
    ensures { result ≡ compared names one.now other.now }
{
    match names {
        Names::Exact => one.cmp(&other),
        Names::AsciiFolded => folded_order(one, other),
    }
}
