//! The checks, each on the tables as they stand before a record.
ghost use Rattle.std.specs.Prelude.{◌≡◌, ◌+◌, ◌==◌, ◌||◌, ◌<◌, nat_lt, nat_le, length, List};
ghost use Rattle.std.specs.Option.{option_copied};
ghost use Rattle.omf_module.specs.Before.{entry};
ghost use Rattle.omf_module.specs.Faults as faults;
ghost use Rattle.omf_module.specs.inside.Checking as checking;
ghost use Rattle.omf_module.specs.inside.Checking.{◌⊓◌};

use crate::Standing;
use crate::fault::CheckFault;
use omf_record::Location;

/// Of two faults the one with the smaller number.
pub fn smaller(one: Option<CheckFault>, other: Option<CheckFault>) -> Option<CheckFault>
    ensures { result ≡ one ⊓ other }
{
    match (one, other) {
        (None, other) => other,
        (one, None) => one,
        (Some(f), Some(g)) => if f.label().0 <= g.label().0 {
            Some(f)
        } else {
            Some(g)
        },
    }
}

/// The fault, where the test holds.
pub fn when(test: bool, fault: CheckFault) -> Option<CheckFault>
    ensures { result ≡ checking.when test fault }
{
    if test { Some(fault) } else { None }
}

/// Whether an index that may be 0 is beyond the end of a list of this length.
pub fn is_beyond(len: usize, index: u16) -> bool
    ensures { result ≡ nat_lt len index }
{
    len < usize::from(index)
}

/// Whether an index that has to mean something in a list of this length is 0 or beyond its end.
pub fn misses(len: usize, index: u16) -> bool
    ensures { result ≡ (index == 0 || nat_lt len index) }
{
    index == 0 || is_beyond(len, index)
}

/// What an index means: the n-th of the list, counted from 1.
pub fn entry<T>(list: &[T], index: u16) -> Option<&T>
    ensures { option_copied result ≡ entry list.now index }
{
    if misses(list.len(), index) {
        None
    } else {
        Some(&list[usize::from(index) - 1])
    }
}

/// Whether a segment is absolute.
pub fn is_absolute(standing: Standing) -> bool
    ensures { result ≡ faults.is_absolute standing }
{
    matches!(standing, Standing::Absolute { .. })
}

/// Whether a location holds a base, which can't be relative to itself.
pub fn holds_base(location: Location) -> bool
    ensures { result ≡ faults.holds_base location }
{
    matches!(location, Location::Base | Location::Pointer)
}
