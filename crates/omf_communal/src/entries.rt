//! The entries of COMDEF (TIS OMF 1.1, "COMDEF").

ghost use Rattle.std.specs.Prelude.{◌≡◌, ◌<◌, ◌≤◌, length, IfOk};
ghost use Rattle.omf_communal.specs.Entries.{entry_front, extent_front, far_front, near_front};
ghost use Rattle.omf_communal.specs.inside.Views.{entry_said, extent_said};

use crate::declarations::{Entry, Extent};
use crate::fault::EntryFault;
use crate::fields::{take_name, take_number};
use omf_library::take_index;

/// The length of a near variable.
fn take_near(bytes: &[u8]) -> Result<(Extent, &[u8]), EntryFault>
    ensures extent { extent_said result ≡ near_front bytes.now }
    ensures no_longer { IfOk result (λ x. length x.1.now ≤ length bytes.now) }
{
    let Some((length, rest)) = take_number(bytes) else {
        return Err(EntryFault::Body);
    };
    Ok((Extent::Near { length }, rest))
}

/// The count and the size of a far variable's elements.
fn take_far(bytes: &[u8]) -> Result<(Extent, &[u8]), EntryFault>
    ensures extent { extent_said result ≡ far_front bytes.now }
    ensures no_longer { IfOk result (λ x. length x.1.now ≤ length bytes.now) }
{
    let Some((count, rest)) = take_number(bytes) else {
        return Err(EntryFault::Body);
    };
    let Some((size, rest)) = take_number(rest) else {
        return Err(EntryFault::Body);
    };
    Ok((Extent::Far { count, size }, rest))
}

/// The data type at the front of the bytes, 62H near or 61H far, with the numbers behind it.
fn take_extent(bytes: &[u8]) -> Result<(Extent, &[u8]), EntryFault>
    ensures extent { extent_said result ≡ extent_front bytes.now }
    ensures no_longer { IfOk result (λ x. length x.1.now ≤ length bytes.now) }
{
    let [kind, rest @ ..] = bytes else {
        return Err(EntryFault::Body);
    };
    if *kind == 0x62 {
        take_near(rest)
    } else if *kind == 0x61 {
        take_far(rest)
    } else {
        Err(EntryFault::DataType)
    }
}

/// The entry at the front of the bytes: a name, a type index, a data type and its numbers.
#[tactic(auto, unfolding(crate::specs::Entries::entry_front))]
pub(crate) fn take_entry(bytes: &[u8]) -> Result<Entry<'_>, EntryFault>
    ensures said { entry_said result ≡ entry_front bytes.now }
    ensures shorter { IfOk result (λ e. length e.rest.now < length bytes.now) }
{
    let Some((name, rest)) = take_name(bytes) else {
        return Err(EntryFault::Body);
    };
    let Some((_, rest)) = take_index(rest) else {
        return Err(EntryFault::Body);
    };
    let (extent, rest) = take_extent(rest)?;
    Ok(Entry { name, extent, rest })
}
