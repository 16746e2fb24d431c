//! Values in the order of their names, in which one is found by halves.

ghost use Rattle.std.specs.Prelude.{◌≡◌, ℕ, List, OnOk};
ghost use Rattle.omf_alias.specs.Ordered.{IsByName, value_of};

use crate::named::NamedValue;
use crate::names::agree;
use crate::order::order;
use omf_place::Names;
use std::alloc::{AllocError, Allocator};

/// Brings values into the order of their names. Those whose names agree stay in their order.
pub(crate) fn sort_by_name<V: Copy, A: Allocator + Copy>(
    names: Names,
    values: &mut Vec<NamedValue<'_, V>, A>,
) -> Result<(), AllocError>
    ensures sorted { OnOk result (IsByName names values.new.items) }
    ensures kept { (name : List ℕ) → value_of names values.new.items name ≡ value_of names values.old.items name }
{
    values.sort_by(|one, other| order(names, one.name, other.name))?;
    Ok(())
}

/// The value of the first whose name agrees with a name.
pub(crate) fn value_in<V: Copy>(
    names: Names,
    values: &[NamedValue<'_, V>],
    name: &[u8],
) -> Option<V>
    requires { IsByName names values.now }
    ensures { result ≡ value_of names values.now name.now }
{
    let place = values.partition_point(|each| order(names, each.name, name).is_lt());
    let found = values.get(place)?;
    if agree(names, found.name, name) {
        Some(found.value)
    } else {
        None
    }
}
