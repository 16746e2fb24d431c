//! A map by names that needs no hash of them.

ghost use Rattle.std.specs.Prelude.{◌≡◌, ℕ, IfOk, List};
ghost use Rattle.omf_alias.specs.Ordered.{IsByName, value_of};

use crate::named::NamedValue;
use crate::sorted::{sort_by_name, value_in};
use omf_place::Names;
use std::alloc::{AllocError, Allocator};

/// Values by their names, in the order of these: one is found by halves, whatever the names are.
#[derive(Drop)]
pub struct NameMap<'a, V: Copy, A: Allocator + Copy> {
    pub(crate) names: Names,
    pub(crate) values: Vec<NamedValue<'a, V>, A>,
    ghost sorted: { IsByName names values.items },
}

impl<'a, V: Copy, A: Allocator + Copy> NameMap<'a, V, A> {
    /// These values. Of those whose names agree the first counts.
    pub fn new(names: Names, values: Vec<NamedValue<'a, V>, A>) -> Result<Self, AllocError>
        ensures { IfOk result (λ map. (name : List ℕ) →
            value_of map.names map.values.items name ≡ value_of names values.entry.items name) }
    {
        let mut values = values;
        sort_by_name(names, &mut values)?;
        Ok(NameMap { names, values })
    }

    /// The value of a name. It takes no memory.
    pub fn get(&self, name: &[u8]) -> Option<V>
        ensures { result ≡ value_of self.now.names self.now.values.items name.now }
    {
        value_in(self.names, &self.values, name)
    }
}
