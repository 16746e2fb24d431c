//! A map by name: a name means the only entry whose name agrees with it.

ghost use Rattle.std.specs.Prelude.{◌≡◌, IfOk, None, is_some, true, false};
ghost use Rattle.omf_place.specs.inside.HeldNames.{exact_table, folded_table, with_entry};
ghost use Rattle.omf_place.specs.Names.{means};
ghost use Rattle.omf_place.specs.inside.Steps.{empty};

use crate::folded::FoldedName;
use crate::names::Names;
use indexmap::IndexMap;
use std::alloc::{AllocError, Allocator};
use std::hash::{BuildHasherDefault, FoldHasher};
use std::marker::Model;

type ByExact<V, A> = IndexMap<Vec<u8, A>, V, BuildHasherDefault<FoldHasher>, A>;

type ByFolded<V, A> = IndexMap<FoldedName<'static, A>, V, BuildHasherDefault<FoldHasher>, A>;

/// What a name means where names agree byte for byte.
fn exact_value<V: Copy, A: Allocator + Copy>(by_name: &ByExact<V, A>, name: &[u8]) -> Option<V>
    ensures { result ≡ means (exact_table by_name.now.entries) name.now }
{
    by_name.get(name).copied()
}

/// What a name means where names agree without regard to case.
fn folded_value<V: Copy, A: Allocator + Copy>(by_name: &ByFolded<V, A>, name: &[u8]) -> Option<V>
    ensures { result ≡ means (folded_table by_name.now.entries) name.now }
{
    by_name.get(&FoldedName::Asked(name)).copied()
}

/// Adds a name at the end, or says that it is there, and gives it another value.
fn add_exact<V: Copy, A: Allocator + Copy>(
    alloc: A,
    by_name: &mut ByExact<V, A>,
    name: &[u8],
    value: V,
) -> Result<bool, AllocError>
    ensures fresh { IfOk result
        (λ fresh. fresh ≡ true →
        exact_table by_name.new.entries ≡ with_entry (exact_table by_name.old.entries) name.now value) }
    ensures absent { IfOk result (λ fresh. fresh ≡ true → means (exact_table by_name.old.entries) name.now ≡ None) }
    ensures there { IfOk result
        (λ fresh. fresh ≡ false → is_some (means (exact_table by_name.old.entries) name.now) ≡ true) }
{
    let key = Vec::from_slice(alloc, name)?;
    let earlier = by_name.insert(key, value)?;
    Ok(earlier.is_none())
}

/// Adds a name at the end, or says that one that agrees without regard to case is there, and gives that another value.
fn add_folded<V: Copy, A: Allocator + Copy>(
    alloc: A,
    by_name: &mut ByFolded<V, A>,
    name: &[u8],
    value: V,
) -> Result<bool, AllocError>
    ensures fresh { IfOk result
        (λ fresh. fresh ≡ true →
        folded_table by_name.new.entries ≡ with_entry (folded_table by_name.old.entries) name.now value) }
    ensures absent { IfOk result (λ fresh. fresh ≡ true → means (folded_table by_name.old.entries) name.now ≡ None) }
    ensures there { IfOk result
        (λ fresh. fresh ≡ false → is_some (means (folded_table by_name.old.entries) name.now) ≡ true) }
{
    let key = FoldedName::Held(Vec::from_slice(alloc, name)?);
    let earlier = by_name.insert(key, value)?;
    Ok(earlier.is_none())
}

/// A map for each choice.
#[derive(Drop)]
pub(crate) enum ByName<V: Copy, A: Allocator + Copy> {
    Exact(ByExact<V, A>),
    AsciiFolded(ByFolded<V, A>),
}

/// Values by name, with the names as they were read, in the order in which they were added. The hash has a fixed seed.
#[derive(Drop)]
pub(crate) struct Named<V: Copy, A: Allocator + Copy> {
    by_name: ByName<V, A>,
}

impl<V: Copy, A: Allocator + Copy> Model for Named<V, A> {
    ghost use Rattle.omf_place.specs.inside.HeldNames.{table_view};
    ghost use Rattle.omf_place.specs.Names.{Table};

    ghost Value = { Table V };

    ghost view = { λ n. table_view n.by_name };
}

impl<V: Copy, A: Allocator + Copy> Named<V, A> {
    /// No names.
    pub(crate) fn new(alloc: A, names: Names) -> Self
        ensures { result ≡ empty names }
    {
        Named {
            by_name: match names {
                Names::Exact => ByName::Exact(IndexMap::new(alloc)),
                Names::AsciiFolded => ByName::AsciiFolded(IndexMap::new(alloc)),
            },
        }
    }

    /// What a name means. It takes no memory.
    pub(crate) fn get(&self, name: &[u8]) -> Option<V>
        ensures { result ≡ means self.now name.now }
    {
        match &self.by_name {
            ByName::Exact(by_name) => exact_value(by_name, name),
            ByName::AsciiFolded(by_name) => folded_value(by_name, name),
        }
    }

    /// Adds a name with its value at the end, or says that one that agrees is there, which may then have another value.
    pub(crate) fn add(&mut self, alloc: A, name: &[u8], value: V) -> Result<bool, AllocError>
        ensures fresh { IfOk result (λ fresh. fresh ≡ true → self.new ≡ with_entry self.old name.now value) }
        ensures absent { IfOk result (λ fresh. fresh ≡ true → means self.old name.now ≡ None) }
        ensures there { IfOk result (λ fresh. fresh ≡ false → is_some (means self.old name.now) ≡ true) }
    {
        match &mut self.by_name {
            ByName::Exact(by_name) => add_exact(alloc, by_name, name, value),
            ByName::AsciiFolded(by_name) => add_folded(alloc, by_name, name, value),
        }
    }
}
