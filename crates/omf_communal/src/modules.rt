//! The communal variables that the modules of a program declare, and the names that they offer.

ghost use Rattle.std.specs.Prelude.{◌≡◌, ◌++◌, ◌||◌, ℕ, Bool, List, IfOk, OnOk, filter, map, not};
ghost use Rattle.std.specs.Borrow.{Bor};
ghost use Rattle.std.specs.List.{enumerate_from, list_any};
ghost use Rattle.indexmap.specs.IndexSet.{contains};
ghost use Rattle.omf_place.specs.Names.{agrees};
ghost use Rattle.omf_communal.specs.Modules as told;
ghost use Rattle.omf_communal.specs.Modules.{bytes_of, module_said};
ghost use Rattle.omf_communal.specs.Reading.{plain_communal};
ghost use Rattle.omf_keys.specs.Keys.{key_of, same_key};
ghost use Rattle.omf_communal.specs.inside.Met.{declared_said};

use crate::declarations::{Communal, Declared, Declaring, Whose};
use indexmap::IndexSet;
use omf_keys::Key;
use omf_place::Names;
use std::alloc::{AllocError, Allocator};
use std::hash::{BuildHasherDefault, FoldHasher};

/// The names that modules offer.
pub(crate) type NameSet<'a, A> = IndexSet<Key<'a>, BuildHasherDefault<FoldHasher>, A>;

/// Adds names that are offered.
pub(crate) fn insert_offered<'a, A: Allocator + Copy>(
    offered: &mut NameSet<'a, A>,
    names: Names,
    more: &[&'a [u8]],
) -> Result<(), AllocError>
    ensures { OnOk result ((q : Bor (List ℕ)) →
        contains same_key offered.new (key_of names q) ≡
        (contains same_key offered.old (key_of names q) || list_any (agrees names q.now) (bytes_of more.now))) }
{
    for name in more {
        offered.insert(Key::new(names, name))?;
    }
    Ok(())
}

/// The names that modules offer.
pub(crate) fn offered_names<'a, A: Allocator + Copy>(
    alloc: A,
    names: Names,
    modules: &[Declaring<'_, 'a>],
) -> Result<NameSet<'a, A>, AllocError>
    ensures { IfOk result (λ offered. (q : Bor (List ℕ)) →
        contains same_key offered (key_of names q) ≡ told.is_offered names (map module_said modules.now) q.now) }
{
    let mut offered = IndexSet::new(alloc);
    for declaring in modules {
        insert_offered(&mut offered, names, declaring.offered)?;
    }
    Ok(offered)
}

/// Appends what a module declares.
fn push_declared<'a, A: Allocator + Copy>(
    declared: &mut Vec<Declared<'a>, A>,
    index: usize,
    communals: &[Communal<'a>],
) -> Result<(), AllocError>
    ensures { OnOk result (map declared_said declared.new.items ≡ map declared_said declared.old.items
        ++ map (told.declared_at index) (enumerate_from 0 (map plain_communal communals.now))) }
{
    for (communal, each) in communals.iter().enumerate() {
        declared.push(Declared {
            name: each.name,
            extent: each.extent,
            whose: Whose {
                module: index,
                communal,
            },
        })?;
    }
    Ok(())
}

/// What modules declare, in their order.
fn all_declared<'a, A: Allocator + Copy>(
    alloc: A,
    modules: &[Declaring<'_, 'a>],
) -> Result<Vec<Declared<'a>, A>, AllocError>
    ensures { IfOk result (λ v. map declared_said v.items ≡ told.all_declared (map module_said modules.now)) }
{
    let mut declared = Vec::new(alloc);
    for (index, declaring) in modules.iter().enumerate() {
        push_declared(&mut declared, index, declaring.communals)?;
    }
    Ok(declared)
}

/// Whether one of the names that are offered is this one.
pub(crate) fn is_offered<'a, A: Allocator + Copy>(
    offered: &NameSet<'a, A>,
    names: Names,
    name: &'a [u8],
) -> bool
    ensures { result ≡ contains same_key offered.now (key_of names name.entry) }
{
    offered.contains(&Key::new(names, name))
}

/// Those of some declarations whose names aren't offered, in their order.
fn unoffered<'a, A: Allocator + Copy>(
    alloc: A,
    names: Names,
    offered: &NameSet<'a, A>,
    declared: &[Declared<'a>],
) -> Result<Vec<Declared<'a>, A>, AllocError>
    // By whatever says of each name whether it is offered.
    ensures { IfOk result (λ v. (offers : List ℕ → Bool) →
        ((q : Bor (List ℕ)) → contains same_key offered.now (key_of names q) ≡ offers q.now) →
        map declared_said v.items ≡ filter (λ d. not (offers d.name)) (map declared_said declared.now)) }
{
    let mut wanted = Vec::new(alloc);
    for each in declared {
        if !is_offered(offered, names, each.name) {
            wanted.push(*each)?;
        }
    }
    Ok(wanted)
}

/// What modules declare and none offers, in their order.
pub(crate) fn wanted<'a, A: Allocator + Copy>(
    alloc: A,
    names: Names,
    modules: &[Declaring<'_, 'a>],
) -> Result<Vec<Declared<'a>, A>, AllocError>
    ensures { IfOk result (λ v. map declared_said v.items ≡ told.wanted names (map module_said modules.now)) }
{
    let offered = offered_names(alloc, names, modules)?;
    let declared = all_declared(alloc, modules)?;
    unoffered(alloc, names, &offered, &declared)
}
