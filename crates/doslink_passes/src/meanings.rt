//! What names mean in the modules that a link takes, as it is held: each look-up is one by halves.

ghost use Rattle.std.specs.Prelude.{◌≡◌, ◌++◌, ℕ, IfOk, OnOk, is_some, List, map};
ghost use Rattle.std.specs.List.{flat_map};
ghost use Rattle.omf_alias.specs.Ordered.{value_of};
ghost use Rattle.omf_alias.specs.Said.{aliases_said};
ghost use Rattle.omf_search.specs.Results.{bytes_of, module_said};
ghost use Rattle.doslink_passes.specs.Aliases as spec;
ghost use Rattle.doslink_passes.specs.inside.Defined.{defined_names, names_held};

use omf_alias::{Alias, Aliases, NameMap, NamedValue};
use omf_place::Names;
use omf_search::Said;
use std::alloc::{AllocError, Allocator};

/// What names mean in the modules of a link.
#[derive(Drop)]
pub struct Meanings<'r, 'h, 'a, A: Allocator + Copy> {
    /// Which names agree.
    pub names: Names,
    /// What the modules say of names.
    pub says: &'r [Said<'h, 'a>],
    /// The aliases of all modules.
    pub aliases: Aliases<'a, A>,
    /// The names that are defined.
    defined: NameMap<'a, bool, A>,
    ghost same: { aliases.names ≡ names },
    ghost right: { (name : List ℕ) → is_some (value_of defined.names defined.values.items name)
        ≡ spec.is_defined names (map module_said says.now) name },
}

/// Appends names.
fn push_names<'a, A: Allocator + Copy>(
    these: &[&'a [u8]],
    held: &mut Vec<NamedValue<'a, bool>, A>,
) -> Result<(), AllocError>
    ensures { OnOk result (names_held held.new.items ≡ names_held held.old.items ++ bytes_of these.now) }
{
    for name in these {
        held.push(NamedValue { name, value: true })?;
    }
    Ok(())
}

/// Appends the names that a module defines or needs.
fn push_defined<'a, A: Allocator + Copy>(
    says: &Said<'_, 'a>,
    held: &mut Vec<NamedValue<'a, bool>, A>,
) -> Result<(), AllocError>
    ensures { OnOk result
        (names_held held.new.items ≡ names_held held.old.items ++ defined_names (module_said says.now)) }
{
    push_names(says.offered, held)?;
    push_names(says.communals, held)?;
    push_names(says.wanted, held)?;
    Ok(())
}

/// Those of all modules.
fn defined_in<'a, A: Allocator + Copy>(
    alloc: A,
    says: &[Said<'_, 'a>],
) -> Result<Vec<NamedValue<'a, bool>, A>, AllocError>
    ensures { IfOk result (λ v. names_held v.items ≡ flat_map defined_names (map module_said says.now)) }
{
    let mut held = Vec::new(alloc);
    for each in says {
        push_defined(each, &mut held)?;
    }
    Ok(held)
}

impl<'r, 'h, 'a, A: Allocator + Copy> Meanings<'r, 'h, 'a, A> {
    /// What names mean by these aliases, where the modules of the link say so of names.
    pub(crate) fn new(
        alloc: A,
        names: Names,
        says: &'r [Said<'h, 'a>],
        aliases: Vec<Alias<'a>, A>,
    ) -> Result<Self, AllocError>
        ensures parts { IfOk result (λ m. (m.names ≡ names) × (m.says.now ≡ says.entry.now)) }
        ensures aliases { IfOk result (λ m. aliases_said m.aliases.aliases.items ≡ aliases_said aliases.entry.items) }
    {
        let held = defined_in(alloc, says)?;
        let defined = NameMap::new(names, held)?;
        let aliases = Aliases::new(alloc, names, aliases)?;
        Ok(Meanings {
            names,
            says,
            aliases,
            defined,
        })
    }

    /// Whether a name is defined. It takes no memory.
    pub(crate) fn is_defined(&self, name: &[u8]) -> bool
        ensures { result ≡ spec.is_defined self.now.names (map module_said self.now.says.now) name.now }
    {
        self.defined.get(name).is_some()
    }
}
