//! Aliases of a link, and behind them those of one of its modules.

ghost use Rattle.std.specs.Prelude.{◌≡◌, ◌++◌, ℕ, IfOk, List, map};
ghost use Rattle.omf_alias.specs.Layered.{said_of};
ghost use Rattle.omf_alias.specs.Meaning as spec;
ghost use Rattle.omf_alias.specs.Ordered.{IsByName};
ghost use Rattle.omf_alias.specs.Lent.{alias_said, aliases_said};
ghost use Rattle.omf_alias.specs.Told.{told};
ghost use Rattle.omf_alias.specs.Layers.{own_through, through, with_own};

use crate::ends::{ends_of, told_by};
use crate::named::NamedValue;
use crate::reading::Alias;
use crate::renaming::Renaming;
use omf_place::Names;
use std::alloc::{AllocError, Allocator};

/// Aliases, with what the name of each means.
#[derive(Drop)]
pub struct Aliases<'a, A: Allocator + Copy> {
    pub(crate) names: Names,
    pub(crate) aliases: Vec<Alias<'a>, A>,
    ends: Vec<NamedValue<'a, Option<&'a [u8]>>, A>,
    ghost sorted: { IsByName names ends.items },
    ghost means: { (name : List ℕ) → told names ends.items name ≡ spec.meaning (said_of names aliases.items) name },
}

/// Aliases, and those of one module behind them, with what the name of each means.
#[derive(Drop)]
pub struct OwnAliases<'r, 'a, A: Allocator + Copy> {
    pub(crate) names: Names,
    pub(crate) aliases: &'r [Alias<'a>],
    ends: &'r [NamedValue<'a, Option<&'a [u8]>>],
    pub(crate) own: Vec<Alias<'a>, A>,
    own_ends: Vec<NamedValue<'a, Option<&'a [u8]>>, A>,
    ghost sorted: { IsByName names ends.now },
    ghost own_sorted: { IsByName names own_ends.items },
    ghost means: { (name : List ℕ) → told names ends.now name ≡ spec.meaning (said_of names aliases.now) name },
    ghost own_means: { (name : List ℕ) → told names own_ends.items name
        ≡ spec.meaning (own_through (said_of names aliases.now) (aliases_said own.items)) name },
}

/// An alias of what it means by others, or of its own name where it means nothing by them.
fn through_ends<'a>(
    names: Names,
    aliases: &[Alias<'a>],
    ends: &[NamedValue<'a, Option<&'a [u8]>>],
    alias: &Alias<'a>,
) -> Alias<'a>
    requires sorted { IsByName names ends.now }
    requires means { (name : List ℕ) → told names ends.now name ≡ spec.meaning (said_of names aliases.now) name }
    ensures { alias_said result ≡ through (said_of names aliases.now) (alias_said alias.now) }
{
    Alias {
        place: alias.place,
        name: alias.name,
        meaning: told_by(names, ends, alias.meaning).unwrap_or(alias.name),
    }
}

/// Aliases of what they mean by others.
fn all_through<'a, A: Allocator + Copy>(
    alloc: A,
    names: Names,
    aliases: &[Alias<'a>],
    ends: &[NamedValue<'a, Option<&'a [u8]>>],
    own: &[Alias<'a>],
) -> Result<Vec<Alias<'a>, A>, AllocError>
    requires sorted { IsByName names ends.now }
    requires means { (name : List ℕ) → told names ends.now name ≡ spec.meaning (said_of names aliases.now) name }
    ensures { IfOk result
        (λ v. aliases_said v.items ≡ map (through (said_of names aliases.now)) (aliases_said own.now)) }
{
    let mut through = Vec::new(alloc);
    for alias in own {
        through.push(through_ends(names, aliases, ends, alias))?;
    }
    Ok(through)
}

impl<'a, A: Allocator + Copy> Aliases<'a, A> {
    ghost use Rattle.omf_alias.specs.Said.{own_said, renaming_said, shared_said};

    /// These aliases. Of those whose names agree the first counts.
    pub fn new(alloc: A, names: Names, aliases: Vec<Alias<'a>, A>) -> Result<Self, AllocError>
        ensures { IfOk result (λ all. shared_said all ≡ said_of names aliases.entry.items) }
    {
        let ends = ends_of(alloc, names, &aliases)?;
        Ok(Aliases {
            names,
            aliases,
            ends,
        })
    }

    /// What stands for what by them.
    pub fn renaming(&self) -> Renaming<'_, 'a>
        ensures { renaming_said result ≡ shared_said self.now }
    {
        let none = Renaming::none(self.names);
        Renaming {
            names: self.names,
            aliases: &self.aliases,
            own: none.own,
            ends: &self.ends,
            own_ends: none.own_ends,
        }
    }

    /// These aliases, and further ones behind them, of which alone it costs the look-ups.
    pub fn with(
        &self,
        alloc: A,
        own: Vec<Alias<'a>, A>,
    ) -> Result<OwnAliases<'_, 'a, A>, AllocError>
        ensures { IfOk result (λ all. own_said all ≡ with_own (shared_said self.now) (aliases_said own.entry.items)) }
    {
        let through = all_through(alloc, self.names, &self.aliases, &self.ends, &own)?;
        let own_ends = ends_of(alloc, self.names, &through)?;
        Ok(OwnAliases {
            names: self.names,
            aliases: &self.aliases,
            ends: &self.ends,
            own,
            own_ends,
        })
    }
}

impl<'r, 'a, A: Allocator + Copy> OwnAliases<'r, 'a, A> {
    ghost use Rattle.omf_alias.specs.Said.{own_said, renaming_said};

    /// What stands for what by them.
    pub fn renaming(&self) -> Renaming<'_, 'a>
        ensures { renaming_said result ≡ own_said self.now }
    {
        Renaming {
            names: self.names,
            aliases: self.aliases,
            own: &self.own,
            ends: self.ends,
            own_ends: &self.own_ends,
        }
    }
}
