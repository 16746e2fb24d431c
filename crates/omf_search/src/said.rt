//! What modules say of names, and where they stand.

ghost use Rattle.std.specs.Prelude.{◌≡◌};
ghost use Rattle.omf_search.specs.Results.{module_said, names_said, needs_said};

use omf_library::{Alias, ModuleNames};
use std::alloc::Allocator;

/// What a module says of names, each in the order of its records.
#[derive(Clone, Copy)]
pub struct Said<'m, 'a> {
    /// The names that it wants from other modules. One may stand more than once.
    pub wanted: &'m [&'a [u8]],
    /// The names of all externals that other modules may define, wanted or not.
    pub externals: &'m [&'a [u8]],
    /// The names that it offers to other modules.
    pub offered: &'m [&'a [u8]],
    /// The communal variables that it declares.
    pub communals: &'m [&'a [u8]],
    /// The names that it has for others.
    pub aliases: &'m [Alias<'a>],
}

impl<'m, 'a> Said<'m, 'a> {
    /// That of the names of a module.
    pub fn of<A: Allocator + Copy>(names: &'m ModuleNames<'a, A>) -> Said<'m, 'a>
        ensures { module_said result ≡ names_said names.now }
    {
        Said {
            wanted: names.wanted.as_slice(),
            externals: names.externals.as_slice(),
            offered: names.offered.as_slice(),
            communals: names.communals.as_slice(),
            aliases: names.aliases.as_slice(),
        }
    }

    /// The same once no more members are looked for: of the wanted names those that another module has to define.
    pub fn needs<A: Allocator + Copy>(names: &'m ModuleNames<'a, A>) -> Said<'m, 'a>
        ensures { module_said result ≡ needs_said names.now }
    {
        Said {
            wanted: names.needed.as_slice(),
            externals: names.externals.as_slice(),
            offered: names.offered.as_slice(),
            communals: names.communals.as_slice(),
            aliases: names.aliases.as_slice(),
        }
    }
}

/// A member of a library.
#[derive(Clone, Copy)]
pub struct Member<'m, 'a> {
    /// The index of the library, as the caller counts libraries.
    pub library: usize,
    /// The index of the member, as the caller counts members.
    pub member: usize,
    pub says: Said<'m, 'a>,
}

/// A name that a module wants.
#[derive(Clone, Copy)]
pub struct Wanted<'a> {
    /// The name, as the module spells it.
    pub name: &'a [u8],
    /// The index of the module among those of the link, from 0. Of what an alias stands for it is that of the alias.
    pub wanted_by: usize,
}
