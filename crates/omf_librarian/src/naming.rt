//! The names of a library's members: each is entered once, for the first member that has it.

ghost use Rattle.std.specs.Prelude.{◌≡◌, ◌<◌, ◌≤◌, ◌++◌, ◌∷◌, [], List, length, map, false, true, IfOk, OnOk};
ghost use Rattle.std.specs.List.{list_any};
ghost use Rattle.omf_library.specs.Names.{texts};
ghost use Rattle.omf_librarian.specs.Modules.{is_long};
ghost use Rattle.omf_librarian.specs.Naming as spec;
ghost use Rattle.omf_librarian.specs.Pages.{has_pages};
ghost use Rattle.omf_librarian.specs.inside.Members.{bytes_in};
ghost use Rattle.omf_librarian.specs.inside.Answers.{own_names};
ghost use Rattle.omf_librarian.specs.inside.Names.{Noted, named_as, named_view};

use crate::block::Entry;
use crate::module::Module;
use indexmap::IndexMap;
use std::alloc::{AllocError, Allocator};
use std::hash::{BuildHasherDefault, FoldHasher};

/// A name that a member has: its index, and the number of its page.
#[derive(Clone, Copy)]
struct Named<'n> {
    name: &'n [u8],
    member: usize,
    page: u16,
}

/// A name that two members have, or one member twice. A library's dictionary has it for the first.
#[derive(Drop)]
pub struct Doubled<A: Allocator + Copy> {
    /// The name; that of a module has `!` at its end.
    pub name: Vec<u8, A>,
    /// The index of the first member that has it.
    pub first: usize,
    /// The index of the other one.
    pub second: usize,
}

/// The members by the names that they have first. The hash has a fixed seed.
type FirstMembers<'n, A> = IndexMap<&'n [u8], usize, BuildHasherDefault<FoldHasher>, A>;

/// The names that are entered, and those that aren't entered again.
#[derive(Drop)]
pub(crate) struct Names<'n, A: Allocator + Copy> {
    first: FirstMembers<'n, A>,
    /// The entries of a dictionary.
    pub entries: Vec<Entry<'n>, A>,
    /// The names that stand there for another member.
    pub doubled: Vec<Doubled<A>, A>,
}

impl<'n, A: Allocator + Copy> Names<'n, A> {
    /// No names.
    fn new(alloc: A) -> Self
        ensures { Noted [] result }
    {
        Names {
            first: IndexMap::new(alloc),
            entries: Vec::new(alloc),
            doubled: Vec::new(alloc),
        }
    }

    /// Notes a name behind those before it.
    fn note(&mut self, alloc: A, named: Named<'n>) -> Result<(), AllocError>
        requires { length named.name.now ≤ 255 }
        ensures { OnOk result ((before : List spec.Named) → Noted before self.old →
            Noted (before ++ named_view named.entry ∷ []) self.new) }
    {
        if let Some(first) = self.first.get(&named.name).copied() {
            self.doubled.push(Doubled {
                name: Vec::from_slice(alloc, named.name)?,
                first,
                second: named.member,
            })?;
            return Ok(());
        }
        self.first.insert(named.name, named.member)?;
        self.entries.push(Entry {
            name: named.name,
            page: named.page,
        })?;
        Ok(())
    }

    /// Notes the name of a member itself, unless it is empty.
    fn note_own(
        &mut self,
        alloc: A,
        own: &'n [u8],
        member: usize,
        page: u16,
    ) -> Result<(), AllocError>
        requires { length own.now ≤ 255 }
        ensures { OnOk result ((before : List spec.Named) → Noted before self.old →
            Noted (before ++ map (named_as member page) (own_names own.entry.now)) self.new) }
    {
        if own.is_empty() {
            return Ok(());
        }
        self.note(
            alloc,
            Named {
                name: own,
                member,
                page,
            },
        )
    }

    /// Notes the names that a member offers.
    fn note_offered(
        &mut self,
        alloc: A,
        offered: &[&'n [u8]],
        member: usize,
        page: u16,
    ) -> Result<(), AllocError>
        requires { list_any is_long (texts offered.now) ≡ false }
        ensures { OnOk result ((before : List spec.Named) → Noted before self.old →
            Noted (before ++ map (named_as member page) (texts offered.now)) self.new) }
    {
        for name in offered {
            self.note(alloc, Named { name, member, page })?;
        }
        Ok(())
    }

    /// Notes the names of a member.
    fn note_member<'a: 'n>(
        &mut self,
        alloc: A,
        module: &'n Module<'a, A>,
        member: usize,
        page: u16,
    ) -> Result<(), AllocError>
        ensures { OnOk result ((before : List spec.Named) → Noted before self.old →
            Noted (before ++ spec.named_by member page module.entry.now.bytes.now) self.new) }
    {
        self.note_own(alloc, &module.own, member, page)?;
        self.note_offered(alloc, &module.says.offered, member, page)?;
        Ok(())
    }
}

/// The names of modules in their order, with pages of this size, which have numbers of 16 bits.
pub(crate) fn names_of<'n, 'a: 'n, A: Allocator + Copy>(
    alloc: A,
    size: usize,
    modules: &'n [Module<'a, A>],
) -> Result<Names<'n, A>, AllocError>
    requires size { 16 ≤ size }
    requires pages { has_pages (map bytes_in modules.now) size ≡ true }
    ensures { IfOk result (λ names. Noted (spec.all_named size 0 1 (map bytes_in modules.now)) names) }
{
    let mut names = Names::new(alloc);
    let mut page: usize = 1;
    for (member, module) in modules.iter().enumerate() {
        names.note_member(alloc, module, member, page as u16)?;
        page += module.bytes.len().div_ceil(size);
    }
    Ok(names)
}
