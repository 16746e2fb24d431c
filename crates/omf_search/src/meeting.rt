//! What the modules of a link want, in order of meeting.

ghost use Rattle.std.specs.Prelude.{◌≡◌, ◌++◌, ℕ, List, IfOk, OnOk, map};
ghost use Rattle.std.specs.List.{fold};
ghost use Rattle.std.specs.Option.{option_copied};
ghost use Rattle.omf_library.specs.Said.{alias_said, aliases_said};
ghost use Rattle.omf_search.specs.Taken.{IsMet};
ghost use Rattle.omf_search.specs.inside.Asking.{once};
ghost use Rattle.omf_search.specs.Results.{bytes_of, module_said, wanted_said};
ghost use Rattle.omf_search.specs.Wanted.{Met, add_alias, add_module, ask, nothing_met};

use crate::name_map::NameMap;
use crate::said::{Said, Wanted};
use omf_library::Alias;
use omf_place::Names;
use std::alloc::{AllocError, Allocator};

/// Adds what the module with an index wants.
fn push_wanted<'a, A: Allocator + Copy>(
    wanted: &mut Vec<Wanted<'a>, A>,
    index: usize,
    names: &[&'a [u8]],
) -> Result<(), AllocError>
    ensures { OnOk result (map wanted_said wanted.new.items ≡
        map wanted_said wanted.old.items ++ map (λ n. record { name = n; wanted_by = index }) (bytes_of names.now)) }
{
    for name in names {
        wanted.push(Wanted {
            name,
            wanted_by: index,
        })?;
    }
    Ok(())
}

/// The wanted names of some modules, in order of meeting, with the names that they ask for and the aliases that they
/// have.
#[derive(Drop)]
pub(crate) struct Meeting<'a, A: Allocator + Copy> {
    pub wanted: Vec<Wanted<'a>, A>,
    asked: NameMap<'a, (), A>,
    aliases: NameMap<'a, Wanted<'a>, A>,
}

impl<'a, A: Allocator + Copy> Meeting<'a, A> {
    /// Nothing.
    pub(crate) fn new(alloc: A) -> Self
        ensures { (names : Names) → IsMet names nothing_met result }
    {
        Meeting {
            wanted: Vec::new(alloc),
            asked: NameMap::new(alloc),
            aliases: NameMap::new(alloc),
        }
    }

    /// Asks for a name. Hands out the name that is asked for in turn: what it stands for, which is wanted then.
    fn ask_once(&mut self, names: Names, name: &'a [u8]) -> Result<Option<&'a [u8]>, AllocError>
        ensures { IfOk result (λ next. (s : Met) → IsMet names s self.old →
            IsMet names (once names s name.now).0 self.new × (option_copied next ≡ (once names s name.now).1)) }
    {
        if !self.asked.add(names, name, ())? {
            return Ok(None);
        }
        match self.aliases.get(names, name) {
            Some(wanted) => {
                self.wanted.push(wanted)?;
                Ok(Some(wanted.name))
            }
            None => Ok(None),
        }
    }

    /// Asks for a name, and for what it stands for, one behind the other.
    pub(crate) fn ask(&mut self, names: Names, name: &'a [u8]) -> Result<(), AllocError>
        ensures { OnOk result ((s : Met) → IsMet names s self.old → IsMet names (ask names s name.now) self.new) }
    {
        let mut left = self.aliases.len();
        let mut next = self.ask_once(names, name)?;
        while let Some(name) = next {
            if left == 0 {
                return Ok(());
            }
            left -= 1;
            next = self.ask_once(names, name)?;
        }
        Ok(())
    }

    /// Asks for each of some names.
    fn ask_each(&mut self, names: Names, these: &[&'a [u8]]) -> Result<(), AllocError>
        ensures { OnOk result ((s : Met) → IsMet names s self.old →
            IsMet names (fold (ask names) s (bytes_of these.now)) self.new) }
    {
        for name in these {
            self.ask(names, name)?;
        }
        Ok(())
    }

    /// Adds an alias of the module with an index.
    fn add_alias(&mut self, names: Names, index: usize, alias: &Alias<'a>) -> Result<(), AllocError>
        ensures { OnOk result ((s : Met) → IsMet names s self.old →
            IsMet names (add_alias names index s (alias_said alias.now)) self.new) }
    {
        let wanted = Wanted {
            name: alias.meaning,
            wanted_by: index,
        };
        if !self.aliases.add(names, alias.name, wanted)? {
            return Ok(());
        }
        if !self.asked.contains(names, alias.name) {
            return Ok(());
        }
        self.wanted.push(wanted)?;
        self.ask(names, alias.meaning)
    }

    /// Adds each of some aliases.
    fn add_aliases(
        &mut self,
        names: Names,
        index: usize,
        aliases: &[Alias<'a>],
    ) -> Result<(), AllocError>
        ensures { OnOk result ((s : Met) → IsMet names s self.old →
            IsMet names (fold (add_alias names index) s (aliases_said aliases.now)) self.new) }
    {
        for alias in aliases {
            self.add_alias(names, index, alias)?;
        }
        Ok(())
    }

    /// Adds a module, which has an index.
    pub(crate) fn add(
        &mut self,
        names: Names,
        index: usize,
        says: Said<'_, 'a>,
    ) -> Result<(), AllocError>
        ensures { OnOk result ((s : Met) → IsMet names s self.old →
            IsMet names (add_module names s (index, module_said says.entry)) self.new) }
    {
        push_wanted(&mut self.wanted, index, says.wanted)?;
        self.ask_each(names, says.externals)?;
        self.ask_each(names, says.communals)?;
        self.add_aliases(names, index, says.aliases)
    }
}
