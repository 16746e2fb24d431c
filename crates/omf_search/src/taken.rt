//! What the modules of a link want and define.

ghost use Rattle.std.specs.Prelude.{◌≡◌, ◌++◌, ◌||◌, [], ◌∷◌, ℕ, List, IfOk, OnOk, is_some, length, map};
ghost use Rattle.std.specs.Borrow.{Bor};
ghost use Rattle.std.specs.List.{list_any};
ghost use Rattle.omf_place.specs.Names.{agrees};
ghost use Rattle.omf_search.specs.Keys.{value_of};
ghost use Rattle.omf_search.specs.Results.{bytes_of, module_said};
ghost use Rattle.omf_search.specs.Said.{Module, is_defined};

use crate::meeting::Meeting;
use crate::name_map::NameMap;
use crate::said::Said;
use omf_place::Names;
use std::alloc::{AllocError, Allocator};

/// Adds names that are defined.
fn define_each<'a, A: Allocator + Copy>(
    defined: &mut NameMap<'a, (), A>,
    names: Names,
    more: &[&'a [u8]],
) -> Result<(), AllocError>
    ensures { OnOk result ((q : Bor (List ℕ)) →
        is_some (value_of names defined.new q) ≡
        (is_some (value_of names defined.old q) || list_any (agrees names q.now) (bytes_of more.now))) }
{
    for name in more {
        defined.add(names, name, ())?;
    }
    Ok(())
}

/// The wanted names of some modules, in order of meeting, and the names that these modules define.
#[derive(Drop)]
pub(crate) struct Taken<'a, A: Allocator + Copy> {
    pub meeting: Meeting<'a, A>,
    defined: NameMap<'a, (), A>,
}

impl<'a, A: Allocator + Copy> Taken<'a, A> {
    ghost use Rattle.omf_search.specs.Taken.{IsTaken};

    /// No modules.
    pub(crate) fn new(alloc: A) -> Self
        ensures { (names : Names) → IsTaken names [] result }
    {
        Taken {
            meeting: Meeting::new(alloc),
            defined: NameMap::new(alloc),
        }
    }

    /// Adds a module behind the others, which are as many as its index says.
    pub(crate) fn add(
        &mut self,
        names: Names,
        index: usize,
        says: Said<'_, 'a>,
    ) -> Result<(), AllocError>
        ensures { OnOk result ((ms : List Module) → length ms ≡ index → IsTaken names ms self.old →
            IsTaken names (ms ++ module_said says.entry ∷ []) self.new) }
    {
        self.meeting.add(names, index, says)?;
        define_each(&mut self.defined, names, says.offered)?;
        define_each(&mut self.defined, names, says.communals)
    }

    /// Some modules.
    pub(crate) fn collect(
        alloc: A,
        names: Names,
        modules: &[Said<'_, 'a>],
    ) -> Result<Self, AllocError>
        ensures { IfOk result (IsTaken names (map module_said modules.now)) }
    {
        let mut taken = Taken::new(alloc);
        for (index, says) in modules.iter().enumerate() {
            taken.add(names, index, *says)?;
        }
        Ok(taken)
    }

    /// Whether a module defines a name. It takes no memory.
    pub(crate) fn defines(&self, names: Names, name: &'a [u8]) -> bool
        ensures { (ms : List Module) → IsTaken names ms self.now → result ≡ is_defined names ms name.now }
    {
        self.defined.contains(names, name)
    }
}
