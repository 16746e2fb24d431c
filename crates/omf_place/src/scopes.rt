//! The names known to all modules, and those of each module.

ghost use Rattle.std.specs.Prelude.{◌≡◌, ℕ, Option, IfErr, IfOk, IfSome, OnOk, Some, None, if◌then◌else◌, is_some};
ghost use Rattle.std.specs.Prelude.{length, map, replicate, true, false};
ghost use Rattle.std.specs.List.{AllByRecursion};
ghost use Rattle.omf_place.specs.Faults.{duplicate_in};
ghost use Rattle.omf_place.specs.inside.HeldNames.{IsModuleOf, IsOwner, entry_view, local_table, scopes_of, table_of};
ghost use Rattle.omf_place.specs.inside.HeldNames.{with_entry};
ghost use Rattle.omf_place.specs.Names.{means};
ghost use Rattle.omf_place.specs.inside.Steps.{empty};
ghost use Rattle.omf_place.specs.Said.{said};
ghost use Rattle.omf_place.specs.inside.Steps.{same_owner};

use crate::faults::{PlaceFault, duplicate_public};
use crate::layout::Position;
use crate::named::Named;
use crate::names::Names;
use std::alloc::{AllocError, Allocator};
use std::marker::Model;

/// A name with its value.
#[derive(Clone, Copy)]
pub(crate) struct Entry<'a, V: Copy> {
    /// The index of the module that it is local to: None where it is known to all.
    pub owner: Option<usize>,
    pub name: &'a [u8],
    pub value: V,
}

/// The names known to all, and for each module its own.
#[derive(Drop)]
pub(crate) struct Scopes<V: Copy, A: Allocator + Copy> {
    shared: Named<V, A>,
    locals: Vec<Named<V, A>, A>,
}

impl<V: Copy, A: Allocator + Copy> Model for Scopes<V, A> {
    ghost use Rattle.omf_place.specs.inside.HeldNames as value;

    ghost Value = { value.Scopes V };

    ghost view = { λ s. record { shared = s.shared; locals = s.locals.items } };
}

impl<V: Copy, A: Allocator + Copy> Scopes<V, A> {
    /// No names, for some modules.
    fn new(alloc: A, names: Names, count: usize) -> Result<Self, AllocError>
        ensures { IfOk result (λ s. s ≡ record { shared = empty names; locals = replicate count (empty names) }) }
    {
        let mut locals = Vec::new(alloc);
        for _ in 0..count {
            locals.push(Named::new(alloc, names))?;
        }
        Ok(Scopes {
            shared: Named::new(alloc, names),
            locals,
        })
    }

    /// Adds a name, or says that its owner has one that agrees.
    fn add(
        &mut self,
        alloc: A,
        owner: Option<usize>,
        name: &[u8],
        value: V,
    ) -> Result<bool, AllocError>
        requires { IsModuleOf self.old owner }
        ensures count { OnOk result (length self.new.locals ≡ length self.old.locals) }
        ensures fresh { IfOk result
            (λ fresh. fresh ≡ true → (q : Option ℕ) →
            table_of self.new q ≡
            (if same_owner q owner then with_entry (table_of self.old q) name.now value else table_of self.old q)) }
        ensures absent { IfOk result (λ fresh. fresh ≡ true → means (table_of self.old owner) name.now ≡ None) }
        ensures there { IfOk result
            (λ fresh. fresh ≡ false → is_some (means (table_of self.old owner) name.now) ≡ true) }
    {
        match owner {
            None => self.shared.add(alloc, name, value),
            Some(input) => self.locals[input].add(alloc, name, value),
        }
    }

    /// What a name known to all means. It takes no memory.
    pub(crate) fn shared(&self, name: &[u8]) -> Option<V>
        ensures { result ≡ means self.now.shared name.now }
    {
        self.shared.get(name)
    }

    /// What a name of its own means for a module; None where there is no such module. It takes no memory.
    pub(crate) fn local(&self, input: usize, name: &[u8]) -> Option<V>
        ensures { result ≡ means (local_table self.now input) name.now }
    {
        if self.locals.len() <= input {
            return None;
        }
        self.locals[input].get(name)
    }
}

/// The publics by name, those of all modules and those of each, or the first whose name an earlier one has.
pub(crate) fn index_publics<A: Allocator + Copy>(
    alloc: A,
    names: Names,
    count: usize,
    entries: &[Entry<'_, Position>],
) -> Result<Scopes<Position, A>, PlaceFault<A>>
    requires { AllByRecursion (λ e. IsOwner count e.owner) entries.now }
    ensures made { IfOk result (λ s. s ≡ scopes_of names count (map entry_view entries.now)) }
    ensures apart { OnOk result (duplicate_in names (map entry_view entries.now) ≡ None) }
    ensures fault { IfErr result
        (λ e. IfSome (said e) (λ f. duplicate_in names (map entry_view entries.now) ≡ Some f)) }
{
    let mut scopes = Scopes::new(alloc, names, count)?;
    for entry in entries {
        if !scopes.add(alloc, entry.owner, entry.name, entry.value)? {
            return Err(duplicate_public(alloc, entry.name));
        }
    }
    Ok(scopes)
}
