//! Which members of libraries a link takes.

ghost use Rattle.std.specs.Prelude.{◌≡◌, ◌+◌, ◌++◌, [], ◌∷◌, ℕ, List, OnOk, Some, None, cond, length, map, take};
ghost use Rattle.std.specs.Prelude.{if◌then◌else◌};
ghost use Rattle.std.specs.Borrow.{Bor};
ghost use Rattle.std.specs.Option.{option_or};
ghost use Rattle.omf_search.specs.Keys.{value_of};
ghost use Rattle.omf_search.specs.Taken.{IsTaken};
ghost use Rattle.omf_search.specs.Results.{module_said, wanted_said};
ghost use Rattle.omf_search.specs.Said.{Module, is_defined, offers as says_it};
ghost use Rattle.omf_search.specs.Search.{Member, next_choice};
ghost use Rattle.omf_search.specs.Searching.{HasPlaces, IsSearch, choice_found};
ghost use Rattle.omf_search.specs.inside.Back.{IsFound, IsSettled, LooksAgain};

use crate::name_map::NameMap;
use crate::said::{Said, Wanted};
use crate::taken::Taken;
use omf_place::Names;
use std::alloc::{AllocError, Allocator, Global};
use std::collections::BTreeSet;

/// A member that a link takes, and why.
#[derive(Clone, Copy)]
pub struct Found<'a> {
    /// The index of the member, among all that were added.
    pub member: usize,
    /// The name for which it is taken, as the module that wants it spells it.
    pub name: &'a [u8],
    /// The index of the module that wants it first.
    pub wanted_by: usize,
}

/// Gives what a member offers its place, but for names that an earlier one offers.
fn offer_each<'a, A: Allocator + Copy>(
    offers: &mut NameMap<'a, usize, A>,
    names: Names,
    says: Said<'_, 'a>,
    place: usize,
) -> Result<(), AllocError>
    ensures { OnOk result ((q : Bor (List ℕ)) →
        value_of names offers.new q ≡
        option_or (value_of names offers.old q)
        (if says_it names q.now (module_said says.entry) then Some place else None)) }
{
    for name in says.offered {
        offers.add(names, name, place)?;
    }
    Ok(())
}

/// What a map has for a name, unless a module defines the name.
fn of_open<'a, A: Allocator + Copy>(
    names: Names,
    taken: &Taken<'a, A>,
    map: &NameMap<'a, usize, A>,
    name: &'a [u8],
) -> Option<usize>
    ensures { (ms : List Module) → IsTaken names ms taken.now →
        result ≡ cond (is_defined names ms name.now) None (value_of names map.now name.entry) }
{
    if taken.defines(names, name) {
        return None;
    }
    map.get(names, name)
}

/// Gives the wanted names from this place on their places, but for names that are wanted before.
fn place_each<'a, A: Allocator + Copy>(
    places: &mut NameMap<'a, usize, A>,
    names: Names,
    wanted: &[Wanted<'a>],
    first: usize,
) -> Result<(), AllocError>
    ensures { OnOk result (HasPlaces names (map wanted_said (take first wanted.now)) places.old →
        HasPlaces names (map wanted_said wanted.now) places.new) }
{
    let mut place = first;
    while place < wanted.len() {
        places.add(names, wanted[place].name, place)?;
        place += 1;
    }
    Ok(())
}

/// A search for the members of libraries that a link takes: the modules that are linked, and the members that may be
/// taken. Both may be added at any time. The members stand in the order of search: those of the first library, in its
/// order, then those of the second, and so on.
#[derive(Drop)]
pub struct Search<'a, A: Allocator + Copy = Global> {
    names: Names,
    taken: Taken<'a, A>,
    /// Where each name is wanted first.
    places: NameMap<'a, usize, A>,
    /// Which member offers each name first.
    offers: NameMap<'a, usize, A>,
    /// How many wanted names were looked at. It never gets less.
    next: usize,
    /// The places, among those, that are looked at again: a member was added since that offers the name.
    back: BTreeSet<usize, A>,
}

impl<'a, A: Allocator + Copy> Search<'a, A> {
    /// A search among no modules and no members.
    pub fn new(alloc: A, names: Names) -> Self
        ensures { IsSearch names [] [] result }
    {
        Search {
            names,
            taken: Taken::new(alloc),
            places: NameMap::new(alloc),
            offers: NameMap::new(alloc),
            next: 0,
            back: BTreeSet::new(alloc),
        }
    }

    /// Adds a module that is linked, behind the others, which are as many as its index says.
    ///
    /// # Errors
    /// Want of memory; nothing holds of the search then.
    pub fn add_module(&mut self, index: usize, says: Said<'_, 'a>) -> Result<(), AllocError>
        ensures { OnOk result ((names : Names) (ms : List Module) (bs : List Member) → length ms ≡ index →
            IsSearch names ms bs self.old → IsSearch names (ms ++ module_said says.entry ∷ []) bs self.new) }
    {
        let first = self.taken.meeting.wanted.len();
        self.taken.add(self.names, index, says)?;
        let wanted = self.taken.meeting.wanted.as_slice();
        place_each(&mut self.places, self.names, wanted, first)
    }

    /// Puts the first place at which a name is wanted among those to look at again, if it was looked at, and no module
    /// defines the name.
    fn put_back(&mut self, name: &'a [u8]) -> Result<(), AllocError>
        ensures { OnOk result ((names : Names) (ms : List Module) (bs : List Member) (ns : List (List ℕ)) →
            LooksAgain names ms bs ns self.old → LooksAgain names ms bs (ns ++ name.now ∷ []) self.new) }
    {
        let Some(place) = of_open(self.names, &self.taken, &self.places, name) else {
            return Ok(());
        };
        if place >= self.next {
            return Ok(());
        }
        self.back.insert(place)?;
        Ok(())
    }

    /// Adds a member that may be taken, behind the others, which are as many as its index says.
    ///
    /// # Errors
    /// Want of memory; nothing holds of the search then.
    pub fn add_member(&mut self, index: usize, says: Said<'_, 'a>) -> Result<(), AllocError>
        ensures { OnOk result ((names : Names) (ms : List Module) (bs : List Member) (b : Member) → length bs ≡ index →
            b.says ≡ module_said says.entry → IsSearch names ms bs self.old →
            IsSearch names ms (bs ++ b ∷ []) self.new) }
    {
        for offered in says.offered {
            self.put_back(offered)?;
        }
        offer_each(&mut self.offers, self.names, says, index)
    }

    /// What is found at a place: the member that the name takes which is wanted there, if it takes one.
    fn found_at(&self, place: usize) -> Option<Found<'a>>
        ensures { (names : Names) (ms : List Module) (bs : List Member) → IsSearch names ms bs self.now →
            IsSettled names ms bs place → IsFound names ms bs (place + 1) result }
    {
        if place >= self.taken.meeting.wanted.len() {
            return None;
        }
        let wanted = self.taken.meeting.wanted[place];
        let Some(member) = of_open(self.names, &self.taken, &self.offers, wanted.name) else {
            return None;
        };
        Some(Found {
            member,
            name: wanted.name,
            wanted_by: wanted.wanted_by,
        })
    }

    /// What is found at the first place to look at again where a name takes a member. Those before it are done with.
    fn found_again(&mut self) -> Option<Found<'a>>
        ensures same { (names : Names) (ms : List Module) (bs : List Member) →
            IsSearch names ms bs self.old → IsSearch names ms bs self.new }
        ensures found { (names : Names) (ms : List Module) (bs : List Member) →
            IsSearch names ms bs self.old → IsFound names ms bs self.new.next result }
    {
        while let Some(&place) = self.back.first() {
            if let Some(found) = self.found_at(place) {
                return Some(found);
            }
            self.back.pop_first();
        }
        None
    }

    /// The member that is taken next: the first wanted name that no module defines and a member offers takes the first
    /// member that offers it. The caller adds it to the modules.
    pub fn next_found(&mut self) -> Option<Found<'a>>
        ensures same { (names : Names) (ms : List Module) (bs : List Member) →
            IsSearch names ms bs self.old → IsSearch names ms bs self.new }
        ensures found { (names : Names) (ms : List Module) (bs : List Member) →
            IsSearch names ms bs self.old → choice_found bs result ≡ next_choice names bs ms }
    {
        if let Some(found) = self.found_again() {
            return Some(found);
        }
        while self.next < self.taken.meeting.wanted.len() {
            if let Some(found) = self.found_at(self.next) {
                return Some(found);
            }
            self.next += 1;
        }
        None
    }
}
