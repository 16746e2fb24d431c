//! The records of a module that ask for names first.

ghost use Rattle.std.specs.Prelude.{◌≡◌, ℕ, List, None, Some, IfOk, OnOk, cond, is_some, map};
ghost use Rattle.std.specs.Borrow.{Bor};
ghost use Rattle.std.specs.Option.{option_or};
ghost use Rattle.std.specs.Str.{bytes_eq};
ghost use Rattle.omf_frame.specs.Lending.{plain_frame};
ghost use Rattle.omf_library.specs.Defaults.{is_among};
ghost use Rattle.omf_library.specs.Names.{texts};
ghost use Rattle.omf_library.specs.Said.{aliases_said};
ghost use Rattle.omf_library.specs.Wanting.{HasWanting, asks, is_asked, is_meant, place_of};

use crate::aliases::{Alias, push_aliases};
use crate::names::{push_listed, push_wanted};
use omf_frame::Frame;
use std::alloc::{AllocError, Allocator, Global};
use std::collections::BTreeMap;

/// For each name that a module asks for, the place of the first of its records that does: wants it, or has an alias that
/// stands for it.
#[derive(Drop)]
pub struct WantingPlaces<'a, A: Allocator + Copy = Global> {
    places: BTreeMap<&'a [u8], u64, A>,
}

impl<'a, A: Allocator + Copy> WantingPlaces<'a, A> {
    /// No names.
    #[tactic(auto, unfolding(crate::specs::Wanting::place_of))]
    fn new(alloc: A) -> Self
        ensures { (q : Bor (List ℕ)) → place_of result q ≡ None }
    {
        WantingPlaces {
            places: BTreeMap::new(alloc),
        }
    }

    /// The place of the first record that asks for a name; none, where none does. It takes no memory.
    #[tactic(auto, unfolding(crate::specs::Wanting::place_of))]
    pub fn get(&self, name: &'a [u8]) -> Option<u64>
        ensures { result ≡ place_of self.now name.entry }
    {
        self.places.get(&name).copied()
    }

    /// Whether a name has a place. It takes no memory.
    fn contains(&self, name: &'a [u8]) -> bool
        ensures { result ≡ is_some (place_of self.now name.entry) }
    {
        self.get(name).is_some()
    }

    /// Gives a name a place, unless it has one.
    #[tactic(auto, unfolding(crate::specs::Wanting::place_of))]
    fn add(&mut self, name: &'a [u8], place: u64) -> Result<(), AllocError>
        ensures { OnOk result ((q : Bor (List ℕ)) → place_of self.new q
            ≡ option_or (place_of self.old q) (cond (bytes_eq q.now name.entry.now) (Some place) None)) }
    {
        if self.contains(name) {
            return Ok(());
        }
        self.places.insert(name, place)?;
        Ok(())
    }

    /// Gives each of some names a place, unless it has one.
    fn add_each(&mut self, names: &[&'a [u8]], place: u64) -> Result<(), AllocError>
        ensures { OnOk result ((q : Bor (List ℕ)) → place_of self.new q
            ≡ option_or (place_of self.old q) (cond (is_among q.now (texts names.now)) (Some place) None)) }
    {
        for name in names {
            self.add(name, place)?;
        }
        Ok(())
    }

    /// The same of what some aliases stand for.
    fn add_meanings(&mut self, aliases: &[Alias<'a>], place: u64) -> Result<(), AllocError>
        ensures { OnOk result ((q : Bor (List ℕ)) → place_of self.new q
            ≡ option_or (place_of self.old q) (cond (is_meant q.now (aliases_said aliases.now)) (Some place) None)) }
    {
        for alias in aliases {
            self.add(alias.meaning, place)?;
        }
        Ok(())
    }

    /// Gives the names that a record asks for its place, unless they have one. The names are those that are listed
    /// before it.
    fn add_record(
        &mut self,
        alloc: A,
        frame: &Frame<'a>,
        listed: &[&'a [u8]],
    ) -> Result<(), AllocError>
        ensures { OnOk result ((q : Bor (List ℕ)) → place_of self.new q ≡ option_or (place_of self.old q)
            (cond (asks q.now (texts listed.now) (plain_frame frame.now)) (Some frame.now.place) None)) }
    {
        let mut wanted = Vec::new(alloc);
        let mut aliases = Vec::new(alloc);
        push_wanted(frame, listed, &mut wanted)?;
        push_aliases(frame, &mut aliases)?;
        self.add_each(&wanted, frame.place)?;
        self.add_meanings(&aliases, frame.place)
    }
}

/// For each name that a module asks for, the place of the first of its records that does.
pub fn wanting_places<'a, A: Allocator + Copy>(
    alloc: A,
    frames: &[Frame<'a>],
) -> Result<WantingPlaces<'a, A>, AllocError>
    ensures first { IfOk result (HasWanting (map plain_frame frames.now)) }
    // One does exactly where the name is that of an external, or an alias stands for it.
    ensures exact { IfOk result (λ places. (q : Bor (List ℕ)) →
        is_some (place_of places q) ≡ is_asked q.now (map plain_frame frames.now)) }
{
    let mut places = WantingPlaces::new(alloc);
    let mut listed = Vec::new(alloc);
    for frame in frames {
        places.add_record(alloc, frame, &listed)?;
        push_listed(frame, &mut listed)?;
    }
    Ok(places)
}
