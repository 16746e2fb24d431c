//! Names that two modules define.

ghost use Rattle.std.specs.Prelude.{◌≡◌, ◌++◌, [], ℕ, List, None, Some, IfOk, OnOk, cond, map, option_map};
ghost use Rattle.std.specs.Borrow.{Bor};
ghost use Rattle.omf_place.specs.Names.{agrees};
ghost use Rattle.omf_place.specs.declared.names.Names.{Names as Choice};
ghost use Rattle.omf_search.specs.Results.{bytes_of, needs_said};
ghost use Rattle.doslib_names.specs.Names as spec;
ghost use Rattle.doslib_names.specs.inside.First.{doubled_said, first_by, offer_said};

use omf_keys::Key;
use omf_library::ModuleNames;
use omf_place::Names;
use std::alloc::{AllocError, Allocator};
use std::collections::BTreeMap;

/// A name that a module offers to others, with the index of the module.
#[derive(Clone, Copy)]
pub(crate) struct Offer<'a> {
    pub name: &'a [u8],
    pub offered_by: usize,
}

/// A name that is offered again: by whom first, and by whom again.
#[derive(Clone, Copy)]
pub(crate) struct Doubled<'a> {
    /// As it is spelled where it is offered again.
    pub name: &'a [u8],
    pub first: usize,
    pub second: usize,
}

/// Appends the names that a module offers.
fn push_offers<'a, A: Allocator + Copy>(
    offers: &mut Vec<Offer<'a>, A>,
    offered_by: usize,
    names: &[&'a [u8]],
) -> Result<(), AllocError>
    ensures { OnOk result (map offer_said offers.new.items
        ≡ map offer_said offers.old.items ++ map (spec.offer_by offered_by) (bytes_of names.now)) }
{
    for name in names {
        offers.push(Offer { name, offered_by })?;
    }
    Ok(())
}

/// The names that modules offer, in their order.
pub(crate) fn all_offers<'a, A: Allocator + Copy>(
    alloc: A,
    names: &[ModuleNames<'a, A>],
) -> Result<Vec<Offer<'a>, A>, AllocError>
    ensures { IfOk result (λ v. map offer_said v.items ≡ spec.offers_from 0 (map needs_said names.now)) }
{
    let mut offers = Vec::new(alloc);
    for (index, said) in names.iter().enumerate() {
        push_offers(&mut offers, index, &said.offered)?;
    }
    Ok(offers)
}

/// For each name the module that offers it first.
#[derive(Drop)]
struct First<'a, A: Allocator + Copy> {
    entries: BTreeMap<Key<'a>, usize, A>,
}

impl<'a, A: Allocator + Copy> First<'a, A> {
    /// No names.
    #[tactic(auto, unfolding(crate::specs::inside::First::first_by))]
    fn new(alloc: A) -> Self
        ensures { (names : Choice) (q : Bor (List ℕ)) → first_by names result q ≡ None }
    {
        First {
            entries: BTreeMap::new(alloc),
        }
    }

    /// The module that offers a name first. It takes no memory.
    #[tactic(auto, unfolding(crate::specs::inside::First::first_by))]
    fn get(&self, names: Names, name: &'a [u8]) -> Option<usize>
        ensures { result ≡ first_by names self.now name.entry }
    {
        self.entries.get(&Key::new(names, name)).copied()
    }

    /// Notes a name that none offered before.
    fn add(&mut self, names: Names, offer: Offer<'a>) -> Result<(), AllocError>
        ensures { OnOk result ((q : Bor (List ℕ)) → first_by names self.new q
            ≡ cond (agrees names q.now offer.entry.name.now) (Some offer.entry.offered_by)
            (first_by names self.old q)) }
    {
        self.entries
            .insert(Key::new(names, offer.name), offer.offered_by)?;
        Ok(())
    }
}

/// The names that are offered again, in their order.
pub(crate) fn all_doubled<'a, A: Allocator + Copy>(
    alloc: A,
    names: Names,
    offers: &[Offer<'a>],
) -> Result<Vec<Doubled<'a>, A>, AllocError>
    ensures { IfOk result (λ v. map doubled_said v.items
        ≡ spec.doubled_behind names [] (map offer_said offers.now)) }
{
    let mut met = First::new(alloc);
    let mut doubled = Vec::new(alloc);
    for offer in offers {
        match met.get(names, offer.name) {
            Some(first) => doubled.push(Doubled {
                name: offer.name,
                first,
                second: offer.offered_by,
            })?,
            None => met.add(names, *offer)?,
        }
    }
    Ok(doubled)
}
