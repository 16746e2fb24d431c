//! The modules that a link takes, and the search by which it does.
ghost use Rattle.std.specs.Prelude.{◌≡◌, ◌++◌, List, OnOk, drop, map, take};
ghost use Rattle.std.specs.List.{filter_map};
ghost use Rattle.omf_place.specs.declared.names.Names.{Names};
ghost use Rattle.omf_search.specs.Said.{Module};
ghost use Rattle.omf_search.specs.Search as spec;
ghost use Rattle.omf_search.specs.Search.{Chooses};
ghost use Rattle.omf_search.specs.Searching.{IsSearch};
ghost use Rattle.doslink_stock.specs.Files.{Held};
ghost use Rattle.doslink_stock.specs.Search.{TakenFor, candidates, member_taken, object_taken, says_of};
ghost use Rattle.doslink_stock.specs.Seen.{entry_held};
ghost use Rattle.doslink_stock.specs.inside.Linked.{AreLinked};

use crate::searching::Place;
use crate::stock::Entry;
use omf_search::{Said, Search};
use std::alloc::{AllocError, Allocator};

/// Takes object files, those from the one with this index on.
pub(crate) fn link_objects<'a, A: Allocator + Copy>(
    search: &mut Search<'a, A>,
    linked: &mut Vec<Place<'a>, A>,
    objects: &[Entry<'a, A>],
    first: usize,
) -> Result<(), AllocError>
    ensures { OnOk result ((names : Names) (members : List Held) (bs : List spec.Member) (taken : List TakenFor) →
        AreLinked names (map entry_held objects.now) members bs taken search.old linked.old.items →
        AreLinked names (map entry_held objects.now) members bs
        (taken ++ map object_taken (map entry_held (drop first objects.now))) search.new linked.new.items) }
{
    let mut index = first;
    while index < objects.len() {
        search.add_module(linked.len(), Said::of(&objects[index].says))?;
        linked.push(Place::Object(index))?;
        index += 1;
    }
    Ok(())
}

/// Adds members that may be taken, those from the one with this index on.
pub(crate) fn offer_members<'a, A: Allocator + Copy>(
    search: &mut Search<'a, A>,
    members: &[Entry<'a, A>],
    first: usize,
) -> Result<(), AllocError>
    ensures { OnOk result ((names : Names) (ms : List Module) →
        IsSearch names ms (candidates (map entry_held (take first members.now))) search.old →
        IsSearch names ms (candidates (map entry_held members.now)) search.new) }
{
    let mut index = first;
    while index < members.len() {
        search.add_member(index, Said::of(&members[index].says))?;
        index += 1;
    }
    Ok(())
}

/// Takes the members that modules choose. None is taken twice, so they are no more than there are.
pub(crate) fn take_members<'a, A: Allocator + Copy>(
    search: &mut Search<'a, A>,
    linked: &mut Vec<Place<'a>, A>,
    members: &[Entry<'a, A>],
) -> Result<(), AllocError>
    ensures { OnOk result ((names : Names) (objects : List Held) (taken : List TakenFor) →
        AreLinked names objects (map entry_held members.now) (candidates (map entry_held members.now)) taken search.old
        linked.old.items →
        (choices : List spec.Choice)
        × Chooses names (candidates (map entry_held members.now)) (says_of taken) choices
        × AreLinked names objects (map entry_held members.now) (candidates (map entry_held members.now))
        (taken ++ filter_map (member_taken (map entry_held members.now)) choices) search.new linked.new.items) }
{
    let mut left = members.len();
    while left > 0 {
        let Some(found) = search.next_found() else {
            return Ok(());
        };
        let Some(entry) = members.get(found.member) else {
            return Ok(());
        };
        search.add_module(linked.len(), Said::of(&entry.says))?;
        linked.push(Place::Member(found.member, found.name))?;
        left -= 1;
    }
    Ok(())
}
