//! Names that are like a missing one.

ghost use Rattle.std.specs.Prelude.{◌≡◌, ◌++◌, ℕ, List, Some, None, IfOk, OnOk, find, if◌then◌else◌, map};
ghost use Rattle.std.specs.Prelude.{option_copied};
ghost use Rattle.std.specs.Borrow.{Bor};
ghost use Rattle.std.specs.Option.{option_map, option_or};
ghost use Rattle.omf_place.specs.declared.names.Names.TheVariants as by;
ghost use Rattle.omf_search.specs.Keys.{value_of};
ghost use Rattle.omf_search.specs.inside.Likeness.{IsIndex, behind, is_behind, like_among};
ghost use Rattle.omf_search.specs.Places.{place_from};
ghost use Rattle.omf_search.specs.inside.Likeness.{lesser as lesser_place};
ghost use Rattle.omf_search.specs.Likeness.{first_like, is_like, offered_names as all_offered};
ghost use Rattle.omf_search.specs.Likeness as like;
ghost use Rattle.omf_search.specs.Results.{bytes_of, member_said, module_said, offered_said};

use crate::name_map::NameMap;
use crate::said::{Member, Said};
use omf_place::Names;
use std::alloc::{AllocError, Allocator};

/// Which module offers a name.
#[derive(Clone, Copy)]
pub enum Whose {
    /// One of the modules of a link, by its index.
    Module(usize),
    /// A member of a library, by their indexes.
    Member { library: usize, member: usize },
}

/// A name that is offered, and by which module.
#[derive(Clone, Copy)]
pub struct Offered<'a> {
    /// The name, as the module spells it.
    pub name: &'a [u8],
    pub whose: Whose,
}

/// The places of offered names, by these without regard to case.
type Places<'a, A> = NameMap<'a, usize, A>;

/// The name behind the underscore that it begins with, if it does.
fn behind_underscore(name: &[u8]) -> Option<&[u8]>
    ensures { option_copied result ≡ behind name.now }
{
    match name {
        [b'_', rest @ ..] => Some(rest),
        _ => None,
    }
}

/// Adds what a module offers.
fn push_offered<'a, A: Allocator + Copy>(
    offered: &mut Vec<Offered<'a>, A>,
    whose: Whose,
    names: &[&'a [u8]],
) -> Result<(), AllocError>
    ensures { OnOk result (map offered_said offered.new.items ≡
        map offered_said offered.old.items ++ map (λ n. record { name = n; whose = whose }) (bytes_of names.now)) }
{
    for name in names {
        offered.push(Offered { name, whose })?;
    }
    Ok(())
}

/// What modules and members offer, in this order.
fn offered_names<'a, A: Allocator + Copy>(
    alloc: A,
    modules: &[Said<'_, 'a>],
    members: &[Member<'_, 'a>],
) -> Result<Vec<Offered<'a>, A>, AllocError>
    ensures { IfOk result (λ v.
        map offered_said v.items ≡ all_offered (map module_said modules.now) (map member_said members.now)) }
{
    let mut offered = Vec::new(alloc);
    for (index, says) in modules.iter().enumerate() {
        push_offered(&mut offered, Whose::Module(index), says.offered)?;
    }
    for member in members {
        let whose = Whose::Member {
            library: member.library,
            member: member.member,
        };
        push_offered(&mut offered, whose, member.says.offered)?;
    }
    Ok(offered)
}

/// Gives a name, and what stands behind its underscore, a place, unless they have one.
fn add_place<'a, A: Allocator + Copy>(
    places: &mut Places<'a, A>,
    name: &'a [u8],
    place: usize,
) -> Result<(), AllocError>
    ensures { OnOk result ((q : Bor (List ℕ)) →
        value_of by.AsciiFolded places.new q ≡
        option_or (value_of by.AsciiFolded places.old q) (if is_behind q.now name.now then Some place else None)) }
{
    places.add(Names::AsciiFolded, name, place)?;
    if let Some(rest) = behind_underscore(name) {
        places.add(Names::AsciiFolded, rest, place)?;
    }
    Ok(())
}

/// For each name, without regard to case, the place of the first offered name that is it, or it behind an underscore.
fn index_likeness<'a, A: Allocator + Copy>(
    alloc: A,
    offered: &[Offered<'a>],
) -> Result<Places<'a, A>, AllocError>
    ensures { IfOk result (IsIndex (map offered_said offered.now)) }
{
    let mut places = NameMap::new(alloc);
    for (place, entry) in offered.iter().enumerate() {
        add_place(&mut places, entry.name, place)?;
    }
    Ok(places)
}

/// The lesser of two places, where there are any.
fn lesser(one: Option<usize>, other: Option<usize>) -> Option<usize>
    ensures { result ≡ lesser_place one other }
{
    match (one, other) {
        (Some(one), Some(other)) => Some(one.min(other)),
        (None, other) => other,
        (one, None) => one,
    }
}

/// The place of the first offered name that is like a name.
fn like_place<'a, A: Allocator + Copy>(places: &Places<'a, A>, name: &'a [u8]) -> Option<usize>
    ensures { (os : List like.Offered) → IsIndex os places.now →
        result ≡ place_from 0 (λ o. is_like name.now o.name) os }
{
    let whole = places.get(Names::AsciiFolded, name);
    match behind_underscore(name) {
        Some(rest) => lesser(whole, places.get(Names::AsciiFolded, rest)),
        None => whole,
    }
}

/// The first offered name that is like a name.
fn like_of<'a, A: Allocator + Copy>(
    places: &Places<'a, A>,
    offered: &[Offered<'a>],
    name: &'a [u8],
) -> Option<Offered<'a>>
    ensures { IsIndex (map offered_said offered.now) places.now →
        option_map offered_said result ≡ find (λ o. is_like name.now o.name) (map offered_said offered.now) }
{
    match like_place(places, name) {
        Some(place) => offered.get(place).copied(),
        None => None,
    }
}

/// For each of some names, the first offered one that is like it.
fn likes_among<'a, A: Allocator + Copy>(
    alloc: A,
    places: &Places<'a, A>,
    offered: &[Offered<'a>],
    asked: &[&'a [u8]],
) -> Result<Vec<Option<Offered<'a>>, A>, AllocError>
    requires { IsIndex (map offered_said offered.now) places.now }
    ensures { IfOk result (λ v. map (option_map offered_said) v.items ≡
        map (like_among (map offered_said offered.now)) (bytes_of asked.now)) }
{
    let mut likes = Vec::new(alloc);
    for name in asked {
        likes.push(like_of(places, offered, name))?;
    }
    Ok(likes)
}

/// For each of some names, the first that modules or members of libraries offer, in this order, which differs from it
/// in case and in an underscore in front at most.
pub fn likes<'a, A: Allocator + Copy>(
    alloc: A,
    asked: &[&'a [u8]],
    modules: &[Said<'_, 'a>],
    members: &[Member<'_, 'a>],
) -> Result<Vec<Option<Offered<'a>>, A>, AllocError>
    ensures { IfOk result (λ v. map (option_map offered_said) v.items ≡
        map (first_like (map module_said modules.now) (map member_said members.now)) (bytes_of asked.now)) }
{
    let offered = offered_names(alloc, modules, members)?;
    let places = index_likeness(alloc, &offered)?;
    likes_among(alloc, &places, &offered, asked)
}
