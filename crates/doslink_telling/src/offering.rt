//! The members of archives that symbol tables say to define names which are missing.
ghost use Rattle.std.specs.Prelude.{◌≡◌, ◌++◌, ◌-◌, ℕ, IfOk, List, OnOk, filter, map};
ghost use Rattle.std.specs.BTreeSet.{contains};
ghost use Rattle.std.specs.Ordering.{nat_cmp};
ghost use Rattle.omf_library.specs.Files.{file_kind, members_of};
ghost use Rattle.omf_library.specs.Members.{plain_member};
ghost use Rattle.omf_place.specs.Names.{spelled};
ghost use Rattle.omf_search.specs.Results.{bytes_of};
ghost use Rattle.doslink_telling.specs.Offering as spec;
ghost use Rattle.doslink_telling.specs.Offering.{offering_said};
ghost use Rattle.doslink_telling.specs.inside.Tables.{IsSetOf, symbol_said};

use crate::duplicates::spelled_name;
use crate::symbols::{Symbol, symbols};
use omf_library::{LibraryFault, Member, members};
use omf_place::Names;
use omf_search::Wanted;
use std::alloc::{AllocError, Allocator};
use std::collections::BTreeSet;

/// A member of an archive.
#[derive(Clone, Copy)]
pub struct Offering<'a> {
    /// The index of the archive among the files.
    pub file: usize,
    /// The member's name.
    pub name: &'a [u8],
    /// Its bytes.
    pub bytes: &'a [u8],
}

/// How many bytes the header of a member has, right before its bytes.
const HEADER: usize = 60;

/// The set of these names, by what of them counts.
fn set_of<A: Allocator + Copy>(
    alloc: A,
    names: Names,
    missing: &[Wanted<'_>],
) -> Result<BTreeSet<Vec<u8, A>, A>, AllocError>
    ensures { IfOk result (IsSetOf (map (λ w. spelled names w.name.now) missing.now)) }
{
    let mut set = BTreeSet::new(alloc);
    for wanted in missing {
        let name = spelled_name(alloc, names, wanted.name)?;
        set.insert(name)?;
    }
    Ok(set)
}

/// Whether a name is one of a set, by what of it counts.
fn is_missing<A: Allocator + Copy>(
    alloc: A,
    names: Names,
    missing: &BTreeSet<Vec<u8, A>, A>,
    name: &[u8],
) -> Result<bool, AllocError>
    ensures { IfOk result (λ b. (all : List (List ℕ)) → IsSetOf (map (spelled names) all) missing.now
        → b ≡ spec.is_missing names all name.now) }
{
    let spelled = spelled_name(alloc, names, name)?;
    Ok(missing.contains(&spelled))
}

/// The places of the headers of those members that some symbol of a missing name is of.
fn offered_places<A: Allocator + Copy>(
    alloc: A,
    names: Names,
    missing: &BTreeSet<Vec<u8, A>, A>,
    found: &[Symbol<'_>],
) -> Result<BTreeSet<usize, A>, AllocError>
    ensures { IfOk result (λ places. (all : List (List ℕ)) → IsSetOf (map (spelled names) all) missing.now
        → (q : ℕ) → contains nat_cmp places q ≡ spec.offers names all (map symbol_said found.now) q) }
{
    let mut places = BTreeSet::new(alloc);
    for symbol in found {
        if is_missing(alloc, names, missing, symbol.name)? {
            places.insert(symbol.place)?;
        }
    }
    Ok(places)
}

/// The members of a file, none where it is at fault.
fn sound_members<'a, A: Allocator + Copy>(
    alloc: A,
    file: &'a [u8],
) -> Result<Vec<Member<'a>, A>, AllocError>
    ensures { IfOk result (λ v. map plain_member v.items
        ≡ spec.sound_members (members_of (file_kind file.now) file.now)) }
{
    match members(alloc, file) {
        Ok(members) => Ok(members),
        Err(LibraryFault::Malformed { .. }) => Ok(Vec::new(alloc)),
        Err(LibraryFault::Memory) => Err(AllocError),
    }
}

/// Appends those members of the file with this index whose headers stand at some of these places.
fn push_members_at<'a, A: Allocator + Copy>(
    places: &BTreeSet<usize, A>,
    file: usize,
    members: &[Member<'a>],
    all: &mut Vec<Offering<'a>, A>,
) -> Result<(), AllocError>
    ensures { OnOk result (map offering_said all.new.items ≡ map offering_said all.old.items
        ++ map (spec.offered file) (filter (λ m. contains nat_cmp places.now (m.place - 60))
        (map plain_member members.now))) }
{
    for member in members {
        if places.contains(&member.place.saturating_sub(HEADER)) {
            all.push(Offering {
                file,
                name: member.name,
                bytes: member.bytes,
            })?;
        }
    }
    Ok(())
}

/// Appends the members of the file with this index by which its symbol table offers missing names.
fn push_offering<'a, A: Allocator + Copy>(
    alloc: A,
    names: Names,
    missing: &BTreeSet<Vec<u8, A>, A>,
    file: usize,
    bytes: &'a [u8],
    all: &mut Vec<Offering<'a>, A>,
) -> Result<(), AllocError>
    ensures { OnOk result ((these : List (List ℕ)) → IsSetOf (map (spelled names) these) missing.now
        → map offering_said all.new.items ≡ map offering_said all.old.items
        ++ spec.offering_in names these (file, bytes.now)) }
{
    let found = symbols(alloc, bytes)?;
    let places = offered_places(alloc, names, missing, &found)?;
    let members = sound_members(alloc, bytes)?;
    push_members_at(&places, file, &members, all)
}

/// The members of archives that their symbol tables say to define some of these names, which are missing, in the order
/// of the files and of their members.
pub fn offering_members<'a, A: Allocator + Copy>(
    alloc: A,
    names: Names,
    missing: &[Wanted<'_>],
    files: &[&'a [u8]],
) -> Result<Vec<Offering<'a>, A>, AllocError>
    ensures { IfOk result (λ v. map offering_said v.items
        ≡ spec.all_offering names (map (λ w. w.name.now) missing.now) (bytes_of files.now)) }
{
    let set = set_of(alloc, names, missing)?;
    let mut all = Vec::new(alloc);
    for (file, bytes) in files.iter().enumerate() {
        push_offering(alloc, names, &set, file, bytes, &mut all)?;
    }
    Ok(all)
}
