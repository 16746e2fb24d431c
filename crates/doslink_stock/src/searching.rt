//! The modules that are handed on to the link: object files, and the members of libraries that they take.
ghost use Rattle.std.specs.Prelude.{◌≡◌, ◌++◌, [], ◌∷◌, ℕ, List, IfOk, MatchResult, Some, drop, map};
ghost use Rattle.std.specs.Option.{option_map};
ghost use Rattle.omf_search.specs.Results.{bytes_of, member_said};
ghost use Rattle.doslink_stock.specs.Files as spec;
ghost use Rattle.doslink_stock.specs.Files.{IsFault};
ghost use Rattle.doslink_stock.specs.Placed.{ArePlaced, IsPlaced};
ghost use Rattle.doslink_stock.specs.Search.{TakenFor, TakesFor, all_files, candidates};
ghost use Rattle.doslink_stock.specs.Searched.{Searched};
ghost use Rattle.doslink_stock.specs.Seen.{entry_held, handed_taken};

use crate::fault::StockFault;
use crate::linking::{link_objects, offer_members, take_members};
use crate::stock::{Entry, member_entries, object_entries};
use omf_place::Names;
use omf_search::{Member, Said, Search};
use std::alloc::{AllocError, Allocator, Global};

/// A module that is linked.
#[derive(Clone, Copy)]
pub struct Handed<'m, 'a, A: Allocator + Copy> {
    /// Where it stands, and what it says.
    pub entry: &'m Entry<'a, A>,
    /// The name for which it was taken, where it is a member of a library.
    pub wanted: Option<&'a [u8]>,
}

/// Where a module stands that is linked.
#[derive(Clone, Copy)]
pub(crate) enum Place<'a> {
    /// The object file with this index among them.
    Object(usize),
    /// The member with this index, and the name for which it was taken.
    Member(usize, &'a [u8]),
}

/// The members that may be taken, each with its file and its index among all.
pub fn members_of<'m, 'a, A: Allocator + Copy>(
    alloc: A,
    entries: &'m [Entry<'a, A>],
) -> Result<Vec<Member<'m, 'a>, A>, AllocError>
    ensures { IfOk result (λ v. map member_said v.items ≡ candidates (map entry_held entries.now)) }
{
    let mut all = Vec::new(alloc);
    for (member, entry) in entries.iter().enumerate() {
        let says = Said::of(&entry.says);
        all.push(Member {
            library: entry.file,
            member,
            says,
        })?;
    }
    Ok(all)
}

/// What a link may take, the modules of its files, and what it takes so far. Files come in rounds, behind those that
/// are there.
#[derive(Drop)]
pub struct Stock<'a, A: Allocator + Copy = Global> {
    /// The object files, in their order.
    pub objects: Vec<Entry<'a, A>, A>,
    /// The members of the libraries and archives, in the order of these and in each in its own.
    pub members: Vec<Entry<'a, A>, A>,
    linked: Vec<Place<'a>, A>,
    files: usize,
    search: Search<'a, A>,
}

/// The module at a place.
fn handed_at<'m, 'a, A: Allocator + Copy>(
    objects: &'m [Entry<'a, A>],
    members: &'m [Entry<'a, A>],
    place: Place<'a>,
) -> Option<Handed<'m, 'a, A>>
    ensures { (t : TakenFor) → IsPlaced (map entry_held objects.now) (map entry_held members.now) place.entry t →
        option_map handed_taken result ≡ Some t }
{
    match place {
        Place::Object(index) => {
            let entry = objects.get(index)?;
            Some(Handed {
                entry,
                wanted: None,
            })
        }
        Place::Member(index, wanted) => {
            let entry = members.get(index)?;
            Some(Handed {
                entry,
                wanted: Some(wanted),
            })
        }
    }
}

/// The modules at places, from the one with this index on.
fn handed_at_each<'m, 'a, A: Allocator + Copy>(
    alloc: A,
    objects: &'m [Entry<'a, A>],
    members: &'m [Entry<'a, A>],
    linked: &[Place<'a>],
    first: usize,
) -> Result<Vec<Handed<'m, 'a, A>, A>, AllocError>
    ensures { IfOk result (λ v. (taken : List TakenFor) →
        ArePlaced (map entry_held objects.now) (map entry_held members.now) linked.now taken →
        map handed_taken v.items ≡ drop first taken) }
{
    let mut handed = Vec::new(alloc);
    let mut index = first;
    while index < linked.len() {
        if let Some(each) = handed_at(objects, members, linked[index]) {
            handed.push(each)?;
        }
        index += 1;
    }
    Ok(handed)
}

impl<'a, A: Allocator + Copy> Stock<'a, A> {
    /// No files.
    pub fn new(alloc: A, names: Names) -> Self
        ensures { Searched names [] result }
    {
        Stock {
            objects: Vec::new(alloc),
            members: Vec::new(alloc),
            linked: Vec::new(alloc),
            files: 0,
            search: Search::new(alloc, names),
        }
    }

    /// Adds a round of files: of all files so far those behind the ones of earlier rounds. Its object files are taken,
    /// and the search for members goes on: what was taken stays taken.
    ///
    /// # Errors
    /// The first library or archive that is at fault, with its first fault. Nothing holds of the stock then.
    pub fn add(&mut self, alloc: A, files: &[&'a [u8]]) -> Result<(), StockFault>
        ensures { (names : Names) (rounds : List (List (List ℕ))) (more : List (List ℕ)) →
            bytes_of files.now ≡ all_files rounds ++ more → Searched names rounds self.old →
            MatchResult result (λ done. Searched names (rounds ++ more ∷ []) self.new)
            (λ fault. IsFault fault (spec.members (bytes_of files.now))) }
    {
        let objects = self.objects.len();
        let members = self.members.len();
        let mut more_objects = object_entries(alloc, files, self.files)?;
        let mut more_members = member_entries(alloc, files, self.files)?;
        self.files = files.len();
        self.objects.append(&mut more_objects)?;
        self.members.append(&mut more_members)?;
        link_objects(&mut self.search, &mut self.linked, &self.objects, objects)?;
        offer_members(&mut self.search, &self.members, members)?;
        take_members(&mut self.search, &mut self.linked, &self.members)?;
        Ok(())
    }

    /// The modules that are linked, in the order in which they joined, from the one with this index on: of each round
    /// its object files, and behind them the members that were taken, each with the name for which it was.
    pub fn handed_from(
        &self,
        alloc: A,
        first: usize,
    ) -> Result<Vec<Handed<'_, 'a, A>, A>, AllocError>
        ensures { IfOk result (λ v. (names : Names) (rounds : List (List (List ℕ))) →
            Searched names rounds self.now →
            (taken : List TakenFor) × TakesFor names rounds taken × (map handed_taken v.items ≡ drop first taken)) }
    {
        handed_at_each(alloc, &self.objects, &self.members, &self.linked, first)
    }

    /// All modules that are linked.
    pub fn handed(&self, alloc: A) -> Result<Vec<Handed<'_, 'a, A>, A>, AllocError>
        ensures { IfOk result (λ v. (names : Names) (rounds : List (List (List ℕ))) →
            Searched names rounds self.now → TakesFor names rounds (map handed_taken v.items)) }
    {
        self.handed_from(alloc, 0)
    }
}
