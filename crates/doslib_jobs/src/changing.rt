//! What the modules of a library become.

ghost use Rattle.std.specs.Prelude.{◌≡◌, map};
ghost use Rattle.doslib_jobs.specs.Libraries as spec;
ghost use Rattle.doslib_jobs.specs.inside.Libraries.{Gives, IsRefusedFor, change_of, extracted_said, library_parts};
ghost use Rattle.doslib_jobs.specs.inside.Libraries.{parts_said, source_said};
ghost use Rattle.doslib_words.specs.Words.{texts};

use crate::taking::{Taken, modules_in, modules_of};
use omf_librarian::{ChangeFault, added, deleted, extracted, module_name, replaced};
use omf_library::FileKind;
use std::alloc::{AllocError, AllocFailed, Allocator};

/// Why a library isn't changed.
#[derive(Clone, Copy)]
pub(crate) enum Refused<'a> {
    /// There was no memory.
    Memory,
    /// 73: a file that has to be a library is none.
    NotLibrary,
    /// 74: it has no member of this name.
    NoMember(&'a [u8]),
}

impl From<AllocError> for Refused<'_> {
    ghost use Rattle.doslib_jobs.specs.declared.changing.Refused.TheVariants.{Memory};

    ghost from_gives = { λ _ e. e ≡ Memory };

    fn from(_: AllocError) -> Self {
        Refused::Memory
    }
}

impl<T: Drop> From<AllocFailed<T>> for Refused<'_> {
    ghost use Rattle.doslib_jobs.specs.declared.changing.Refused.TheVariants.{Memory};

    ghost from_gives = { λ _ e. e ≡ Memory };

    fn from(_: AllocFailed<T>) -> Self {
        Refused::Memory
    }
}

/// How a library is made or changed. Each word has its case in `changed`.
#[derive(Clone, Copy)]
pub(crate) enum Change<'a> {
    /// Made of the modules of all files.
    Made,
    /// The first file, with the modules of the others behind its members.
    Added,
    /// The first file, with each module of the others in the place of the member of its name.
    Replaced,
    /// The first file without the members of these names.
    Deleted(&'a [&'a str]),
}

/// The members of a library, and modules for it.
#[derive(Drop)]
struct Parts<'a, A: Allocator> {
    members: Vec<&'a [u8], A>,
    more: Vec<&'a [u8], A>,
}

/// The members of the first file, which has to be a library, and the modules of the others.
fn library_parts<'a, A: Allocator + Copy>(
    alloc: A,
    files: &'a [Taken<'_, A>],
) -> Result<Parts<'a, A>, Refused<'a>>
    ensures { Gives parts_said result (library_parts (map source_said files.entry.now)) }
{
    let [library, more @ ..] = files else {
        return Err(Refused::NotLibrary);
    };
    if library.kind() != FileKind::Library {
        return Err(Refused::NotLibrary);
    }
    Ok(Parts {
        members: modules_in(alloc, library)?,
        more: modules_of(alloc, more)?,
    })
}

/// Why members aren't changed, where this name was asked for.
fn why<'a>(fault: ChangeFault, name: &'a [u8]) -> Refused<'a>
    ensures { IsRefusedFor result fault name.entry.now }
{
    match fault {
        ChangeFault::Missing => Refused::NoMember(name),
        ChangeFault::Memory => Refused::Memory,
    }
}

/// Members with each of the modules in the place of the first member of its name, one after the other.
fn all_replaced<'a, A: Allocator + Copy>(
    alloc: A,
    members: &[&'a [u8]],
    more: &[&'a [u8]],
) -> Result<Vec<&'a [u8], A>, Refused<'a>>
    ensures { Gives (λ v. texts v.items) result (spec.all_replaced (texts members.now) (texts more.now)) }
{
    let mut left = Vec::from_slice(alloc, members)?;
    for module in more {
        let name = module_name(module);
        match replaced(alloc, &left, name, module) {
            Ok(members) => left = members,
            Err(fault) => return Err(why(fault, name)),
        }
    }
    Ok(left)
}

/// Members without the first one of each name, one after the other.
fn all_deleted<'a, A: Allocator + Copy>(
    alloc: A,
    members: &[&'a [u8]],
    names: &[&'a str],
) -> Result<Vec<&'a [u8], A>, Refused<'a>>
    ensures { Gives (λ v. texts v.items) result (spec.all_deleted (texts names.now) (texts members.now)) }
{
    let mut left = Vec::from_slice(alloc, members)?;
    for name in names {
        match deleted(alloc, &left, name.as_bytes()) {
            Ok(members) => left = members,
            Err(fault) => return Err(why(fault, name.as_bytes())),
        }
    }
    Ok(left)
}

/// What the modules of a library become, by files that were read.
pub(crate) fn changed<'a, A: Allocator + Copy>(
    alloc: A,
    change: Change<'a>,
    files: &'a [Taken<'_, A>],
) -> Result<Vec<&'a [u8], A>, Refused<'a>>
    ensures { Gives (λ v. texts v.items) result (change_of change.entry (map source_said files.entry.now)) }
{
    if let Change::Made = change {
        return Ok(modules_of(alloc, files)?);
    }
    let parts = library_parts(alloc, files)?;
    match change {
        Change::Replaced => all_replaced(alloc, &parts.members, &parts.more),
        Change::Deleted(names) => all_deleted(alloc, &parts.members, names),
        Change::Made | Change::Added => Ok(added(alloc, &parts.members, &parts.more)?),
    }
}

/// A member that is taken out of a library.
#[derive(Clone, Copy)]
pub(crate) struct Extracted<'a> {
    /// The name that was asked for.
    pub name: &'a str,
    /// Its bytes.
    pub bytes: &'a [u8],
}

/// The first member of each name.
pub(crate) fn all_extracted<'a, A: Allocator + Copy>(
    alloc: A,
    members: &[&'a [u8]],
    names: &[&'a str],
) -> Result<Vec<Extracted<'a>, A>, Refused<'a>>
    ensures { Gives (λ v. map extracted_said v.items) result
        (spec.all_extracted (texts names.now) (texts members.now)) }
{
    let mut found = Vec::new(alloc);
    for name in names {
        let Some(bytes) = extracted(members, name.as_bytes()) else {
            return Err(Refused::NoMember(name.as_bytes()));
        };
        found.push(Extracted { name, bytes })?;
    }
    Ok(found)
}
