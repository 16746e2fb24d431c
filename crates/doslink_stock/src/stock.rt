//! The modules of files in memory, and what they say of names.
ghost use Rattle.std.specs.Prelude.{◌≡◌, ◌++◌, IfOk, MatchResult, OnOk, Ok, drop, map};
ghost use Rattle.std.specs.Option.{option_copied};
ghost use Rattle.doslink_stock.specs.Files.{IsFault, fault_of, held, is_object, members_from, members_in, object_in};
ghost use Rattle.doslink_stock.specs.Files.{objects_from};
ghost use Rattle.doslink_stock.specs.Seen.{entry_held};
ghost use Rattle.doslink_stock.specs.inside.Adding.{Adds};
ghost use Rattle.omf_library.specs.Files.{file_kind};
ghost use Rattle.omf_search.specs.Results.{bytes_of};

use crate::fault::StockFault;
use omf_library::{FileKind, LibraryFault, Member, ModuleNames, file_kind, members, module_names};
use std::alloc::{AllocError, Allocator, Global};

/// A module of a file: the whole of an object file, or a member of a library or an archive.
#[derive(Drop)]
pub struct Entry<'a, A: Allocator + Copy = Global> {
    /// The index of the file, from 0.
    pub file: usize,
    /// The member's name; none where the file is the module.
    pub member: Option<&'a [u8]>,
    /// The module's bytes, as they stand in the file.
    pub bytes: &'a [u8],
    /// What the module says of names.
    pub says: ModuleNames<'a, A>,
}

/// Whether a file of these bytes is an object module.
fn is_object(bytes: &[u8]) -> bool
    ensures { result ≡ is_object (file_kind bytes.now) }
{
    match file_kind(bytes) {
        FileKind::Object => true,
        FileKind::Library | FileKind::Archive => false,
    }
}

/// The module of these bytes.
#[tactic(auto, unfolding(crate::specs::Files::held))]
fn entry_of<'a, A: Allocator + Copy>(
    alloc: A,
    file: usize,
    member: Option<&'a [u8]>,
    bytes: &'a [u8],
) -> Result<Entry<'a, A>, AllocError>
    ensures { IfOk result (λ e. entry_held e ≡ held file (option_copied member.entry) bytes.entry.now) }
{
    let says = module_names(alloc, bytes)?;
    Ok(Entry {
        file,
        member,
        bytes,
        says,
    })
}

/// Appends the module of an object file.
#[tactic(auto, unfolding(crate::specs::Files::object_in))]
fn push_object<'a, A: Allocator + Copy>(
    alloc: A,
    entries: &mut Vec<Entry<'a, A>, A>,
    file: usize,
    bytes: &'a [u8],
) -> Result<(), AllocError>
    ensures { OnOk result
        (map entry_held entries.new.items ≡ map entry_held entries.old.items ++ object_in file bytes.now) }
{
    if is_object(bytes) {
        let entry = entry_of(alloc, file, None, bytes)?;
        entries.push(entry)?;
    }
    Ok(())
}

/// The modules of those files that are object files, from the one with this index on.
pub(crate) fn object_entries<'a, A: Allocator + Copy>(
    alloc: A,
    files: &[&'a [u8]],
    first: usize,
) -> Result<Vec<Entry<'a, A>, A>, AllocError>
    ensures { IfOk result (λ v. map entry_held v.items ≡ objects_from first (bytes_of (drop first files.now))) }
{
    let mut entries = Vec::new(alloc);
    let mut file = first;
    while file < files.len() {
        push_object(alloc, &mut entries, file, files[file])?;
        file += 1;
    }
    Ok(entries)
}

/// Appends the members of a library.
fn push_entries<'a, A: Allocator + Copy>(
    alloc: A,
    entries: &mut Vec<Entry<'a, A>, A>,
    file: usize,
    members: &[Member<'a>],
) -> Result<(), AllocError>
    ensures { OnOk result (map entry_held entries.new.items
        ≡ map entry_held entries.old.items ++ map (λ m. held file (Some m.name.now) m.bytes.now) members.now) }
{
    for member in members {
        let entry = entry_of(alloc, file, Some(member.name), member.bytes)?;
        entries.push(entry)?;
    }
    Ok(())
}

/// A fault in a library, as one of this file.
fn fault_of(file: usize, fault: LibraryFault) -> StockFault
    ensures { result ≡ fault_of file fault }
{
    match fault {
        LibraryFault::Malformed { place, fault } => StockFault::Library { file, place, fault },
        LibraryFault::Memory => StockFault::Memory,
    }
}

/// Appends the members of a file, where it is a library or an archive.
#[tactic(auto, unfolding(crate::specs::Files::members_in))]
fn push_members<'a, A: Allocator + Copy>(
    alloc: A,
    entries: &mut Vec<Entry<'a, A>, A>,
    file: usize,
    bytes: &'a [u8],
) -> Result<(), StockFault>
    ensures { Adds (map entry_held entries.old.items) (map entry_held entries.new.items)
        (members_in file bytes.now) result }
{
    if is_object(bytes) {
        return Ok(());
    }
    match members(alloc, bytes) {
        Ok(members) => {
            push_entries(alloc, entries, file, &members)?;
            Ok(())
        }
        Err(fault) => Err(fault_of(file, fault)),
    }
}

/// The members of those files that are libraries or archives, from the one with this index on.
pub(crate) fn member_entries<'a, A: Allocator + Copy>(
    alloc: A,
    files: &[&'a [u8]],
    first: usize,
) -> Result<Vec<Entry<'a, A>, A>, StockFault>
    ensures { MatchResult result
        (λ v. members_from first (bytes_of (drop first files.now)) ≡ Ok (map entry_held v.items))
        (λ fault. IsFault fault (members_from first (bytes_of (drop first files.now)))) }
{
    let mut entries = Vec::new(alloc);
    let mut file = first;
    while file < files.len() {
        push_members(alloc, &mut entries, file, files[file])?;
        file += 1;
    }
    Ok(entries)
}
