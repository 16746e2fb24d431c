//! Libraries that are looked up in folders.
ghost use Rattle.std.specs.Prelude.{◌≡◌, IfOk, map, string_bytes};
ghost use Rattle.doslink_files.specs.Files.{IsFound, IsFoundNew, IsRegularNew};
ghost use Rattle.doslink_files.specs.inside.Looking.{IsReadNew};
ghost use Rattle.doslink_files.specs.inside.Taking.{IsTaken};
ghost use Rattle.doslink_files.specs.Paths as spec;

use crate::fault::ReadFault;
use crate::paths::{has_extension, paths_of};
use crate::reading::{InputFile, read_input};
use crate::taking::{Taken, passed_over, take_first};
use omf_files::{FileId, PlaceKind, World};
use std::alloc::Allocator;
use std::collections::BTreeSet;

/// What is put behind a library's name, in turn.
fn extensions(name: &str) -> &'static [&'static str]
    ensures { map (λ e. e.now) result.now ≡ spec.extensions name.now }
{
    if has_extension(name.as_bytes()) {
        &[""]
    } else {
        &["", ".LIB", ".lib"]
    }
}

/// The library of this name, looked up as `find_library` does. A regular file that is known isn't read again.
///
/// # Errors
/// As those of `find_library`.
pub(crate) fn take_library<W: World, A: Allocator + Copy>(
    alloc: A,
    world: &W,
    folders: &[&str],
    name: &str,
    known: &BTreeSet<FileId, A>,
) -> Result<Taken<A>, ReadFault>
    ensures { IfOk result (IsTaken (IsFound (W.bytes world.now) (map (λ f. f.now) folders.now) name.now)
        (W.holds world.now) known.now) }
{
    let paths = paths_of(alloc, folders, name, extensions(name))?;
    take_first(alloc, world, &paths, known)
}

/// The library of this name, looked up in this folder, and then in each of the others, in their order: the first file
/// that can be opened, of the name as it stands and, where it has no dot, with `.LIB` or `.lib` at its end. A folder of
/// such a name is passed over.
///
/// # Errors
/// Want of memory; that a file can't be read to its end; else why the last of those that are there isn't opened, and
/// `Absent` where none is.
pub fn find_library<W: World, A: Allocator + Copy>(
    alloc: A,
    world: &W,
    folders: &[&str],
    name: &str,
) -> Result<InputFile<A>, ReadFault>
    ensures { IfOk result (λ file. IsFound (W.bytes world.now) (map (λ f. f.now) folders.now) name.now
        (string_bytes file.path) file.bytes.items) }
{
    match take_library(alloc, world, folders, name, &BTreeSet::new(alloc))? {
        Taken::New(file, _) => Ok(file),
        // no file is known
        Taken::Known(_) => unreachable!(),
    }
}

/// What a look-up found.
#[derive(Drop)]
pub enum Found<A: Allocator + Copy> {
    /// A file, which was read.
    New(InputFile<A>),
    /// A file that is known, under this path or another one. It isn't read again.
    Known,
}

/// The regular file at a path, unless it is known.
fn read_regular<W: World, A: Allocator + Copy>(
    alloc: A,
    world: &W,
    path: &str,
    known: &BTreeSet<FileId, A>,
) -> Result<Found<A>, ReadFault>
    ensures read { IfOk result (IsReadNew (W.bytes world.now) path.now) }
    ensures regular { IfOk result (IsRegularNew (W.looks world.now)) }
{
    let looked = match world.look(path) {
        Ok(looked) => looked,
        Err(error) => return Err(ReadFault::of_opening(&error)),
    };
    match looked.kind {
        PlaceKind::Folder => Err(ReadFault::Folder),
        PlaceKind::Other => Err(ReadFault::Special),
        PlaceKind::Regular if known.contains(&looked.id) => Ok(Found::Known),
        PlaceKind::Regular => Ok(Found::New(read_input(alloc, world, path, Some(looked.id))?)),
    }
}

/// The library of this name, looked up as `find_library` does, but among regular files alone: what modules name may be
/// anything. One that is known isn't read again.
///
/// # Errors
/// As those of `find_library`.
pub fn find_default<W: World, A: Allocator + Copy>(
    alloc: A,
    world: &W,
    folders: &[&str],
    name: &str,
    known: &BTreeSet<FileId, A>,
) -> Result<Found<A>, ReadFault>
    ensures found { IfOk result (IsFoundNew (W.bytes world.now) (map (λ f. f.now) folders.now) name.now) }
    ensures regular { IfOk result (IsRegularNew (W.looks world.now)) }
{
    let mut why = ReadFault::Absent;
    let paths = paths_of(alloc, folders, name, extensions(name))?;
    for path in &paths {
        match read_regular(alloc, world, path.as_str(), known) {
            Ok(found) => return Ok(found),
            Err(fault) => why = passed_over(why, fault)?,
        }
    }
    Err(why)
}
