//! Files that are read unless they are known.
ghost use Rattle.std.specs.Prelude.{◌≡◌, IfOk, map, string_bytes};
ghost use Rattle.std.specs.List.{Contains};
ghost use Rattle.doslink_files.specs.Files.{IsModulesPart};
ghost use Rattle.doslink_files.specs.inside.Taking.{IsTaken};

use crate::fault::ReadFault;
use crate::modules::is_foreign;
use crate::paths::has_extension;
use crate::reading::{InputFile, read_input};
use omf_files::{FileId, PlaceKind, World};
use std::alloc::Allocator;
use std::collections::BTreeSet;

/// What a look-up of a file that is wanted found.
#[derive(Drop)]
pub(crate) enum Taken<A: Allocator + Copy> {
    /// A file, which was read, and which regular file it is: none where it is another one, as a device, or where the
    /// world can't tell.
    New(InputFile<A>, Option<FileId>),
    /// A regular file that is known, under this path or another one. It is neither opened nor read.
    Known(FileId),
}

/// What is found at a path.
fn take_at<W: World, A: Allocator + Copy>(
    alloc: A,
    world: &W,
    path: &str,
    known: &BTreeSet<FileId, A>,
) -> Result<Taken<A>, ReadFault>
    ensures { IfOk result (IsTaken (λ at bytes. (at ≡ path.now) × IsModulesPart (W.bytes world.now at) bytes)
        (W.holds world.now) known.now) }
{
    let Ok(looked) = world.look(path) else {
        return Ok(Taken::New(read_input(alloc, world, path, None)?, None));
    };
    match looked.kind {
        PlaceKind::Regular if known.contains(&looked.id) => Ok(Taken::Known(looked.id)),
        PlaceKind::Regular => {
            let file = read_input(alloc, world, path, Some(looked.id))?;
            Ok(Taken::New(file, Some(looked.id)))
        }
        PlaceKind::Folder | PlaceKind::Other => {
            let file = read_input(alloc, world, path, Some(looked.id))?;
            Ok(Taken::New(file, None))
        }
    }
}

/// Why a look-up found nothing so far, where it goes on behind a file that isn't read.
///
/// # Errors
/// The fault, where it doesn't go on: want of memory, or that a read failed.
pub(crate) fn passed_over(before: ReadFault, fault: ReadFault) -> Result<ReadFault, ReadFault> {
    match fault {
        ReadFault::Memory | ReadFault::Device(_) => Err(fault),
        ReadFault::Absent => Ok(before),
        ReadFault::Folder
        | ReadFault::Forbidden
        | ReadFault::NoDrive
        | ReadFault::Special
        | ReadFault::Unopened(_) => Ok(fault),
    }
}

/// Whether a file is taken only where no other one is found: its name has no extension, and it begins as no file with
/// modules does, as a program of the system's own beside a module of its name.
fn is_taken_last<A: Allocator + Copy>(taken: &Taken<A>) -> bool {
    match taken {
        Taken::New(file, _) => !has_extension(file.path.as_bytes()) && is_foreign(&file.bytes),
        Taken::Known(_) => false,
    }
}

/// The first file at some paths that can be opened and is no folder, or is known. One without an extension that begins
/// as no file with modules does is taken where there is no other.
///
/// # Errors
/// Want of memory; that a file can't be read to its end; else why the last of those that are there isn't opened, and
/// `Absent` where none is.
pub(crate) fn take_first<W: World, A: Allocator + Copy>(
    alloc: A,
    world: &W,
    paths: &[String<A>],
    known: &BTreeSet<FileId, A>,
) -> Result<Taken<A>, ReadFault>
    ensures { IfOk result (IsTaken (λ path bytes. Contains (map string_bytes paths.now) path
        × IsModulesPart (W.bytes world.now path) bytes) (W.holds world.now) known.now) }
{
    let mut why = ReadFault::Absent;
    let mut last = None;
    for path in paths {
        match take_at(alloc, world, path.as_str(), known) {
            Ok(taken) if is_taken_last(&taken) => last = last.or(Some(taken)),
            Ok(taken) => return Ok(taken),
            Err(fault) => why = passed_over(why, fault)?,
        }
    }
    last.ok_or(why)
}
