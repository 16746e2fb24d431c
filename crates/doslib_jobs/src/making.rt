//! Libraries that are made and changed, and written.

ghost use Rattle.std.specs.Prelude.{◌≡◌, ◌∷◌, ◌⊎◌, IfOk, IfSome, None, false, map, true};
ghost use Rattle.omf_library.specs.Files.{file_kind};
ghost use Rattle.doslink_files.specs.Standing.{BeginsAsInput};
ghost use Rattle.doslink_files.specs.Written.{StandsAt};
ghost use Rattle.omf_librarian.specs.Library.{library_of};
ghost use Rattle.omf_librarian.specs.Said.{library_said};
ghost use Rattle.doslib_jobs.specs.Jobs.{IsChanged, IsKept, IsMade, IsPut};
ghost use Rattle.doslib_jobs.specs.Libraries.{is_library, made};
ghost use Rattle.doslib_jobs.specs.inside.Libraries.{DoesBy, change_of, refused_line, source_said};
ghost use Rattle.doslib_jobs.specs.inside.Running.{outcome_said};
ghost use Rattle.doslib_words.specs.Words.{texts};

use crate::changing::{Change, Refused, changed};
use crate::fault::Stopped;
use crate::library_lines::{push_doubled, push_librarian, push_refusal};
use crate::outcome::{AT_FAULT, FAILED, Outcome};
use crate::reading::push_unwritten;
use crate::taking::{Taken, take_files};
use doslink_files::{ReadFault, put_file, read_file, stands_as_input};
use omf_files::World;
use omf_librarian::{LibrarianFault, Library, library_bytes};
use omf_library::{FileKind, file_kind};
use std::alloc::{AllocError, Allocator};

/// Writes a library of these modules at a path, and tells of names that two of them have; or that it can't be written.
fn put_library<W: World, A: Allocator + Copy>(
    alloc: A,
    world: &W,
    path: &str,
    modules: &[&[u8]],
    library: &Library<A>,
) -> Result<Outcome<A>, AllocError>
    ensures { IfOk result (λ o. IsPut (StandsAt (W.blank world.now) (W.Puts world.now)) path.now (texts modules.now)
        (library_said library.now) o.lines.items o.status) }
{
    let mut outcome = Outcome::new(alloc);
    match put_file(world, path, &library.bytes) {
        Ok(()) => push_doubled(&mut outcome.lines, path, modules, &library.doubled)?,
        Err(_) => {
            push_unwritten(&mut outcome.lines, path)?;
            outcome.raise(FAILED);
        }
    }
    Ok(outcome)
}

/// Writes the library of modules at a path, or tells why there is none.
fn make<W: World, A: Allocator + Copy>(
    alloc: A,
    world: &W,
    path: &str,
    modules: &[&[u8]],
) -> Result<Outcome<A>, Stopped>
    ensures { IfOk result (λ o. IsMade (StandsAt (W.blank world.now) (W.Puts world.now)) path.now (texts modules.now)
        (library_of None (texts modules.now)) o.lines.items o.status) }
{
    match library_bytes(alloc, modules, None) {
        Ok(library) => Ok(put_library(alloc, world, path, modules, &library)?),
        Err(LibrarianFault::Memory) => Err(Stopped::Memory),
        Err(fault) => {
            let mut outcome = Outcome::new(alloc);
            push_librarian(&mut outcome.lines, path, fault)?;
            outcome.raise(AT_FAULT);
            Ok(outcome)
        }
    }
}

/// Tells why the library at a path isn't changed, which isn't for want of memory.
pub(crate) fn refused<'p, A: Allocator + Copy>(
    alloc: A,
    path: &'p str,
    why: Refused<'p>,
) -> Result<Outcome<A>, AllocError>
    ensures lines { IfOk result (λ o. o.lines.items ≡ refused_line path.now why.entry) }
    ensures status { IfOk result (λ o. o.status ≡ 1) }
{
    let mut outcome = Outcome::new(alloc);
    push_refusal(&mut outcome.lines, path, why)?;
    outcome.raise(AT_FAULT);
    Ok(outcome)
}

/// Whether a file is a library.
fn is_library(bytes: &[u8]) -> bool
    ensures { result ≡ is_library (file_kind bytes.now) }
{
    matches!(file_kind(bytes), FileKind::Library)
}

/// Whether a module or an archive stands at a path.
fn stands_as_other<W: World + Copy, A: Allocator + Copy>(
    alloc: A,
    world: W,
    path: &str,
) -> Result<bool, Stopped>
    ensures { IfOk result (λ stands. stands ≡ true → IfSome (W.bytes world path.now)
        (λ file. BeginsAsInput file × (is_library (file_kind file) ≡ false))) }
{
    if !stands_as_input(&world, path) {
        return Ok(false);
    }
    match read_file(alloc, &world, path) {
        Ok(file) => Ok(!is_library(&file.bytes)),
        Err(ReadFault::Memory) => Err(Stopped::Memory),
        Err(_) => Ok(false),
    }
}

/// Writes the library at a path that is made of files, or tells why it isn't changed.
fn change_taken<W: World, A: Allocator + Copy>(
    alloc: A,
    world: &W,
    change: Change<'_>,
    path: &str,
    files: &[Taken<'_, A>],
) -> Result<Outcome<A>, Stopped>
    ensures { IfOk result (λ o. IsChanged (StandsAt (W.blank world.now) (W.Puts world.now)) path.now
        (change_of change.entry (map source_said files.now)) o.lines.items o.status) }
{
    match changed(alloc, change, files) {
        Ok(modules) => make(alloc, world, path, &modules),
        Err(Refused::Memory) => Err(Stopped::Memory),
        Err(why) => Ok(refused(alloc, path, why)?),
    }
}

/// Makes a library at a path of files, or changes it by them. Where one of them isn't read or is at fault, nothing is
/// written.
fn change_by<W: World + Copy, A: Allocator + Copy>(
    alloc: A,
    world: W,
    change: Change<'_>,
    path: &str,
    files: &[&str],
) -> Result<Outcome<A>, Stopped>
    ensures { IfOk (outcome_said result) (λ o. DoesBy (W.bytes world) (texts files.now)
        (λ sources. IsChanged (StandsAt (W.blank world) (W.Puts world)) path.now
        (change_of change.entry sources)) o.0 o.1) }
{
    let mut outcome = Outcome::new(alloc);
    let taken = take_files(alloc, world, files, &mut outcome)?;
    if outcome.status > 0 {
        return Ok(outcome);
    }
    change_taken(alloc, &world, change, path, &taken)
}

/// The library of the modules of files, at a path, unless a module or an archive stands there.
pub(crate) fn make_library<W: World + Copy, A: Allocator + Copy>(
    alloc: A,
    world: W,
    path: &str,
    files: &[&str],
) -> Result<Outcome<A>, Stopped>
    ensures { IfOk (outcome_said result) (λ o. DoesBy (W.bytes world) (texts files.now)
        (λ sources. IsChanged (StandsAt (W.blank world) (W.Puts world)) path.now (made sources)) o.0 o.1
        ⊎ IsKept (W.bytes world) path.now o.0 o.1) }
{
    if stands_as_other(alloc, world, path)? {
        return Ok(refused(alloc, path, Refused::NotLibrary)?);
    }
    change_by(alloc, world, Change::Made, path, files)
}

/// The library at a path, changed by other files.
pub(crate) fn change_library<W: World + Copy, A: Allocator + Copy>(
    alloc: A,
    world: W,
    change: Change<'_>,
    path: &str,
    files: &[&str],
) -> Result<Outcome<A>, Stopped>
    ensures { IfOk (outcome_said result) (λ o. DoesBy (W.bytes world) (path.now ∷ texts files.now)
        (λ sources. IsChanged (StandsAt (W.blank world) (W.Puts world)) path.now
        (change_of change.entry sources)) o.0 o.1) }
{
    let mut paths = Vec::new(alloc);
    paths.push(path)?;
    paths.extend_from_slice(files)?;
    change_by(alloc, world, change, path, &paths)
}
