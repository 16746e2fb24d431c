//! Members that are taken out of a library, each written to a file of its own.

ghost use Rattle.std.specs.Prelude.{◌≡◌, ◌∷◌, ◌++◌, [], IfOk, codes, map, string_bytes};
ghost use Rattle.doslink_files.specs.Written.{StandsAt};
ghost use Rattle.doslib_jobs.specs.Jobs.{ArePut, IsExtracted, object_path};
ghost use Rattle.doslib_jobs.specs.Libraries.{all_modules};
ghost use Rattle.doslib_jobs.specs.inside.Libraries.{DoesBy, extracted_said, source_said};
ghost use Rattle.doslib_jobs.specs.inside.Running.{outcome_said};
ghost use Rattle.doslib_words.specs.Words.{texts};

use crate::changing::{Extracted, Refused, all_extracted};
use crate::fault::Stopped;
use crate::making::refused;
use crate::outcome::{FAILED, Outcome};
use crate::reading::push_unwritten;
use crate::taking::{Taken, modules_of, take_files};
use doslink_files::put_file;
use omf_files::World;
use std::alloc::{AllocError, Allocator};

/// The path of the file of a member.
fn object_path<A: Allocator + Copy>(alloc: A, name: &str) -> Result<String<A>, AllocError>
    ensures { IfOk result (λ path. string_bytes path ≡ object_path name.now) }
{
    let mut path = String::from_str(alloc, name)?;
    path.push_str(".OBJ")?;
    Ok(path)
}

/// Writes members to files of their own, up to the first that can't be written, which is told.
fn put_members<W: World, A: Allocator + Copy>(
    alloc: A,
    world: &W,
    members: &[Extracted<'_>],
) -> Result<Outcome<A>, AllocError>
    ensures { IfOk result (λ o. ArePut (StandsAt (W.blank world.now) (W.Puts world.now))
        (map extracted_said members.now) o.lines.items o.status) }
{
    let mut outcome = Outcome::new(alloc);
    for member in members {
        let path = object_path(alloc, member.name)?;
        match put_file(world, path.as_str(), member.bytes) {
            Ok(()) => {}
            Err(_) => {
                push_unwritten(&mut outcome.lines, path.as_str())?;
                outcome.raise(FAILED);
                return Ok(outcome);
            }
        }
    }
    Ok(outcome)
}

/// Writes the members of these names of a file, or tells which isn't there.
fn extract_taken<W: World, A: Allocator + Copy>(
    alloc: A,
    world: &W,
    path: &str,
    names: &[&str],
    files: &[Taken<'_, A>],
) -> Result<Outcome<A>, Stopped>
    ensures { IfOk result (λ o. IsExtracted (StandsAt (W.blank world.now) (W.Puts world.now)) path.now
        (texts names.now) (all_modules (map source_said files.now)) o.lines.items o.status) }
{
    let modules = modules_of(alloc, files)?;
    match all_extracted(alloc, &modules, names) {
        Ok(members) => Ok(put_members(alloc, world, &members)?),
        Err(Refused::Memory) => Err(Stopped::Memory),
        Err(why) => Ok(refused(alloc, path, why)?),
    }
}

/// Writes the members of these names of the file at a path to files of their own. Where it isn't read or is at fault,
/// or has no member of one of the names, nothing is written.
pub(crate) fn extract<W: World + Copy, A: Allocator + Copy>(
    alloc: A,
    world: W,
    path: &str,
    names: &[&str],
) -> Result<Outcome<A>, Stopped>
    ensures { IfOk (outcome_said result) (λ o. DoesBy (W.bytes world) (path.now ∷ [])
        (λ sources. IsExtracted (StandsAt (W.blank world) (W.Puts world)) path.now (texts names.now)
        (all_modules sources)) o.0 o.1) }
{
    let mut outcome = Outcome::new(alloc);
    let taken = take_files(alloc, world, &[path], &mut outcome)?;
    if outcome.status > 0 {
        return Ok(outcome);
    }
    extract_taken(alloc, &world, path, names, &taken)
}
