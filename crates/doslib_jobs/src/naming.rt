//! What is told of the names of the modules of files.

ghost use Rattle.std.specs.Prelude.{◌≡◌, ◌++◌, IfOk, OnOk, if◌then◌else◌, map};
ghost use Rattle.omf_files.specs.Files.{sink_bytes, sink_failures};
ghost use Rattle.omf_library.specs.Members.{plain_member};
ghost use Rattle.doslib_names.specs.Said.{held_said};
ghost use Rattle.doslib_jobs.specs.Jobs.{TellsNames, choice_of};
ghost use Rattle.doslib_jobs.specs.Libraries.{all_held, held_as, held_in};
ghost use Rattle.doslib_jobs.specs.inside.Libraries.{source_said};
ghost use Rattle.doslib_jobs.specs.inside.Running.{outcome_said};
ghost use Rattle.doslib_words.specs.Words.{texts};

use crate::fault::Stopped;
use crate::outcome::{AT_FAULT, Outcome};
use crate::taking::{Taken, take_files};
use doslib_names::{Held, names_told};
use omf_files::{BufferedSink, World};
use omf_frame::put_all;
use omf_library::{FileKind, Member};
use omf_place::Names;
use std::alloc::{AllocError, Allocator};
use std::io::Write;

/// Which names agree.
fn choice_of(ignore_case: bool) -> Names
    ensures { result ≡ choice_of ignore_case }
{
    if ignore_case {
        Names::AsciiFolded
    } else {
        Names::Exact
    }
}

/// The status where names are amiss, or aren't.
fn status_of(is_amiss: bool) -> u8
    ensures { result ≡ (if is_amiss then 1 else 0) }
{
    if is_amiss { AT_FAULT } else { 0 }
}

/// Appends members of a file of this kind at a path.
fn push_members<'a, A: Allocator + Copy>(
    path: &'a str,
    kind: FileKind,
    members: &[Member<'a>],
    held: &mut Vec<Held<'a>, A>,
) -> Result<(), AllocError>
    ensures { OnOk result (map held_said held.new.items
        ≡ map held_said held.old.items ++ map (held_as path.entry.now kind) (map plain_member members.now)) }
{
    for member in members {
        held.push(Held {
            path,
            kind,
            member: *member,
        })?;
    }
    Ok(())
}

/// Appends the modules of a file.
fn push_held<'a, A: Allocator + Copy>(
    taken: &'a Taken<'a, A>,
    held: &mut Vec<Held<'a>, A>,
) -> Result<(), AllocError>
    ensures { OnOk result (map held_said held.new.items
        ≡ map held_said held.old.items ++ held_in (source_said taken.entry.now)) }
{
    let members = taken.members(*held.allocator())?;
    push_members(taken.path, taken.kind(), &members, held)
}

/// The modules of files, in their order.
fn held_by<'a, A: Allocator + Copy>(
    alloc: A,
    files: &'a [Taken<'a, A>],
) -> Result<Vec<Held<'a>, A>, AllocError>
    ensures { IfOk result (λ held. map held_said held.items ≡ all_held (map source_said files.entry.now)) }
{
    let mut held = Vec::new(alloc);
    for file in files {
        push_held(file, &mut held)?;
    }
    Ok(held)
}

/// Tells which names modules of files want and none defines, and which two define. Of files that are at fault the
/// members are looked at that are whole.
pub(crate) fn tell_names<W: World + Copy, O: Write + Drop, A: Allocator + Copy>(
    alloc: A,
    world: W,
    ignore_case: bool,
    files: &[&str],
    output: &mut BufferedSink<O, A>,
) -> Result<Outcome<A>, Stopped>
    requires { sink_failures output.old ≡ 0 }
    ensures { IfOk (outcome_said result) (λ o. TellsNames (W.bytes world) (choice_of ignore_case) (texts files.now)
        (sink_bytes O.contents output.old) (sink_bytes O.contents output.new) o.0 o.1) }
{
    let mut outcome = Outcome::new(alloc);
    let taken = take_files(alloc, world, files, &mut outcome)?;
    let held = held_by(alloc, &taken)?;
    let told = names_told(alloc, choice_of(ignore_case), &held)?;
    put_all(output, &told.text)?;
    output.flush()?;
    outcome.raise(status_of(told.is_amiss));
    Ok(outcome)
}
