//! Files whose modules are taken.

ghost use Rattle.std.specs.Prelude.{◌≡◌, ◌++◌, [], IfOk, OnOk, map};
ghost use Rattle.omf_library.specs.Members.{plain_member};
ghost use Rattle.doslib_text.specs.Faults.{faults_text};
ghost use Rattle.doslib_text.specs.Parts.{kept_members};
ghost use Rattle.doslib_jobs.specs.Libraries.{all_modules, modules_in};
ghost use Rattle.doslib_jobs.specs.inside.Libraries.{HasTaken, TakesBytes, TakesFile, kind_of, members_of};
ghost use Rattle.doslib_jobs.specs.inside.Libraries.{source_said};
ghost use Rattle.doslib_words.specs.Words.{texts};

use crate::fault::Stopped;
use crate::outcome::Outcome;
use doslib_text::{Whole, push_faults};
use doslink_files::{ReadFault, read_file};
use omf_files::World;
use omf_library::{FileKind, Member};
use std::alloc::{AllocError, Allocator};

/// A file whose modules are taken.
#[derive(Drop)]
pub(crate) struct Taken<'p, A: Allocator> {
    /// Its path.
    pub path: &'p str,
    /// What of it is whole. None where it isn't read.
    whole: Option<Whole<A>>,
}

impl<A: Allocator + Copy> Taken<'_, A> {
    /// What it is; an object module where it isn't read.
    pub(crate) fn kind(&self) -> FileKind
        ensures { result ≡ kind_of self.now.whole }
    {
        match &self.whole {
            Some(whole) => whole.kind,
            None => FileKind::Object,
        }
    }

    /// The members of it that are whole.
    pub(crate) fn members(&self, alloc: A) -> Result<Vec<Member<'_>, A>, AllocError>
        ensures { IfOk result (λ ms. map plain_member ms.items ≡ members_of self.now.whole) }
    {
        match &self.whole {
            Some(whole) => whole.members(alloc),
            None => Ok(Vec::new(alloc)),
        }
    }
}

/// The lines of the faults of a file at a path.
fn faults_of<A: Allocator + Copy>(
    alloc: A,
    path: &str,
    whole: &Whole<A>,
) -> Result<Vec<u8, A>, AllocError>
    ensures { IfOk result (λ v. v.items ≡ faults_text path.now (kept_members whole.now) whole.now.fault) }
{
    let members = whole.members(alloc)?;
    let mut faults = Vec::new(alloc);
    push_faults(&mut faults, path, &members, whole.fault)?;
    Ok(faults)
}

/// The file with these bytes at a path; its faults are told.
fn take_bytes<A: Allocator + Copy>(
    path: &str,
    bytes: Vec<u8, A>,
    outcome: &mut Outcome<A>,
) -> Result<Whole<A>, AllocError>
    ensures { IfOk result (TakesBytes path.now bytes.items outcome.old outcome.new) }
{
    let alloc = *outcome.lines.allocator();
    let whole = Whole::of(alloc, bytes)?;
    let faults = faults_of(alloc, path, &whole)?;
    outcome.add_faults(&faults)?;
    Ok(whole)
}

/// The file at a path; its faults are told, or why it isn't read.
fn take_file<'p, W: World + Copy, A: Allocator + Copy>(
    world: W,
    path: &'p str,
    outcome: &mut Outcome<A>,
) -> Result<Taken<'p, A>, Stopped>
    ensures { IfOk result (λ taken. TakesFile (W.bytes world) path.now outcome.old outcome.new (source_said taken)) }
{
    let alloc = *outcome.lines.allocator();
    match read_file(alloc, &world, path) {
        Ok(file) => {
            let whole = take_bytes(path, file.bytes, outcome)?;
            Ok(Taken {
                path,
                whole: Some(whole),
            })
        }
        Err(ReadFault::Memory) => Err(Stopped::Memory),
        Err(fault) => {
            outcome.add_unread(path, fault)?;
            Ok(Taken { path, whole: None })
        }
    }
}

/// Files, in their order; their faults are told, and why some aren't read.
pub(crate) fn take_files<'p, W: World + Copy, A: Allocator + Copy>(
    alloc: A,
    world: W,
    paths: &[&'p str],
    outcome: &mut Outcome<A>,
) -> Result<Vec<Taken<'p, A>, A>, Stopped>
    requires lines { outcome.old.lines.items ≡ [] }
    requires status { outcome.old.status ≡ 0 }
    ensures { IfOk result (λ taken. HasTaken (W.bytes world) (texts paths.now) (map source_said taken.items)
        outcome.new.lines.items outcome.new.status) }
{
    let mut taken = Vec::new(alloc);
    for path in paths {
        taken.push(take_file(world, path, outcome)?)?;
    }
    Ok(taken)
}

/// Appends the modules of members.
fn push_members<'a, A: Allocator + Copy>(
    members: &[Member<'a>],
    modules: &mut Vec<&'a [u8], A>,
) -> Result<(), AllocError>
    ensures { OnOk result (texts modules.new.items ≡ texts modules.old.items ++ map (λ m. m.bytes.now) members.now) }
{
    for member in members {
        modules.push(member.bytes)?;
    }
    Ok(())
}

/// Appends the modules of a file.
fn push_modules<'a, A: Allocator + Copy>(
    taken: &'a Taken<'_, A>,
    modules: &mut Vec<&'a [u8], A>,
) -> Result<(), AllocError>
    ensures { OnOk result (texts modules.new.items
        ≡ texts modules.old.items ++ modules_in (source_said taken.entry.now)) }
{
    let members = taken.members(*modules.allocator())?;
    push_members(&members, modules)
}

/// The modules of a file.
pub(crate) fn modules_in<'a, A: Allocator + Copy>(
    alloc: A,
    taken: &'a Taken<'_, A>,
) -> Result<Vec<&'a [u8], A>, AllocError>
    ensures { IfOk result (λ modules. texts modules.items ≡ modules_in (source_said taken.entry.now)) }
{
    let mut modules = Vec::new(alloc);
    push_modules(taken, &mut modules)?;
    Ok(modules)
}

/// The modules of files, in their order.
pub(crate) fn modules_of<'a, A: Allocator + Copy>(
    alloc: A,
    files: &'a [Taken<'_, A>],
) -> Result<Vec<&'a [u8], A>, AllocError>
    ensures { IfOk result (λ modules. texts modules.items ≡ all_modules (map source_said files.entry.now)) }
{
    let mut modules = Vec::new(alloc);
    for file in files {
        push_modules(file, &mut modules)?;
    }
    Ok(modules)
}
