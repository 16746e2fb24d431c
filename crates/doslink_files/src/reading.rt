//! Files that are read into memory.
ghost use Rattle.std.specs.Prelude.{◌≡◌, ◌++◌, ◌∷◌, ◌⊎◌, ℕ, [], All, IfErr, IfOk, IfSome, IsTrue, List, OnOk, Some};
ghost use Rattle.std.specs.Prelude.{map, string_bytes, true};
ghost use Rattle.std.specs.declared.option.Option.{Option};
ghost use Rattle.std.specs.List.{Contains};
ghost use Rattle.doslink_files.specs.declared.reading.Sought as wanted;
ghost use Rattle.doslink_files.specs.Files as spec-files;
ghost use Rattle.doslink_files.specs.Files.{AreSought, AreUnread, IsModulesPart, IsObjectPath, IsSought};
ghost use Rattle.doslink_files.specs.Files.{IsTold, contents, sought_name};
ghost use Rattle.doslink_files.specs.inside.Reading.{IsReading};
ghost use Rattle.doslink_files.specs.inside.Taking.{IsTaken};
ghost use Rattle.doslink_files.specs.Paths as spec;
ghost use Rattle.doslink_files.specs.Standing.{has_file};
ghost use Rattle.omf_files.specs.declared.world.FileId as ids;

use crate::fault::{FilesFault, ReadFault, Unread};
use crate::lookup::take_library;
use crate::modules::read_modules;
use crate::paths::{has_extension, paths_of};
use crate::taking::{Taken, take_first};
use omf_files::{FileId, World};
use omf_library::{FileKind, file_kind};
use std::alloc::{AllocError, Allocator, Global};
use std::collections::{BTreeMap, BTreeSet};
use std::io::Read;

/// A file that was read.
#[derive(Drop)]
pub struct InputFile<A: Allocator + Copy = Global> {
    /// Its path.
    pub path: String<A>,
    /// Its bytes: of a file that is linked those up to the end of its modules.
    pub bytes: Vec<u8, A>,
    /// Which file it is. None where the world can't tell.
    pub id: Option<FileId>,
}

/// A file that is wanted.
#[derive(Clone, Copy, Debug, PartialEq, Eq, PartialOrd, Ord)]
pub enum Sought<'a> {
    /// The one at a path.
    File(&'a str),
    /// The library of a name, which is looked up in folders.
    Library(&'a str),
}

/// The folders in which files are looked up where they aren't found by their names alone.
#[derive(Clone, Copy, Debug)]
pub struct Folders<'f> {
    /// Those of modules, in their order.
    pub objects: &'f [&'f str],
    /// Those of libraries.
    pub libraries: &'f [&'f str],
}

impl<'a> Sought<'a> {
    /// The path, or the name.
    pub fn name(self) -> &'a str
        ensures { result.now ≡ sought_name self.entry }
    {
        match self {
            Sought::File(path) => path,
            Sought::Library(name) => name,
        }
    }
}

/// The file at a path, of which no byte has been read.
fn open<W: World>(world: &W, path: &str) -> Result<W::Input, ReadFault>
    ensures { IfOk result (λ file. W.Input.remaining file ≡ W.bytes world.now path.now) }
{
    match world.open(path) {
        Ok(file) => Ok(file),
        Err(error) => Err(ReadFault::of_opening(&error)),
    }
}

/// The bytes of the file at a path.
fn read_bytes<W: World, A: Allocator + Copy>(
    alloc: A,
    world: &W,
    path: &str,
) -> Result<Vec<u8, A>, ReadFault>
    ensures { IfOk result (λ bytes. IsTold (W.bytes world.now path.now) bytes.items) }
{
    let mut file = open(world, path)?;
    let mut bytes = Vec::new(alloc);
    match file.read_to_end(&mut bytes) {
        Ok(_) => Ok(bytes),
        Err(error) => Err(ReadFault::of_reading(&error)),
    }
}

/// The file at a path, which is this one, and of which these bytes were read.
fn file_at<A: Allocator + Copy>(
    alloc: A,
    path: &str,
    id: Option<FileId>,
    bytes: Vec<u8, A>,
) -> Result<InputFile<A>, AllocError>
    ensures path { IfOk result (λ file. string_bytes file.path ≡ path.now) }
    ensures bytes { IfOk result (λ file. file.bytes ≡ bytes) }
{
    let path = String::from_str(alloc, path)?;
    Ok(InputFile { path, bytes, id })
}

/// Which file stands at a path, as far as the world can tell.
fn id_at<W: World>(world: &W, path: &str) -> Option<FileId> {
    match world.look(path) {
        Ok(looked) => Some(looked.id),
        Err(_) => None,
    }
}

/// The file at a path, read to its end.
///
/// # Errors
/// Want of memory; else why the file can't be opened, or can't be read to its end.
pub fn read_file<W: World, A: Allocator + Copy>(
    alloc: A,
    world: &W,
    path: &str,
) -> Result<InputFile<A>, ReadFault>
    ensures path { IfOk result (λ file. string_bytes file.path ≡ path.now) }
    ensures told { IfOk result (λ file. IsTold (W.bytes world.now path.now) file.bytes.items) }
{
    let bytes = read_bytes(alloc, world, path)?;
    Ok(file_at(alloc, path, id_at(world, path), bytes)?)
}

/// The file at a path, which is this one, read up to the end of its modules, and to its own where they have none.
///
/// # Errors
/// As those of `read_file`.
pub(crate) fn read_input<W: World, A: Allocator + Copy>(
    alloc: A,
    world: &W,
    path: &str,
    id: Option<FileId>,
) -> Result<InputFile<A>, ReadFault>
    ensures path { IfOk result (λ file. string_bytes file.path ≡ path.now) }
    ensures told { IfOk result (λ file. IsModulesPart (W.bytes world.now path.now) file.bytes.items) }
{
    let bytes = read_modules(alloc, open(world, path)?)?;
    Ok(file_at(alloc, path, id, bytes)?)
}

/// What is put behind the path of a module, in turn.
fn object_extensions(path: &str) -> &'static [&'static str]
    ensures { map (λ e. e.now) result.now ≡ spec.object_extensions path.now }
{
    if has_extension(path.as_bytes()) {
        &[""]
    } else {
        &["", ".OBJ", ".obj"]
    }
}

/// The module that is named by a path, looked up at it, and then in each of these folders, in their order: the first
/// file that can be opened, of the path as it stands and, where its last part has no dot, with `.OBJ` or `.obj` behind
/// it. A folder of such a name is passed over.
///
/// # Errors
/// As those of `take_first`.
fn take_module<W: World, A: Allocator + Copy>(
    alloc: A,
    world: &W,
    folders: &[&str],
    path: &str,
    known: &BTreeSet<FileId, A>,
) -> Result<Taken<A>, ReadFault>
    ensures { IfOk result (IsTaken (λ found bytes. IsObjectPath (map (λ f. f.now) folders.now) path.now found
        × IsModulesPart (W.bytes world.now found) bytes) (W.holds world.now) known.now) }
{
    let paths = paths_of(alloc, folders, path, object_extensions(path))?;
    take_first(alloc, world, &paths, known)
}

/// A file that is wanted.
fn take_one<W: World, A: Allocator + Copy>(
    alloc: A,
    world: &W,
    folders: Folders<'_>,
    sought: Sought<'_>,
    known: &BTreeSet<FileId, A>,
) -> Result<Taken<A>, ReadFault>
    ensures { IfOk result (IsTaken (λ path. IsSought (W.bytes world.now) (map (λ f. f.now) folders.entry.objects.now)
        (map (λ f. f.now) folders.entry.libraries.now) sought.entry) (W.holds world.now) known.now) }
{
    match sought {
        Sought::File(path) => take_module(alloc, world, folders.objects, path, known),
        Sought::Library(name) => take_library(alloc, world, folders.libraries, name, known),
    }
}

/// Whether a file is a library or an archive.
fn is_library(bytes: &[u8]) -> bool
    ensures { result ≡ spec-files.is_library bytes.now }
{
    file_kind(bytes) != FileKind::Object
}

/// Whether the file at a place among some has these bytes.
fn has_bytes_at<A: Allocator + Copy>(files: &[InputFile<A>], place: usize, bytes: &[u8]) -> bool
    ensures { IsTrue result → Contains (contents files.now) bytes.now }
{
    match files.get(place) {
        Some(file) => file.bytes.as_slice() == bytes,
        None => false,
    }
}

/// Files that are wanted and were read so far.
#[derive(Drop)]
struct Reading<'a, A: Allocator + Copy> {
    /// They themselves, in their order.
    files: Vec<InputFile<A>, A>,
    /// What was wanted that is a library or an archive.
    libraries: BTreeSet<Sought<'a>, A>,
    /// Where each library and archive stands among them.
    places: BTreeMap<FileId, usize, A>,
    /// Those of the libraries and archives that are regular files.
    known: BTreeSet<FileId, A>,
    /// What isn't read, and why.
    unread: Vec<Unread<'a>, A>,
}

impl<'a, A: Allocator + Copy> Reading<'a, A> {
    /// Whether the bytes of a file are those of the library or archive that was read of the same file before.
    fn has_bytes_of(&self, file: &InputFile<A>) -> bool
        ensures { IsTrue result → Contains (contents self.now.files.items) file.now.bytes.items }
    {
        let Some(id) = &file.id else {
            return false;
        };
        match self.places.get(id) {
            Some(place) => has_bytes_at(&self.files, *place, &file.bytes),
            None => false,
        }
    }

    /// Marks the next file as a library or an archive: which it is, as far as the world can tell, and which regular
    /// file.
    fn mark(&mut self, id: Option<FileId>, regular: Option<FileId>) -> Result<(), AllocError>
        ensures files { self.new.files ≡ self.old.files }
        ensures libraries { self.new.libraries ≡ self.old.libraries }
        ensures unread { self.new.unread ≡ self.old.unread }
        ensures known { OnOk result ((q : ids.FileId) → has_file self.new.known q ≡ true
            → (has_file self.old.known q ≡ true) ⊎ (regular ≡ Some q)) }
    {
        if let Some(id) = id {
            self.places.insert(id, self.files.len())?;
        }
        if let Some(id) = regular {
            self.known.insert(id)?;
        }
        Ok(())
    }

    /// Puts a file behind those that were read: it is this regular file, or none. A library or an archive that stands
    /// there already is left out.
    fn keep(
        &mut self,
        one: Sought<'a>,
        file: InputFile<A>,
        regular: Option<FileId>,
    ) -> Result<(), AllocError>
        ensures files { OnOk result ((told : List ℕ → Option (List ℕ)) (holds : ids.FileId → Option (List ℕ))
            (objects libraries : List (List ℕ)) (sought : List wanted.Sought)
            → IsSought told objects libraries one.entry file.bytes.items
            → IfSome regular (λ id. IsModulesPart (holds id) file.bytes.items)
            → IsReading told holds objects libraries sought self.old
            → IsReading told holds objects libraries (sought ++ one.entry ∷ []) self.new) }
        ensures unread { self.new.unread ≡ self.old.unread }
    {
        if is_library(&file.bytes) {
            self.libraries.insert(one)?;
            if self.has_bytes_of(&file) {
                return Ok(());
            }
            self.mark(file.id, regular)?;
        }
        self.files.push(file)?;
        Ok(())
    }

    /// Takes what was found of a file that is wanted.
    fn take(&mut self, one: Sought<'a>, taken: Taken<A>) -> Result<(), AllocError>
        ensures files { OnOk result ((told : List ℕ → Option (List ℕ)) (holds : ids.FileId → Option (List ℕ))
            (objects libraries : List (List ℕ)) (sought : List wanted.Sought)
            → IsTaken (λ path. IsSought told objects libraries one.entry) holds self.old.known taken
            → IsReading told holds objects libraries sought self.old
            → IsReading told holds objects libraries (sought ++ one.entry ∷ []) self.new) }
        ensures unread { self.new.unread ≡ self.old.unread }
    {
        match taken {
            Taken::New(file, regular) => self.keep(one, file, regular),
            Taken::Known(_) => {
                self.libraries.insert(one)?;
                Ok(())
            }
        }
    }
}

/// Reads one more file that is wanted, unless it is a library or an archive that was wanted before by the same path or
/// name, or that is a regular file that was read before.
fn read_next<'a, W: World, A: Allocator + Copy>(
    alloc: A,
    world: &W,
    folders: Folders<'_>,
    one: Sought<'a>,
    reading: &mut Reading<'a, A>,
) -> Result<(), AllocError>
    ensures files { OnOk result ((sought : List wanted.Sought) → IsReading (W.bytes world.now) (W.holds world.now)
        (map (λ f. f.now) folders.entry.objects.now) (map (λ f. f.now) folders.entry.libraries.now) sought reading.old
        → IsReading (W.bytes world.now) (W.holds world.now) (map (λ f. f.now) folders.entry.objects.now)
        (map (λ f. f.now) folders.entry.libraries.now) (sought ++ one.entry ∷ []) reading.new) }
    ensures unread { OnOk result ((names : List (List ℕ)) → Contains names (sought_name one.entry)
        → All (λ u. Contains names u.name.now) reading.old.unread.items
        → All (λ u. Contains names u.name.now) reading.new.unread.items) }
{
    if reading.libraries.contains(&one) {
        return Ok(());
    }
    match take_one(alloc, world, folders, one, &reading.known) {
        Ok(taken) => reading.take(one, taken),
        Err(ReadFault::Memory) => Err(AllocError),
        Err(fault) => {
            let name = one.name();
            reading.unread.push(Unread { name, fault })?;
            Ok(())
        }
    }
}

/// Files that are wanted, in their order. A module is looked up at its path, and then in each of the folders of
/// modules: the first file that can be opened, of the path as it stands and, where its last part has no dot, with
/// `.OBJ` or `.obj` behind it. Libraries are looked up as `find_library` does, in the folders of libraries.
///
/// A library or an archive whose bytes stand among the files before is left out: a name that it offers is found in the
/// first of the two. Where it is the same regular file, whatever the path or name that led to it, it isn't read again
/// either, nor is one that the same path or name led to. A module that is wanted twice is there twice.
///
/// # Errors
/// All that can't be found or read, and why; or want of memory.
pub fn read_sought<'a, W: World, A: Allocator + Copy>(
    alloc: A,
    world: &W,
    folders: Folders<'_>,
    sought: &[Sought<'a>],
) -> Result<Vec<InputFile<A>, A>, FilesFault<'a, A>>
    ensures told { IfOk result (λ files. AreSought (W.bytes world.now) (map (λ f. f.now) folders.entry.objects.now)
        (map (λ f. f.now) folders.entry.libraries.now) sought.now (contents files.items)) }
    ensures unread { IfErr result (AreUnread (map sought_name sought.now)) }
{
    let mut reading = Reading {
        files: Vec::new(alloc),
        libraries: BTreeSet::new(alloc),
        places: BTreeMap::new(alloc),
        known: BTreeSet::new(alloc),
        unread: Vec::new(alloc),
    };
    for one in sought {
        read_next(alloc, world, folders, *one, &mut reading)?;
    }
    let Reading { files, unread, .. } = reading;
    if unread.is_empty() {
        Ok(files)
    } else {
        Err(FilesFault::Unread(unread))
    }
}
