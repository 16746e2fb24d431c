//! The files of a job: those that it names, and in rounds the default libraries that modules name.
ghost use Rattle.std.specs.Prelude.{◌≡◌, ◌≢◌, ◌++◌, ◌∷◌, ℕ, All, List, [], IfErr, IfOk, filter, map, MatchResult};
ghost use Rattle.std.specs.Prelude.{not, OnOk};
ghost use Rattle.std.specs.List.{flat_map};
ghost use Rattle.std.specs.declared.option.Option as maybe;
ghost use Rattle.std.specs.List.{Contains};
ghost use Rattle.clap.specs.Words.{Text};
ghost use Rattle.omf_place.specs.declared.names.Names as agreeing;
ghost use Rattle.doslink_files.specs.Files.{AreSought, IsFoundNew, contents};
ghost use Rattle.doslink_link.specs.Linking.{bytes_of};
ghost use Rattle.doslink_stock.specs.Files.{Held};
ghost use Rattle.doslink_stock.specs.Searched.{Searched};
ghost use Rattle.doslink_stock.specs.Seen.{handed_held};
ghost use Rattle.doslink_words.specs.Tokens.{texts};
ghost use Rattle.doslink_jobs.specs.Jobs as done;
ghost use Rattle.doslink_passes.specs.Request.{names_of};
ghost use Rattle.doslink_jobs.specs.Jobs.{AreGiven, IsAskedBy, IsDefault, IsNamedBy};
ghost use Rattle.doslink_jobs.specs.Refusals.{HasFaultyLibrary};
ghost use Rattle.doslink_jobs.specs.inside.Absent.{AreAbsentBehind, AreAbsentTold, AreLookedUp, absent_warning};
ghost use Rattle.doslink_jobs.specs.inside.Absent.{absent_warnings, library_said, new_bytes, outcome_of};
ghost use Rattle.doslink_jobs.specs.inside.Gathering.{AddsFaulty, AddsRounds, AreAsked, AreAskedBy, AreNamed, Holds};
ghost use Rattle.doslink_jobs.specs.inside.Gathering.{AreStemsOf, IsFaultyJob, IsGathered, folded_stem};
ghost use Rattle.doslink_passes.specs.Stops.{OnInput};

use crate::names::push_names_file;
use crate::stop::{stop_at_files, stop_unread};
use crate::words::Besides;
use bumpalo::Bump;
use doslink_asked::is_named;
use doslink_files::{Folders, Found, InputFile, ReadFault, Sought, find_default, read_sought};
use doslink_passes::{Stop, stop_after};
use doslink_stock::{Handed, Stock, StockFault};
use doslink_telling::{module_word, push_absent_line, push_rest, push_stock_fault, told_count};
use doslink_words::{Input, Job};
use omf_files::{FileId, World};
use std::alloc::{AllocError, Allocator};
use std::collections::BTreeSet;

/// How many bytes the name of a default library has at most.
const LONGEST_NAME: usize = 255;

/// How often the search goes on with libraries that it has met, at most.
const MOST_ROUNDS: usize = usize::MAX;

/// The files of a link, whose bytes stay where they are, and what the link takes of them.
#[derive(Drop)]
pub(crate) struct Gathered<'f, A: Allocator + Copy> {
    /// The paths of the files, in their order.
    pub paths: Vec<&'f str, A>,
    /// Their bytes.
    pub bytes: Vec<&'f [u8], A>,
    /// Which files were read, as far as the world can tell.
    pub read: BTreeSet<FileId, A>,
    /// The modules that they hold, and those that are taken.
    pub stock: Stock<'f, A>,
}

/// A default library, and the word for the first module that names it.
#[derive(Drop)]
struct DefaultLibrary<'f, A: Allocator + Copy> {
    name: &'f [u8],
    word: Vec<u8, A>,
}

/// What libraries are told from others by.
type Stems<A> = BTreeSet<Vec<u8, A>, A>;

/// What a job names, as it is sought.
fn sought_of<'a>(input: &Input<'a>) -> Sought<'a>
    ensures { result ≡ done.sought_of input.now }
{
    match input {
        Input::File(path) => Sought::File(path),
        Input::Library(name) => Sought::Library(name),
    }
}

/// All that a job names, as it is sought.
fn all_sought<'a, A: Allocator + Copy>(
    alloc: A,
    inputs: &[Input<'a>],
) -> Result<Vec<Sought<'a>, A>, AllocError>
    ensures { IfOk result (λ v. v.items ≡ map done.sought_of inputs.now) }
{
    let mut sought = Vec::new(alloc);
    for input in inputs {
        let one = sought_of(input);
        sought.push(one)?;
    }
    Ok(sought)
}

/// The folders in which a job's libraries are looked up: its own, and others behind them.
fn all_folders<'a, A: Allocator + Copy>(
    alloc: A,
    job: &Job<'a>,
    others: &[&'a str],
) -> Result<Vec<&'a str, A>, AllocError>
    ensures { IfOk result (λ folders. texts folders.items ≡ done.library_folders (texts others.now) job.now) }
{
    let mut folders = Vec::from_slice(alloc, &job.folders)?;
    folders.extend_from_slice(others)?;
    Ok(folders)
}

/// The files that a job names, in their order, but for libraries that stand there already. Those that can't be read are
/// told.
fn given_files<W: World, A: Allocator + Copy>(
    alloc: A,
    world: &W,
    job: &Job<'_>,
    folders: &[&str],
    lines: &mut Vec<u8, A>,
) -> Result<Vec<InputFile<A>, A>, Stop>
    ensures files { MatchResult result (λ files. AreSought (W.bytes world.now) (texts job.now.object_folders.items)
        (done.library_folders (texts folders.now) job.now) (map done.sought_of job.now.inputs.items)
        (contents files.items))
        (λ stop. OnInput stop ⊥) }
    ensures kept { OnOk result (lines.new.items ≡ lines.old.items) }
{
    let sought = all_sought(alloc, &job.inputs)?;
    let everywhere = all_folders(alloc, job, folders)?;
    let folders = Folders {
        objects: &job.object_folders,
        libraries: &everywhere,
    };
    match read_sought(alloc, world, folders, &sought) {
        Ok(files) => Ok(files),
        Err(fault) => Err(stop_at_files(alloc, lines, fault, job.verbose)),
    }
}

/// The files that are given to the link: those that a job names, and behind them the one of what it says of names.
fn all_given<W: World, A: Allocator + Copy>(
    alloc: A,
    world: &W,
    job: &Job<'_>,
    folders: &[&str],
    lines: &mut Vec<u8, A>,
) -> Result<Vec<InputFile<A>, A>, Stop>
    ensures files { MatchResult result
        (λ files. AreGiven (W.bytes world.now) (texts folders.now) job.now (contents files.items))
        (λ stop. OnInput stop ⊥) }
    ensures kept { OnOk result (lines.new.items ≡ lines.old.items) }
{
    let mut files = given_files(alloc, world, job, folders, lines)?;
    push_names_file(alloc, job, &mut files)?;
    Ok(files)
}

/// Puts a file where it stays, behind those that are there.
fn keep_file<'f, A: Allocator + Copy>(
    arena: &'f Bump<A>,
    gathered: &mut Gathered<'f, A>,
    file: InputFile<A>,
) -> Result<(), Stop>
    ensures bytes { OnOk result
        (bytes_of gathered.new.bytes.items ≡ bytes_of gathered.old.bytes.items ++ file.bytes.items ∷ []) }
    ensures same { gathered.new.stock ≡ gathered.old.stock }
    ensures refused { IfErr result (λ stop. OnInput stop ⊥) }
{
    if let Some(id) = file.id {
        gathered.read.insert(id)?;
    }
    let file: &'f InputFile<A> = arena.try_alloc(file)?;
    gathered.paths.push(file.path.as_str())?;
    gathered.bytes.push(file.bytes.as_slice())?;
    Ok(())
}

/// Puts files where they stay, behind those that are there.
fn keep_files<'f, A: Allocator + Copy>(
    arena: &'f Bump<A>,
    gathered: &mut Gathered<'f, A>,
    files: Vec<InputFile<A>, A>,
) -> Result<(), Stop>
    ensures bytes { OnOk result
        (bytes_of gathered.new.bytes.items ≡ bytes_of gathered.old.bytes.items ++ contents files.items) }
    ensures same { gathered.new.stock ≡ gathered.old.stock }
    ensures refused { IfErr result (λ stop. OnInput stop ⊥) }
{
    for file in files {
        keep_file(arena, gathered, file)?;
    }
    Ok(())
}

/// Tells that a library is at fault, and stops.
fn stop_at_library<A: Allocator + Copy>(
    lines: &mut Vec<u8, A>,
    paths: &[&str],
    fault: StockFault,
) -> Stop
    ensures { OnInput result (fault ≢ StockFault.Memory) }
{
    match fault {
        StockFault::Memory => Stop::Memory,
        StockFault::Library { .. } => stop_after(push_stock_fault(lines, paths, fault)),
    }
}

/// Adds a round of files behind those that are there, and goes on with the search. The first library that is at fault
/// is
/// told.
fn add_round<'f, A: Allocator + Copy>(
    alloc: A,
    arena: &'f Bump<A>,
    gathered: &mut Gathered<'f, A>,
    round: Vec<InputFile<A>, A>,
    lines: &mut Vec<u8, A>,
) -> Result<(), Stop>
    ensures files { (names : agreeing.Names) (rounds : List (List (List ℕ))) → Holds names rounds gathered.old
        → MatchResult result (λ done. Holds names (rounds ++ contents round.items ∷ []) gathered.new)
        (λ stop. OnInput stop (HasFaultyLibrary (rounds ++ contents round.items ∷ []))) }
    ensures kept { OnOk result (lines.new.items ≡ lines.old.items) }
{
    keep_files(arena, gathered, round)?;
    match gathered.stock.add(alloc, &gathered.bytes) {
        Ok(()) => Ok(()),
        Err(fault) => Err(stop_at_library(lines, &gathered.paths, fault)),
    }
}

/// Appends a default library that a module names, unless it was asked for before, or its name is empty.
fn push_name<'f, A: Allocator + Copy>(
    alloc: A,
    paths: &[&str],
    handed: &Handed<'_, 'f, A>,
    name: &'f [u8],
    asked: &mut BTreeSet<&'f [u8], A>,
    libraries: &mut Vec<DefaultLibrary<'f, A>, A>,
) -> Result<(), AllocError>
    ensures { OnOk result ((modules : List Held) → IsNamedBy modules name.now
        → AreNamed modules libraries.old.items → AreNamed modules libraries.new.items) }
{
    if name.is_empty() || !asked.insert(name)? {
        return Ok(());
    }
    let word = module_word(alloc, paths, handed.entry)?;
    libraries.push(DefaultLibrary { name, word })?;
    Ok(())
}

/// Appends the default libraries that a module names, without those that were asked for before, and without the empty
/// name.
fn push_names<'f, A: Allocator + Copy>(
    alloc: A,
    paths: &[&str],
    handed: &Handed<'_, 'f, A>,
    asked: &mut BTreeSet<&'f [u8], A>,
    libraries: &mut Vec<DefaultLibrary<'f, A>, A>,
) -> Result<(), AllocError>
    ensures { OnOk result ((modules : List Held) → Contains modules (handed_held handed.now)
        → AreNamed modules libraries.old.items → AreNamed modules libraries.new.items) }
{
    for name in &handed.entry.says.libraries {
        push_name(alloc, paths, handed, name, asked, libraries)?;
    }
    Ok(())
}

/// The default libraries that modules name, each once.
fn names_of<'f, A: Allocator + Copy>(
    alloc: A,
    paths: &[&str],
    handed: &[Handed<'_, 'f, A>],
    asked: &mut BTreeSet<&'f [u8], A>,
) -> Result<Vec<DefaultLibrary<'f, A>, A>, AllocError>
    ensures { IfOk result (λ libraries. AreNamed (map handed_held handed.now) libraries.items) }
{
    let mut libraries = Vec::new(alloc);
    for each in handed {
        push_names(alloc, paths, each, asked, &mut libraries)?;
    }
    Ok(libraries)
}

/// The file of a default library; `Known` where it is there already. A longer name than 255 bytes is that of none.
fn find_one<W: World, A: Allocator + Copy>(
    alloc: A,
    world: &W,
    folders: &[&str],
    library: &DefaultLibrary<'_, A>,
    known: &BTreeSet<FileId, A>,
) -> Result<Found<A>, ReadFault>
    ensures { IfOk result (IsFoundNew (W.bytes world.now) (texts folders.now) library.now.name.now) }
{
    match str::from_utf8(library.name) {
        Ok(name) if name.len() <= LONGEST_NAME => find_default(alloc, world, folders, name, known),
        _ => Err(ReadFault::Absent),
    }
}

/// Whether a look-up failed for another reason than that no regular file is there.
fn is_there(fault: ReadFault) -> bool {
    match fault {
        ReadFault::Absent | ReadFault::Folder | ReadFault::NoDrive | ReadFault::Special => false,
        ReadFault::Memory | ReadFault::Device(_) | ReadFault::Forbidden | ReadFault::Unopened(_) =>
            true,
    }
}

/// Appends a default library that isn't found. Stops where there is one that can't be opened or read, or no memory.
fn pass_absent<'f, A: Allocator + Copy>(
    alloc: A,
    library: &DefaultLibrary<'f, A>,
    fault: ReadFault,
    absent: &mut Vec<DefaultLibrary<'f, A>, A>,
    lines: &mut Vec<u8, A>,
) -> Result<(), Stop>
    ensures refused { IfErr result (λ stop. OnInput stop ⊥) }
    ensures added { OnOk result (map library_said absent.new.items
        ≡ map library_said absent.old.items ++ library_said library.now ∷ []) }
    ensures kept { OnOk result (lines.new.items ≡ lines.old.items) }
{
    if is_there(fault) {
        let name = str::from_utf8(library.name).unwrap_or("");
        return Err(stop_unread(lines, name, fault));
    }
    let name = library.name;
    let word = Vec::from_slice(alloc, &library.word)?;
    absent.push(DefaultLibrary { name, word })?;
    Ok(())
}

/// Appends the file of a default library that was looked up, and which file it is, where it is new.
fn keep_found<A: Allocator + Copy>(
    found: Found<A>,
    known: &mut BTreeSet<FileId, A>,
    round: &mut Vec<InputFile<A>, A>,
) -> Result<(), AllocError>
    ensures files { OnOk result ((told : Text → maybe.Option (List ℕ)) (folders : List Text) (name : List ℕ)
        (left_out : List Text) (modules : List Held) → IsFoundNew told folders name found
        → IsAskedBy left_out modules name → All (IsDefault told folders left_out modules) (contents round.old.items)
        → All (IsDefault told folders left_out modules) (contents round.new.items)) }
    ensures added { OnOk result
        (contents round.new.items ≡ contents round.old.items ++ new_bytes (outcome_of found)) }
{
    let Found::New(file) = found else {
        return Ok(());
    };
    if let Some(id) = file.id {
        known.insert(id)?;
    }
    round.push(file)?;
    Ok(())
}

/// The files of default libraries that aren't there yet, in their order. Those that aren't found are appended to the
/// absent ones.
fn find_round<'f, W: World, A: Allocator + Copy>(
    alloc: A,
    world: &W,
    folders: &[&str],
    libraries: &[DefaultLibrary<'f, A>],
    known: &mut BTreeSet<FileId, A>,
    absent: &mut Vec<DefaultLibrary<'f, A>, A>,
    lines: &mut Vec<u8, A>,
) -> Result<Vec<InputFile<A>, A>, Stop>
    ensures files { MatchResult result
        (λ files. (left_out : List Text) (modules : List Held) → AreAsked left_out modules libraries.now
        → All (IsDefault (W.bytes world.now) (texts folders.now) left_out modules) (contents files.items))
        (λ stop. OnInput stop ⊥) }
    ensures absent { IfOk result (λ files. AreLookedUp (W.bytes world.now) (texts folders.now)
        (map library_said libraries.now) (contents files.items) (map library_said absent.old.items)
        (map library_said absent.new.items)) }
    ensures kept { OnOk result (lines.new.items ≡ lines.old.items) }
{
    let mut round = Vec::new(alloc);
    for library in libraries {
        match find_one(alloc, world, folders, library, known) {
            Ok(found) => keep_found(found, known, &mut round)?,
            Err(fault) => pass_absent(alloc, library, fault, absent, lines)?,
        }
    }
    Ok(round)
}

/// The name of a library without `.LIB` at its end, in whatever case that stands there.
fn library_stem(name: &[u8]) -> &[u8]
    ensures { result.now ≡ done.library_stem name.now }
{
    let front = name.len().saturating_sub(4);
    if is_named(&name[front..], b".LIB") {
        &name[..front]
    } else {
        name
    }
}

/// The stem of a library in small letters: what of its name tells it from others.
fn folded_stem<A: Allocator + Copy>(alloc: A, name: &[u8]) -> Result<Vec<u8, A>, AllocError>
    ensures { IfOk result (λ stem. stem.items ≡ folded_stem name.now) }
{
    let mut stem = Vec::from_slice(alloc, library_stem(name))?;
    stem.as_mut_slice().make_ascii_lowercase();
    Ok(stem)
}

/// What these names of libraries are told from others by.
fn stems_of<A: Allocator + Copy>(alloc: A, names: &[&str]) -> Result<Stems<A>, AllocError>
    ensures { IfOk result (AreStemsOf (texts names.now)) }
{
    let mut stems = BTreeSet::new(alloc);
    for name in names {
        let stem = folded_stem(alloc, name.as_bytes())?;
        stems.insert(stem)?;
    }
    Ok(stems)
}

/// Whether a library is one of those that are left out, by its name: without regard to case, with `.LIB` or without.
fn is_left_out<A: Allocator + Copy>(
    alloc: A,
    left_out: &Stems<A>,
    name: &[u8],
) -> Result<bool, AllocError>
    ensures { IfOk result (λ out. (names : List Text) → AreStemsOf names left_out.now
        → out ≡ done.is_left_out names name.now) }
{
    let stem = folded_stem(alloc, name)?;
    Ok(left_out.contains(&stem))
}

/// Those of these default libraries that aren't left out.
fn without<'f, A: Allocator + Copy>(
    alloc: A,
    libraries: Vec<DefaultLibrary<'f, A>, A>,
    left_out: &Stems<A>,
) -> Result<Vec<DefaultLibrary<'f, A>, A>, AllocError>
    ensures { IfOk result (λ kept. (names : List Text) → AreStemsOf names left_out.now → kept.items
        ≡ filter (λ l. not (done.is_left_out names l.name.now)) libraries.entry.items) }
{
    let mut kept = Vec::new(alloc);
    for library in libraries {
        if !is_left_out(alloc, left_out, library.name)? {
            kept.push(library)?;
        }
    }
    Ok(kept)
}

/// The default libraries that modules name which were taken behind so many, each once, but for those that are left
/// out; and how many modules are taken now.
fn asked_now<'f, A: Allocator + Copy>(
    alloc: A,
    gathered: &Gathered<'f, A>,
    before: usize,
    left_out: &Stems<A>,
    asked: &mut BTreeSet<&'f [u8], A>,
) -> Result<(Vec<DefaultLibrary<'f, A>, A>, usize), AllocError>
    ensures { IfOk result (λ r. (out : List Text) (names : agreeing.Names) (rounds : List (List (List ℕ)))
        → AreStemsOf out left_out.now → Searched names rounds gathered.now.stock
        → AreAskedBy out names rounds r.0.items) }
{
    let taken = gathered.stock.handed_from(alloc, before)?;
    let named = names_of(alloc, &gathered.paths, &taken, asked)?;
    let libraries = without(alloc, named, left_out)?;
    Ok((libraries, before.saturating_add(taken.len())))
}

/// How default libraries are looked up.
#[derive(Clone, Copy)]
struct Lookups<'l> {
    /// The folders in which they are, behind this one.
    folders: &'l [&'l str],
    /// The names of those that aren't.
    left_out: &'l [&'l str],
}

/// Adds the default libraries that the modules name, in rounds: those that are found go behind the files that are
/// there, and the search goes on. What was taken stays taken. Those that aren't found are appended to the absent ones.
fn add_defaults<'f, W: World, A: Allocator + Copy>(
    alloc: A,
    world: &W,
    arena: &'f Bump<A>,
    how: Lookups<'_>,
    gathered: &mut Gathered<'f, A>,
    absent: &mut Vec<DefaultLibrary<'f, A>, A>,
    lines: &mut Vec<u8, A>,
) -> Result<(), Stop>
    ensures files { (names : agreeing.Names) (before : List (List (List ℕ))) → Holds names before gathered.old
        → MatchResult result
        (λ done. AddsRounds (W.bytes world.now) (texts how.entry.folders.now) (texts how.entry.left_out.now) names
        before gathered.new)
        (λ stop. OnInput stop (AddsFaulty (W.bytes world.now) (texts how.entry.folders.now)
        (texts how.entry.left_out.now) names before)) }
    ensures absent { (names : agreeing.Names) (before : List (List (List ℕ))) → Holds names before gathered.old
        → OnOk result (AreAbsentBehind (W.bytes world.now) (texts how.entry.folders.now) (texts how.entry.left_out.now)
        names before gathered.new (map library_said absent.old.items) (map library_said absent.new.items)) }
    ensures kept { OnOk result (lines.new.items ≡ lines.old.items) }
{
    let left_out = stems_of(alloc, how.left_out)?;
    let mut asked = BTreeSet::new(alloc);
    let mut before = 0;
    'rounds: for _ in 0..MOST_ROUNDS {
        let (libraries, now) = asked_now(alloc, gathered, before, &left_out, &mut asked)?;
        let known = &mut gathered.read;
        let round = find_round(alloc, world, how.folders, &libraries, known, absent, lines)?;
        if round.is_empty() {
            return Ok(());
        }
        add_round(alloc, arena, gathered, round, lines)?;
        before = now;
    }
    Ok(())
}

/// Warns of each of these default libraries.
fn push_told<A: Allocator + Copy>(
    told: &[DefaultLibrary<'_, A>],
    lines: &mut Vec<u8, A>,
) -> Result<(), AllocError>
    ensures { OnOk result (lines.new.items ≡ lines.old.items
        ++ flat_map (λ l. absent_warning (library_said l)) told.now) }
{
    for library in told {
        push_absent_line(lines, library.name, &library.word)?;
    }
    Ok(())
}

/// Warns of each default library that isn't found, unless the job is to be quiet and the files could be gathered.
fn warn_of_absent<A: Allocator + Copy>(
    job: &Job<'_>,
    failed: bool,
    absent: &[DefaultLibrary<'_, A>],
    lines: &mut Vec<u8, A>,
) -> Result<(), AllocError>
    ensures { OnOk result (lines.new.items ≡ lines.old.items
        ++ absent_warnings job.now failed (map library_said absent.now)) }
{
    if job.quiet && !failed {
        return Ok(());
    }
    let told = told_count(absent.len(), job.verbose);
    push_told(&absent[..told], lines)?;
    push_rest(lines, absent.len() - told)
}

/// Adds the default libraries of a job, where it asks for them. Those that aren't found are warned of, unless it is to
/// be quiet and goes on.
fn add_asked<'f, W: World, A: Allocator + Copy>(
    alloc: A,
    world: &W,
    arena: &'f Bump<A>,
    job: &Job<'_>,
    folders: &[&str],
    gathered: &mut Gathered<'f, A>,
    lines: &mut Vec<u8, A>,
) -> Result<(), Stop>
    ensures files { (given : List (List ℕ)) → Holds (names_of job.now.ignore_case) (given ∷ []) gathered.old
        → AreGiven (W.bytes world.now) (texts folders.now) job.now given
        → MatchResult result (λ done. IsGathered (W.bytes world.now) (texts folders.now) job.now gathered.new)
        (λ stop. OnInput stop (IsFaultyJob (W.bytes world.now) (texts folders.now) job.now)) }
    ensures told { (given : List (List ℕ)) → Holds (names_of job.now.ignore_case) (given ∷ []) gathered.old
        → AreGiven (W.bytes world.now) (texts folders.now) job.now given
        → OnOk result (AreAbsentTold (W.bytes world.now) (texts folders.now) job.now gathered.new
        lines.old.items lines.new.items) }
{
    if !job.default_libraries {
        return Ok(());
    }
    let everywhere = all_folders(alloc, job, folders)?;
    let how = Lookups {
        folders: &everywhere,
        left_out: &job.left_out,
    };
    let mut absent = Vec::new(alloc);
    let mut told = Vec::new(alloc);
    let added = add_defaults(alloc, world, arena, how, gathered, &mut absent, &mut told);
    warn_of_absent(job, added.is_err(), &absent, lines)?;
    lines.extend_from_slice(&told)?;
    added
}

/// Which files these are.
fn known_files<A: Allocator + Copy>(
    alloc: A,
    files: &[FileId],
) -> Result<BTreeSet<FileId, A>, AllocError> {
    let mut known = BTreeSet::new(alloc);
    for id in files {
        known.insert(*id)?;
    }
    Ok(known)
}

/// The files of a job, and what the link takes of them: those that it names, and in rounds the default libraries that
/// modules name.
pub(crate) fn gather<'f, W: World, A: Allocator + Copy>(
    alloc: A,
    world: &W,
    arena: &'f Bump<A>,
    job: &Job<'_>,
    besides: &Besides<'_>,
    lines: &mut Vec<u8, A>,
) -> Result<Gathered<'f, A>, Stop>
    ensures files { MatchResult result
        (λ gathered. IsGathered (W.bytes world.now) (texts besides.now.folders.now) job.now gathered)
        (λ stop. OnInput stop (IsFaultyJob (W.bytes world.now) (texts besides.now.folders.now) job.now)) }
    ensures told { IfOk result (λ gathered. AreAbsentTold (W.bytes world.now) (texts besides.now.folders.now) job.now
        gathered lines.old.items lines.new.items) }
{
    let folders = besides.folders;
    let given = all_given(alloc, world, job, folders, lines)?;
    let mut gathered = Gathered {
        paths: Vec::new(alloc),
        bytes: Vec::new(alloc),
        read: known_files(alloc, besides.read)?,
        stock: Stock::new(alloc, doslink_passes::names_of(job)),
    };
    add_round(alloc, arena, &mut gathered, given, lines)?;
    add_asked(alloc, world, arena, job, folders, &mut gathered, lines)?;
    Ok(gathered)
}
