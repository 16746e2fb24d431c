//! Where the program and its map are written.
ghost use Rattle.std.specs.Prelude.{◌≡◌, IfErr, IfOk, MatchResult, false, is_some, string_bytes, true};
ghost use Rattle.std.specs.Option.{option_map, option_map_or, option_or};
ghost use Rattle.doslink_asked.specs.Paths as paths;
ghost use Rattle.doslink_jobs.specs.Places as spec;
ghost use Rattle.doslink_files.specs.Standing.{has_file};
ghost use Rattle.doslink_jobs.specs.Wrong as wrong;
ghost use Rattle.doslink_jobs.specs.inside.Stops.{IsWords, OnHalt};

use crate::stop::Halt;
use doslink_asked::{
    extension_for, extension_of, first_file, is_output, other_form, path_after, with_extension,
};
use doslink_files::{is_one_of, is_one_place, stands_as_input};
use doslink_passes::Stop;
use doslink_telling::push_path_line;
use doslink_words::{Input, Job, MapFile};
use omf_files::{FileId, World};
use std::alloc::{AllocError, Allocator};
use std::collections::BTreeSet;

/// The paths of what a job writes.
#[derive(Drop)]
pub(crate) struct Places<A: Allocator + Copy> {
    /// That of the program.
    pub out: String<A>,
    /// That of the map, where one is asked for.
    pub map: Option<String<A>>,
}

/// The name of the first library.
fn first_library<'a>(inputs: &[Input<'a>]) -> Option<&'a str>
    ensures { option_map (λ name. name.now) result ≡ spec.first_library inputs.now }
{
    match inputs {
        [] => None,
        [Input::Library(name), ..] => Some(name),
        [Input::File(_), rest @ ..] => first_library(rest),
    }
}

/// The name after which the program is called: that of the first file, or else of the first library.
fn first_name<'a>(inputs: &[Input<'a>]) -> Option<&'a str>
    ensures { option_map (λ name. name.now) result
        ≡ option_or (paths.first_file inputs.now) (spec.first_library inputs.now) }
{
    match first_file(inputs) {
        Some(path) => Some(path),
        None => first_library(inputs),
    }
}

/// The path of the program: the one that is given, or that of the first file with that of the form in place of its
/// extension.
fn out_path<A: Allocator + Copy>(alloc: A, job: &Job<'_>) -> Result<String<A>, AllocError>
    ensures { IfOk result (λ path. string_bytes path ≡ spec.out_path job.now) }
{
    match job.out {
        Some(out) => String::from_str(alloc, out),
        None => path_after(alloc, first_name(&job.inputs), extension_for(job.form)),
    }
}

/// The path of a program for what stands beside it: on standard output it has none, and `OUT` stands for it.
fn file_path(out: &str) -> &str
    ensures { result.now ≡ spec.file_path out.now }
{
    if is_output(out) { "OUT" } else { out }
}

/// The path of the map, where one is asked for.
fn map_path<A: Allocator + Copy>(
    alloc: A,
    map: Option<MapFile<'_>>,
    out: &str,
) -> Result<Option<String<A>>, AllocError>
    ensures { IfOk result (λ path. option_map string_bytes path ≡ spec.map_beside out.now map.entry) }
{
    match map {
        Some(MapFile::At(path)) => Ok(Some(String::from_str(alloc, path)?)),
        Some(MapFile::Beside) => Ok(Some(with_extension(alloc, file_path(out), ".MAP")?)),
        None => Ok(None),
    }
}

/// Tells why nothing is written to a path, and stops.
fn stop_at_path<A: Allocator + Copy>(path: &str, why: &str, lines: &mut Vec<u8, A>) -> Halt
    ensures { IsWords result }
{
    match push_path_line(lines, path, why) {
        Ok(()) => Halt::Words,
        Err(AllocError) => Halt::Stop(Stop::Memory),
    }
}

/// Stops where the program is given a name with the extension of another form than .EXE, and no form is said.
pub(crate) fn check_form<A: Allocator + Copy>(
    job: &Job<'_>,
    lines: &mut Vec<u8, A>,
) -> Result<(), Halt>
    ensures { MatchResult result (λ done. wrong.asks_other_form job.now ≡ false)
        (λ why. OnHalt why ⊥ (wrong.asks_other_form job.now ≡ true)) }
{
    if job.form.is_some() {
        return Ok(());
    }
    let Some(out) = job.out else {
        return Ok(());
    };
    if let Some(why) = other_form(extension_of(out).as_bytes()) {
        return Err(stop_at_path(out, why, lines));
    }
    Ok(())
}

/// Whether the program is to be written to standard output.
fn out_is_output(out: Option<&str>) -> bool
    ensures { result ≡ option_map_or (λ path. paths.is_output path.now) out.entry false }
{
    match out {
        Some(path) => is_output(path),
        None => false,
    }
}

/// Whether the map is to be written to standard output.
fn map_is_output(map: Option<MapFile<'_>>) -> bool
    ensures { result ≡ option_map_or spec.is_map_output map.entry false }
{
    match map {
        Some(MapFile::At(path)) => is_output(path),
        Some(MapFile::Beside) | None => false,
    }
}

/// What is told where the program or its map would stand on standard output beside the list of what is linked.
fn mixed_output(job: &Job<'_>) -> Option<&'static str>
    ensures { is_some result ≡ wrong.mixes_output job.now }
{
    if !job.verbose {
        None
    } else if out_is_output(job.out) {
        Some("it would be the program and the list of what is linked")
    } else if map_is_output(job.map) {
        Some("it would be the map and the list of what is linked")
    } else {
        None
    }
}

/// Stops where the list of what is linked is asked for, and the program or its map on standard output too.
pub(crate) fn check_output<A: Allocator + Copy>(
    job: &Job<'_>,
    lines: &mut Vec<u8, A>,
) -> Result<(), Halt>
    ensures { MatchResult result (λ done. wrong.mixes_output job.now ≡ false)
        (λ why. OnHalt why ⊥ (wrong.mixes_output job.now ≡ true)) }
{
    match mixed_output(job) {
        Some(why) => Err(stop_at_path("-", why, lines)),
        None => Ok(()),
    }
}

/// The path that is looked at for what stands at a path that is written: that which leads to standard output, for it.
fn looked_path(path: &str) -> &str
    ensures { result.now ≡ spec.looked_path path.now }
{
    if is_output(path) { "/dev/stdout" } else { path }
}

/// Stops where a path leads to one of the files that were read, or to a module or a library.
fn check_place<W: World, A: Allocator + Copy>(
    world: &W,
    path: &str,
    read: &BTreeSet<FileId, A>,
    lines: &mut Vec<u8, A>,
) -> Result<(), Halt>
    ensures { IfErr result (λ why. OnHalt why ⊥
        (wrong.IsOver (W.bytes world.now) (W.looks world.now) (has_file read.now) path.now)) }
{
    let looked = looked_path(path);
    if is_one_of(world, looked, read) {
        return Err(stop_at_path(path, "it is read and would be written", lines));
    }
    if stands_as_input(world, looked) {
        let why = "it is a module or a library and would be written";
        return Err(stop_at_path(path, why, lines));
    }
    Ok(())
}

/// Stops, and tells why, where what is written to two paths would be one file.
fn check_apart<W: World, A: Allocator + Copy>(
    world: &W,
    path: &str,
    other: &str,
    why: &str,
    lines: &mut Vec<u8, A>,
) -> Result<(), Halt>
    ensures { MatchResult result (λ done. wrong.AreTwo (W.looks world.now) path.now other.now)
        (λ halt. OnHalt halt ⊥ (wrong.AreOne (W.looks world.now) path.now other.now)) }
{
    let first = looked_path(path);
    let second = looked_path(other);
    if is_one_place(world, first, second) {
        return Err(stop_at_path(path, why, lines));
    }
    Ok(())
}

/// Stops where a path of the map leads to one of these, or where the map would be written over the program.
fn check_map<W: World, A: Allocator + Copy>(
    world: &W,
    map: &str,
    out: &str,
    read: &BTreeSet<FileId, A>,
    lines: &mut Vec<u8, A>,
) -> Result<(), Halt>
    ensures { MatchResult result (λ done. wrong.AreTwo (W.looks world.now) map.now out.now)
        (λ why. OnHalt why ⊥
        (wrong.IsMapOver (W.bytes world.now) (W.looks world.now) (has_file read.now) out.now map.now)) }
{
    check_place(world, map, read, lines)?;
    let why = "it would be the program and its map";
    check_apart(world, map, out, why, lines)
}

/// Stops where the program or its map would stand in the place of something else, or the map in that of the program.
fn check_files<W: World, A: Allocator + Copy>(
    world: &W,
    places: &Places<A>,
    read: &BTreeSet<FileId, A>,
    lines: &mut Vec<u8, A>,
) -> Result<(), Halt>
    ensures { MatchResult result
        (λ done. wrong.FilesApart (W.looks world.now) (string_bytes places.now.out)
        (option_map string_bytes places.now.map))
        (λ why. OnHalt why ⊥ (wrong.FilesOver (W.bytes world.now) (W.looks world.now) (has_file read.now)
        (string_bytes places.now.out) (option_map string_bytes places.now.map))) }
{
    let out = places.out.as_str();
    check_place(world, out, read, lines)?;
    match &places.map {
        Some(map) => check_map(world, map.as_str(), out, read, lines),
        None => Ok(()),
    }
}

/// Stops where the list of what is linked would be one file with the program or with its map.
fn check_list_apart<W: World, A: Allocator + Copy>(
    world: &W,
    places: &Places<A>,
    lines: &mut Vec<u8, A>,
) -> Result<(), Halt>
    ensures { MatchResult result
        (λ done. wrong.IsListApart (W.looks world.now) (string_bytes places.now.out)
        (option_map string_bytes places.now.map))
        (λ why. OnHalt why ⊥ (wrong.IsListOne (W.looks world.now)
        (string_bytes places.now.out) (option_map string_bytes places.now.map))) }
{
    let program = "it would be the program and the list of what is linked";
    check_apart(world, places.out.as_str(), "-", program, lines)?;
    match &places.map {
        Some(map) => {
            let why = "it would be the map and the list of what is linked";
            check_apart(world, map.as_str(), "-", why, lines)
        }
        None => Ok(()),
    }
}

/// Stops where the list of what is linked would stand in the place of something else, or of the program or its map.
fn check_list<W: World, A: Allocator + Copy>(
    world: &W,
    places: &Places<A>,
    read: &BTreeSet<FileId, A>,
    lines: &mut Vec<u8, A>,
) -> Result<(), Halt>
    ensures { MatchResult result
        (λ done. wrong.IsListApart (W.looks world.now) (string_bytes places.now.out)
        (option_map string_bytes places.now.map))
        (λ why. OnHalt why ⊥ (wrong.IsListOver (W.bytes world.now) (W.looks world.now) (has_file read.now)
        (string_bytes places.now.out) (option_map string_bytes places.now.map))) }
{
    check_place(world, "-", read, lines)?;
    check_list_apart(world, places, lines)
}

/// Stops where what would be written would stand in the place of something else, or two of them in one file.
fn check_places<W: World, A: Allocator + Copy>(
    world: &W,
    places: &Places<A>,
    lists: bool,
    read: &BTreeSet<FileId, A>,
    lines: &mut Vec<u8, A>,
) -> Result<(), Halt>
    ensures { MatchResult result
        (λ done. wrong.AreApart (W.looks world.now) lists (string_bytes places.now.out)
        (option_map string_bytes places.now.map))
        (λ why. OnHalt why ⊥ (wrong.WritesOver (W.bytes world.now) (W.looks world.now) (has_file read.now) lists
        (string_bytes places.now.out) (option_map string_bytes places.now.map))) }
{
    check_files(world, places, read, lines)?;
    if lists {
        return check_list(world, places, read, lines);
    }
    Ok(())
}

/// The paths of what a job writes. None of them may be one of the files that were read, or a module or a library, nor
/// two of them one, with the list of what is linked where that is asked for.
pub(crate) fn places_of<W: World, A: Allocator + Copy>(
    alloc: A,
    world: &W,
    job: &Job<'_>,
    read: &BTreeSet<FileId, A>,
    lines: &mut Vec<u8, A>,
) -> Result<Places<A>, Halt>
    ensures { MatchResult result (λ places. (string_bytes places.out ≡ spec.out_path job.now)
        × (option_map string_bytes places.map ≡ spec.map_path job.now)
        × wrong.AreApart (W.looks world.now) job.now.verbose (spec.out_path job.now) (spec.map_path job.now))
        (λ why. OnHalt why ⊥ (wrong.WritesOver (W.bytes world.now) (W.looks world.now) (has_file read.now)
        job.now.verbose (spec.out_path job.now) (spec.map_path job.now))) }
{
    let out = out_path(alloc, job)?;
    let map = map_path(alloc, job.map, out.as_str())?;
    let places = Places { out, map };
    check_places(world, &places, job.verbose, read, lines)?;
    Ok(places)
}
