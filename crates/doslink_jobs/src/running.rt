//! A job of `doslink`, done with files and the two streams.
ghost use Rattle.std.specs.Prelude.{◌≡◌, ◌⊎◌, ◌-◌, ◌^◌, ◌<◌, ℕ, List, false, map, MatchResult, string_bytes, true};
ghost use Rattle.std.specs.Option.{option_map};
ghost use Rattle.omf_communal.specs.Deciding.{variable_said};
ghost use Rattle.omf_files.specs.Files.{sink_failures};
ghost use Rattle.doslink_stock.specs.Files.{needs};
ghost use Rattle.doslink_stock.specs.Search.{Takes};
ghost use Rattle.doslink_stock.specs.Searched.{Searched};
ghost use Rattle.doslink_stock.specs.Seen.{handed_held};
ghost use Rattle.doslink_words.specs.Tokens.{texts};
ghost use Rattle.doslink_files.specs.Standing.{has_file};
ghost use Rattle.doslink_files.specs.Written.{StandsAt};
ghost use Rattle.doslink_passes.specs.Request.{held_of, names_of, says_of};
ghost use Rattle.doslink_passes.specs.Stops.{OnInput};
ghost use Rattle.doslink_jobs.specs.Jobs.{IsDone, IsLinkOf, Tells};
ghost use Rattle.doslink_jobs.specs.Places.{map_path, out_path};
ghost use Rattle.doslink_jobs.specs.Refusals.{IsRefusedJob, IsRefusedOf};
ghost use Rattle.doslink_jobs.specs.Written.{IsWritten};
ghost use Rattle.doslink_jobs.specs.Wrong.{AreApart, EndsJob, IsNamedWell, IsWrongJob, NamesNothing, WritesOver};
ghost use Rattle.doslink_jobs.specs.Wrong as wrong;
ghost use Rattle.doslink_jobs.specs.Wrong.{asks_other_form, mixes_output, searches_too_many};
ghost use Rattle.doslink_jobs.specs.inside.Links.{IsLinkedWith, IsRefusedWith};
ghost use Rattle.doslink_jobs.specs.inside.Stops as stops;
ghost use Rattle.doslink_jobs.specs.inside.Stops.{OnHalt, told_text};

use crate::faulty::check_foreign;
use crate::gathering::{Gathered, gather};
use crate::linking::write_program;
use crate::places::{Places, check_form, check_output, places_of};
use crate::stop::Halt;
use crate::taking::{Taken, check_names, said_of, tell_taken};
use crate::words::Besides;
use bumpalo::Bump;
use doslink_passes::{LinkRequest, Stop, modules_of, variables_of};
use doslink_stock::Handed;
use doslink_telling::module_words;
use doslink_words::Job;
use omf_communal::Variable;
use omf_files::{BufferedSink, World};
use omf_frame::{Sink, put_all};
use std::alloc::Allocator;
use std::io::Write;

/// How many folders of libraries are searched at most, how many of objects, and how many of the environment's LIB.
const MOST_FOLDERS: usize = 64;

/// Links the modules that a link takes, where none of their names is missing.
fn link_checked<'a, W: World + Copy, A: Allocator + Copy>(
    alloc: A,
    world: W,
    places: &Places<A>,
    request: &LinkRequest<'_, '_, '_, 'a, A>,
    variables: &[Variable<'a>],
    lines: &mut Vec<u8, A>,
) -> Result<(), Stop>
    ensures { MatchResult result (λ done. IsLinkedWith A request.now.job.now
        (IsWritten A request.now.job.now (StandsAt (W.blank world) (W.Puts world)) (string_bytes places.now.out)
        (option_map string_bytes places.now.map) (names_of request.now.job.now.ignore_case))
        (says_of request.now) request.now.marks (held_of request.now) (map variable_said variables.now))
        (λ stop. OnInput stop (IsRefusedWith A request.now.job.now (says_of request.now) request.now.marks
        (held_of request.now) (map variable_said variables.now))) }
{
    let linked = modules_of(alloc, request, variables, lines)?;
    write_program(alloc, world, places, request, variables, linked, lines)
}

/// Links the modules that a link takes. Names that are missing stop it.
fn link_taken<'m, 'a, W: World + Copy, A: Allocator + Copy>(
    alloc: A,
    world: W,
    places: &Places<A>,
    request: &LinkRequest<'_, '_, 'm, 'a, A>,
    gathered: &'m Gathered<'a, A>,
    lines: &mut Vec<u8, A>,
) -> Result<(), Stop>
    requires { says_of request.now ≡ map needs (held_of request.now) }
    ensures { MatchResult result
        (λ done. IsLinkOf A request.now.job.now
        (IsWritten A request.now.job.now (StandsAt (W.blank world) (W.Puts world)) (string_bytes places.now.out)
        (option_map string_bytes places.now.map) (names_of request.now.job.now.ignore_case))
        (λ ms. ms ≡ held_of request.now))
        (λ stop. OnInput stop (IsRefusedOf A request.now.job.now (λ ms. ms ≡ held_of request.now))) }
{
    check_foreign(alloc, request, lines)?;
    let variables = variables_of(alloc, request, lines)?;
    let marks = check_names(alloc, request, gathered, lines)?;
    let request = LinkRequest { marks, ..*request };
    link_checked(alloc, world, places, &request, &variables, lines)
}

/// Links the modules that a link takes, which are told where the job asks for that.
fn link_told<'m, 'a, W: World + Copy, O: Write + Drop, A: Allocator + Copy>(
    alloc: A,
    world: W,
    places: &Places<A>,
    taken: &Taken<'_, '_, 'm, 'a, A>,
    gathered: &'m Gathered<'a, A>,
    output: &mut BufferedSink<O, A>,
    lines: &mut Vec<u8, A>,
) -> Result<(), Stop>
    requires { sink_failures output.old ≡ 0 }
    ensures { MatchResult result (λ done. IsLinkOf A taken.now.job.now
        (IsWritten A taken.now.job.now (StandsAt (W.blank world) (W.Puts world)) (string_bytes places.now.out)
        (option_map string_bytes places.now.map) (names_of taken.now.job.now.ignore_case))
        (λ ms. ms ≡ map handed_held taken.now.handed.now))
        (λ stop. OnInput stop
        (IsRefusedOf A taken.now.job.now (λ ms. ms ≡ map handed_held taken.now.handed.now))) }
{
    tell_taken(alloc, taken, output, lines)?;
    let says = said_of(alloc, taken.handed)?;
    let request = LinkRequest {
        job: taken.job,
        handed: taken.handed,
        words: taken.words,
        says: &says,
        marks: false,
    };
    link_taken(alloc, world, places, &request, gathered, lines)
}

/// Links the modules that a link takes of the files of a job.
fn link_handed<'m, 'a, W: World + Copy, O: Write + Drop, A: Allocator + Copy>(
    alloc: A,
    world: W,
    job: &Job<'_>,
    gathered: &'m Gathered<'a, A>,
    places: &Places<A>,
    handed: &[Handed<'m, 'a, A>],
    output: &mut BufferedSink<O, A>,
    lines: &mut Vec<u8, A>,
) -> Result<(), Stop>
    requires { sink_failures output.old ≡ 0 }
    ensures { MatchResult result (λ done. IsLinkOf A job.now
        (IsWritten A job.now (StandsAt (W.blank world) (W.Puts world)) (string_bytes places.now.out)
        (option_map string_bytes places.now.map) (names_of job.now.ignore_case))
        (λ ms. ms ≡ map handed_held handed.now))
        (λ stop. OnInput stop (IsRefusedOf A job.now (λ ms. ms ≡ map handed_held handed.now))) }
{
    let words = module_words(alloc, &gathered.paths, handed)?;
    let taken = Taken {
        job,
        handed,
        words: &words,
    };
    link_told(alloc, world, places, &taken, gathered, output, lines)
}

/// Links what a link takes of the files of a job.
fn link_gathered<W: World + Copy, O: Write + Drop, A: Allocator + Copy>(
    alloc: A,
    world: W,
    job: &Job<'_>,
    gathered: &Gathered<'_, A>,
    output: &mut BufferedSink<O, A>,
    lines: &mut Vec<u8, A>,
) -> Result<(), Halt>
    requires { sink_failures output.old ≡ 0 }
    ensures { (rounds : List (List (List ℕ))) → Searched (names_of job.now.ignore_case) rounds gathered.now.stock
        → MatchResult result
        (λ done. AreApart (W.looks world) job.now.verbose (out_path job.now) (map_path job.now) × IsLinkOf A job.now
        (IsWritten A job.now (StandsAt (W.blank world) (W.Puts world)) (out_path job.now) (map_path job.now)
        (names_of job.now.ignore_case))
        (Takes (names_of job.now.ignore_case) rounds))
        (λ why. OnHalt why (IsRefusedOf A job.now (Takes (names_of job.now.ignore_case) rounds))
        (WritesOver (W.bytes world) (W.looks world) (has_file gathered.now.read) job.now.verbose
        (out_path job.now) (map_path job.now))) }
{
    let places = places_of(alloc, &world, job, &gathered.read, lines)?;
    let handed = gathered.stock.handed(alloc)?;
    link_handed(alloc, world, job, gathered, &places, &handed, output, lines)?;
    Ok(())
}

/// Whether folders are more than are searched.
fn are_too_many(folders: &[&str]) -> bool
    ensures { result ≡ wrong.are_too_many folders.now }
{
    folders.len() > MOST_FOLDERS
}

/// Stops where a job has more folders of libraries or of objects than are searched, or the environment has.
fn check_folders<A: Allocator + Copy>(
    job: &Job<'_>,
    folders: &[&str],
    lines: &mut Vec<u8, A>,
) -> Result<(), Halt>
    ensures { MatchResult result (λ done. searches_too_many (texts folders.now) job.now ≡ false)
        (λ why. OnHalt why ⊥ (searches_too_many (texts folders.now) job.now ≡ true)) }
{
    if are_too_many(&job.folders) || are_too_many(&job.object_folders) || are_too_many(folders) {
        lines.extend_from_slice(b"doslink: more than 64 folders are to be searched\n")?;
        return Err(Halt::Words);
    }
    Ok(())
}

/// Stops where a job names nothing that could be linked, or the program by the extension of a form that it doesn't say,
/// or asks for two things on standard output, or for more folders than are searched.
fn check_job<A: Allocator + Copy>(
    job: &Job<'_>,
    folders: &[&str],
    lines: &mut Vec<u8, A>,
) -> Result<(), Halt>
    ensures { MatchResult result (λ done. IsNamedWell (texts folders.now) job.now)
        (λ why. OnHalt why ⊥
        (NamesNothing job.now ⊎ ((asks_other_form job.now ≡ true) ⊎ ((mixes_output job.now ≡ true)
        ⊎ (searches_too_many (texts folders.now) job.now ≡ true))))) }
{
    if job.inputs.is_empty() {
        lines.extend_from_slice(b"doslink: no file is named to be linked\n")?;
        return Err(Halt::Words);
    }
    check_form(job, lines)?;
    check_output(job, lines)?;
    check_folders(job, folders, lines)
}

/// Does a job. What it tells is appended to the lines.
fn do_job<W: World + Copy, O: Write + Drop, A: Allocator + Copy>(
    alloc: A,
    world: W,
    job: &Job<'_>,
    besides: &Besides<'_>,
    output: &mut BufferedSink<O, A>,
    lines: &mut Vec<u8, A>,
) -> Result<(), Halt>
    requires { sink_failures output.old ≡ 0 }
    ensures { MatchResult result
        (λ done. IsNamedWell (texts besides.now.folders.now) job.now
        × AreApart (W.looks world) job.now.verbose (out_path job.now) (map_path job.now)
        × IsDone A (W.bytes world) (StandsAt (W.blank world) (W.Puts world)) (texts besides.now.folders.now) job.now)
        (λ why. OnHalt why
        (IsNamedWell (texts besides.now.folders.now) job.now
        × IsRefusedJob A (W.bytes world) (texts besides.now.folders.now) job.now)
        (IsWrongJob (W.bytes world) (W.looks world) (texts besides.now.folders.now) job.now)) }
{
    check_job(job, besides.folders, lines)?;
    let arena = Bump::new(alloc);
    let gathered = gather(alloc, &world, &arena, job, besides, lines)?;
    link_gathered(alloc, world, job, &gathered, output, lines)
}

/// Does a job, with the memory of this allocator, and hands out the exit status: 0 where the program is written, 1
/// where an input is at fault, 2 where nothing is named to be linked, OUT has the extension of another form than .EXE
/// and none is said, standard output would hold the list of what is linked and the program or its map, more than 64
/// folders of libraries, of objects or of the environment are to be searched, or what would be written is one of the
/// files that are read, a module or a library, or the map the program, 3 where a file, a device or memory failed. What
/// went wrong is told on standard error. Default libraries are looked up in `besides.folders` too, behind those of the
/// job.
pub fn run_job<W: World + Copy, O: Write + Drop, E: Sink, A: Allocator + Copy>(
    alloc: A,
    world: W,
    job: &Job<'_>,
    besides: &Besides<'_>,
    output: &mut BufferedSink<O, A>,
    errors: &mut E,
) -> u8
    requires output { sink_failures output.old ≡ 0 }
    requires errors { E.failures errors.old < 2 ^ 64 - 1 }
    ensures { EndsJob A (W.bytes world) (W.looks world) (StandsAt (W.blank world) (W.Puts world))
        (texts besides.now.folders.now) job.now (Tells E.written E.failures errors.old errors.new) result }
{
    run_lines(alloc, world, job, besides, Vec::new(alloc), output, errors)
}

/// Does the same behind lines that are told first.
pub(crate) fn run_lines<W: World + Copy, O: Write + Drop, E: Sink, A: Allocator + Copy>(
    alloc: A,
    world: W,
    job: &Job<'_>,
    besides: &Besides<'_>,
    first: Vec<u8, A>,
    output: &mut BufferedSink<O, A>,
    errors: &mut E,
) -> u8
    requires output { sink_failures output.old ≡ 0 }
    requires errors { E.failures errors.old < 2 ^ 64 - 1 }
    ensures { EndsJob A (W.bytes world) (W.looks world) (StandsAt (W.blank world) (W.Puts world))
        (texts besides.now.folders.now) job.now (Tells E.written E.failures errors.old errors.new) result }
{
    let mut lines = first;
    let done = do_job(alloc, world, job, besides, output, &mut lines);
    finish(done, &lines, errors)
}

/// What is told of a run: the lines, and where there was no memory that alone.
fn text_of<'l>(done: &Result<(), Halt>, lines: &'l [u8]) -> &'l [u8]
    ensures { result.now ≡ told_text done.now lines.now }
{
    match done {
        Ok(()) => lines,
        Err(why) => why.text(lines),
    }
}

/// The exit status of a run.
fn status_of(done: &Result<(), Halt>) -> u8
    ensures { result ≡ stops.status_of done.now }
{
    match done {
        Ok(()) => 0,
        Err(why) => why.status(),
    }
}

/// Writes the lines to standard error, or that there was no memory, where that is why the run stops. Hands out the exit
/// status.
pub(crate) fn finish<E: Sink>(done: Result<(), Halt>, lines: &[u8], errors: &mut E) -> u8
    requires { E.failures errors.old < 2 ^ 64 - 1 }
    ensures told { Tells E.written E.failures errors.old errors.new (told_text done lines.now) }
    ensures status { result ≡ stops.status_of done }
{
    let text = text_of(&done, lines);
    // where standard error fails, the status alone tells it
    let _ = put_all(errors, text);
    status_of(&done)
}
