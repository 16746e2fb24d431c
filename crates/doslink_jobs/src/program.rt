//! A program and its map, made in memory and written to files.
ghost use Rattle.std.specs.Prelude.{◌≡◌, IfErr, IfOk, string_bytes};
ghost use Rattle.std.specs.Option.{option_map};
ghost use Rattle.omf_place.specs.Bounded.{IsBounded};
ghost use Rattle.doslink_files.specs.Written.{StandsAt};
ghost use Rattle.doslink_link.specs.Linking.{bytes_of};
ghost use Rattle.doslink_words.specs.declared.job.MapForm.TheVariants.{Omf};
ghost use Rattle.doslink_jobs.specs.Maps as spec;
ghost use Rattle.doslink_jobs.specs.Written.{AreWritten};
ghost use Rattle.doslink_passes.specs.Stops.{OnInput};

use crate::places::Places;
use doslink_files::put_file;
use doslink_link::{Linked, Page};
use doslink_passes::Stop;
use doslink_telling::{push_unwritten_line, table};
use doslink_words::{Job, MapForm};
use link_map::{LinkedProgram, MapFault, MapForm as LinkerForm, Shown, Sources, write_shown_map};
use omf_commands::{Report, write_map};
use omf_files::World;
use std::alloc::{AllocError, Allocator};

/// The map of what was linked as `omf` has it, and behind it the table of the modules, whose bytes and words these are.
fn omf_map<A: Allocator + Copy>(
    alloc: A,
    report: &Report<A>,
    inputs: &[&[u8]],
    words: &[&[u8]],
) -> Result<Vec<u8, A>, AllocError>
    requires { IsBounded report.now.modules.items report.now.layout }
    ensures { IfOk result (λ text. text.items ≡ spec.map_bytes Omf report.now (bytes_of inputs.now)
        (bytes_of words.now)) }
{
    let table = table(alloc, &report.modules, &report.layout, inputs, words)?;
    let mut page = Page::new(alloc);
    match write_map(report, &mut page) {
        Ok(()) => {
            page.bytes.extend_from_slice(&table)?;
            Ok(page.bytes)
        }
        // a page fails where it can't grow
        Err(_) => Err(AllocError),
    }
}

/// The map of what was linked in the form of LINK or of TLINK; the inputs' words name their files.
fn linker_map<A: Allocator + Copy>(
    alloc: A,
    shown: Shown,
    report: &Report<A>,
    inputs: &[&[u8]],
    words: &[&[u8]],
) -> Result<Vec<u8, A>, AllocError>
    requires { IsBounded report.now.modules.items report.now.layout }
    ensures { IfOk result (λ text. text.items ≡ spec.linker_map shown report.now (bytes_of inputs.now)
        (bytes_of words.now)) }
{
    let linked = LinkedProgram {
        modules: &report.modules,
        layout: &report.layout,
        program: &report.program,
    };
    let sources = Sources {
        inputs,
        files: words,
    };
    let mut page = Page::new(alloc);
    match write_shown_map(alloc, &mut page, shown, &linked, sources) {
        Ok(()) => Ok(page.bytes),
        // there was no memory, for the map or for the page
        Err(MapFault::Memory | MapFault::Device) => Err(AllocError),
    }
}

/// What a map in the form of LINK shows.
fn shown_by_link(line_numbers: bool) -> Shown
    ensures { result ≡ spec.shown_by_link line_numbers }
{
    Shown {
        form: LinkerForm::Link,
        details: false,
        line_numbers,
    }
}

/// What a map in the form of TLINK shows.
fn shown_by_tlink(line_numbers: bool, details: bool) -> Shown
    ensures { result ≡ spec.shown_by_tlink line_numbers details }
{
    Shown {
        form: LinkerForm::Tlink,
        details,
        line_numbers,
    }
}

/// The map of what was linked, in a form, of inputs for which these are the words.
pub fn map_bytes<A: Allocator + Copy>(
    alloc: A,
    form: MapForm,
    report: &Report<A>,
    inputs: &[&[u8]],
    words: &[&[u8]],
) -> Result<Vec<u8, A>, AllocError>
    requires { IsBounded report.now.modules.items report.now.layout }
    ensures { IfOk result (λ text. text.items ≡ spec.map_bytes form report.now (bytes_of inputs.now)
        (bytes_of words.now)) }
{
    match form {
        MapForm::Omf => omf_map(alloc, report, inputs, words),
        MapForm::Link { line_numbers } => {
            linker_map(alloc, shown_by_link(line_numbers), report, inputs, words)
        }
        MapForm::Tlink {
            line_numbers,
            details,
        } => {
            linker_map(
                alloc,
                shown_by_tlink(line_numbers, details),
                report,
                inputs,
                words,
            )
        }
    }
}

/// Puts a file at a path. A failure is told.
fn put_or_tell<W: World, A: Allocator + Copy>(
    world: &W,
    path: &str,
    bytes: &[u8],
    lines: &mut Vec<u8, A>,
) -> Result<(), Stop>
    ensures refused { IfErr result (λ stop. OnInput stop ⊥) }
    ensures written { IfOk result (λ done. StandsAt (W.blank world.now) (W.Puts world.now) path.now bytes.now) }
{
    match put_file(world, path, bytes) {
        Ok(()) => Ok(()),
        Err(error) => {
            push_unwritten_line(lines, path, error.kind())?;
            Err(Stop::Device)
        }
    }
}

/// Writes a program that was linked of inputs, and its map where one is asked for, in the form that the job says. The
/// words are those for the inputs.
pub(crate) fn write_files<W: World, A: Allocator + Copy>(
    alloc: A,
    world: &W,
    job: &Job<'_>,
    linked: &Linked<A>,
    inputs: &[&[u8]],
    words: &[&[u8]],
    places: &Places<A>,
    lines: &mut Vec<u8, A>,
) -> Result<(), Stop>
    requires { IsBounded linked.now.report.modules.items linked.now.report.layout }
    ensures refused { IfErr result (λ stop. OnInput stop ⊥) }
    ensures written { IfOk result (λ done. AreWritten (StandsAt (W.blank world.now) (W.Puts world.now))
        (string_bytes places.now.out) (option_map string_bytes places.now.map) linked.now.file.items
        (spec.map_bytes job.now.map_form linked.now.report (bytes_of inputs.now) (bytes_of words.now))) }
{
    let out = places.out.as_str();
    match &places.map {
        None => put_or_tell(world, out, &linked.file, lines),
        Some(path) => {
            let map = map_bytes(alloc, job.map_form, &linked.report, inputs, words)?;
            put_or_tell(world, out, &linked.file, lines)?;
            put_or_tell(world, path.as_str(), &map, lines)
        }
    }
}
