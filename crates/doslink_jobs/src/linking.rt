//! The link of modules into the files of a program and its map.
ghost use Rattle.std.specs.Prelude.{◌≡◌, IfOk, List, map, MatchResult, string_bytes};
ghost use Rattle.std.specs.Option.{option_map};
ghost use Rattle.omf_faults.specs.FaultLines as faults;
ghost use Rattle.omf_module.specs.Module.{Module as Says};
ghost use Rattle.omf_place.specs.Bounded.{IsBounded};
ghost use Rattle.omf_place.specs.declared.names.Names.{Names};
ghost use Rattle.doslink_files.specs.Written.{StandsAt};
ghost use Rattle.doslink_link.specs.Forms.{IsFormed};
ghost use Rattle.doslink_link.specs.Linking.{IsFaultless, IsLinkedAs};
ghost use Rattle.doslink_passes.specs.Request.{names_of};
ghost use Rattle.doslink_passes.specs.Sources.{linked_said};
ghost use Rattle.doslink_passes.specs.Stops.{OnInput};
ghost use Rattle.doslink_jobs.specs.Refusals.{HaveFault};
ghost use Rattle.doslink_jobs.specs.Written.{HasFormFault, IsWritten};

use crate::forms::push_form_fault;
use crate::places::Places;
use crate::program::write_files;
use crate::warnings::warn_of_program;
use doslink_link::{Linked, in_form, link_in_memory};
use doslink_passes::{
    LinkRequest, Linked as LinkedModules, Stop, modules_of, source_slices, source_words, word_at,
};
use doslink_telling::{push_duplicates, push_excess, push_fault};
use doslink_words::Job;
use flat_file::FlatFault;
use omf_commands::Options;
use omf_communal::Variable;
use omf_faults::{LinkFault, ProgramFault, status};
use omf_files::World;
use omf_module::Module;
use omf_place::excess;
use std::alloc::{AllocError, Allocator};

/// How a job takes names.
fn options_of(job: &Job<'_>) -> Options
    ensures { result.names ≡ names_of job.now.ignore_case }
{
    if job.ignore_case {
        Options::ignoring_case()
    } else {
        Options::new()
    }
}

/// The modules that are linked, which the link took: they are made again, of which nothing is told.
fn modules_again<'a, A: Allocator + Copy>(
    alloc: A,
    request: &LinkRequest<'_, '_, '_, 'a, A>,
    variables: &[Variable<'a>],
) -> Result<Vec<Module<A>, A>, AllocError> {
    let mut untold = Vec::new(alloc);
    match modules_of(alloc, request, variables, &mut untold) {
        Ok(linked) => Ok(linked.modules),
        // they were made before, so memory is what lacks
        Err(_) => Err(AllocError),
    }
}

/// Tells that more than one public of what is linked has a name: each such name, where the link says that of one. The
/// words are those of the modules.
fn tell_duplicates<'a, A: Allocator + Copy>(
    alloc: A,
    request: &LinkRequest<'_, '_, '_, 'a, A>,
    variables: &[Variable<'a>],
    words: &[&[u8]],
    lines: &mut Vec<u8, A>,
) -> Result<(), AllocError> {
    let modules = modules_again(alloc, request, variables)?;
    push_duplicates(
        alloc,
        lines,
        request.names(),
        &modules,
        words,
        request.job.verbose,
    )
}

/// Tells a fault of modules together: where a segment, the program or a group is too long, by how many bytes.
fn tell_program_fault<'a, A: Allocator + Copy>(
    alloc: A,
    request: &LinkRequest<'_, '_, '_, 'a, A>,
    variables: &[Variable<'a>],
    fault: &LinkFault<A>,
    at_fault: &ProgramFault<A>,
    lines: &mut Vec<u8, A>,
) -> Result<(), AllocError> {
    let modules = modules_again(alloc, request, variables)?;
    match excess(alloc, &modules)? {
        Some(bytes) if bytes <= u128::from(u64::MAX) => {
            push_excess(lines, at_fault, bytes as u64)
        }
        _ => push_fault(alloc, lines, fault, b""),
    }
}

/// Tells why the link stopped; the words are those of the modules.
fn tell_fault<'a, A: Allocator + Copy>(
    alloc: A,
    request: &LinkRequest<'_, '_, '_, 'a, A>,
    variables: &[Variable<'a>],
    fault: LinkFault<A>,
    words: &[&[u8]],
    lines: &mut Vec<u8, A>,
) -> Result<(), AllocError> {
    match &fault {
        LinkFault::Memory => Err(AllocError),
        LinkFault::Program(ProgramFault::DuplicatePublic(_)) => {
            tell_duplicates(alloc, request, variables, words, lines)
        }
        LinkFault::Program(at_fault) => {
            tell_program_fault(alloc, request, variables, &fault, at_fault, lines)
        }
        _ => push_fault(alloc, lines, &fault, word_of(&fault, words)),
    }
}

/// The word for the input that is at fault, and none where it is none.
fn word_of<'w, A: Allocator + Copy>(fault: &LinkFault<A>, words: &[&'w [u8]]) -> &'w [u8] {
    match fault.input() {
        Some(input) => word_at(words, input),
        None => b"",
    }
}

/// Tells why the modules can't be linked, and stops.
fn stop_at_fault<'a, A: Allocator + Copy>(
    alloc: A,
    request: &LinkRequest<'_, '_, '_, 'a, A>,
    variables: &[Variable<'a>],
    fault: LinkFault<A>,
    words: &[&[u8]],
    lines: &mut Vec<u8, A>,
) -> Stop
    ensures { OnInput result (faults.status fault ≡ 1) }
{
    let stop = if status(&fault) == 1 {
        Stop::Input
    } else {
        Stop::Device
    };
    match tell_fault(alloc, request, variables, fault, words, lines) {
        Ok(()) => stop,
        Err(AllocError) => Stop::Memory,
    }
}

/// What was linked, with its file in the form that the job says. What keeps it from being one is told.
fn formed<A: Allocator + Copy>(
    alloc: A,
    job: &Job<'_>,
    linked: Linked<A>,
    lines: &mut Vec<u8, A>,
) -> Result<Linked<A>, Stop>
    requires { IsBounded linked.report.modules.items linked.report.layout }
    ensures same { IfOk result (λ l. l.report ≡ linked.report) }
    ensures formed { (names : Names) (modules : List Says)
        → IsLinkedAs names modules linked.report linked.file.items
        → MatchResult result (λ l. IsFormed job.now.form names modules l.report l.file.items)
        (λ stop. OnInput stop (HasFormFault job.now.form names modules)) }
{
    match in_form(alloc, linked, job.form) {
        Ok(linked) => Ok(linked),
        Err(FlatFault::Form(fault)) => {
            push_form_fault(lines, fault)?;
            Err(Stop::Input)
        }
        // a page fails where it can't grow
        Err(FlatFault::Device) => Err(Stop::Memory),
    }
}

/// Links these modules, which are those of a request with these communal variables, and writes the program and the map.
/// What can't be run as it is meant is warned of.
pub(crate) fn write_program<'a, W: World + Copy, A: Allocator + Copy>(
    alloc: A,
    world: W,
    places: &Places<A>,
    request: &LinkRequest<'_, '_, '_, 'a, A>,
    variables: &[Variable<'a>],
    linked: LinkedModules<'a, A>,
    lines: &mut Vec<u8, A>,
) -> Result<(), Stop>
    ensures { MatchResult result
        (λ done. IsFaultless A (names_of request.now.job.now.ignore_case) (linked_said linked.entry).modules
        × IsWritten A request.now.job.now (StandsAt (W.blank world) (W.Puts world)) (string_bytes places.now.out)
        (option_map string_bytes places.now.map) (names_of request.now.job.now.ignore_case)
        (linked_said linked.entry).sources (linked_said linked.entry).modules)
        (λ stop. OnInput stop (HaveFault A request.now.job.now.form (names_of request.now.job.now.ignore_case)
        (linked_said linked.entry).modules)) }
{
    let LinkedModules { sources, modules } = linked;
    let slices = source_slices(alloc, &sources)?;
    let words = source_words(alloc, &sources, request.words)?;
    let job = request.job;
    match link_in_memory(alloc, modules, &options_of(job)) {
        Ok(linked) => {
            let linked = formed(alloc, job, linked, lines)?;
            write_files(alloc, &world, job, &linked, &slices, &words, places, lines)?;
            let modules = &linked.report.modules;
            Ok(warn_of_program(alloc, job, modules, variables, &words, lines)?)
        }
        Err(fault) => Err(stop_at_fault(alloc, request, variables, fault, &words, lines)),
    }
}
