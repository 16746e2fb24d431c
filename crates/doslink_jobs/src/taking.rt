//! The modules that a link takes: told, and looked through for names that are missing.
ghost use Rattle.std.specs.Prelude.{◌≡◌, [], IfErr, IfOk, map, MatchResult};
ghost use Rattle.omf_search.specs.Results.{module_said};
ghost use Rattle.doslink_stock.specs.Files.{needs};
ghost use Rattle.doslink_stock.specs.Seen.{handed_held};
ghost use Rattle.doslink_link.specs.Linking.{bytes_of};
ghost use Rattle.doslink_passes.specs.Request.{given_of, names_of, says_of};
ghost use Rattle.doslink_passes.specs.Stops.{OnInput};
ghost use Rattle.doslink_telling.specs.Missing.{unmet, wants_marks};
ghost use Rattle.doslink_telling.specs.Offering.{all_offering};
ghost use Rattle.doslink_jobs.specs.Refusals.{AreMissingOf};
ghost use Rattle.doslink_jobs.specs.inside.Suspects.{HaveNoSuspect, HaveSuspect};
ghost use Rattle.omf_files.specs.Files.{sink_failures};

use crate::faulty::{check_modules, check_offering};
use crate::gathering::Gathered;
use doslink_passes::{LinkRequest, Stop};
use doslink_stock::Handed;
use doslink_telling::{handed_text, offering_members, push_fault, push_missing_lines, unmet_names};
use doslink_words::Job;
use omf_faults::LinkFault;
use omf_files::BufferedSink;
use omf_frame::{IoFault, put_all};
use omf_search::{Said, Wanted};
use std::alloc::{AllocError, Allocator};
use std::io::Write;

/// The word for standard output in a fault's line.
const STANDARD_OUTPUT: &[u8] = b"output";

/// The modules that a link takes for a job, and the words for them.
#[derive(Clone, Copy)]
pub(crate) struct Taken<'t, 'j, 'm, 'a, A: Allocator + Copy> {
    pub job: &'t Job<'j>,
    /// The modules, in their order.
    pub handed: &'t [Handed<'m, 'a, A>],
    /// For each its file's path, and the member's name in parentheses.
    pub words: &'t [Vec<u8, A>],
}

/// What modules that a link takes say of names once no more are looked for, for as long as the modules stand.
pub(crate) fn said_of<'m, 'a, A: Allocator + Copy>(
    alloc: A,
    handed: &[Handed<'m, 'a, A>],
) -> Result<Vec<Said<'m, 'a>, A>, AllocError>
    ensures { IfOk result (λ v. map module_said v.items ≡ map (λ h. needs (handed_held h)) handed.now) }
{
    let mut all = Vec::new(alloc);
    for each in handed {
        let entry = each.entry;
        all.push(Said::needs(&entry.says))?;
    }
    Ok(all)
}

/// Writes a text to standard output.
fn print<O: Write + Drop, A: Allocator + Copy>(
    output: &mut BufferedSink<O, A>,
    text: &[u8],
) -> Result<(), IoFault>
    requires { sink_failures output.old ≡ 0 }
{
    put_all(output, text)?;
    output.flush()
}

/// Tells a text on standard output, or that this failed.
fn tell_text<O: Write + Drop, A: Allocator + Copy>(
    alloc: A,
    output: &mut BufferedSink<O, A>,
    text: &[u8],
    lines: &mut Vec<u8, A>,
) -> Result<(), Stop>
    requires { sink_failures output.old ≡ 0 }
    ensures { IfErr result (λ stop. OnInput stop ⊥) }
{
    if let Err(IoFault) = print(output, text) {
        push_fault(alloc, lines, &LinkFault::Output, STANDARD_OUTPUT)?;
        return Err(Stop::Device);
    }
    Ok(())
}

/// Tells each module on standard output, where the job asks for that.
pub(crate) fn tell_taken<O: Write + Drop, A: Allocator + Copy>(
    alloc: A,
    taken: &Taken<'_, '_, '_, '_, A>,
    output: &mut BufferedSink<O, A>,
    lines: &mut Vec<u8, A>,
) -> Result<(), Stop>
    requires { sink_failures output.old ≡ 0 }
    ensures { IfErr result (λ stop. OnInput stop ⊥) }
{
    if !taken.job.verbose {
        return Ok(());
    }
    let text = handed_text(alloc, taken.handed, taken.words)?;
    tell_text(alloc, output, &text, lines)
}

/// Tells the names that are missing. Where a module can't be read names may be missing for that, and so where a member
/// can't be read by which the symbol table of its archive offers one: that is told in their place, and stops.
fn tell_missing<'m, 'a, A: Allocator + Copy>(
    alloc: A,
    request: &LinkRequest<'_, '_, 'm, 'a, A>,
    gathered: &'m Gathered<'a, A>,
    missing: &[Wanted<'a>],
    lines: &mut Vec<u8, A>,
) -> Result<(), Stop>
    ensures { MatchResult result
        (λ done. HaveNoSuspect request.now.job.now (says_of request.now) (given_of request.now)
        (all_offering (names_of request.now.job.now.ignore_case) (map (λ w. w.name.now) missing.now)
        (bytes_of gathered.now.bytes.items)))
        (λ stop. OnInput stop (HaveSuspect request.now.job.now (says_of request.now) (given_of request.now)
        (all_offering (names_of request.now.job.now.ignore_case) (map (λ w. w.name.now) missing.now)
        (bytes_of gathered.now.bytes.items)))) }
{
    check_modules(alloc, request, lines)?;
    let paths = gathered.paths.as_slice();
    let offering = offering_members(alloc, request.names(), missing, &gathered.bytes)?;
    check_offering(alloc, request, paths, &offering, lines)?;
    push_missing_lines(
        alloc,
        lines,
        paths,
        &gathered.stock,
        request.handed,
        missing,
        request.job.verbose,
    )?;
    Ok(())
}

/// Tells the names that are missing, or why they are, and stops; else hands out whether marks are wanted.
pub(crate) fn check_names<'m, 'a, A: Allocator + Copy>(
    alloc: A,
    request: &LinkRequest<'_, '_, 'm, 'a, A>,
    gathered: &'m Gathered<'a, A>,
    lines: &mut Vec<u8, A>,
) -> Result<bool, Stop>
    ensures { MatchResult result (λ marks.
        (unmet (names_of request.now.job.now.ignore_case) (says_of request.now) ≡ [])
        × (marks ≡ wants_marks (names_of request.now.job.now.ignore_case) (says_of request.now)))
        (λ stop. OnInput stop (AreMissingOf request.now.job.now (says_of request.now) (given_of request.now))) }
{
    let unmet = unmet_names(alloc, request.names(), request.says)?;
    if unmet.missing.as_slice().is_empty() {
        return Ok(unmet.marks);
    }
    tell_missing(alloc, request, gathered, &unmet.missing, lines)?;
    Err(Stop::Input)
}
