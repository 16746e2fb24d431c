//! What becomes of the COMDAT records of modules, and the clashes of COMDATs of one name.
ghost use Rattle.std.specs.Prelude.{◌≡◌, ◌≢◌, [], IfOk, map, MatchResult, slice_get, unwrap_or};
ghost use Rattle.omf_comdat.specs.Comdats.{AreComdats, records_said};
ghost use Rattle.omf_comdat.specs.Told.{modules_said};
ghost use Rattle.omf_library.specs.Records.{module_records};
ghost use Rattle.doslink_passes.specs.Comdats.{AreFatesFor, AreRecordsOf, HaveClash};
ghost use Rattle.doslink_passes.specs.Request.{given_of, names_of};
ghost use Rattle.doslink_passes.specs.Stops.{OnInput};

use crate::request::{GivenModule, LinkRequest};
use crate::stop::{Stop, stop_after};
use doslink_telling::push_comdat_clash;
use omf_comdat::{
    ComdatDifference, ComdatFate, ComdatFault, ComdatRecord, comdat_fates, comdat_records,
};
use omf_library::module_frames;
use omf_place::Names;
use std::alloc::{AllocError, Allocator};

/// The number and the name of how two COMDATs differ.
fn clash_label(differ: ComdatDifference) -> (u8, &'static str) {
    match differ {
        ComdatDifference::Size => (78, "ComdatSize"),
        ComdatDifference::Data => (79, "ComdatData"),
    }
}

/// The word for the module with this index; empty behind the last.
fn word_of<'w>(given: &[GivenModule<'w, '_>], index: usize) -> &'w [u8] {
    match given.get(index) {
        Some(one) => one.word,
        None => b"",
    }
}

/// Tells that COMDATs of modules clash, and stops.
fn stop_at_clash<A: Allocator + Copy>(
    fault: ComdatFault<'_>,
    given: &[GivenModule<'_, '_>],
    lines: &mut Vec<u8, A>,
) -> Stop
    ensures { OnInput result (fault.entry ≢ ComdatFault.Memory) }
{
    let ComdatFault::Clash(clash) = fault else {
        return Stop::Memory;
    };
    let first = word_of(given, clash.first);
    let other = word_of(given, clash.other);
    let label = clash_label(clash.differ);
    stop_after(push_comdat_clash(lines, label, clash.name, first, other))
}

/// The COMDAT records of a module.
fn records_in<'a, A: Allocator + Copy + 'a>(
    alloc: A,
    bytes: &'a [u8],
) -> Result<Vec<ComdatRecord<'a>, A>, AllocError>
    ensures { IfOk result (λ v. AreComdats [] (module_records bytes.now 0) (records_said v.items)) }
{
    let frames = module_frames(alloc, bytes)?;
    comdat_records(alloc, &frames)
}

/// Those of modules.
fn records_of<'a, A: Allocator + Copy + 'a>(
    alloc: A,
    given: &'a [GivenModule<'a, 'a>],
) -> Result<Vec<Vec<ComdatRecord<'a>, A>, A>, AllocError>
    ensures { IfOk result (λ v. AreRecordsOf (map (λ g. g.bytes.now) given.now) (modules_said v.items)) }
{
    let mut all = Vec::new(alloc);
    for one in given {
        all.push(records_in(alloc, one.bytes)?)?;
    }
    Ok(all)
}

/// What becomes of the COMDAT records of modules that are linked together. Of two COMDATs that clash the name is told.
///
/// # Errors
/// `Input`: two COMDATs of one name clash. `Memory`.
pub fn fates_among<'a, A: Allocator + Copy>(
    alloc: A,
    names: Names,
    given: &[GivenModule<'_, 'a>],
    lines: &mut Vec<u8, A>,
) -> Result<Vec<Vec<ComdatFate, A>, A>, Stop>
    ensures { MatchResult result
        (λ v. AreFatesFor names (map (λ g. g.bytes.now) given.now) (map (λ fates. fates.items) v.items))
        (λ stop. OnInput stop (HaveClash names (map (λ g. g.bytes.now) given.now))) }
{
    let records = records_of(alloc, given)?;
    match comdat_fates(alloc, names, &records) {
        Ok(fates) => Ok(fates),
        Err(fault) => Err(stop_at_clash(fault, given, lines)),
    }
}

/// The modules that a link takes, as they are given.
fn given_modules<'t, 'a, A: Allocator + Copy>(
    alloc: A,
    request: &LinkRequest<'t, '_, '_, 'a, A>,
) -> Result<Vec<GivenModule<'t, 'a>, A>, AllocError>
    ensures { IfOk result (λ v. map (λ g. g.bytes.now) v.items ≡ given_of request.now) }
{
    let mut all = Vec::new(alloc);
    let handed = request.handed;
    for (index, each) in handed.iter().enumerate() {
        all.push(GivenModule {
            bytes: each.entry.bytes,
            word: request.word(index),
        })?;
    }
    Ok(all)
}

/// What becomes of the COMDAT records of the modules that a link takes.
///
/// # Errors
/// `Input`: two COMDATs of one name clash, which is told. `Memory`.
pub fn fates_of<'a, A: Allocator + Copy>(
    alloc: A,
    request: &LinkRequest<'_, '_, '_, 'a, A>,
    lines: &mut Vec<u8, A>,
) -> Result<Vec<Vec<ComdatFate, A>, A>, Stop>
    ensures { MatchResult result
        (λ v. AreFatesFor (names_of request.now.job.now.ignore_case) (given_of request.now)
        (map (λ fates. fates.items) v.items))
        (λ stop. OnInput stop (HaveClash (names_of request.now.job.now.ignore_case) (given_of request.now))) }
{
    let given = given_modules(alloc, request)?;
    fates_among(alloc, request.names(), &given, lines)
}

/// What becomes of the COMDAT records of the module with this index; nothing behind the last.
pub fn fates_at<A: Allocator + Copy>(fates: &[Vec<ComdatFate, A>], index: usize) -> &[ComdatFate]
    ensures { result.now ≡ unwrap_or (slice_get (map (λ v. v.items) fates.now) index) [] }
{
    match fates.get(index) {
        Some(own) => own.as_slice(),
        None => &[],
    }
}
