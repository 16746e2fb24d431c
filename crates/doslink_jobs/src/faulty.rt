//! Modules that can't be read, which are told first where they begin as no module does, and where names are missing:
//! these may be missing since they can't.
ghost use Rattle.std.specs.Prelude.{All, Any, IfErr, map, MatchResult};
ghost use Rattle.doslink_passes.specs.Meanings.{AreMeaningsFor, taking_by};
ghost use Rattle.doslink_passes.specs.Plain.{AreFaultless, AreFaulty, IsNoPlain, IsPlain};
ghost use Rattle.doslink_passes.specs.Request.{given_of, says_of};
ghost use Rattle.doslink_passes.specs.Stops.{OnInput};
ghost use Rattle.doslink_jobs.specs.inside.Suspects.{IsFaulty, IsReadable};

use doslink_passes::{
    GivenModule, How, LinkRequest, Meanings, Stop, fates_among, fates_at, fates_of, meanings_of,
    plain_module,
};
use doslink_stock::Handed;
use doslink_telling::{Offering, foreign_kind, member_word};
use std::alloc::Allocator;

/// Stops where a module isn't one as it is taken, and tells why.
fn check_module<'a, A: Allocator + Copy>(
    alloc: A,
    how: &How<'_, '_, '_, '_, 'a, A>,
    given: GivenModule<'_, 'a>,
    lines: &mut Vec<u8, A>,
) -> Result<(), Stop>
    ensures { MatchResult result
        (λ done. IsPlain
        (taking_by how.now.keep_debug how.now.meanings.now given.entry.bytes.now how.now.comdats.now)
        given.entry.bytes.now)
        (λ stop. OnInput stop (IsNoPlain
        (taking_by how.now.keep_debug how.now.meanings.now given.entry.bytes.now how.now.comdats.now)
        given.entry.bytes.now)) }
{
    plain_module(alloc, how, given, lines)?;
    Ok(())
}

/// Stops at the first of the modules that isn't one as it is taken, and tells why; before that, where two of their
/// COMDATs of one name clash.
pub(crate) fn check_modules<'a, A: Allocator + Copy>(
    alloc: A,
    request: &LinkRequest<'_, '_, '_, 'a, A>,
    lines: &mut Vec<u8, A>,
) -> Result<(), Stop>
    ensures { MatchResult result
        (λ done. AreFaultless request.now.job.now (says_of request.now) (given_of request.now)
        (given_of request.now))
        (λ stop. OnInput stop (AreFaulty request.now.job.now (says_of request.now) (given_of request.now)
        (given_of request.now))) }
{
    let meanings = meanings_of(alloc, request)?;
    let fates = fates_of(alloc, request, lines)?;
    let handed = request.handed;
    for (index, each) in handed.iter().enumerate() {
        let given = GivenModule {
            bytes: each.entry.bytes,
            word: request.word(index),
        };
        let how = How {
            keep_debug: request.job.keep_debug,
            meanings: &meanings,
            comdats: fates_at(&fates, index),
        };
        check_module(alloc, &how, given, lines)?;
    }
    Ok(())
}

/// Whether one of the modules begins as none does.
fn has_foreign<A: Allocator + Copy>(handed: &[Handed<'_, '_, A>]) -> bool {
    handed
        .iter()
        .any(|each| foreign_kind(each.entry.bytes).is_some())
}

/// Stops at the first of the modules that begins as none does and isn't one as it is taken, and tells what it is. COMDATs
/// of theirs that clash are told before it.
pub(crate) fn check_foreign<'a, A: Allocator + Copy>(
    alloc: A,
    request: &LinkRequest<'_, '_, '_, 'a, A>,
    lines: &mut Vec<u8, A>,
) -> Result<(), Stop>
    ensures { IfErr result (λ stop. OnInput stop
        (AreFaulty request.now.job.now (says_of request.now) (given_of request.now) (given_of request.now))) }
{
    let handed = request.handed;
    if !has_foreign(handed) {
        return Ok(());
    }
    let meanings = meanings_of(alloc, request)?;
    let fates = fates_of(alloc, request, lines)?;
    for (index, each) in handed.iter().enumerate() {
        let bytes = each.entry.bytes;
        if foreign_kind(bytes).is_some() {
            let word = request.word(index);
            let how = How {
                keep_debug: request.job.keep_debug,
                meanings: &meanings,
                comdats: fates_at(&fates, index),
            };
            check_module(alloc, &how, GivenModule { bytes, word }, lines)?;
        }
    }
    Ok(())
}

/// Stops where a module that isn't linked can't be read alone, by what names mean in those that are, and tells why.
fn check_alone<'a, A: Allocator + Copy>(
    alloc: A,
    request: &LinkRequest<'_, '_, '_, 'a, A>,
    meanings: &Meanings<'_, '_, 'a, A>,
    given: GivenModule<'_, 'a>,
    lines: &mut Vec<u8, A>,
) -> Result<(), Stop>
    requires { AreMeaningsFor request.now.job.now (says_of request.now) (given_of request.now) meanings.now }
    ensures { MatchResult result
        (λ done. IsReadable request.now.job.now (says_of request.now) (given_of request.now) given.entry.bytes.now)
        (λ stop. OnInput stop
        (IsFaulty request.now.job.now (says_of request.now) (given_of request.now) given.entry.bytes.now)) }
{
    let alone = [given];
    let fates = fates_among(alloc, request.names(), alone.as_slice(), lines)?;
    let how = How {
        keep_debug: request.job.keep_debug,
        meanings,
        comdats: fates_at(&fates, 0),
    };
    check_module(alloc, &how, given, lines)
}

/// Stops at the first of some members that isn't a module as it would be taken, and tells why.
pub(crate) fn check_offering<'a, A: Allocator + Copy>(
    alloc: A,
    request: &LinkRequest<'_, '_, '_, 'a, A>,
    paths: &[&str],
    offering: &[Offering<'a>],
    lines: &mut Vec<u8, A>,
) -> Result<(), Stop>
    ensures { MatchResult result
        (λ done. All (IsReadable request.now.job.now (says_of request.now) (given_of request.now))
        (map (λ o. o.bytes.now) offering.now))
        (λ stop. OnInput stop (Any (IsFaulty request.now.job.now (says_of request.now) (given_of request.now))
        (map (λ o. o.bytes.now) offering.now))) }
{
    let meanings = meanings_of(alloc, request)?;
    for each in offering {
        let word = member_word(alloc, paths, each.file, each.name)?;
        let given = GivenModule {
            bytes: each.bytes,
            word: &word,
        };
        check_alone(alloc, request, &meanings, given, lines)?;
    }
    Ok(())
}
