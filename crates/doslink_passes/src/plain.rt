//! The modules of a link as the fourteen types of records say them: records of 32 bits with 16, and communal variables
//! as externals.
ghost use Rattle.std.specs.Prelude.{◌≡◌, length, MatchResult, Some};
ghost use Rattle.std.specs.Option.{option_map};
ghost use Rattle.omf_plain.specs.Modules.{IsPlainModule};
ghost use Rattle.doslink_passes.specs.Meanings.{AreMeaningsFor, taking_by};
ghost use Rattle.doslink_passes.specs.Names.{start_module};
ghost use Rattle.doslink_passes.specs.Names as names;
ghost use Rattle.doslink_passes.specs.Plain.{AreNotTaken, AreTaken, AreTakenFor, IsNoPlain, IsTaken, SomeIsNoPlain};
ghost use Rattle.doslink_passes.specs.Request.{given_of, says_of};
ghost use Rattle.doslink_passes.specs.Stops.{OnInput};
ghost use Rattle.doslink_passes.specs.inside.Plains.{fates_in, made_in, takes_in};

use crate::aliases::{check_aliases, own_aliases};
use crate::comdats::{fates_at, fates_of};
use crate::faults::tell_record;
use crate::meanings::Meanings;
use crate::names::start_bytes;
use crate::request::{GivenModule, LinkRequest};
use crate::stop::{Stop, stop_after};
use omf_comdat::ComdatFate;
use omf_module::{Module, without_start};
use omf_plain::{PlainModule, PlainModuleFault, Widths, read_plain};
use std::alloc::Allocator;

/// The modules of a link as they are taken, and what of each was of 32 bits.
#[derive(Drop)]
pub(crate) struct TakenModules<A: Allocator + Copy> {
    pub modules: Vec<Module<A>, A>,
    pub widths: Vec<Widths, A>,
}

/// How a module is taken.
#[derive(Clone, Copy)]
pub struct How<'t, 'f, 'r, 'h, 'a, A: Allocator + Copy> {
    /// Whether what debuggers read is kept in the program.
    pub keep_debug: bool,
    /// What names mean in it.
    pub meanings: &'t Meanings<'r, 'h, 'a, A>,
    /// What becomes of its COMDAT records.
    pub comdats: &'f [ComdatFate],
}

/// How the modules of a link are taken.
#[derive(Clone, Copy)]
struct HowAll<'t, 'f, 's, 'r, 'h, 'a, A: Allocator + Copy> {
    /// What names mean in them.
    meanings: &'t Meanings<'r, 'h, 'a, A>,
    /// What becomes of the COMDAT records of each.
    fates: &'f [Vec<ComdatFate, A>],
    /// The bytes of the module that says where the program starts, where one does.
    made: Option<&'s [u8]>,
}

/// A module as the fourteen say it, with what names mean in it, and what of it was of 32 bits. What keeps it from that
/// is told.
///
/// # Errors
/// `Input`: the first record that none of the fourteen says, or that is at fault. `Memory`.
pub fn plain_module<'a, A: Allocator + Copy>(
    alloc: A,
    how: &How<'_, '_, '_, '_, 'a, A>,
    given: GivenModule<'_, 'a>,
    lines: &mut Vec<u8, A>,
) -> Result<PlainModule<A>, Stop>
    ensures { MatchResult result
        (λ p. IsPlainModule
        (taking_by how.now.keep_debug how.now.meanings.now given.entry.bytes.now how.now.comdats.now)
        given.entry.bytes.now p.module p.widths)
        (λ stop. OnInput stop (IsNoPlain
        (taking_by how.now.keep_debug how.now.meanings.now given.entry.bytes.now how.now.comdats.now)
        given.entry.bytes.now)) }
{
    let aliases = own_aliases(alloc, how.meanings, given.bytes)?;
    match read_plain(
        alloc,
        given.bytes,
        how.keep_debug,
        &aliases.renaming(),
        how.comdats,
    ) {
        Ok(plain) => Ok(plain),
        Err(PlainModuleFault::Memory) => Err(Stop::Memory),
        Err(PlainModuleFault::Record { place, why }) => {
            Err(stop_after(tell_record(alloc, given, place, why, lines)))
        }
    }
}

/// A module that is given as these bytes: without its own start, unless it is the one of these, which says where the
/// program starts.
fn started_by<A: Allocator + Copy>(
    made: &[u8],
    bytes: &[u8],
    plain: PlainModule<A>,
) -> PlainModule<A>
    ensures module { result.module ≡ names.started_by (Some made.now) bytes.now plain.module }
    ensures widths { result.widths ≡ plain.widths }
{
    if bytes == made {
        return plain;
    }
    PlainModule {
        module: without_start(plain.module),
        widths: plain.widths,
    }
}

/// The module that is given as these bytes as it is taken: without its own start, where another one says where the
/// program starts.
fn taken_module<'a, A: Allocator + Copy>(
    alloc: A,
    how: &How<'_, '_, '_, '_, 'a, A>,
    made: Option<&[u8]>,
    given: GivenModule<'_, 'a>,
    lines: &mut Vec<u8, A>,
) -> Result<PlainModule<A>, Stop>
    ensures { MatchResult result
        (λ p. IsTaken (taking_by how.now.keep_debug how.now.meanings.now) (option_map (λ b. b.now) made.entry)
        given.entry.bytes.now how.now.comdats.now p.module p.widths)
        (λ stop. OnInput stop (IsNoPlain
        (taking_by how.now.keep_debug how.now.meanings.now given.entry.bytes.now how.now.comdats.now)
        given.entry.bytes.now)) }
{
    let plain = plain_module(alloc, how, given, lines)?;
    match made {
        Some(made) => Ok(started_by(made, given.bytes, plain)),
        None => Ok(plain),
    }
}

/// The modules of a link so. The first that isn't is told.
fn all_taken<'a, A: Allocator + Copy>(
    alloc: A,
    request: &LinkRequest<'_, '_, '_, 'a, A>,
    all: &HowAll<'_, '_, '_, '_, '_, 'a, A>,
    lines: &mut Vec<u8, A>,
) -> Result<TakenModules<A>, Stop>
    requires { length all.now.fates.now ≡ length request.now.handed.now }
    ensures { MatchResult result
        (λ t. AreTaken (takes_in request.now.job.now.keep_debug all.now) (made_in all.now) (given_of request.now)
        (fates_in all.now) t.modules.items t.widths.items)
        (λ stop. OnInput stop (SomeIsNoPlain (takes_in request.now.job.now.keep_debug all.now)
        (given_of request.now) (fates_in all.now))) }
{
    let mut modules = Vec::new(alloc);
    let mut widths = Vec::new(alloc);
    let handed = request.handed;
    for (index, each) in handed.iter().enumerate() {
        let given = GivenModule {
            bytes: each.entry.bytes,
            word: request.word(index),
        };
        let how = How {
            keep_debug: request.job.keep_debug,
            meanings: all.meanings,
            comdats: fates_at(all.fates, index),
        };
        let plain = taken_module(alloc, &how, all.made, given, lines)?;
        modules.push(plain.module)?;
        widths.push(plain.widths)?;
    }
    Ok(TakenModules { modules, widths })
}

/// Bytes, where there are some.
fn lent_bytes<A: Allocator + Copy>(bytes: &Option<Vec<u8, A>>) -> Option<&[u8]>
    ensures { option_map (λ b. b.now) result ≡ option_map (λ v. v.items) bytes.now }
{
    match bytes {
        Some(bytes) => Some(bytes.as_slice()),
        None => None,
    }
}

/// The modules that a link takes, as its job asks for, with what names mean in them. What isn't taken is told.
pub(crate) fn take_modules<'a, A: Allocator + Copy>(
    alloc: A,
    request: &LinkRequest<'_, '_, '_, 'a, A>,
    meanings: &Meanings<'_, '_, 'a, A>,
    lines: &mut Vec<u8, A>,
) -> Result<TakenModules<A>, Stop>
    requires { AreMeaningsFor request.now.job.now (says_of request.now) (given_of request.now) meanings.now }
    ensures { MatchResult result
        (λ t. AreTakenFor request.now.job.now (says_of request.now) (given_of request.now)
        t.modules.items t.widths.items)
        (λ stop. OnInput stop (AreNotTaken request.now.job.now (says_of request.now) (given_of request.now))) }
{
    check_aliases(alloc, request, meanings, lines)?;
    let fates = fates_of(alloc, request, lines)?;
    let start = start_bytes(alloc, request.job)?;
    let all = HowAll {
        meanings,
        fates: &fates,
        made: lent_bytes(&start),
    };
    all_taken(alloc, request, &all, lines)
}
