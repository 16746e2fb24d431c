//! The variables that are local to the modules of a link.
ghost use Rattle.std.specs.Prelude.{◌≡◌, IsErr, List, Ok, Some, length, map, MatchResult};
ghost use Rattle.std.specs.List.{list_any};
ghost use Rattle.std.specs.Option.{option_map};
ghost use Rattle.omf_communal.specs.declared.declarations.Scope.TheVariants as scope;
ghost use Rattle.omf_communal.specs.Bss.{has_bss};
ghost use Rattle.omf_communal.specs.Deciding.{variable_said};
ghost use Rattle.omf_communal.specs.Answers as place;
ghost use Rattle.omf_communal.specs.Reading.{communals_of, plain_communal};
ghost use Rattle.omf_library.specs.Records.{module_records};
ghost use Rattle.omf_module.specs.Module.{Module as Says};
ghost use Rattle.doslink_passes.specs.Locals.{AreUnplaced, HasLocals, HasNoLocals, HaveLocals, IsBehind, IsMadeFor};
ghost use Rattle.doslink_passes.specs.Locals.{IsPlaced, IsUnusable, SomeHasNoLocals, local_variables_of};
ghost use Rattle.doslink_passes.specs.Request.{given_of, names_of};
ghost use Rattle.doslink_passes.specs.Stops.{OnInput};

use crate::communals::{Declared, agreed_variables, have_bss, stop_at_entry, stop_unplaced};
use crate::linked::{MadeModule, read_made};
use crate::request::{GivenModule, LinkRequest};
use crate::stop::{Stop, stop_after};
use omf_communal::{Communal, Scope, Variable, communals, local_module_bytes, local_names_of};
use omf_module::{Module, with_declarations};
use omf_place::Names;
use std::alloc::{AllocError, Allocator};

/// The word for the module of the variables of one, in a fault's line.
const LOCAL_MODULE: &[u8] = b"local";

/// Where the variables of a module are to stand.
#[derive(Clone, Copy)]
struct Room<'w, A: Allocator + Copy> {
    /// Which names agree.
    names: Names,
    /// Whether some module of the link has the segment `_BSS` in DGROUP.
    in_bss: bool,
    /// The words for this module and those behind it.
    words: &'w [Vec<u8, A>],
}

/// The variables that a module declares as local to it. Its first record at fault is told.
fn declared_in<'a, A: Allocator + Copy>(
    alloc: A,
    bytes: &'a [u8],
    word: &[u8],
    lines: &mut Vec<u8, A>,
) -> Result<Vec<Communal<'a>, A>, Stop>
    ensures { MatchResult result (λ v.
        communals_of scope.Module (module_records bytes.now 0) ≡ Ok (map plain_communal v.items))
        (λ stop. OnInput stop (IsErr (communals_of scope.Module (module_records bytes.now 0)))) }
{
    match communals(alloc, bytes, Scope::Module) {
        Ok(declared) => Ok(declared),
        Err(fault) => Err(stop_at_entry(word, fault, lines)),
    }
}

/// The variables of a module that declares these as local to it. Declarations that clash are told.
fn variables_in<'o, A: Allocator + Copy>(
    alloc: A,
    room: &Room<'_, A>,
    module: &'o Module<A>,
    communals: Vec<Communal<'o>, A>,
    lines: &mut Vec<u8, A>,
) -> Result<Vec<Variable<'o>, A>, Stop>
    ensures { MatchResult result
        (λ v. local_variables_of room.now.names (map plain_communal communals.entry.items) «module».now
        ≡ Ok (map variable_said v.items))
        (λ stop. OnInput stop
        (IsErr (local_variables_of room.now.names (map plain_communal communals.entry.items) «module».now))) }
{
    let publics = local_names_of(alloc, module)?;
    let mut declared = Vec::new(alloc);
    declared.push(Declared {
        communals,
        offered: publics.as_slice(),
    })?;
    agreed_variables(alloc, room.names, &declared, room.words, lines)
}

/// The bytes of the module of these variables of a module; none where there are none. A variable that has no place is
/// told.
fn placed_bytes<A: Allocator + Copy>(
    alloc: A,
    room: &Room<'_, A>,
    module: &Module<A>,
    variables: &[Variable<'_>],
    lines: &mut Vec<u8, A>,
) -> Result<Option<Vec<u8, A>>, Stop>
    ensures { MatchResult result
        (λ o. place.local_module_bytes room.now.in_bss (length «module».now.segments) (map variable_said variables.now)
        ≡ Ok (option_map (λ v. v.items) o))
        (λ stop. OnInput stop (IsErr (place.local_module_bytes room.now.in_bss (length «module».now.segments)
        (map variable_said variables.now)))) }
{
    let segments = module.segment_count() as u64;
    match local_module_bytes(alloc, segments, variables, room.in_bss) {
        Ok(bytes) => Ok(bytes),
        Err(fault) => Err(stop_unplaced(fault, variables, room.words, lines)),
    }
}

/// The bytes of the module of the variables that a module declares as local to it; none where it has them as local
/// publics. Declarations that clash are told, and a variable that has no place.
fn local_bytes<A: Allocator + Copy>(
    alloc: A,
    room: &Room<'_, A>,
    module: &Module<A>,
    declared: Vec<Communal<'_>, A>,
    lines: &mut Vec<u8, A>,
) -> Result<Option<Vec<u8, A>>, Stop>
    ensures { MatchResult result
        (λ o. (all : List Says) → room.now.in_bss ≡ list_any has_bss all
        → IsMadeFor room.now.names all (map plain_communal declared.entry.items) «module».now
        (option_map (λ v. v.items) o))
        (λ stop. OnInput stop ((all : List Says) → room.now.in_bss ≡ list_any has_bss all
        → AreUnplaced room.now.names all (map plain_communal declared.entry.items) «module».now)) }
{
    let variables = variables_in(alloc, room, module, declared, lines)?;
    placed_bytes(alloc, room, module, &variables, lines)
}

/// Tells that a module has no place for the segments of its local variables. The words are those from its own on.
fn tell_no_room<A: Allocator + Copy>(
    words: &[Vec<u8, A>],
    lines: &mut Vec<u8, A>,
) -> Result<(), AllocError> {
    lines.extend_from_slice(b"doslink: ")?;
    if let Some(word) = words.first() {
        lines.extend_from_slice(word)?;
    }
    lines.extend_from_slice(b": 59 TooManySegments\n")
}

/// A module with the one of these bytes behind it, which has its local variables. That this can't be is told.
fn with_behind<A: Allocator + Copy>(
    alloc: A,
    words: &[Vec<u8, A>],
    module: Module<A>,
    bytes: Vec<u8, A>,
    lines: &mut Vec<u8, A>,
) -> Result<Module<A>, Stop>
    ensures { MatchResult result (λ m. IsBehind «module» (Some bytes.items) m)
        (λ stop. OnInput stop (IsUnusable «module» bytes.items)) }
{
    let made = MadeModule {
        word: LOCAL_MODULE,
        bytes,
    };
    let more = read_made(alloc, &made, lines)?;
    match with_declarations(alloc, module, &more)? {
        Some(placed) => Ok(placed),
        None => Err(stop_after(tell_no_room(words, lines))),
    }
}

/// A module with the variables that it declares so as local to it.
fn placed_module<A: Allocator + Copy>(
    alloc: A,
    room: &Room<'_, A>,
    module: Module<A>,
    declared: Vec<Communal<'_>, A>,
    lines: &mut Vec<u8, A>,
) -> Result<Module<A>, Stop>
    ensures { MatchResult result
        (λ m. (all : List Says) → room.now.in_bss ≡ list_any has_bss all
        → IsPlaced room.now.names all (map plain_communal declared.entry.items) «module» m)
        (λ stop. OnInput stop ((all : List Says) → room.now.in_bss ≡ list_any has_bss all
        → AreUnplaced room.now.names all (map plain_communal declared.entry.items) «module»)) }
{
    if declared.is_empty() {
        return Ok(module);
    }
    match local_bytes(alloc, room, &module, declared, lines)? {
        Some(bytes) => with_behind(alloc, room.words, module, bytes, lines),
        None => Ok(module),
    }
}

/// The same of a module that is given as these bytes.
fn with_own<A: Allocator + Copy>(
    alloc: A,
    room: &Room<'_, A>,
    given: GivenModule<'_, '_>,
    module: Module<A>,
    lines: &mut Vec<u8, A>,
) -> Result<Module<A>, Stop>
    ensures { MatchResult result
        (λ m. (all : List Says) → room.now.in_bss ≡ list_any has_bss all
        → HasLocals room.now.names all given.entry.bytes.now «module» m)
        (λ stop. OnInput stop ((all : List Says) → room.now.in_bss ≡ list_any has_bss all
        → HasNoLocals room.now.names all given.entry.bytes.now «module»)) }
{
    let declared = declared_in(alloc, given.bytes, given.word, lines)?;
    placed_module(alloc, room, module, declared, lines)
}

/// The modules of a link with the variables that each itself declares as local to it. What is declared wrongly is told,
/// and a variable that has no place.
pub(crate) fn with_locals<'a, A: Allocator + Copy>(
    alloc: A,
    request: &LinkRequest<'_, '_, '_, 'a, A>,
    modules: Vec<Module<A>, A>,
    lines: &mut Vec<u8, A>,
) -> Result<Vec<Module<A>, A>, Stop>
    requires { length modules.items ≡ length request.now.handed.now }
    ensures { MatchResult result
        (λ v. HaveLocals (names_of request.now.job.now.ignore_case) (given_of request.now) modules.items
        v.items)
        (λ stop. OnInput stop (SomeHasNoLocals (names_of request.now.job.now.ignore_case) modules.items
        (given_of request.now) modules.items)) }
{
    let in_bss = have_bss(&modules);
    let names = request.names();
    let mut all = Vec::new(alloc);
    for module in modules {
        let given = request.given(all.len());
        let words = request.words_from(all.len());
        let room = Room {
            names,
            in_bss,
            words,
        };
        all.push(with_own(alloc, &room, given, module, lines)?)?;
    }
    Ok(all)
}
