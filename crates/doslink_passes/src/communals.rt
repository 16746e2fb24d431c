//! The communal variables of the modules that a link takes, and the module that has them.
ghost use Rattle.std.specs.Prelude.{◌≡◌, ◌≢◌, Any, IfOk, IsErr, Ok, map, MatchResult};
ghost use Rattle.std.specs.List.{list_any};
ghost use Rattle.std.specs.Option.{option_map};
ghost use Rattle.omf_communal.specs.Bss as bss;
ghost use Rattle.omf_communal.specs.Deciding.{variable_said};
ghost use Rattle.omf_communal.specs.Answers.{communal_module};
ghost use Rattle.omf_communal.specs.Deciding as agreed;
ghost use Rattle.omf_communal.specs.Modules.{module_said};
ghost use Rattle.doslink_stock.specs.Seen.{handed_held};
ghost use Rattle.doslink_passes.specs.Communals.{AreVariablesOf, HasCommunal, HasNoCommunal, HaveNoPlace};
ghost use Rattle.doslink_passes.specs.Communals.{HaveNoVariables, declared_by};
ghost use Rattle.doslink_passes.specs.Request.{held_of, names_of};
ghost use Rattle.doslink_passes.specs.Sources.{linked_said};
ghost use Rattle.doslink_passes.specs.Stops.{OnInput};
ghost use Rattle.doslink_passes.specs.inside.Declaring.{declared_said};

use crate::linked::{MadeModule, with_behind};
use crate::origin::Linked;
use crate::request::LinkRequest;
use crate::stop::{Stop, stop_after};
use doslink_telling::{push_clash, push_entry_fault, push_unplaced};
use omf_communal::{
    ClashFault, Communal, CommunalFault, Declaring, PlanFault, Scope, Variable, communal_module,
    communals, has_bss, variables,
};
use omf_module::Module;
use omf_place::Names;
use std::alloc::{AllocError, Allocator};

/// The word for the module of the communal variables.
const COMMUNAL_MODULE: &[u8] = b"communal";

/// What a module declares, and the names that it offers.
#[derive(Drop)]
pub(crate) struct Declared<'m, 'a, A: Allocator + Copy> {
    /// Its communal variables, in their order.
    pub communals: Vec<Communal<'a>, A>,
    /// The names that it offers to other modules.
    pub offered: &'m [&'a [u8]],
}

/// Tells that a record that declares communal variables is at fault, and stops. The word is that of its module.
pub(crate) fn stop_at_entry<A: Allocator + Copy>(
    word: &[u8],
    fault: CommunalFault,
    lines: &mut Vec<u8, A>,
) -> Stop
    ensures { OnInput result (fault ≢ CommunalFault.Memory) }
{
    let CommunalFault::Malformed { place, fault } = fault else {
        return Stop::Memory;
    };
    stop_after(push_entry_fault(lines, word, place, fault))
}

/// What each module that a link takes declares. The first record at fault is told.
fn declared_of<'m, 'a, A: Allocator + Copy>(
    alloc: A,
    request: &LinkRequest<'_, '_, 'm, 'a, A>,
    lines: &mut Vec<u8, A>,
) -> Result<Vec<Declared<'m, 'a, A>, A>, Stop>
    ensures { MatchResult result (λ v. map (λ d. Ok (declared_said d)) v.items
        ≡ map (λ h. declared_by (handed_held h)) request.now.handed.now)
        (λ stop. OnInput stop
        (Any (λ m. IsErr (declared_by m)) (held_of request.now))) }
{
    let mut all = Vec::new(alloc);
    for each in request.handed {
        match communals(alloc, each.entry.bytes, Scope::Program) {
            Ok(communals) => all.push(Declared {
                communals,
                offered: each.entry.says.offered.as_slice(),
            })?,
            Err(fault) => return Err(stop_at_entry(request.word(all.len()), fault, lines)),
        }
    }
    Ok(all)
}

/// The same, as `variables` takes it.
fn declarings<'d, 'a, A: Allocator + Copy>(
    alloc: A,
    declared: &'d [Declared<'_, 'a, A>],
) -> Result<Vec<Declaring<'d, 'a>, A>, AllocError>
    ensures { IfOk result (λ v. map module_said v.items ≡ map declared_said declared.now) }
{
    let mut all = Vec::new(alloc);
    for each in declared {
        all.push(Declaring {
            communals: each.communals.as_slice(),
            offered: each.offered,
        })?;
    }
    Ok(all)
}

/// Tells that declarations clash, and stops. The words are those of the modules.
fn stop_at_clash<A: Allocator + Copy>(
    fault: ClashFault,
    modules: &[Declaring<'_, '_>],
    words: &[Vec<u8, A>],
    lines: &mut Vec<u8, A>,
) -> Stop
    ensures { OnInput result (fault ≢ ClashFault.Memory) }
{
    match fault {
        ClashFault::Memory => Stop::Memory,
        _ => stop_after(push_clash(lines, fault, modules, words)),
    }
}

/// Tells that a variable has no place, and stops. The words are those of the modules that declare it.
pub(crate) fn stop_unplaced<A: Allocator + Copy>(
    fault: PlanFault,
    variables: &[Variable<'_>],
    words: &[Vec<u8, A>],
    lines: &mut Vec<u8, A>,
) -> Stop
    ensures { OnInput result (fault ≢ PlanFault.Memory) }
{
    match fault {
        PlanFault::Memory => Stop::Memory,
        _ => stop_after(push_unplaced(lines, fault, variables, words)),
    }
}

/// The variables that modules declare, in order of first meeting. Declarations that clash are told, with the words of
/// the modules.
pub(crate) fn agreed_variables<'a, A: Allocator + Copy>(
    alloc: A,
    names: Names,
    declared: &[Declared<'_, 'a, A>],
    words: &[Vec<u8, A>],
    lines: &mut Vec<u8, A>,
) -> Result<Vec<Variable<'a>, A>, Stop>
    ensures { MatchResult result (λ v. agreed.variables names (map declared_said declared.now)
        ≡ Ok (map variable_said v.items))
        (λ stop. OnInput stop
        (IsErr (agreed.variables names (map declared_said declared.now)))) }
{
    let modules = declarings(alloc, declared)?;
    match variables(alloc, names, &modules) {
        Ok(variables) => Ok(variables),
        Err(fault) => Err(stop_at_clash(fault, &modules, words, lines)),
    }
}

/// The communal variables of the modules that a link takes, in order of first meeting. Declarations that clash are
/// told.
pub fn variables_of<'a, A: Allocator + Copy>(
    alloc: A,
    request: &LinkRequest<'_, '_, '_, 'a, A>,
    lines: &mut Vec<u8, A>,
) -> Result<Vec<Variable<'a>, A>, Stop>
    ensures { MatchResult result (λ v. AreVariablesOf (names_of request.now.job.now.ignore_case) (held_of request.now)
        (map variable_said v.items))
        (λ stop. OnInput stop
        (HaveNoVariables (names_of request.now.job.now.ignore_case) (held_of request.now))) }
{
    let declared = declared_of(alloc, request, lines)?;
    agreed_variables(alloc, request.names(), &declared, request.words, lines)
}

/// Whether some module has the segment `_BSS` in DGROUP.
pub(crate) fn have_bss<A: Allocator + Copy>(modules: &[Module<A>]) -> bool
    ensures { result ≡ list_any bss.has_bss modules.now }
{
    modules.iter().any(|one| has_bss(one))
}

/// The bytes of the module that has the communal variables of modules; none where there are none. A variable that has
/// no place is told.
fn communal_bytes<A: Allocator + Copy>(
    alloc: A,
    modules: &[Module<A>],
    variables: &[Variable<'_>],
    words: &[Vec<u8, A>],
    lines: &mut Vec<u8, A>,
) -> Result<Option<Vec<u8, A>>, Stop>
    ensures { MatchResult result
        (λ o. communal_module (list_any bss.has_bss modules.now) (map variable_said variables.now)
        ≡ Ok (option_map (λ v. v.items) o))
        (λ stop. OnInput stop (HaveNoPlace modules.now (map variable_said variables.now))) }
{
    if variables.is_empty() {
        return Ok(None);
    }
    let in_bss = have_bss(modules);
    match communal_module(alloc, variables, in_bss) {
        Ok(bytes) => Ok(bytes),
        Err(fault) => Err(stop_unplaced(fault, variables, words, lines)),
    }
}

/// Modules with the module of their communal variables behind them, where they have some.
pub(crate) fn with_communal<'a, A: Allocator + Copy>(
    alloc: A,
    linked: Linked<'a, A>,
    variables: &[Variable<'_>],
    words: &[Vec<u8, A>],
    lines: &mut Vec<u8, A>,
) -> Result<Linked<'a, A>, Stop>
    ensures { MatchResult result
        (λ all. HasCommunal (linked_said linked.entry) (map variable_said variables.now) (linked_said all))
        (λ stop. OnInput stop (HasNoCommunal linked.entry.modules.items (map variable_said variables.now))) }
{
    match communal_bytes(alloc, &linked.modules, variables, words, lines)? {
        Some(bytes) => {
            let made = MadeModule {
                word: COMMUNAL_MODULE,
                bytes,
            };
            with_behind(alloc, linked, made, lines)
        }
        None => Ok(linked),
    }
}
