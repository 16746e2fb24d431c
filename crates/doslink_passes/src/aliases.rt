//! What names mean in the modules that a link takes: by the aliases of all, and by the defaults of their own externals.
ghost use Rattle.std.specs.Prelude.{◌≡◌, ◌++◌, All, Any, IfOk, OnOk, map, MatchResult};
ghost use Rattle.std.specs.Option.{option_map};
ghost use Rattle.omf_alias.specs.Meaning as meaning;
ghost use Rattle.omf_alias.specs.Said.{alias_said, aliases_said, own_said};
ghost use Rattle.omf_library.specs.Said.{all_defaulted, defaulted_said};
ghost use Rattle.omf_search.specs.Results.{module_said};
ghost use Rattle.doslink_passes.specs.Request.{given_of, says_of};
ghost use Rattle.doslink_passes.specs.Aliases as spec;
ghost use Rattle.doslink_passes.specs.Meanings.{AreMeaningsFor, means};
ghost use Rattle.doslink_passes.specs.Stops.{OnInput};

use crate::meanings::Meanings;
use crate::request::LinkRequest;
use crate::stop::{Stop, stop_after};
use doslink_telling::push_endless_alias;
use omf_alias::{Alias, OwnAliases, endless, push_module_aliases};
use omf_library::{Defaulted, module_frames, weak_and_lazy};
use std::alloc::{AllocError, Allocator};

/// Appends an external that nothing defines as an alias of its default, where that isn't local to its module.
fn push_default<'a, A: Allocator + Copy>(
    meanings: &Meanings<'_, '_, 'a, A>,
    external: &Defaulted<'a>,
    aliases: &mut Vec<Alias<'a>, A>,
) -> Result<(), AllocError>
    ensures { OnOk result (aliases_said aliases.new.items ≡ aliases_said aliases.old.items
        ++ spec.default_alias meanings.now.names (map module_said meanings.now.says.now)
        (defaulted_said external.now)) }
{
    if meanings.is_defined(external.name) {
        return Ok(());
    }
    let Some(meaning) = external.default_name else {
        return Ok(());
    };
    aliases.push(Alias {
        place: external.place,
        name: external.name,
        meaning,
    })?;
    Ok(())
}

/// Appends some externals, as far as nothing defines them, as aliases of their defaults.
fn push_defaults<'a, A: Allocator + Copy>(
    meanings: &Meanings<'_, '_, 'a, A>,
    externals: &[Defaulted<'a>],
    aliases: &mut Vec<Alias<'a>, A>,
) -> Result<(), AllocError>
    ensures { OnOk result (aliases_said aliases.new.items ≡ aliases_said aliases.old.items
        ++ spec.default_aliases meanings.now.names (map module_said meanings.now.says.now)
        (all_defaulted externals.now)) }
{
    for one in externals {
        push_default(meanings, one, aliases)?;
    }
    Ok(())
}

/// Appends those of a module.
fn push_own_defaults<'a, A: Allocator + Copy>(
    alloc: A,
    meanings: &Meanings<'_, '_, 'a, A>,
    module: &'a [u8],
    aliases: &mut Vec<Alias<'a>, A>,
) -> Result<(), AllocError>
    ensures { OnOk result (aliases_said aliases.new.items ≡ aliases_said aliases.old.items
        ++ spec.own_defaults meanings.now.names (map module_said meanings.now.says.now) «module».now) }
{
    let frames = module_frames(alloc, module)?;
    let externals = weak_and_lazy(alloc, &frames)?;
    push_defaults(meanings, &externals, aliases)?;
    Ok(())
}

/// What stands for other names in a module of the link.
pub(crate) fn own_aliases<'m, 'a, A: Allocator + Copy>(
    alloc: A,
    meanings: &'m Meanings<'_, '_, 'a, A>,
    module: &'a [u8],
) -> Result<OwnAliases<'m, 'a, A>, AllocError>
    ensures { IfOk result (λ all. own_said all ≡ means meanings.now «module».now) }
{
    let mut own = Vec::new(alloc);
    push_own_defaults(alloc, meanings, module, &mut own)?;
    meanings.aliases.with(alloc, own)
}

/// The aliases of the modules, in their order.
fn aliases_of<'a, A: Allocator + Copy>(
    alloc: A,
    request: &LinkRequest<'_, '_, '_, 'a, A>,
) -> Result<Vec<Alias<'a>, A>, AllocError>
    ensures { IfOk result (λ v. aliases_said v.items
        ≡ spec.link_aliases (given_of request.now)) }
{
    let mut aliases = Vec::new(alloc);
    for each in request.handed {
        push_module_aliases(alloc, each.entry.bytes, &mut aliases)?;
    }
    Ok(aliases)
}

/// What names mean in the modules of a link.
pub fn meanings_of<'t, 'm, 'a, A: Allocator + Copy>(
    alloc: A,
    request: &LinkRequest<'t, '_, 'm, 'a, A>,
) -> Result<Meanings<'t, 'm, 'a, A>, AllocError>
    ensures { IfOk result (AreMeaningsFor request.now.job.now (says_of request.now) (given_of request.now)) }
{
    let aliases = aliases_of(alloc, request)?;
    Meanings::new(alloc, request.names(), request.says, aliases)
}

/// The first name of a module that goes round for ever: that of an alias, or of an external whose default it means.
fn endless_of<'a, A: Allocator + Copy>(
    alloc: A,
    meanings: &Meanings<'_, '_, 'a, A>,
    module: &'a [u8],
) -> Result<Option<Alias<'a>>, AllocError>
    ensures { IfOk result (λ found. option_map alias_said found ≡ meaning.endless (means meanings.now «module».now)
        (spec.module_aliases meanings.now.names (map module_said meanings.now.says.now) «module».now)) }
{
    let all = own_aliases(alloc, meanings, module)?;
    let mut own = Vec::new(alloc);
    push_module_aliases(alloc, module, &mut own)?;
    push_own_defaults(alloc, meanings, module, &mut own)?;
    Ok(endless(&all.renaming(), &own))
}

/// Tells the first name of the modules that goes round for ever, and stops.
pub(crate) fn check_aliases<'a, A: Allocator + Copy>(
    alloc: A,
    request: &LinkRequest<'_, '_, '_, 'a, A>,
    meanings: &Meanings<'_, '_, 'a, A>,
    lines: &mut Vec<u8, A>,
) -> Result<(), Stop>
    ensures { MatchResult result (λ done. All (spec.EndsIn meanings.now.names (map module_said meanings.now.says.now)
        (aliases_said meanings.now.aliases.aliases.items)) (given_of request.now))
        (λ stop. OnInput stop (Any (λ bytes. spec.EndsIn meanings.now.names
        (map module_said meanings.now.says.now) (aliases_said meanings.now.aliases.aliases.items) bytes → ⊥)
        (given_of request.now))) }
{
    let handed = request.handed;
    for (index, each) in handed.iter().enumerate() {
        let found = endless_of(alloc, meanings, each.entry.bytes)?;
        if let Some(alias) = found {
            let word = request.word(index);
            let told = push_endless_alias(lines, word, alias.place, alias.name);
            return Err(stop_after(told));
        }
    }
    Ok(())
}
