//! What the names of aliases mean: found for all of them at once, by ways that are twice as long each time.

ghost use Rattle.std.specs.Prelude.{◌≡◌, IfOk, length, map};
ghost use Rattle.omf_library.specs.Said.{bytes_said};
ghost use Rattle.omf_alias.specs.Ordered.{IsByName};
ghost use Rattle.omf_alias.specs.Lent.{aliases_said};
ghost use Rattle.omf_alias.specs.Told.{told};
ghost use Rattle.omf_alias.specs.inside.Ends.{AreEnds, AreWays, end_by, leads, twice, way_said};

use crate::named::NamedValue;
use crate::reading::Alias;
use crate::sorted::{sort_by_name, value_in};
use omf_place::Names;
use std::alloc::{AllocError, Allocator};

/// What a name leads to: itself, where none of the ways begins there.
fn lead<'a>(names: Names, ways: &[NamedValue<'a, &'a [u8]>], name: &'a [u8]) -> &'a [u8]
    requires { IsByName names ways.now }
    ensures { result.now ≡ leads names ways.now name.now }
{
    match value_in(names, ways, name) {
        Some(next) => next,
        None => name,
    }
}

/// The end of a way that leads to a name: that name, or none where a way begins there.
fn end_at<'a>(names: Names, ways: &[NamedValue<'a, &'a [u8]>], name: &'a [u8]) -> Option<&'a [u8]>
    requires { IsByName names ways.now }
    ensures { bytes_said result ≡ end_by names (map way_said ways.now) name.now }
{
    match value_in(names, ways, name) {
        Some(_) => None,
        None => Some(name),
    }
}

/// The ways of one step.
fn first_ways<'a, A: Allocator + Copy>(
    alloc: A,
    names: Names,
    aliases: &[Alias<'a>],
) -> Result<Vec<NamedValue<'a, &'a [u8]>, A>, AllocError>
    ensures { IfOk result (λ v. AreWays (record { names = names; aliases = aliases_said aliases.now }) 1 v.items) }
{
    let mut ways = Vec::new(alloc);
    for alias in aliases {
        ways.push(NamedValue {
            name: alias.name,
            value: alias.meaning,
        })?;
    }
    sort_by_name(names, &mut ways)?;
    Ok(ways)
}

/// Ways that are twice as long.
fn longer<'a, A: Allocator + Copy>(
    alloc: A,
    names: Names,
    ways: &[NamedValue<'a, &'a [u8]>],
) -> Result<Vec<NamedValue<'a, &'a [u8]>, A>, AllocError>
    requires { IsByName names ways.now }
    ensures { IfOk result (λ v. map way_said v.items ≡ map (twice names (map way_said ways.now)) (map way_said ways.now)) }
{
    let mut further = Vec::new(alloc);
    for way in ways {
        further.push(NamedValue {
            name: way.name,
            value: lead(names, ways, way.value),
        })?;
    }
    Ok(further)
}

/// Ways of as many steps as there are aliases, or more.
fn long_ways<'a, A: Allocator + Copy>(
    alloc: A,
    names: Names,
    aliases: &[Alias<'a>],
) -> Result<Vec<NamedValue<'a, &'a [u8]>, A>, AllocError>
    ensures { IfOk result (λ v. AreWays (record { names = names; aliases = aliases_said aliases.now })
        (length aliases.now) v.items) }
{
    let mut ways = first_ways(alloc, names, aliases)?;
    let mut steps: usize = 1;
    while steps < aliases.len() {
        ways = longer(alloc, names, &ways)?;
        steps = steps.saturating_add(steps);
    }
    Ok(ways)
}

/// What the name of each alias means, in the order of the names. None where the aliases go round for ever.
pub(crate) fn ends_of<'a, A: Allocator + Copy>(
    alloc: A,
    names: Names,
    aliases: &[Alias<'a>],
) -> Result<Vec<NamedValue<'a, Option<&'a [u8]>>, A>, AllocError>
    ensures { IfOk result (λ v. AreEnds (record { names = names; aliases = aliases_said aliases.now }) v.items) }
{
    let ways = long_ways(alloc, names, aliases)?;
    let mut ends = Vec::new(alloc);
    for way in &ways {
        ends.push(NamedValue {
            name: way.name,
            value: end_at(names, &ways, way.value),
        })?;
    }
    Ok(ends)
}

/// What a name means by some ends: itself, where it has none.
pub(crate) fn told_by<'a>(
    names: Names,
    ends: &[NamedValue<'a, Option<&'a [u8]>>],
    name: &'a [u8],
) -> Option<&'a [u8]>
    requires { IsByName names ends.now }
    ensures { bytes_said result ≡ told names ends.now name.now }
{
    match value_in(names, ends, name) {
        Some(meaning) => meaning,
        None => Some(name),
    }
}
