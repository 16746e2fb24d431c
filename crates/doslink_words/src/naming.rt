//! What directives say of names.
ghost use Rattle.std.specs.Prelude.{◌≡◌};
ghost use Rattle.std.specs.List.{list_all};
ghost use Rattle.std.specs.Option.{option_map};
ghost use Rattle.doslink_words.specs.Directives as spec;
ghost use Rattle.doslink_words.specs.Said.{alias_of as alias_said, aliases_of, said_of};
ghost use Rattle.doslink_words.specs.Tokens.{texts};
ghost use Rattle.doslink_words.specs.inside.Follows.{Follows, Gives};
ghost use Rattle.doslink_words.specs.inside.Parts.{aliased};
ghost use Rattle.doslink_words.specs.inside.Tokens.{all_placed, placed_of};

use crate::faults::{DirectiveFaultKind, LineFault, WrongWord, own, wrong};
use crate::job::{Alias, Directives};
use crate::operands::{part_end, put_list};
use crate::tokens::Placed;
use std::alloc::Global;

/// The greatest length of a name in a module.
const MOST_BYTES: usize = 255;

// Whether a module can have a name.
fn is_name(name: &str) -> bool
    ensures { result ≡ spec.is_name name.now }
{
    name.len() <= MOST_BYTES
}

// Whether a module can have each of these names.
fn are_names(names: &[&str]) -> bool
    ensures { result ≡ list_all spec.is_name (texts names.now) }
{
    for name in names {
        if !is_name(name) {
            return false;
        }
    }
    true
}

/// Follows `start=NAME`.
pub(crate) fn follow_start<'a>(
    directives: &mut Directives<'a>,
    value: Option<&'a str>,
) -> Result<(), LineFault<'a>>
    ensures { Follows result (spec.start_meaning (option_map (λ s. s.now) value.entry) (said_of directives.old))
        (said_of directives.new) }
{
    match value {
        Some(name) if is_name(name) => {
            directives.job.start = Some(name);
            Ok(())
        }
        _ => Err(LineFault::Wrong(own(DirectiveFaultKind::WrongOperands))),
    }
}

/// Follows `reference`.
pub(crate) fn follow_reference<'a>(
    alloc: Global,
    directives: &mut Directives<'a>,
    operands: &[Placed<'a>],
) -> Result<(), LineFault<'a>>
    ensures { Follows result (spec.reference_meaning (all_placed operands.now) (said_of directives.old))
        (said_of directives.new) }
{
    let mut names = Vec::new(alloc);
    put_list(&mut names, operands)?;
    if !are_names(&names) {
        return Err(LineFault::Wrong(own(DirectiveFaultKind::WrongOperands)));
    }
    Ok(directives.job.references.extend_from_slice(&names)?)
}

// The name that a token is, which a module can have.
fn short_name<'a>(token: Placed<'a>) -> Result<&'a str, WrongWord<'a>>
    ensures { Gives (λ name. name.now) result (spec.short_name (placed_of token.entry)) }
{
    let name = token.name()?;
    if is_name(name) {
        Ok(name)
    } else {
        Err(wrong(token))
    }
}

// The alias of a name and what it means.
fn alias_named<'a>(name: Placed<'a>, value: Placed<'a>) -> Result<Alias<'a>, WrongWord<'a>>
    ensures { Gives alias_said result (spec.alias_named (placed_of name.entry) (placed_of value.entry)) }
{
    let name = short_name(name)?;
    let means = short_name(value)?;
    Ok(Alias { name, means })
}

// The alias that a part `A=B` is.
fn alias_of<'a>(part: &[Placed<'a>]) -> Result<Alias<'a>, WrongWord<'a>>
    ensures { Gives alias_said result (spec.alias_of (all_placed part.now)) }
{
    match part {
        [name, mark, value] if mark.token.is_equals() => alias_named(*name, *value),
        [_, mark, _] => Err(wrong(*mark)),
        _ => Err(own(DirectiveFaultKind::WrongOperands)),
    }
}

// Appends the alias that a part is.
fn put_alias<'a>(aliases: &mut Vec<Alias<'a>>, part: &[Placed<'a>]) -> Result<(), LineFault<'a>>
    ensures { Follows result (aliased (aliases_of aliases.old.items) (all_placed part.now))
        (aliases_of aliases.new.items) }
{
    let alias = alias_of(part)?;
    aliases.push(alias)?;
    Ok(())
}

/// Appends the aliases of operands `A=B[,C=D..]`.
pub(crate) fn put_aliases<'a>(
    aliases: &mut Vec<Alias<'a>>,
    operands: &[Placed<'a>],
) -> Result<(), LineFault<'a>>
    ensures { Follows result
        (spec.with_aliases (aliases_of aliases.old.items) (spec.parts (all_placed operands.now)))
        (aliases_of aliases.new.items) }
{
    let mut start = 0;
    'parts: loop {
        let end = part_end(operands, start);
        put_alias(aliases, &operands[start..end])?;
        let last = operands.len();
        if end == last {
            return Ok(());
        }
        start = end + 1;
    }
}
