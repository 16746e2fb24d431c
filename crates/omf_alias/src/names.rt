//! What names mean where some of them stand for others.

ghost use Rattle.std.specs.Prelude.{◌≡◌, map};
ghost use Rattle.std.specs.Option.{option_map};
ghost use Rattle.omf_library.specs.Said.{bytes_said};
ghost use Rattle.omf_place.specs.Names.{agrees};
ghost use Rattle.omf_alias.specs.Meaning as spec;
ghost use Rattle.omf_alias.specs.Said.{alias_said, renaming_said};

use crate::ends::told_by;
use crate::reading::Alias;
use crate::renaming::Renaming;
use omf_place::Names;

/// Whether names agree.
pub fn agree(names: Names, one: &[u8], other: &[u8]) -> bool
    ensures { result ≡ agrees names one.now other.now }
{
    match names {
        Names::Exact => one == other,
        Names::AsciiFolded => one.eq_ignore_ascii_case(other),
    }
}

/// What a name means, by one alias behind the other. None where these go round for ever. It is looked up by halves.
pub fn meaning<'a>(renaming: &Renaming<'_, 'a>, name: &'a [u8]) -> Option<&'a [u8]>
    ensures { bytes_said result ≡ spec.meaning (renaming_said renaming.now) name.now }
{
    let shared = told_by(renaming.names, renaming.ends, name)?;
    told_by(renaming.names, renaming.own_ends, shared)
}

/// The first of some aliases whose name means nothing, since the aliases behind it go round for ever. None where there
/// is none.
pub fn endless<'a>(renaming: &Renaming<'_, 'a>, aliases: &[Alias<'a>]) -> Option<Alias<'a>>
    ensures { option_map alias_said result ≡ spec.endless (renaming_said renaming.now) (map alias_said aliases.now) }
{
    for alias in aliases {
        if meaning(renaming, alias.name).is_none() {
            return Some(*alias);
        }
    }
    None
}
