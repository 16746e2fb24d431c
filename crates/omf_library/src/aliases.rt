//! The aliases of a module.

ghost use Rattle.std.specs.Prelude.{◌≡◌, ◌<◌, ◌++◌, length, IfSome, OnOk};
ghost use Rattle.omf_frame.specs.Lending.{plain_frame};
ghost use Rattle.omf_library.specs.Aliases as spec;
ghost use Rattle.omf_library.specs.Aliases.{alias_entry_front, aliases_in};
ghost use Rattle.omf_library.specs.Entries.{entries};
ghost use Rattle.omf_library.specs.Names.{texts};
ghost use Rattle.omf_library.specs.Said.{aliases_said};
ghost use Rattle.omf_library.specs.inside.Views.{alias_found};

use crate::fields::take_name;
use omf_frame::Frame;
use std::alloc::{AllocError, Allocator};

/// The type of a record of aliases.
const ALIAS: u8 = 0xC6;

/// A name that stands for another one.
#[derive(Clone, Copy, Debug)]
pub struct Alias<'a> {
    /// How many bytes of the module stand before its record.
    pub place: u64,
    /// The name.
    pub name: &'a [u8],
    /// The name that it stands for.
    pub meaning: &'a [u8],
}

/// The alias at the front of the bytes, in the record at the place, and the bytes behind it. None where they end inside
/// it.
fn take_alias(place: u64, bytes: &[u8]) -> Option<(Alias<'_>, &[u8])>
    ensures said { alias_found result ≡ alias_entry_front place bytes.now }
    ensures shorter { IfSome result (λ x. length x.1.now < length bytes.now) }
{
    let (name, rest) = take_name(bytes)?;
    let (meaning, rest) = take_name(rest)?;
    let alias = Alias {
        place,
        name,
        meaning,
    };
    Some((alias, rest))
}

/// Appends the aliases that a body of the record at the place has, as far as it holds whole ones.
fn push_entries<'a, A: Allocator + Copy>(
    place: u64,
    body: &'a [u8],
    aliases: &mut Vec<Alias<'a>, A>,
) -> Result<(), AllocError>
    ensures { OnOk result
        (aliases_said aliases.new.items ≡ aliases_said aliases.old.items ++ entries (alias_entry_front place) body.now) }
{
    let mut rest = body;
    while let Some((alias, after)) = take_alias(place, rest) {
        aliases.push(alias)?;
        rest = after;
    }
    Ok(())
}

/// Appends the aliases of a record.
#[tactic(auto, unfolding(crate::specs::Aliases::aliases_in))]
pub(crate) fn push_aliases<'a, A: Allocator + Copy>(
    frame: &Frame<'a>,
    aliases: &mut Vec<Alias<'a>, A>,
) -> Result<(), AllocError>
    ensures { OnOk result
        (aliases_said aliases.new.items ≡ aliases_said aliases.old.items ++ aliases_in (plain_frame frame.now)) }
{
    if frame.kind == ALIAS {
        push_entries(frame.place, frame.body, aliases)
    } else {
        Ok(())
    }
}
