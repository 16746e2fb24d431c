//! Externals, and those of communal variables and of COMDATs as these, by what their names mean.

ghost use Rattle.std.specs.Prelude.{◌≡◌, map};
ghost use Rattle.omf_alias.specs.Said.{renaming_said};
ghost use Rattle.omf_library.specs.Names.{texts};
ghost use Rattle.omf_record.specs.View.{external_view};
ghost use Rattle.omf_wide.specs.Communals as wide;
ghost use Rattle.omf_plain.specs.Externals as externals;
ghost use Rattle.omf_plain.specs.Step.{alone, each_of};
ghost use Rattle.omf_plain.specs.View.{Answers};
ghost use Rattle.omf_plain.specs.inside.Steps.{external_said};

use crate::fault::{Obstacle, PlainFault};
use omf_alias::{Renaming, meaning};
use omf_library::listed_name;
use omf_record::External;
use omf_wide::{Communal, Extent, ListedExternal};
use std::alloc::Allocator;

/// What a name means. One of which the aliases go on for ever stays.
fn renamed<'a>(renaming: &Renaming<'a, 'a>, name: &'a [u8]) -> &'a [u8]
    ensures { result.now ≡ externals.renamed (renaming_said renaming.now) name.now }
{
    match meaning(renaming, name) {
        Some(meaning) => meaning,
        None => name,
    }
}

/// An external of what a name means.
fn meant_external<'a>(
    renaming: &Renaming<'a, 'a>,
    name: &'a [u8],
    type_index: u16,
) -> Result<External<'a>, Obstacle>
    ensures { external_said result
        ≡ externals.meant_external (renaming_said renaming.now) name.now type_index }
{
    let name = renamed(renaming, name);
    if 255 < name.len() {
        return Err(Obstacle::TooLong);
    }
    Ok(External { name, type_index })
}

/// The externals of EXTDEF, by what their names mean.
pub(crate) fn plain_externals<'a, A: Allocator + Copy>(
    alloc: A,
    renaming: &Renaming<'a, 'a>,
    names: &[External<'a>],
) -> Result<Vec<External<'a>, A>, PlainFault>
    ensures { Answers (λ v. map external_view v.items) result
        (each_of (λ e. alone (externals.plain_external (renaming_said renaming.now) e)) (map external_view names.now)) }
{
    let mut all = Vec::new(alloc);
    for external in names {
        all.push(meant_external(renaming, external.name, external.type_index)?)?;
    }
    Ok(all)
}

/// An external by the index of its name among those before it.
fn listed_external<'a>(
    renaming: &Renaming<'a, 'a>,
    names: &[&'a [u8]],
    listed: ListedExternal,
) -> Result<External<'a>, Obstacle>
    ensures { external_said result
        ≡ externals.plain_listed (renaming_said renaming.now) (texts names.now) listed }
{
    let name = listed_name(names, listed.name).ok_or(Obstacle::Body)?;
    meant_external(renaming, name, listed.type_index)
}

/// The externals of CEXTDEF, by the indexes of their names among those before them.
pub(crate) fn listed_externals<'a, A: Allocator + Copy>(
    alloc: A,
    renaming: &Renaming<'a, 'a>,
    names: &[&'a [u8]],
    listed: &[ListedExternal],
) -> Result<Vec<External<'a>, A>, PlainFault>
    ensures { Answers (λ v. map external_view v.items) result
        (each_of (λ e. alone (externals.plain_listed (renaming_said renaming.now) (texts names.now) e)) listed.now) }
{
    let mut all = Vec::new(alloc);
    for one in listed {
        all.push(listed_external(renaming, names, *one)?)?;
    }
    Ok(all)
}

/// The external of a variable.
fn communal_external<'a>(
    renaming: &Renaming<'a, 'a>,
    local: bool,
    communal: &Communal<'a>,
) -> Result<External<'a>, Obstacle>
    ensures { external_said result
        ≡ externals.plain_communal (renaming_said renaming.now) local (wide.plain_communal communal.now)
        communal.now.extent }
{
    match communal.extent {
        Extent::Near { length: _ }
        | Extent::Far {
            elements: _,
            size: _,
        } => {
            if local {
                Ok(External {
                    name: communal.name,
                    type_index: communal.type_index,
                })
            } else {
                meant_external(renaming, communal.name, communal.type_index)
            }
        }
        Extent::Other { data_type: _ } => Err(Obstacle::DataType),
    }
}

/// The externals of COMDEF, by what their names mean, or of LCOMDEF.
pub(crate) fn communal_externals<'a, A: Allocator + Copy>(
    alloc: A,
    renaming: &Renaming<'a, 'a>,
    local: bool,
    entries: &[Communal<'a>],
) -> Result<Vec<External<'a>, A>, PlainFault>
    ensures { Answers (λ v. map external_view v.items) result
        (each_of (λ c. alone (externals.plain_communal (renaming_said renaming.now) local c c.extent))
        (map wide.plain_communal entries.now)) }
{
    let mut all = Vec::new(alloc);
    for communal in entries {
        all.push(communal_external(renaming, local, communal)?)?;
    }
    Ok(all)
}
