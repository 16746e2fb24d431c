//! Members of a library, changed: each list by the modules' names.

ghost use Rattle.std.specs.Prelude.{◌≡◌, ◌<◌, ◌++◌, IfOk, IfSome, length, option_map, option_copied};
ghost use Rattle.omf_library.specs.Names.{texts};
ghost use Rattle.omf_librarian.specs.Changing as spec;
ghost use Rattle.omf_librarian.specs.ChangeAnswers.{Changes};

use crate::module::module_name;
use std::alloc::{AllocError, AllocFailed, Allocator};
use thiserror::Error;

/// Why members aren't changed.
#[derive(Clone, Copy, Debug, PartialEq, Eq, Error)]
pub enum ChangeFault {
    /// No member has the name that was asked for.
    #[error("no member has the name")]
    Missing,
    /// There was no memory.
    #[error("no memory")]
    Memory,
}

impl From<AllocError> for ChangeFault {
    ghost use Rattle.omf_librarian.specs.declared.changing.ChangeFault.TheVariants.{Memory};

    ghost from_gives = { λ _ e. e ≡ Memory };

    fn from(_: AllocError) -> Self {
        ChangeFault::Memory
    }
}

impl<T: Drop> From<AllocFailed<T>> for ChangeFault {
    ghost use Rattle.omf_librarian.specs.declared.changing.ChangeFault.TheVariants.{Memory};

    ghost from_gives = { λ _ e. e ≡ Memory };

    fn from(_: AllocFailed<T>) -> Self {
        ChangeFault::Memory
    }
}

/// Whether a module has the name, whatever the case of its letters.
#[tactic(auto, unfolding(crate::specs::Changing::has_name))]
fn has_name(module: &[u8], name: &[u8]) -> bool
    ensures { result ≡ spec.has_name name.now module.now }
{
    module_name(module).eq_ignore_ascii_case(name)
}

/// The index of the first member that has the name.
fn index_of(members: &[&[u8]], name: &[u8]) -> Option<usize>
    ensures said { result ≡ spec.index_from 0 name.now (texts members.now) }
    ensures within { IfSome result (λ at. at < length members.now) }
{
    for (index, member) in members.iter().enumerate() {
        if has_name(member, name) {
            return Some(index);
        }
    }
    None
}

/// Members, and others behind them. A name that two of them have is told when a library is made of them.
pub fn added<'a, A: Allocator + Copy>(
    alloc: A,
    members: &[&'a [u8]],
    more: &[&'a [u8]],
) -> Result<Vec<&'a [u8], A>, AllocError>
    ensures { IfOk result (λ v. texts v.items ≡ texts members.now ++ texts more.now) }
{
    let mut all = Vec::from_slice(alloc, members)?;
    all.extend_from_slice(more)?;
    Ok(all)
}

/// Members without the first that has the name, whatever the case of its letters.
pub fn deleted<'a, A: Allocator + Copy>(
    alloc: A,
    members: &[&'a [u8]],
    name: &[u8],
) -> Result<Vec<&'a [u8], A>, ChangeFault>
    ensures { Changes result (spec.deleted name.now (texts members.now)) }
{
    let Some(index) = index_of(members, name) else {
        return Err(ChangeFault::Missing);
    };
    let mut left = Vec::from_slice(alloc, &members[..index])?;
    left.extend_from_slice(&members[index + 1..])?;
    Ok(left)
}

/// Members with a module in the place of the first that has the name, whatever the case of its letters.
pub fn replaced<'a, A: Allocator + Copy>(
    alloc: A,
    members: &[&'a [u8]],
    name: &[u8],
    module: &'a [u8],
) -> Result<Vec<&'a [u8], A>, ChangeFault>
    ensures { Changes result (spec.replaced name.now module.entry.now (texts members.now)) }
{
    let Some(index) = index_of(members, name) else {
        return Err(ChangeFault::Missing);
    };
    let mut all = Vec::from_slice(alloc, members)?;
    all[index] = module;
    Ok(all)
}

/// The first member that has the name, whatever the case of its letters. None where there is none.
pub fn extracted<'a>(members: &[&'a [u8]], name: &[u8]) -> Option<&'a [u8]>
    ensures { option_copied result ≡ spec.extracted name.now (texts members.now) }
{
    let index = index_of(members, name)?;
    Some(members[index])
}
