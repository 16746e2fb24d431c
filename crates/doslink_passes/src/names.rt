//! What a job says of names beside its modules: the module that says it.
ghost use Rattle.std.specs.Prelude.{◌≡◌, IfOk, OnOk};
ghost use Rattle.std.specs.Option.{option_map};
ghost use Rattle.doslink_words.specs.Said.{aliases_of};
ghost use Rattle.omf_names.specs.Views.{aliases_said};
ghost use Rattle.doslink_passes.specs.Names as spec;

use doslink_words::{Alias, Job};
use omf_names::names_module;
use std::alloc::{AllocError, Allocator};

/// Aliases, each as a name and the one that it means.
fn all_aliases<'a, A: Allocator + Copy>(
    alloc: A,
    aliases: &[Alias<'a>],
) -> Result<Vec<(&'a str, &'a str), A>, AllocError>
    ensures { IfOk result (λ v. aliases_said v.items ≡ aliases_of aliases.now) }
{
    let mut all = Vec::new(alloc);
    for alias in aliases {
        all.push((alias.name, alias.means))?;
    }
    Ok(all)
}

/// The bytes of the module of what a job says of names.
fn names_bytes<A: Allocator + Copy>(alloc: A, job: &Job<'_>) -> Result<Vec<u8, A>, AllocError>
    ensures { IfOk result (λ v. v.items ≡ spec.names_bytes job.now) }
{
    let aliases = all_aliases(alloc, &job.aliases)?;
    let bytes = names_module(alloc, job.start, &job.references, &aliases)?;
    Ok(bytes)
}

/// Whether a job says something of names.
fn says_names(job: &Job<'_>) -> bool
    ensures { result ≡ spec.says_names job.now }
{
    job.start.is_some() || 0 < job.references.len() || 0 < job.aliases.len()
}

/// The bytes of the module of what a job says of names; none where it says nothing.
pub fn said_names<A: Allocator + Copy>(
    alloc: A,
    job: &Job<'_>,
) -> Result<Option<Vec<u8, A>>, AllocError>
    ensures { IfOk result (λ o. option_map (λ v. v.items) o ≡ spec.said_names job.now) }
{
    if !says_names(job) {
        return Ok(None);
    }
    let bytes = names_bytes(alloc, job)?;
    Ok(Some(bytes))
}

/// The same where the job says where the program starts.
pub(crate) fn start_bytes<A: Allocator + Copy>(
    alloc: A,
    job: &Job<'_>,
) -> Result<Option<Vec<u8, A>>, AllocError>
    ensures { IfOk result (λ o. option_map (λ v. v.items) o ≡ spec.start_module job.now) }
{
    match job.start {
        Some(_) => {
            let bytes = names_bytes(alloc, job)?;
            Ok(Some(bytes))
        }
        None => Ok(None),
    }
}
