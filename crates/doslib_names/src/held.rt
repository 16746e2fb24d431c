//! Modules of files, and what they say of names.

ghost use Rattle.std.specs.Prelude.{◌≡◌, IfOk, map};
ghost use Rattle.omf_search.specs.Results.{module_said, needs_said};
ghost use Rattle.doslib_names.specs.Names.{says};
ghost use Rattle.doslib_names.specs.Said.{held_said};

use omf_library::{FileKind, Member, ModuleNames, module_names};
use omf_search::Said;
use std::alloc::{AllocError, Allocator};

/// A module of a file.
#[derive(Clone, Copy)]
pub struct Held<'a> {
    /// The path of the file.
    pub path: &'a str,
    /// What the file is.
    pub kind: FileKind,
    /// The member of the file that the module is.
    pub member: Member<'a>,
}

/// What modules say of names.
pub(crate) fn all_names<'a, A: Allocator + Copy>(
    alloc: A,
    modules: &[Held<'a>],
) -> Result<Vec<ModuleNames<'a, A>, A>, AllocError>
    ensures { IfOk result (λ v. map needs_said v.items ≡ map (λ h. says (held_said h)) modules.now) }
{
    let mut names = Vec::new(alloc);
    for held in modules {
        names.push(module_names(alloc, held.member.bytes)?)?;
    }
    Ok(names)
}

/// The same, once no more members of libraries are looked for.
pub(crate) fn all_said<'m, 'a, A: Allocator + Copy>(
    alloc: A,
    names: &'m [ModuleNames<'a, A>],
) -> Result<Vec<Said<'m, 'a>, A>, AllocError>
    ensures { IfOk result (λ v. map module_said v.items ≡ map needs_said names.entry.now) }
{
    let mut said = Vec::new(alloc);
    for each in names {
        said.push(Said::needs(each))?;
    }
    Ok(said)
}
