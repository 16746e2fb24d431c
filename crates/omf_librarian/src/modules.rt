//! The object modules that become members of a library.

ghost use Rattle.std.specs.Prelude.{map};
ghost use Rattle.omf_library.specs.Names.{texts};
ghost use Rattle.omf_librarian.specs.Modules as spec;
ghost use Rattle.omf_librarian.specs.Answers.{Answers};
ghost use Rattle.omf_librarian.specs.inside.Members.{bytes_in};

use crate::fault::LibrarianFault;
use crate::module::Module;
use std::alloc::Allocator;

/// The modules that the bytes of members are, in their order; else the first fault.
pub(crate) fn modules<'a, A: Allocator + Copy>(
    alloc: A,
    members: &[&'a [u8]],
) -> Result<Vec<Module<'a, A>, A>, LibrarianFault>
    ensures { Answers (λ v. map bytes_in v.items) result (spec.modules_from 0 (texts members.now)) }
{
    let mut modules = Vec::new(alloc);
    for (member, bytes) in members.iter().enumerate() {
        modules.push(Module::new(alloc, member, bytes)?)?;
    }
    Ok(modules)
}
