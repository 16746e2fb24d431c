//! The library that modules make.

ghost use Rattle.std.specs.Prelude.{◌≡◌, ◌≤◌, IfOk, map, true};
ghost use Rattle.omf_library.specs.Names.{texts};
ghost use Rattle.omf_librarian.specs.Answers.{Answers};
ghost use Rattle.omf_librarian.specs.Library.{IsReadOf, library_of, library_with};
ghost use Rattle.omf_librarian.specs.Pages.{has_pages};
ghost use Rattle.omf_librarian.specs.Said.{library_said};
ghost use Rattle.omf_librarian.specs.inside.Members.{bytes_in};

use crate::dictionary::dictionary_of;
use crate::fault::LibrarianFault;
use crate::module::Module;
use crate::modules::modules;
use crate::naming::{Doubled, names_of};
use crate::pages::{asked_size, page_behind, page_size_for};
use crate::writing::written;
use std::alloc::Allocator;

/// A library.
#[derive(Drop)]
pub struct Library<A: Allocator + Copy> {
    /// Its bytes.
    pub bytes: Vec<u8, A>,
    /// The names that members have again, in their order.
    pub doubled: Vec<Doubled<A>, A>,
}

/// The library of modules with pages of this size, which have numbers of 16 bits; else that their names have no room.
fn library_with<A: Allocator + Copy>(
    alloc: A,
    size: usize,
    modules: &[Module<'_, A>],
) -> Result<Library<A>, LibrarianFault>
    requires least { 16 ≤ size }
    requires most { size ≤ 32768 }
    requires pages { has_pages (map bytes_in modules.now) size ≡ true }
    ensures { Answers library_said result (library_with (map bytes_in modules.now) size) }
{
    let Some(behind) = page_behind(size, modules) else {
        return Err(LibrarianFault::Pages);
    };
    let names = names_of(alloc, size, modules)?;
    let Some(dictionary) = dictionary_of(alloc, &names.entries)? else {
        return Err(LibrarianFault::Names);
    };
    let bytes = written(alloc, size, modules, behind, &dictionary)?;
    Ok(Library {
        bytes,
        doubled: names.doubled,
    })
}

/// The library whose members are the modules that these bytes are, in their order; else the first fault: of the page
/// size that is asked for, of the members in their order, of their pages, and of their names.
///
/// Of a member nothing is taken behind the record that ends its module. The size of a page is a power of two from 16 to
/// 32,768; without one it is the least with which all pages have numbers of 16 bits. `Memory` comes only where memory
/// was refused.
pub fn library_bytes<A: Allocator + Copy>(
    alloc: A,
    members: &[&[u8]],
    page: Option<u16>,
) -> Result<Library<A>, LibrarianFault>
    // The library is that of the definition, or the fault is.
    ensures made { Answers library_said result (library_of page (texts members.now)) }
    // Read, it has these members, and each name of theirs at the first that has it.
    ensures read { IfOk result (λ l. IsReadOf page (texts members.now) l.bytes.items) }
{
    let asked = asked_size(page)?;
    let modules = modules(alloc, members)?;
    let size = page_size_for(asked, &modules)?;
    library_with(alloc, size, &modules)
}
