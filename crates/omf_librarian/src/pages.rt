//! The pages of a library: each member begins at one, and their numbers have 16 bits.

ghost use Rattle.std.specs.Prelude.{◌≡◌, ◌<◌, ◌≤◌, IfOk, IfSome, Some, None, map, true, if◌then◌else◌};
ghost use Rattle.omf_library.specs.Library.{is_page_size};
ghost use Rattle.omf_librarian.specs.Pages as spec;
ghost use Rattle.omf_librarian.specs.inside.Members.{bytes_in};

use crate::fault::LibrarianFault;
use crate::module::Module;
use std::alloc::Allocator;

/// The sizes that a page can have, in bytes.
const SIZES: [usize; 12] = [
    16, 32, 64, 128, 256, 512, 1024, 2048, 4096, 8192, 16384, 32768,
];

/// The greatest number of a page.
const LAST_PAGE: usize = 65_535;

/// The page behind modules whose pages have this size. None where its number has more than 16 bits.
pub(crate) fn page_behind<A: Allocator + Copy>(
    size: usize,
    modules: &[Module<'_, A>],
) -> Option<usize>
    requires { 16 ≤ size }
    ensures said { result ≡ (if spec.has_pages (map bytes_in modules.now) size
        then Some (spec.page_behind size 1 (map bytes_in modules.now)) else None) }
    ensures few { IfSome result (λ page. page ≤ 65535) }
{
    let mut page: usize = 1;
    for module in modules {
        page += module.bytes.len().div_ceil(size);
        if page > LAST_PAGE {
            return None;
        }
    }
    Some(page)
}

/// Whether the pages of modules have numbers of 16 bits, if they have this size.
fn has_pages<A: Allocator + Copy>(size: usize, modules: &[Module<'_, A>]) -> bool
    requires { 16 ≤ size }
    ensures { result ≡ spec.has_pages (map bytes_in modules.now) size }
{
    page_behind(size, modules).is_some()
}

/// Whether this is a size of pages.
fn is_size(size: usize) -> bool
    ensures { result ≡ is_page_size size }
{
    16 <= size && size <= 32_768 && size.is_power_of_two()
}

/// The size that is asked for, if one is; or the fault that it is none.
#[tactic(auto, unfolding(crate::specs::Pages::asked_size))]
pub(crate) fn asked_size(asked: Option<u16>) -> Result<Option<usize>, LibrarianFault>
    ensures said { result ≡ spec.asked_size asked }
    ensures least { IfOk result (λ asked. IfSome asked (λ size. 16 ≤ size)) }
    ensures most { IfOk result (λ asked. IfSome asked (λ size. size ≤ 32768)) }
{
    let Some(size) = asked else {
        return Ok(None);
    };
    let size = usize::from(size);
    if !is_size(size) {
        return Err(LibrarianFault::PageSize);
    }
    Ok(Some(size))
}

/// The size of the pages of modules: that which is asked for, or the least with which their pages have numbers.
#[tactic(auto, unfolding(crate::specs::Pages::page_size_for))]
pub(crate) fn page_size_for<A: Allocator + Copy>(
    asked: Option<usize>,
    modules: &[Module<'_, A>],
) -> Result<usize, LibrarianFault>
    requires least { IfSome asked (λ size. 16 ≤ size) }
    requires most { IfSome asked (λ size. size ≤ 32768) }
    ensures said { result ≡ spec.page_size_for asked (map bytes_in modules.now) }
    ensures least { IfOk result (λ size. 16 ≤ size) }
    ensures most { IfOk result (λ size. size ≤ 32768) }
    ensures pages { IfOk result (λ size. spec.has_pages (map bytes_in modules.now) size ≡ true) }
{
    if let Some(size) = asked {
        if has_pages(size, modules) {
            return Ok(size);
        }
        return Err(LibrarianFault::Pages);
    }
    for size in SIZES {
        if has_pages(size, modules) {
            return Ok(size);
        }
    }
    Err(LibrarianFault::Pages)
}
