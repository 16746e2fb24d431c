//! The bytes of a library (TIS OMF 1.1, Appendix 2, "Library File Format").

ghost use Rattle.std.specs.Prelude.{◌≡◌, ◌<◌, ◌≤◌, ◌+◌, ◌*◌, ◌++◌, ◌^◌, length, map, IfOk, OnOk};
ghost use Rattle.omf_librarian.specs.Writing as spec;
ghost use Rattle.omf_librarian.specs.Pages.{page_behind};
ghost use Rattle.omf_librarian.specs.inside.Members.{bytes_in};

use crate::block::BLOCK;
use crate::module::Module;
use std::alloc::{AllocError, Allocator};

/// The type of the record that heads a library.
const HEADER: u8 = 0xF0;

/// The type of the record that ends its members.
const END: u8 = 0xF1;

/// The flag of names whose case counts.
const CASE_COUNTS: u8 = 1;

/// How many bytes of a record stand before those that its length word counts.
const RECORD_FRONT: usize = 3;

/// The header of a library, in room for all of it: a page with the place of its dictionary and its number of blocks.
fn header<A: Allocator + Copy>(
    alloc: A,
    room: usize,
    size: usize,
    place: usize,
    blocks: usize,
) -> Result<Vec<u8, A>, AllocError>
    requires least { 16 ≤ size }
    requires most { size ≤ 32768 }
    requires place { place < 2 ^ 32 }
    requires blocks { blocks ≤ 251 }
    ensures { IfOk result (λ v. v.items ≡ spec.header size place blocks) }
{
    let mut out = Vec::with_capacity(alloc, room)?;
    out.push(HEADER)?;
    out.extend_from_slice(&((size - RECORD_FRONT) as u16).to_le_bytes())?;
    out.extend_from_slice(&(place as u32).to_le_bytes())?;
    out.extend_from_slice(&(blocks as u16).to_le_bytes())?;
    out.push(CASE_COUNTS)?;
    out.resize(size, 0)?;
    Ok(out)
}

/// Appends bytes, and zeros up to a multiple of the size of a page.
fn push_padded<A: Allocator + Copy>(
    out: &mut Vec<u8, A>,
    size: usize,
    bytes: &[u8],
) -> Result<(), AllocError>
    requires least { 16 ≤ size }
    requires most { size ≤ 32768 }
    ensures { OnOk result (out.new.items ≡ out.old.items ++ spec.padded size bytes.now) }
{
    out.extend_from_slice(bytes)?;
    let padding = bytes.len().next_multiple_of(size) - bytes.len();
    out.resize(out.len() + padding, 0)
}

/// Appends the record that ends the members, with so many bytes.
fn push_end<A: Allocator + Copy>(out: &mut Vec<u8, A>, len: usize) -> Result<(), AllocError>
    requires least { 3 ≤ len }
    requires most { len ≤ 65538 }
    ensures { OnOk result (out.new.items ≡ out.old.items ++ spec.end_record len) }
{
    let rest = len - RECORD_FRONT;
    out.push(END)?;
    out.extend_from_slice(&(rest as u16).to_le_bytes())?;
    out.resize(out.len() + rest, 0)
}

/// Where a page with this number begins.
fn place_of(size: usize, page: usize) -> usize
    requires size { size ≤ 32768 }
    requires page { page ≤ 65535 }
    ensures place { result ≡ size * page }
    ensures most { result ≤ 2147450880 }
{
    size * page
}

/// The library of modules with pages of this size and a dictionary; the page behind the modules has this number.
pub(crate) fn written<A: Allocator + Copy>(
    alloc: A,
    size: usize,
    modules: &[Module<'_, A>],
    behind: usize,
    dictionary: &[u8],
) -> Result<Vec<u8, A>, AllocError>
    requires least { 16 ≤ size }
    requires most { size ≤ 32768 }
    requires behind { behind ≡ page_behind size 1 (map bytes_in modules.now) }
    requires few { behind ≤ 65535 }
    requires dictionary { length dictionary.now ≤ 512 * 251 }
    ensures { IfOk result (λ v. v.items ≡ spec.library_bytes size (map bytes_in modules.now) dictionary.now) }
{
    let end = place_of(size, behind);
    let place = (end + RECORD_FRONT).next_multiple_of(BLOCK);
    let room = place + dictionary.len();
    let mut out = header(alloc, room, size, place, dictionary.len() / BLOCK)?;
    for module in modules {
        push_padded(&mut out, size, module.bytes)?;
    }
    push_end(&mut out, place - end)?;
    out.extend_from_slice(dictionary)?;
    Ok(out)
}
