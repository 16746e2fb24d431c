//! What of a file that is at fault is whole.

ghost use Rattle.std.specs.Prelude.{◌≡◌, ◌<◌, ◌≤◌, ◌^◌, IfOk, IfSome, length, map, option_map};
ghost use Rattle.std.specs.Result.{result_ok};
ghost use Rattle.omf_library.specs.Files.{file_kind};
ghost use Rattle.omf_library.specs.Library.{page_size};
ghost use Rattle.omf_library.specs.Members.{plain_member};
ghost use Rattle.omf_library.specs.Records as records;
ghost use Rattle.doslib_text.specs.Parts as spec;
ghost use Rattle.doslib_text.specs.inside.Parts.{items_of};

use omf_library::{
    FileKind, FormatFault, LibraryFault, Member, ends_module, file_kind, members, record_at,
};
use std::alloc::{AllocError, Allocator};

/// The type of the record behind the last member of a library.
const LIBRARY_END: u8 = 0xF1;

/// The least and the greatest size of a page of a library.
const LEAST_PAGE: usize = 16;

const GREATEST_PAGE: usize = 32_768;

/// Where the module ends that begins at a place of a file, which is no greater than the file's length: behind the first
/// record that ends a module. Else the first of its records that is at fault.
pub fn module_end(file: &[u8], place: usize) -> Result<usize, LibraryFault>
    requires { place ≤ length file.now }
    ensures said { result ≡ records.module_end file.now place }
    ensures behind { IfOk result (λ end. place < end) }
    ensures within { IfOk result (λ end. end ≤ length file.now) }
{
    let mut end = place;
    loop {
        let frame = record_at(file, end)?;
        end += frame.body.len() + 4;
        if ends_module(frame.kind) {
            return Ok(end);
        }
    }
}

/// The size of the pages of a library, in bytes. None where its header tells no power of two from 16 to 32,768.
#[tactic(auto, unfolding(omf_library::specs::Library::page_size))]
fn page_len(file: &[u8]) -> Option<usize>
    ensures size { result ≡ result_ok (page_size file.now) }
    ensures least { IfSome result (λ page. 16 ≤ page) }
    ensures greatest { IfSome result (λ page. page ≤ 32768) }
{
    let [_, low, high, ..] = file else {
        return None;
    };
    let page = 3 + usize::from(*low) + 256 * usize::from(*high);
    if page < LEAST_PAGE || page > GREATEST_PAGE || !page.is_power_of_two() {
        return None;
    }
    Some(page)
}

/// The place of the first member of a library that isn't whole, or at which the file is cut off; it is a page's.
fn broken_member(file: &[u8], page: usize) -> usize
    requires least { 16 ≤ page }
    requires greatest { page ≤ 32768 }
    ensures { result ≡ spec.broken_from (length file.now) page file.now page }
{
    let mut place = page;
    while place <= file.len() {
        let Ok(end) = module_end(file, place) else {
            return place;
        };
        place = end.next_multiple_of(page);
    }
    place
}

/// The bytes of a library up to its first member that isn't whole, and the record that ends the members in its place.
/// None where its pages have no size.
#[tactic(auto, unfolding(crate::specs::Parts::library_part))]
fn library_part<A: Allocator + Copy>(
    alloc: A,
    file: &[u8],
) -> Result<Option<Vec<u8, A>>, AllocError>
    ensures { IfOk result (λ part. option_map items_of part ≡ spec.library_part file.now) }
{
    let Some(page) = page_len(file) else {
        return Ok(None);
    };
    let mut part = Vec::from_slice(alloc, file)?;
    part.resize(broken_member(file, page), 0)?;
    part.push(LIBRARY_END)?;
    Ok(Some(part))
}

/// What stands before the fault of a file of this kind, as a file of its own: of an archive what stands before the
/// header at this place; of a library its members that are whole, and the record that ends them. None where it is
/// nothing.
fn part_before<A: Allocator + Copy>(
    alloc: A,
    kind: FileKind,
    file: &[u8],
    place: usize,
) -> Result<Option<Vec<u8, A>>, AllocError>
    ensures { IfOk result (λ part. option_map items_of part ≡ spec.part_before kind place file.now) }
{
    match kind {
        FileKind::Library => library_part(alloc, file),
        FileKind::Archive => {
            let mut part = Vec::from_slice(alloc, file)?;
            part.truncate(place);
            Ok(Some(part))
        }
        FileKind::Object => Ok(None),
    }
}

/// The fault of a file, if it has one: how many bytes stand before what is at fault, and what is wrong.
fn fault_of<A: Allocator + Copy>(
    alloc: A,
    file: &[u8],
) -> Result<Option<(usize, FormatFault)>, AllocError>
    ensures { IfOk result (λ fault. fault ≡ spec.fault_in (spec.members_in file.now)) }
{
    match members(alloc, file) {
        Ok(_) => Ok(None),
        Err(LibraryFault::Memory) => Err(AllocError),
        Err(LibraryFault::Malformed { place, fault }) => Ok(Some((place, fault))),
    }
}

/// A file as far as it is whole.
#[derive(Drop)]
pub struct Whole<A: Allocator> {
    /// What the file is.
    pub kind: FileKind,
    /// Its bytes, or what stands before its fault, as a file of its own. None where that is nothing.
    bytes: Option<Vec<u8, A>>,
    /// Its fault, if it has one: how many bytes stand before what is at fault, and what is wrong. None is that of a
    /// record of an object module or of an archive's member.
    pub fault: Option<(usize, FormatFault)>,
}

impl<A: Allocator + Copy> Whole<A> {
    /// The file with these bytes, as far as it is whole.
    pub fn of(alloc: A, bytes: Vec<u8, A>) -> Result<Whole<A>, AllocError>
        ensures kind { IfOk result (λ w. w.kind ≡ file_kind bytes.items) }
        ensures members { IfOk result (λ w. spec.kept_members w ≡ spec.whole_members bytes.items) }
        ensures fault { IfOk result (λ w. w.fault ≡ spec.fault_in (spec.members_in bytes.items)) }
    {
        let kind = file_kind(&bytes);
        let fault = fault_of(alloc, &bytes)?;
        let bytes = match fault {
            Some((place, _)) => part_before(alloc, kind, &bytes, place)?,
            None => Some(bytes),
        };
        Ok(Whole { kind, bytes, fault })
    }

    /// Its members.
    pub fn members(&self, alloc: A) -> Result<Vec<Member<'_>, A>, AllocError>
        ensures { IfOk result (λ ms. map plain_member ms.items ≡ spec.kept_members self.now) }
    {
        let Some(bytes) = &self.bytes else {
            return Ok(Vec::new(alloc));
        };
        match members(alloc, bytes) {
            Ok(found) => Ok(found),
            Err(LibraryFault::Memory) => Err(AllocError),
            Err(LibraryFault::Malformed { .. }) => Ok(Vec::new(alloc)),
        }
    }
}
