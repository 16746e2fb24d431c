//! The members of a library of DOS, .LIB (TIS OMF 1.1, "Library Module Format").

ghost use Rattle.std.specs.Prelude.{◌≡◌, ◌≤◌, length, All, IfOk, MatchResult};
ghost use Rattle.omf_library.specs.Library.{page_size, libmod_name, name_of, member_at, library_members};
ghost use Rattle.omf_library.specs.Files.{AreMembers, IsFault, IsPart};
ghost use Rattle.omf_library.specs.Said.{bytes_said};
ghost use Rattle.omf_library.specs.inside.Views.{member_said, IsMember};

use crate::fault::{FormatFault, LibraryFault};
use crate::files::Member;
use crate::records::{comment_text, ends_module, header_name, record_at};
use std::alloc::Allocator;

/// The type of the record behind the last member.
pub(crate) const LIBRARY_END: u8 = 0xF1;

/// The class of a comment with the name of a library's member, LIBMOD.
const LIBMOD: u8 = 0xA3;

/// The least and the greatest size of a page.
const LEAST_PAGE: usize = 16;

const GREATEST_PAGE: usize = 32_768;

/// The size of a page, as the length of the library's header record, F0H, gives it: all of that record.
#[tactic(auto, unfolding(crate::specs::Library::page_size))]
pub(crate) fn page_size(file: &[u8]) -> Result<usize, LibraryFault>
    ensures size { result ≡ page_size file.now }
    ensures bounds { IfOk result (λ page. (16 ≤ page) × (page ≤ 32768)) }
{
    let [_, low, high, ..] = file else {
        return Err(LibraryFault::Malformed {
            place: 0,
            fault: FormatFault::Truncated,
        });
    };
    let page = 3 + usize::from(*low) + 256 * usize::from(*high);
    if page < LEAST_PAGE || page > GREATEST_PAGE || !page.is_power_of_two() {
        return Err(LibraryFault::Malformed {
            place: 0,
            fault: FormatFault::PageSize,
        });
    }
    Ok(page)
}

/// The name in the text of a LIBMOD comment: behind the byte of its length. A text that isn't so long is the name.
fn libmod_name(text: &[u8]) -> &[u8]
    ensures { result.now ≡ libmod_name text.now }
{
    match text {
        [len, name @ ..] if usize::from(*len) == name.len() => name,
        _ => text,
    }
}

/// The name of a member: that of its LIBMOD comment, else that of its header record, else empty.
fn name_of<'a>(header: Option<&'a [u8]>, comment: Option<&'a [u8]>) -> &'a [u8]
    ensures { result.now ≡ name_of (bytes_said header.entry) (bytes_said comment.entry) }
{
    match comment {
        Some(text) => libmod_name(text),
        None => header.unwrap_or(&[]),
    }
}

/// The member that begins at the place.
pub(crate) fn member_at(file: &[u8], place: usize) -> Result<Member<'_>, LibraryFault>
    requires { place ≤ length file.now }
    ensures said { member_said result ≡ member_at file.now place }
    ensures part { IfOk result (IsMember file.now place) }
{
    let mut end = place;
    let mut header = None;
    let mut comment = None;
    loop {
        let frame = record_at(file, end)?;
        header = header.or(header_name(&frame));
        comment = comment.or(comment_text(&frame, LIBMOD));
        end += frame.body.len() + 4;
        if ends_module(frame.kind) {
            return Ok(Member {
                place,
                bytes: &file[place..end],
                name: name_of(header, comment),
            });
        }
    }
}

/// The members of a library, in their order.
pub(crate) fn library_members<'a, A: Allocator + Copy>(
    alloc: A,
    file: &'a [u8],
) -> Result<Vec<Member<'a>, A>, LibraryFault>
    ensures members { MatchResult result (λ ms. AreMembers ms.items (library_members file.now))
        (λ e. IsFault e (library_members file.now)) }
    ensures parts { IfOk result (λ ms. All (IsPart file.now) ms.items) }
{
    let page = page_size(file)?;
    let mut members = Vec::new(alloc);
    let mut place = page;
    loop {
        if place >= file.len() {
            return Err(LibraryFault::Malformed {
                place,
                fault: FormatFault::Truncated,
            });
        }
        if file[place] == LIBRARY_END {
            return Ok(members);
        }
        let member = member_at(file, place)?;
        members.push(member)?;
        place = (place + member.bytes.len()).next_multiple_of(page);
    }
}
