//! The members of a file, whatever its kind.

ghost use Rattle.std.specs.Prelude.{◌≡◌, All, IfOk, MatchResult};
ghost use Rattle.omf_library.specs.Files.{file_kind, members_of, AreMembers, IsFault, IsPart};

use crate::archive::{ARCHIVE, archive_members};
use crate::fault::LibraryFault;
use crate::library::library_members;
use std::alloc::Allocator;

/// What a file is, by its first bytes alone.
#[derive(Clone, Copy, Debug, PartialEq, Eq)]
pub enum FileKind {
    /// Neither of the others: an object module, where it is anything that is linked.
    Object,
    /// A library of DOS, .LIB: its first byte is F0H.
    Library,
    /// A Unix archive: it begins with `!<arch>` and a line end.
    Archive,
}

/// A member of a library or of an archive.
#[derive(Clone, Copy, Debug)]
pub struct Member<'a> {
    /// How many bytes of the file stand before the member's first.
    pub place: usize,
    /// Its bytes, as they stand in the file from that place on. In a library they are whole records, up to the first
    /// that ends a module; in an archive they are what its header counts, of any form.
    pub bytes: &'a [u8],
    /// Its name. In a library that of its LIBMOD comment, else that of its header record, else empty; in an archive
    /// that of its header, where the header has the place of a long name that one.
    pub name: &'a [u8],
}

/// What a file with these bytes is.
#[tactic(auto, unfolding(crate::specs::Files::file_kind))]
pub fn file_kind(bytes: &[u8]) -> FileKind
    ensures { result ≡ file_kind bytes.now }
{
    if let [0xF0, ..] = bytes {
        FileKind::Library
    } else if bytes.starts_with(&ARCHIVE) {
        FileKind::Archive
    } else {
        FileKind::Object
    }
}

/// The modules that a file holds, in their order; else its first fault, in order of places.
///
/// A file that is neither a library nor an archive is its own only member, and has no name. Nothing is read of what
/// pads a member to its page, nor of what stands behind a library's end record, such as its dictionary. `Memory` comes
/// only where memory was refused.
pub fn members<'a, A: Allocator + Copy>(
    alloc: A,
    file: &'a [u8],
) -> Result<Vec<Member<'a>, A>, LibraryFault>
    // The members are those of the definition, or the fault is.
    ensures members { MatchResult result (λ ms. AreMembers ms.items (members_of (file_kind file.now) file.now))
        (λ e. IsFault e (members_of (file_kind file.now) file.now)) }
    // Each is handed out byte for byte.
    ensures parts { IfOk result (λ ms. All (IsPart file.now) ms.items) }
{
    match file_kind(file) {
        FileKind::Library => library_members(alloc, file),
        FileKind::Archive => archive_members(alloc, file),
        FileKind::Object => {
            let member = Member {
                place: 0,
                bytes: file,
                name: &[],
            };
            let mut members = Vec::new(alloc);
            members.push(member)?;
            Ok(members)
        }
    }
}
