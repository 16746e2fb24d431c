//! The members of a Unix archive, as `ar` makes it.

ghost use Rattle.std.specs.Prelude.{◌≡◌, ◌≤◌, length, drop, All, IfOk, OnOk, MatchResult};
ghost use Rattle.omf_library.specs.Archive.{at_place, entry_of, is_table, member_name};
ghost use Rattle.omf_library.specs.Archive.{archive_members, table_behind, modules_of};
ghost use Rattle.omf_library.specs.Files.{AreMembers, IsFault, IsPart};
ghost use Rattle.omf_library.specs.inside.Lines.{AreMeasured};
ghost use Rattle.omf_library.specs.inside.Views.{entry_said, plain_entry, IsContent, Pushed};

use crate::fault::{FormatFault, LibraryFault};
use crate::files::Member;
use crate::long_names::{LongNames, without_slash};
use crate::number::{decimal, without_spaces};
use std::alloc::{AllocError, Allocator};

/// The bytes that begin an archive.
pub(crate) const ARCHIVE: [u8; 8] = *b"!<arch>\n";

/// How many bytes the header of a member has.
const HEADER: usize = 60;

/// The name of the member that holds the long names of others.
const LONG_NAMES: &[u8] = b"//";

/// A member, a table or a module, as its header has it.
#[derive(Clone, Copy)]
struct Entry<'a> {
    /// The field of its name, without the spaces at its end.
    name: &'a [u8],
    bytes: &'a [u8],
}

/// The member whose header begins at the place.
fn entry_at(file: &[u8], place: usize) -> Result<Entry<'_>, LibraryFault>
    requires { place ≤ length file.now }
    ensures said { entry_said result ≡ at_place place (entry_of (drop place file.now)) }
    ensures content { IfOk result (IsContent file.now place) }
{
    match split_entry(&file[place..]) {
        Ok(entry) => Ok(entry),
        Err(fault) => Err(LibraryFault::Malformed { place, fault }),
    }
}

/// The member whose header is at the front of the bytes.
#[tactic(auto, unfolding(crate::specs::Archive::entry_of))]
fn split_entry(bytes: &[u8]) -> Result<Entry<'_>, FormatFault>
    ensures said { entry_said result ≡ entry_of bytes.now }
    ensures content { IfOk result (IsContent bytes.now 0) }
{
    if bytes.len() < HEADER || bytes[58] != b'`' || bytes[59] != b'\n' {
        return Err(FormatFault::Header);
    }
    let Some(size) = decimal(without_spaces(&bytes[48..58])) else {
        return Err(FormatFault::Header);
    };
    let content = &bytes[HEADER..];
    if content.len() < size {
        return Err(FormatFault::TooLong);
    }
    Ok(Entry {
        name: without_spaces(&bytes[..16]),
        bytes: &content[..size],
    })
}

/// Whether a member of this name is a table of symbols or of names, and no module.
#[tactic(auto, unfolding(crate::specs::Archive::is_table))]
fn is_table(name: &[u8]) -> bool
    ensures { result ≡ is_table name.now }
{
    name == b"/".as_slice()
        || name == LONG_NAMES
        || name == b"/SYM64/".as_slice()
        || name == b"__.SYMDEF".as_slice()
        || name == b"__.SYMDEF SORTED".as_slice()
}

/// The name of a member: that of its header, or the one in the table of long names that it tells the place of.
#[tactic(auto, unfolding(crate::specs::Archive::member_name))]
fn member_name<'a, A: Allocator + Copy>(name: &'a [u8], names: &LongNames<'a, A>) -> &'a [u8]
    requires short { length name.now ≤ 16 }
    requires measured { AreMeasured names.now }
    ensures { result.now ≡ member_name names.now.table.now name.now }
{
    if !name.starts_with(b"/") {
        return without_slash(name);
    }
    match decimal(&name[1..]) {
        Some(place) => names.get(place).unwrap_or(name),
        None => name,
    }
}

/// The long names behind a member: those of its bytes where it is their table, else those before it.
fn names_behind<'a, A: Allocator + Copy>(
    alloc: A,
    names: LongNames<'a, A>,
    entry: &Entry<'a>,
) -> Result<LongNames<'a, A>, AllocError>
    requires { AreMeasured names }
    ensures measured { IfOk result AreMeasured }
    ensures table { IfOk result (λ behind.
        behind.table.now ≡ table_behind names.entry.table.now (plain_entry entry.now)) }
{
    if entry.name == LONG_NAMES {
        LongNames::new(alloc, entry.bytes)
    } else {
        Ok(names)
    }
}

/// Appends the module that a member is, whose bytes begin at the place, unless it is a table.
fn push_module<'a, A: Allocator + Copy>(
    names: &LongNames<'a, A>,
    place: usize,
    entry: &Entry<'a>,
    members: &mut Vec<Member<'a>, A>,
) -> Result<(), AllocError>
    requires short { length entry.now.name.now ≤ 16 }
    requires measured { AreMeasured names.now }
    ensures { OnOk result (Pushed (modules_of names.now.table.now place (plain_entry entry.now)) entry.now.bytes.now place
        members.old.items members.new.items) }
{
    if !is_table(entry.name) {
        members.push(Member {
            place,
            bytes: entry.bytes,
            name: member_name(entry.name, names),
        })?;
    }
    Ok(())
}

/// The members of an archive that are no tables, in their order.
pub(crate) fn archive_members<'a, A: Allocator + Copy>(
    alloc: A,
    file: &'a [u8],
) -> Result<Vec<Member<'a>, A>, LibraryFault>
    ensures members { MatchResult result (λ ms. AreMembers ms.items (archive_members file.now))
        (λ e. IsFault e (archive_members file.now)) }
    ensures parts { IfOk result (λ ms. All (IsPart file.now) ms.items) }
{
    let mut members = Vec::new(alloc);
    let mut names = LongNames::new(alloc, &[])?;
    let mut place = ARCHIVE.len();
    while place < file.len() {
        let entry = entry_at(file, place)?;
        names = names_behind(alloc, names, &entry)?;
        push_module(&names, place + HEADER, &entry, &mut members)?;
        let end = place + HEADER + entry.bytes.len();
        place = end + end % 2;
    }
    Ok(members)
}
