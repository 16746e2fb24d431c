//! The lines of what is amiss with a library that is made or changed.

ghost use Rattle.std.specs.Prelude.{◌≡◌, ◌++◌, OnOk, map};
ghost use Rattle.omf_library.specs.Names.{texts};
ghost use Rattle.omf_librarian.specs.Said.{doubled_said};
ghost use Rattle.doslib_text.specs.Faults as faults;
ghost use Rattle.doslib_jobs.specs.LibraryLines as spec;
ghost use Rattle.doslib_jobs.specs.inside.Libraries.{label_said, refused_line};

use crate::changing::Refused;
use omf_librarian::{Doubled, LibrarianFault, module_name};
use omf_library::FormatFault;
use omf_text::{Piece, push_pieces};
use std::alloc::{AllocError, Allocator};

/// Appends the line that says why a library at a path isn't changed; none of want of memory.
pub(crate) fn push_refusal<'p, A: Allocator + Copy>(
    lines: &mut Vec<u8, A>,
    path: &'p str,
    refused: Refused<'p>,
) -> Result<(), AllocError>
    ensures { OnOk result (lines.new.items ≡ lines.old.items ++ refused_line path.now refused.entry) }
{
    match refused {
        Refused::Memory => Ok(()),
        Refused::NotLibrary => {
            let pieces = [
                Piece::Text("doslib: "),
                Piece::Text(path),
                Piece::Text(": 73 NotLibrary\n"),
            ];
            push_pieces(lines, pieces.as_slice())
        }
        Refused::NoMember(name) => {
            let pieces = [
                Piece::Text("doslib: "),
                Piece::Text(path),
                Piece::Text(": 74 NoMember "),
                Piece::Name(name),
                Piece::Text("\n"),
            ];
            push_pieces(lines, pieces.as_slice())
        }
    }
}

/// The number and the name that a fault of a record is printed with.
fn format_label(fault: FormatFault) -> (u8, &'static str)
    ensures { label_said result ≡ faults.format_label fault }
{
    match fault {
        FormatFault::PageSize => (42, "PageSize"),
        FormatFault::ZeroLength => (43, "ZeroLength"),
        FormatFault::Truncated => (44, "Truncated"),
        FormatFault::Closing => (45, "Closing"),
        FormatFault::Header => (46, "Header"),
        FormatFault::TooLong => (47, "TooLong"),
    }
}

/// The number and the name that a fault is printed with.
fn librarian_label(fault: LibrarianFault) -> (u8, &'static str)
    ensures { label_said result ≡ spec.librarian_label fault }
{
    match fault {
        LibrarianFault::PageSize => (42, "PageSize"),
        LibrarianFault::Header { .. } => (7, "NotHeader"),
        LibrarianFault::Malformed { fault, .. } => format_label(fault),
        LibrarianFault::LongName { .. } => (75, "LongName"),
        LibrarianFault::Pages => (76, "TooManyPages"),
        LibrarianFault::Names => (77, "TooManyNames"),
        LibrarianFault::Memory => (0, ""),
    }
}

/// Appends how many members stand before the one that is at fault.
fn push_behind<A: Allocator + Copy>(lines: &mut Vec<u8, A>, count: usize) -> Result<(), AllocError>
    ensures { OnOk result (lines.new.items ≡ lines.old.items ++ spec.behind_members count) }
{
    let pieces = [
        Piece::Text(" behind "),
        Piece::Count(count),
        Piece::Text(" members"),
    ];
    push_pieces(lines, pieces.as_slice())
}

/// Appends where a fault is.
fn push_place<A: Allocator + Copy>(
    lines: &mut Vec<u8, A>,
    fault: LibrarianFault,
) -> Result<(), AllocError>
    ensures { OnOk result (lines.new.items ≡ lines.old.items ++ spec.librarian_place fault) }
{
    match fault {
        LibrarianFault::Header { member } | LibrarianFault::LongName { member } => {
            push_behind(lines, member)
        }
        LibrarianFault::Malformed { member, place, .. } => {
            push_behind(lines, member)?;
            let pieces = [Piece::Text(" at place "), Piece::Count(place)];
            push_pieces(lines, pieces.as_slice())
        }
        LibrarianFault::PageSize
        | LibrarianFault::Pages
        | LibrarianFault::Names
        | LibrarianFault::Memory => Ok(()),
    }
}

/// Appends the line of a fault of the library that would be made at a path.
pub(crate) fn push_librarian<A: Allocator + Copy>(
    lines: &mut Vec<u8, A>,
    path: &str,
    fault: LibrarianFault,
) -> Result<(), AllocError>
    ensures { OnOk result (lines.new.items ≡ lines.old.items ++ spec.librarian_line path.now fault) }
{
    let (number, name) = librarian_label(fault);
    let pieces = [
        Piece::Text("doslib: "),
        Piece::Text(path),
        Piece::Text(": "),
        Piece::Count(usize::from(number)),
        Piece::Text(" "),
        Piece::Text(name),
    ];
    push_pieces(lines, pieces.as_slice())?;
    push_place(lines, fault)?;
    push_pieces(lines, &[Piece::Text("\n")])
}

/// The name of the module with this index.
fn name_at<'a>(modules: &[&'a [u8]], index: usize) -> &'a [u8]
    ensures { result.now ≡ spec.name_at (texts modules.now) index }
{
    match modules.get(index) {
        Some(module) => module_name(module),
        None => &[],
    }
}

/// Appends the line of a name that two members of the library of these modules at a path have.
fn push_doubled_name<'p, A: Allocator + Copy>(
    lines: &mut Vec<u8, A>,
    path: &'p str,
    modules: &[&'p [u8]],
    doubled: &'p Doubled<A>,
) -> Result<(), AllocError>
    ensures { OnOk result (lines.new.items
        ≡ lines.old.items ++ spec.doubled_line path.now (texts modules.now) (doubled_said doubled.now)) }
{
    let pieces = [
        Piece::Text("doslib: warning: "),
        Piece::Text(path),
        Piece::Text(": "),
        Piece::Name(&doubled.name),
        Piece::Text(" is in "),
        Piece::Name(name_at(modules, doubled.first)),
        Piece::Text(" and in "),
        Piece::Name(name_at(modules, doubled.second)),
        Piece::Text("\n"),
    ];
    push_pieces(lines, pieces.as_slice())
}

/// Appends a line for each name that two members have.
pub(crate) fn push_doubled<'p, A: Allocator + Copy>(
    lines: &mut Vec<u8, A>,
    path: &'p str,
    modules: &[&'p [u8]],
    doubled: &'p [Doubled<A>],
) -> Result<(), AllocError>
    ensures { OnOk result (lines.new.items ≡ lines.old.items
        ++ spec.doubled_lines path.now (texts modules.now) (map doubled_said doubled.now)) }
{
    for name in doubled {
        push_doubled_name(lines, path, modules, name)?;
    }
    Ok(())
}
