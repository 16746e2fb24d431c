//! The lines of faults.

ghost use Rattle.std.specs.Prelude.{◌≡◌, ◌+◌, ◌≤◌, ◌<◌, ◌^◌, ◌++◌, OnOk, length, map};
ghost use Rattle.std.specs.List.{flat_map};
ghost use Rattle.omf_library.specs.Members.{plain_member};
ghost use Rattle.doslib_text.specs.Faults as spec;

use crate::parts::module_end;
use omf_library::{FormatFault, LibraryFault, Member};
use omf_text::{Piece, push_pieces};
use std::alloc::{AllocError, Allocator};

/// The number and the name that a fault of a file is printed with.
fn format_label(fault: FormatFault) -> (u8, &'static str)
    ensures number { result.0 ≡ (spec.format_label fault).0 }
    ensures name { result.1.now ≡ (spec.format_label fault).1 }
{
    match fault {
        FormatFault::PageSize => (42, "PageSize"),
        FormatFault::ZeroLength => (43, "ZeroLength"),
        FormatFault::Truncated => (44, "Truncated"),
        FormatFault::Closing => (45, "Closing"),
        FormatFault::Header => (46, "Header"),
        FormatFault::TooLong => (47, "TooLong"),
    }
}

/// Appends the line of a fault with this number and name, behind so many bytes of the file at a path.
pub fn push_located<'p, A: Allocator + Copy>(
    lines: &mut Vec<u8, A>,
    path: &'p str,
    label: (u8, &'p str),
    place: usize,
) -> Result<(), AllocError>
    ensures { OnOk result (lines.new.items
        ≡ lines.old.items ++ spec.located path.now (label.entry.0, label.entry.1.now) place) }
{
    let (number, name) = label;
    let pieces = [
        Piece::Text("doslib: "),
        Piece::Text(path),
        Piece::Text(": "),
        Piece::Count(usize::from(number)),
        Piece::Text(" "),
        Piece::Text(name),
        Piece::Text(" at place "),
        Piece::Count(place),
        Piece::Text("\n"),
    ];
    push_pieces(lines, pieces.as_slice())
}

/// Appends the line of a fault behind so many bytes of the file at a path.
fn push_fault<A: Allocator + Copy>(
    lines: &mut Vec<u8, A>,
    path: &str,
    place: usize,
    fault: FormatFault,
) -> Result<(), AllocError>
    ensures { OnOk result (lines.new.items ≡ lines.old.items ++ spec.fault_line path.now place fault) }
{
    push_located(lines, path, format_label(fault), place)
}

/// Appends the line of the first record of a member that is at fault, by its place in the file, where one is.
fn push_module_fault<A: Allocator + Copy>(
    lines: &mut Vec<u8, A>,
    path: &str,
    member: &Member<'_>,
) -> Result<(), AllocError>
    ensures { OnOk result (lines.new.items
        ≡ lines.old.items ++ spec.module_fault path.now (plain_member member.now)) }
{
    match module_end(member.bytes, 0) {
        Ok(_) | Err(LibraryFault::Memory) => Ok(()),
        Err(LibraryFault::Malformed { place, fault }) => {
            push_fault(lines, path, member.place.saturating_add(place), fault)
        }
    }
}

/// Appends the lines of the members that are at fault.
fn push_module_faults<A: Allocator + Copy>(
    lines: &mut Vec<u8, A>,
    path: &str,
    members: &[Member<'_>],
) -> Result<(), AllocError>
    ensures { OnOk result (lines.new.items
        ≡ lines.old.items ++ flat_map (spec.module_fault path.now) (map plain_member members.now)) }
{
    for member in members {
        push_module_fault(lines, path, member)?;
    }
    Ok(())
}

/// Appends the lines of the faults of a file at a path: those of the records of its members, and then its own.
pub fn push_faults<A: Allocator + Copy>(
    lines: &mut Vec<u8, A>,
    path: &str,
    members: &[Member<'_>],
    fault: Option<(usize, FormatFault)>,
) -> Result<(), AllocError>
    ensures { OnOk result (lines.new.items
        ≡ lines.old.items ++ spec.faults_text path.now (map plain_member members.now) fault) }
{
    push_module_faults(lines, path, members)?;
    match fault {
        Some((place, fault)) => push_fault(lines, path, place, fault),
        None => Ok(()),
    }
}
