//! The lines of files that aren't read, and of those that aren't written.

ghost use Rattle.std.specs.Prelude.{◌≡◌, ◌++◌, OnOk};
ghost use Rattle.doslib_jobs.specs.Reading as spec;

use doslink_files::ReadFault;
use omf_text::{Piece, push_pieces};
use std::alloc::{AllocError, Allocator};

/// Why a file isn't read.
fn unread_text(fault: ReadFault) -> &'static str
    ensures { result.now ≡ spec.unread_text fault }
{
    match fault {
        ReadFault::Memory => "out of memory",
        ReadFault::Absent => "no such file",
        ReadFault::Folder => "it is a folder",
        ReadFault::Forbidden => "no permission",
        ReadFault::NoDrive => "there is no such drive",
        ReadFault::Special => "it is no regular file",
        ReadFault::Unopened(_) => "it can't be opened",
        ReadFault::Device(_) => "it can't be read",
    }
}

/// Appends the line of a file that isn't read, and why.
pub(crate) fn push_unread<A: Allocator + Copy>(
    lines: &mut Vec<u8, A>,
    path: &str,
    fault: ReadFault,
) -> Result<(), AllocError>
    ensures { OnOk result (lines.new.items ≡ lines.old.items ++ spec.unread_line path.now fault) }
{
    let pieces = [
        Piece::Text("doslib: "),
        Piece::Text(path),
        Piece::Text(": 1 Device: "),
        Piece::Text(unread_text(fault)),
        Piece::Text("\n"),
    ];
    push_pieces(lines, pieces.as_slice())
}

/// Appends the line of a file at a path that can't be written.
pub(crate) fn push_unwritten<A: Allocator + Copy>(
    lines: &mut Vec<u8, A>,
    path: &str,
) -> Result<(), AllocError>
    ensures { OnOk result (lines.new.items ≡ lines.old.items ++ spec.unwritten_line path.now) }
{
    let pieces = [
        Piece::Text("doslib: "),
        Piece::Text(path),
        Piece::Text(": 40 Device\n"),
    ];
    push_pieces(lines, pieces.as_slice())
}
