//! The lines of faults and warnings, with people's names for what is at fault.
ghost use Rattle.std.specs.Prelude.{◌≡◌, ◌++◌, IfOk, OnOk};
ghost use Rattle.doslink_telling.specs.Lines as spec;
ghost use Rattle.doslink_telling.specs.Lines.{IsTold};

use crate::lines::push_located;
use crate::telling::{cut_end, path_of, told_part};
use doslink_files::ReadFault;
use doslink_stock::StockFault;
use omf_faults::{LinkFault, fault_line};
use omf_frame::IoFault;
use omf_library::FormatFault;
use omf_plain::Obstacle;
use omf_text::{Lines, Piece, push_pieces};
use std::alloc::{AllocError, Allocator};
use std::io::ErrorKind;

/// What the system says of an error of this kind; else another text.
fn system_text(kind: ErrorKind, other: &'static str) -> &'static str
    ensures { result.now ≡ spec.system_text kind other.now }
{
    match kind {
        ErrorKind::WouldBlock => "resource temporarily unavailable",
        ErrorKind::ReadOnlyFilesystem => "read-only file system",
        ErrorKind::FilesystemLoop => "too many levels of symbolic links",
        ErrorKind::StaleNetworkFileHandle => "stale file handle",
        ErrorKind::InvalidInput => "invalid argument",
        ErrorKind::TimedOut => "connection timed out",
        ErrorKind::FileTooLarge => "file too large",
        ErrorKind::ResourceBusy => "device or resource busy",
        ErrorKind::ExecutableFileBusy => "text file busy",
        ErrorKind::InvalidFilename => "file name too long",
        ErrorKind::Interrupted => "interrupted system call",
        ErrorKind::Unsupported => "operation not supported",
        _ => other,
    }
}

/// Why a file isn't read.
fn unread_text(fault: ReadFault) -> &'static str
    ensures { result.now ≡ spec.unread_text fault }
{
    match fault {
        ReadFault::Memory => "out of memory",
        ReadFault::Absent => "no such file",
        ReadFault::Folder => "it is a folder",
        ReadFault::Forbidden => "no permission",
        ReadFault::NoDrive => "there is no such drive",
        ReadFault::Special => "it is no regular file",
        ReadFault::Unopened(ErrorKind::InvalidData) => "two names there differ by case alone",
        ReadFault::Unopened(kind) => system_text(kind, "it can't be opened"),
        ReadFault::Device(kind) => system_text(kind, "it can't be read"),
    }
}

/// Appends the line of a file or a library of this name that isn't read, and why.
pub fn push_unread_line<'p, A: Allocator + Copy>(
    lines: &mut Vec<u8, A>,
    name: &'p str,
    fault: ReadFault,
) -> Result<(), AllocError>
    ensures { OnOk result (lines.new.items ≡ lines.old.items ++ spec.unread_line name.now fault) }
{
    let pieces = [
        Piece::Text("doslink: "),
        Piece::Text(name),
        Piece::Text(": 1 Device at record 0: "),
        Piece::Text(unread_text(fault)),
        Piece::Text("\n"),
    ];
    push_pieces(lines, pieces.as_slice())
}

/// Why a file isn't written. `AlreadyExists` is that the path leads to one that was just written, and
/// `AddrNotAvailable` that it begins with a drive that isn't here.
fn unwritten_text(kind: ErrorKind) -> &'static str
    ensures { result.now ≡ spec.unwritten_text kind }
{
    match kind {
        ErrorKind::NotFound | ErrorKind::NotADirectory => "no such folder",
        ErrorKind::PermissionDenied => "no permission",
        ErrorKind::IsADirectory => "it is a folder",
        ErrorKind::AlreadyExists => "it was just written",
        ErrorKind::StorageFull | ErrorKind::QuotaExceeded => "no space is left",
        ErrorKind::BrokenPipe => "nobody reads it any more",
        ErrorKind::AddrNotAvailable => "there is no such drive",
        ErrorKind::InvalidData => "two names there differ by case alone",
        ErrorKind::OutOfMemory => "out of memory",
        kind => system_text(kind, "it can't be written"),
    }
}

/// Appends the line of a file at a path that can't be written, and why.
pub fn push_unwritten_line<'p, A: Allocator + Copy>(
    lines: &mut Vec<u8, A>,
    path: &'p str,
    kind: ErrorKind,
) -> Result<(), AllocError>
    ensures { OnOk result (lines.new.items ≡ lines.old.items ++ spec.unwritten_line path.now kind) }
{
    let pieces = [
        Piece::Text("doslink: "),
        Piece::Text(path),
        Piece::Text(": 40 Device: "),
        Piece::Text(unwritten_text(kind)),
        Piece::Text("\n"),
    ];
    push_pieces(lines, pieces.as_slice())
}

/// The number and the name that a fault of a library is printed with.
fn format_label(fault: FormatFault) -> (u8, &'static str)
    ensures number { result.0 ≡ (spec.format_label fault).0 }
    ensures name { result.1.now ≡ (spec.format_label fault).1 }
{
    match fault {
        FormatFault::PageSize => (42, "PageSize"),
        FormatFault::ZeroLength => (43, "ZeroLength"),
        FormatFault::Truncated => (44, "Truncated"),
        FormatFault::Closing => (45, "Closing"),
        FormatFault::Header => (46, "Header"),
        FormatFault::TooLong => (47, "TooLong"),
    }
}

/// Appends the line of a library at fault, by what reading the files answered.
///
/// # Errors
/// Want of memory, also where that is what it answered.
pub fn push_stock_fault<A: Allocator + Copy>(
    lines: &mut Vec<u8, A>,
    paths: &[&str],
    fault: StockFault,
) -> Result<(), AllocError>
    ensures { OnOk result (IsTold (spec.stock_line paths.now fault) lines.old.items lines.new.items) }
{
    match fault {
        StockFault::Memory => Err(AllocError),
        StockFault::Library { file, place, fault } => {
            let path = path_of(paths, file).as_bytes();
            push_located(lines, path, format_label(fault), " at place ", place as u64)
        }
    }
}

/// Appends the warning that a default library was not found.
pub fn push_absent_line<'p, A: Allocator + Copy>(
    lines: &mut Vec<u8, A>,
    library: &'p [u8],
    word: &'p [u8],
) -> Result<(), AllocError>
    ensures { OnOk result (lines.new.items ≡ lines.old.items ++ spec.absent_line library.now word.now) }
{
    let pieces = [
        Piece::Text("doslink: warning: library "),
        Piece::Name(told_part(library)),
        Piece::Text(cut_end(library)),
        Piece::Text(" of "),
        Piece::Bytes(word),
        Piece::Text(" was not found\n"),
    ];
    push_pieces(lines, pieces.as_slice())
}

/// The line of a fault of the link, `word` standing before its number.
fn line_of_fault<A: Allocator + Copy>(
    alloc: A,
    fault: &LinkFault<A>,
    word: &[u8],
) -> Result<Vec<u8, A>, AllocError>
    ensures { IfOk result (λ line. line.items ≡ spec.fault_line fault.now word.now) }
{
    let word = String::from_utf8_lossy(alloc, word)?;
    let mut line = Lines::of(Vec::new(alloc));
    match fault_line("doslink", fault, word.as_str(), &mut line) {
        Ok(()) => Ok(line.bytes),
        Err(IoFault) => Err(AllocError),
    }
}

/// Appends the line of a fault of the link, `word` being that for the input at fault, or for the file that was written.
pub fn push_fault<A: Allocator + Copy>(
    alloc: A,
    lines: &mut Vec<u8, A>,
    fault: &LinkFault<A>,
    word: &[u8],
) -> Result<(), AllocError>
    ensures { OnOk result (lines.new.items ≡ lines.old.items ++ spec.fault_line fault.now word.now) }
{
    let line = line_of_fault(alloc, fault, word)?;
    lines.extend_from_slice(&line)
}

/// The number and the name of what keeps a record from being one of the fourteen.
fn obstacle_label(obstacle: Obstacle) -> (u8, &'static str)
    ensures number { result.0 ≡ (spec.obstacle_label obstacle).0 }
    ensures name { result.1.now ≡ (spec.obstacle_label obstacle).1 }
{
    match obstacle {
        Obstacle::DataType => (48, "DataType"),
        Obstacle::Above16Bits => (49, "Above16Bits"),
        Obstacle::OtherType => (5, "Type"),
        Obstacle::OutsideData => (50, "Location"),
        Obstacle::Body => (51, "Body"),
        Obstacle::TooLong => (52, "TooLong"),
        Obstacle::EasyOmf => (63, "EasyOmf"),
        Obstacle::ImportedName => (64, "ImportedName"),
        Obstacle::FlatFrame => (65, "FlatFrame"),
        Obstacle::LateSegment => (80, "LateSegment"),
    }
}

/// Appends the line of a record that is none of the fourteen, by its place in the module for which this is the word.
pub fn push_obstacle<A: Allocator + Copy>(
    lines: &mut Vec<u8, A>,
    word: &[u8],
    place: u64,
    obstacle: Obstacle,
) -> Result<(), AllocError>
    ensures { OnOk result (lines.new.items ≡ lines.old.items ++ spec.obstacle_line word.now place obstacle) }
{
    push_located(lines, word, obstacle_label(obstacle), " at record ", place)
}

/// Appends the line of a fix-up of 32 bits whose sum has more than 16, by the place of its record in the module for
/// which this is the word.
pub fn push_overflow<A: Allocator + Copy>(
    lines: &mut Vec<u8, A>,
    word: &[u8],
    place: u64,
) -> Result<(), AllocError>
    ensures { OnOk result (lines.new.items ≡ lines.old.items ++ spec.overflow_line word.now place) }
{
    push_located(lines, word, (61, "SumAbove16Bits"), " at record ", place)
}

/// Appends the line of an alias that goes round for ever, by the place of its record in the module for which this is
/// the word.
pub fn push_endless_alias<'p, A: Allocator + Copy>(
    lines: &mut Vec<u8, A>,
    word: &'p [u8],
    place: u64,
    name: &'p [u8],
) -> Result<(), AllocError>
    ensures { OnOk result (lines.new.items ≡ lines.old.items ++ spec.endless_line word.now place name.now) }
{
    let pieces = [
        Piece::Text("doslink: "),
        Piece::Bytes(word),
        Piece::Text(": 60 EndlessAlias "),
        Piece::Name(name),
        Piece::Text(" at record "),
        Piece::Count(place as usize),
        Piece::Text("\n"),
    ];
    push_pieces(lines, pieces.as_slice())
}

/// Appends the warning that 32-bit segments of the module for which this is the word are linked as ones of 16 bits.
pub fn push_wide_line<A: Allocator + Copy>(
    lines: &mut Vec<u8, A>,
    word: &[u8],
) -> Result<(), AllocError>
    ensures { OnOk result (lines.new.items ≡ lines.old.items ++ spec.wide_line word.now) }
{
    let pieces = [
        Piece::Text("doslink: warning: 32-bit segments of "),
        Piece::Bytes(word),
        Piece::Text(" are linked as 16-bit ones\n"),
    ];
    push_pieces(lines, pieces.as_slice())
}

/// Appends the line of a path of a job that can't be used, and why.
pub fn push_path_line<'p, A: Allocator + Copy>(
    lines: &mut Vec<u8, A>,
    path: &'p str,
    why: &'p str,
) -> Result<(), AllocError>
    ensures { OnOk result (lines.new.items ≡ lines.old.items ++ spec.path_line path.now why.now) }
{
    let pieces = [
        Piece::Text("doslink: "),
        Piece::Text(path),
        Piece::Text(": "),
        Piece::Text(why),
        Piece::Text("\n"),
    ];
    push_pieces(lines, pieces.as_slice())
}

/// Appends the line of an order that would have too many parts.
pub fn push_order_line<A: Allocator + Copy>(lines: &mut Vec<u8, A>) -> Result<(), AllocError>
    ensures { OnOk result (lines.new.items ≡ lines.old.items ++ spec.order_line) }
{
    lines.extend_from_slice(
        b"doslink: order: TooManySegments: there are more than 16,383 to order\n",
    )
}
