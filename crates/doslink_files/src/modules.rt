//! Files that are read up to the end of their modules.
ghost use Rattle.std.specs.Prelude.{◌≡◌, ℕ, List, IfOk, OnOk, false};
ghost use Rattle.std.specs.declared.option.Option.{Option};
ghost use Rattle.std.specs.Io.KnownBytes.{Consumes, IsAtEnd};
ghost use Rattle.doslink_files.specs.Files as spec;
ghost use Rattle.doslink_files.specs.Files.{IsModulesPart};
ghost use Rattle.doslink_files.specs.inside.Fronts.{IsFront};

use crate::fault::ReadFault;
use omf_library::{FileKind, file_kind, modules_end};
use std::alloc::Allocator;
use std::io::{ErrorKind, Read};

/// How many bytes are read at a time.
const PIECE: usize = 16_384;

/// How many bytes the longest record has: its type, a length word, and what that counts.
const LONGEST_RECORD: usize = 65_538;

/// How often a file is read at most.
const MOST_READS: u64 = u64::MAX;

/// Appends what one read of a file gives. Whether there may be more: at the file's end it gives nothing.
fn read_piece<R: Read, A: Allocator>(
    file: &mut R,
    bytes: &mut Vec<u8, A>,
) -> Result<bool, ReadFault>
    ensures read { OnOk result ((told : Option (List ℕ)) → Consumes told (R.remaining file.old) bytes.old.items
        → Consumes told (R.remaining file.new) bytes.new.items) }
    ensures end { IfOk result (λ more. more ≡ false → IsAtEnd (R.remaining file.new)) }
{
    let mut piece = [0u8; PIECE];
    match file.read(&mut piece) {
        Ok(n) => {
            bytes.extend_from_slice(&piece[..n])?;
            Ok(n > 0)
        }
        Err(error) if error.kind() == ErrorKind::Interrupted => Ok(true),
        Err(error) => Err(ReadFault::of_reading(&error)),
    }
}

/// Appends bytes of a file until there are so many. Whether there may be more: else the file has ended.
fn read_until<R: Read, A: Allocator>(
    file: &mut R,
    bytes: &mut Vec<u8, A>,
    length: usize,
) -> Result<bool, ReadFault>
    ensures read { OnOk result ((told : Option (List ℕ)) → Consumes told (R.remaining file.old) bytes.old.items
        → Consumes told (R.remaining file.new) bytes.new.items) }
    ensures front { IfOk result (λ more. IsFront more length (R.remaining file.new) bytes.new.items) }
{
    for _ in 0..MOST_READS {
        if bytes.len() >= length {
            return Ok(true);
        }
        if !read_piece(file, bytes)? {
            return Ok(false);
        }
    }
    Err(ReadFault::Device(ErrorKind::Other))
}

/// Whether bytes begin with the header of a module, THEADR 80H or LHEADR 82H.
fn has_header(bytes: &[u8]) -> bool
    ensures { result ≡ spec.has_header bytes.now }
{
    match bytes {
        [first, ..] => *first == 0x80 || *first == 0x82,
        [] => false,
    }
}

/// Whether bytes begin as no file with modules does: it is neither a library nor an archive, and has no header.
pub(crate) fn is_foreign(bytes: &[u8]) -> bool
    ensures { result ≡ spec.is_foreign bytes.now }
{
    file_kind(bytes) == FileKind::Object && !has_header(bytes)
}

/// What is read of a file: its bytes up to the end of its modules, and all where they have none; of one that begins as
/// none with modules does so many as the longest record has. Of what stands behind the end about as much is read as
/// stands before it, or 64 KB where that is more.
pub(crate) fn read_modules<R: Read + Drop, A: Allocator>(
    alloc: A,
    mut file: R,
) -> Result<Vec<u8, A>, ReadFault>
    ensures { IfOk result (λ bytes. IsModulesPart (R.remaining file) bytes.items) }
{
    let mut bytes = Vec::new(alloc);
    let mut more = read_until(&mut file, &mut bytes, LONGEST_RECORD)?;
    if is_foreign(&bytes) {
        bytes.truncate(LONGEST_RECORD);
        return Ok(bytes);
    }
    for _ in 0..MOST_READS {
        if let Some(end) = modules_end(&bytes) {
            bytes.truncate(end);
            return Ok(bytes);
        }
        if !more {
            return Ok(bytes);
        }
        let length = bytes.len().saturating_mul(2);
        more = read_until(&mut file, &mut bytes, length)?;
    }
    Err(ReadFault::Device(ErrorKind::Other))
}
