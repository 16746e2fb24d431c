//! What a file is that is no object module, by its first bytes.
ghost use Rattle.std.specs.Prelude.{◌≡◌, ◌++◌, List, OnOk, codes, take, ℕ};
ghost use Rattle.std.specs.List.{list_all};
ghost use Rattle.doslink_telling.specs.Kinds as spec;

use omf_text::{Piece, push_pieces};
use std::alloc::{AllocError, Allocator};

/// What a file is that is no object module.
#[derive(Clone, Copy, Debug, PartialEq, Eq)]
pub enum Foreign {
    /// It has no byte.
    Empty,
    /// An object file or a program of Linux.
    Elf,
    /// An object file of Windows.
    Coff,
    /// An object file or a program of macOS.
    MachO,
    /// A program of DOS or Windows.
    Program,
    /// An archive that names its members' files, and has none of their bytes.
    ThinArchive,
    /// A text.
    Text,
    /// Something else.
    Other,
}

/// How many bytes of a file tell that it is a text.
const TEXT_BYTES: usize = 256;

/// Whether a file begins with these bytes.
fn begins(bytes: &[u8], front: &[u8]) -> bool
    ensures { result ≡ spec.begins front.now bytes.now }
{
    bytes.starts_with(front)
}

/// Whether a file begins as a module does.
fn begins_module(bytes: &[u8]) -> bool
    ensures { result ≡ spec.begins_module bytes.now }
{
    begins(bytes, b"\x80") || begins(bytes, b"\x82")
}

/// Whether a file begins as a COFF file does.
fn begins_coff(bytes: &[u8]) -> bool
    ensures { result ≡ spec.begins_coff bytes.now }
{
    begins(bytes, b"\x4C\x01") || begins(bytes, b"\x64\x86")
}

/// Whether a file begins as a Mach-O file does.
fn begins_macho(bytes: &[u8]) -> bool
    ensures { result ≡ spec.begins_macho bytes.now }
{
    begins(bytes, b"\xCE\xFA\xED\xFE")
        || begins(bytes, b"\xCF\xFA\xED\xFE")
        || begins(bytes, b"\xFE\xED\xFA\xCE")
        || begins(bytes, b"\xFE\xED\xFA\xCF")
        || begins(bytes, b"\xCA\xFE\xBA\xBE")
}

/// Whether a byte may stand in a text.
fn is_text_byte(byte: u8) -> bool
    ensures { result ≡ spec.is_text_byte byte }
{
    byte == 9 || byte == 10 || byte == 12 || byte == 13 || byte == 26 || (32 <= byte && byte != 127)
}

/// Whether a file's first bytes are those of a text.
fn begins_text(bytes: &[u8]) -> bool
    ensures { result ≡ list_all spec.is_text_byte (take spec.text_bytes bytes.now) }
{
    bytes
        .iter()
        .take(TEXT_BYTES)
        .all(|byte| is_text_byte(*byte))
}

/// What a file with these bytes is that doesn't begin as a module does. None where it does.
pub fn foreign_kind(bytes: &[u8]) -> Option<Foreign>
    ensures { result ≡ spec.foreign_kind bytes.now }
{
    if begins_module(bytes) {
        None
    } else if bytes.is_empty() {
        Some(Foreign::Empty)
    } else if begins(bytes, b"\x7FELF") {
        Some(Foreign::Elf)
    } else if begins_coff(bytes) {
        Some(Foreign::Coff)
    } else if begins_macho(bytes) {
        Some(Foreign::MachO)
    } else if begins(bytes, b"MZ") {
        Some(Foreign::Program)
    } else if begins(bytes, b"!<thin>") {
        Some(Foreign::ThinArchive)
    } else if begins_text(bytes) {
        Some(Foreign::Text)
    } else {
        Some(Foreign::Other)
    }
}

/// What is said of such a file.
fn foreign_text(kind: Foreign) -> &'static str
    ensures { result.now ≡ spec.foreign_text kind }
{
    match kind {
        Foreign::Empty => "the file is empty",
        Foreign::Elf => "this is an ELF file; nasm wants -f obj",
        Foreign::Coff => "this is a COFF file; nasm wants -f obj",
        Foreign::MachO => "this is a Mach-O file; nasm wants -f obj",
        Foreign::Program => "this is a program, linked already",
        Foreign::ThinArchive => {
            "this is a thin archive, without its members; ar without T makes a whole one"
        }
        Foreign::Text => "this is a text; assemble or compile it first",
        Foreign::Other => "this is no object module",
    }
}

/// Puts what a file is, whose bytes these are, into the last line, before its end: that of a fault at its first record.
/// Nothing where it begins as a module does.
pub fn push_foreign<A: Allocator + Copy>(
    lines: &mut Vec<u8, A>,
    bytes: &[u8],
) -> Result<(), AllocError>
    ensures { (front : List ℕ) → lines.old.items ≡ front ++ codes "\n"
        → OnOk result (lines.new.items ≡ front ++ (spec.foreign_end (spec.foreign_kind bytes.now) ++ codes "\n")) }
{
    let Some(kind) = foreign_kind(bytes) else {
        return Ok(());
    };
    lines.pop();
    let pieces = [
        Piece::Text(": "),
        Piece::Text(foreign_text(kind)),
        Piece::Text("\n"),
    ];
    push_pieces(lines, pieces.as_slice())
}
