//! Files as text.
//!
//! A file is lines: `lib 16` is the header record of a library with pages of 16 bytes; `pad 16` zeros up to a multiple
//! of 16; `ar a.o/ 8` the header of an archive's member; `text` a text and a line end; `raw` bytes in hexadecimal
//! digits. Any other line is a record: the bytes of its type and its body in hexadecimal digits, where `41*3` stands
//! for `41 41 41`. A line that begins with `#` is a comment.

use rows::{bytes_of, put_record};
use std::alloc::{AllocError, Global};
use std::test::*;

/// Appends zeros up to a multiple of the size.
fn pad(file: &mut Vec<u8>, size: usize) -> Result<(), AllocError> {
    let len = file.len().checked_next_multiple_of(size);
    file.resize(len.unwrap_or(0), 0)
}

/// Appends the header record of a library with pages of so many bytes.
fn put_library(file: &mut Vec<u8>, page: usize) -> Result<(), AllocError> {
    let len = page.saturating_sub(3);
    file.extend_from_slice(&[0xF0, (len % 256) as u8, (len / 256 % 256) as u8])?;
    pad(file, page)
}

/// Appends the header of an archive's member, with its name and its size as they are given.
fn put_header(alloc: Global, file: &mut Vec<u8>, name: &str, size: &str) -> Result<(), AllocError> {
    let header = format!(in alloc;
        "{name:<16}{:<12}{:<6}{:<6}{:<8}{size:<10}`\n",
        0, 0, 0, 644
    )?;
    file.extend_from_slice(header.as_bytes())
}

/// Appends what a line says.
fn put_line(alloc: Global, file: &mut Vec<u8>, line: &str) -> Result<(), Fail> {
    let (word, rest) = line.split_once(' ').unwrap_or((line, ""));
    match word {
        "lib" => put_library(file, rest.parse()?)?,
        "pad" => pad(file, rest.parse()?)?,
        "raw" => file.extend_from_slice(&bytes_of(alloc, rest)?)?,
        "text" => {
            file.extend_from_slice(rest.as_bytes())?;
            file.push(b'\n')?;
        }
        "ar" => {
            let (name, size) = rest.rsplit_once(' ').unwrap_or((rest, ""));
            put_header(alloc, file, name, size)?;
        }
        _ => {
            let bytes = bytes_of(alloc, line)?;
            if let [kind, body @ ..] = bytes.as_slice() {
                put_record(file, *kind, body)?;
            }
        }
    }
    Ok(())
}

/// The bytes of a file.
pub fn file_of(alloc: Global, lines: &str) -> Result<Vec<u8>, Fail> {
    let mut file = Vec::new(alloc);
    for line in lines.lines() {
        if !line.starts_with('#') {
            put_line(alloc, &mut file, line)?;
        }
    }
    Ok(file)
}
