//! Files as text, what is told of them as text, and the tables of both.
//!
//! Blank lines separate the rows of a table. A row is the lines of a file and behind `= ` what is told of it. Of a
//! file `lib 16` is the header record of a library with pages of 16 bytes; `pad 16` zeros up to a multiple of 16;
//! `ar a.o/ 8` the header of an archive's member; `text` a text and a line end; `raw` bytes in hexadecimal digits. Any
//! other line is a record: the bytes of its type and its body in hexadecimal digits, where `41*3` stands for
//! `41 41 41`. A line that begins with `#` is a comment. Of places each name that is asked for stands before its own.

use omf_library::{
    Alias, Member, ModuleNames, members, module_frames, module_names, modules_end, wanting_places,
};
use rows::{bytes_of, push_text, put_record, same};
use std::alloc::{AllocError, Allocator, Global};
use std::test::*;

/// Appends zeros up to a multiple of the size.
fn pad(file: &mut Vec<u8>, size: usize) -> Result<(), AllocError> {
    let len = file.len().checked_next_multiple_of(size);
    file.resize(len.unwrap_or(0), 0)
}

/// Appends the header record of a library with pages of so many bytes.
fn put_library(file: &mut Vec<u8>, page: usize) -> Result<(), AllocError> {
    let len = page.saturating_sub(3);
    file.extend_from_slice(&[0xF0, (len % 256) as u8, (len / 256 % 256) as u8])?;
    pad(file, page)
}

/// Appends the header of an archive's member, with its name and its size as they are given.
fn put_header(alloc: Global, file: &mut Vec<u8>, name: &str, size: &str) -> Result<(), AllocError> {
    let header = format!(in alloc;
        "{name:<16}{:<12}{:<6}{:<6}{:<8}{size:<10}`\n",
        0, 0, 0, 644
    )?;
    file.extend_from_slice(header.as_bytes())
}

/// Appends what a line says.
fn put_line(alloc: Global, file: &mut Vec<u8>, line: &str) -> Result<(), Fail> {
    let (word, rest) = line.split_once(' ').unwrap_or((line, ""));
    match word {
        "lib" => put_library(file, rest.parse()?)?,
        "pad" => pad(file, rest.parse()?)?,
        "raw" => file.extend_from_slice(&bytes_of(alloc, rest)?)?,
        "text" => {
            file.extend_from_slice(rest.as_bytes())?;
            file.push(b'\n')?;
        }
        "ar" => {
            let (name, size) = rest.rsplit_once(' ').unwrap_or((rest, ""));
            put_header(alloc, file, name, size)?;
        }
        _ => {
            let bytes = bytes_of(alloc, line)?;
            if let [kind, body @ ..] = bytes.as_slice() {
                put_record(file, *kind, body)?;
            }
        }
    }
    Ok(())
}

/// The bytes of a file.
pub fn file_of(alloc: Global, lines: &str) -> Result<Vec<u8>, Fail> {
    let mut file = Vec::new(alloc);
    for line in lines.lines() {
        if !line.starts_with('#') {
            put_line(alloc, &mut file, line)?;
        }
    }
    Ok(file)
}

/// Appends a name's bytes as text.
fn push_name(text: &mut String, name: &[u8]) -> Result<(), AllocError> {
    text.push(' ')?;
    push_text(text, name)
}

/// Whether a member's bytes are those of the file at its place.
fn is_own(file: &[u8], member: &Member<'_>) -> bool {
    match file.get(member.place..) {
        Some(rest) => rest.starts_with(member.bytes),
        None => false,
    }
}

/// The members, each by its place, its length and its name, or the fault.
fn told_members<A: Allocator + Copy>(
    alloc: A,
    words: Global,
    file: &[u8],
) -> Result<String, AllocError> {
    let mut text = format!(in words; "")?;
    match members(alloc, file) {
        Ok(members) => {
            for member in &members {
                let (place, len) = (member.place, member.bytes.len());
                let own = if is_own(file, member) {
                    ""
                } else {
                    " (not its own)"
                };
                write!(text, "[{place} {len}{own}")?;
                push_name(&mut text, member.name)?;
                text.push_str("]")?;
            }
        }
        Err(fault) => write!(text, "{fault}")?,
    }
    Ok(text)
}

/// Appends names behind a word.
fn push_names(text: &mut String, word: &str, names: &[&[u8]]) -> Result<(), AllocError> {
    text.push_str(word)?;
    for name in names {
        push_name(text, name)?;
    }
    Ok(())
}

/// Appends names behind a word, where there are any.
fn push_some(text: &mut String, word: &str, names: &[&[u8]]) -> Result<(), AllocError> {
    if names.is_empty() {
        return Ok(());
    }
    push_names(text, word, names)
}

/// Appends aliases, each with what it stands for.
fn push_aliases(text: &mut String, aliases: &[Alias<'_>]) -> Result<(), AllocError> {
    for alias in aliases {
        text.push_str(",")?;
        push_name(text, alias.name)?;
        text.push_str(" for")?;
        push_name(text, alias.meaning)?;
        write!(text, " at {}", alias.place)?;
    }
    Ok(())
}

/// Appends all that a module says of names.
fn push_said<A: Allocator + Copy>(
    text: &mut String,
    said: &ModuleNames<'_, A>,
) -> Result<(), AllocError> {
    push_names(text, "wants", &said.wanted)?;
    if said.needed.len() < said.wanted.len() {
        push_names(text, ", needs", &said.needed)?;
    }
    if said.wanted.len() < said.externals.len() {
        push_names(text, ", externals", &said.externals)?;
    }
    push_names(text, ", offers", &said.offered)?;
    push_some(text, ", communal", &said.communals)?;
    push_aliases(text, &said.aliases)?;
    push_names(text, ", libraries", &said.libraries)?;
    if said.dosseg {
        text.push_str(", dosseg")?;
    }
    Ok(())
}

/// The names of a module.
fn told_names<A: Allocator + Copy>(
    alloc: A,
    words: Global,
    file: &[u8],
) -> Result<String, AllocError> {
    let mut text = format!(in words; "")?;
    match module_names(alloc, file) {
        Ok(said) => push_said(&mut text, &said)?,
        Err(_) => text.push_str("no memory")?,
    }
    Ok(text)
}

/// Appends each of some names, with the place of the first record that wants it, and `-` where none does.
fn push_places<A: Allocator + Copy>(
    alloc: A,
    text: &mut String,
    file: &[u8],
    names: &[&str],
) -> Result<(), AllocError> {
    let frames = module_frames(alloc, file)?;
    let places = wanting_places(alloc, &frames)?;
    for (number, name) in names.iter().enumerate() {
        if number > 0 {
            text.push_str(", ")?;
        }
        match places.get(name.as_bytes()) {
            Some(place) => write!(text, "{name} {place}")?,
            None => write!(text, "{name} -")?,
        }
    }
    Ok(())
}

/// The names that a row of places asks for: each stands before its place.
fn asked_names(words: Global, wanted: &str) -> Result<Vec<&str>, AllocError> {
    let mut names = Vec::new(words);
    for pair in wanted.split(", ") {
        let (name, _) = pair.split_once(' ').unwrap_or((pair, ""));
        names.push(name)?;
    }
    Ok(names)
}

/// The names that a row asks for, each with the place of the first record that wants it.
fn told_places<A: Allocator + Copy>(
    alloc: A,
    words: Global,
    file: &[u8],
    wanted: &str,
) -> Result<String, AllocError> {
    let names = asked_names(words, wanted)?;
    let mut text = format!(in words; "")?;
    match push_places(alloc, &mut text, file, &names) {
        Ok(()) => Ok(text),
        Err(_) => format!(in words; "no memory"),
    }
}

/// What of a file is told.
#[derive(Clone, Copy)]
pub enum What {
    /// The members.
    Members,
    /// The names of the module.
    Names,
    /// The places of the records that want some names first.
    Places,
    /// How many bytes tell the modules of the file.
    End,
}

/// How many bytes from the front of a file tell its modules: so many of each front that has them, and of none that is
/// shorter.
fn told_end(words: Global, file: &[u8]) -> Result<String, AllocError> {
    let Some(end) = modules_end(file) else {
        return format!(in words; "none");
    };
    for len in 0..file.len() {
        let found = modules_end(&file[..len]);
        if found != (end <= len).then_some(end) {
            return format!(in words; "{end}, but not of {len}");
        }
    }
    format!(in words; "{end}")
}

/// What is told of a file, for what is wanted.
pub fn told<A: Allocator + Copy>(
    alloc: A,
    words: Global,
    what: What,
    file: &[u8],
    wanted: &str,
) -> Result<String, AllocError> {
    match what {
        What::Members => told_members(alloc, words, file),
        What::Names => told_names(alloc, words, file),
        What::Places => told_places(alloc, words, file, wanted),
        What::End => told_end(words, file),
    }
}

/// What is told of each file of a table is what is wanted.
pub fn run(alloc: Global, what: What, table: &str) -> Result<(), Fail> {
    for row in table.split("\n\n") {
        let (lines, wanted) = row.split_once("\n= ").unwrap_or((row, ""));
        let file = file_of(alloc, lines)?;
        let told = told(alloc, alloc, what, &file, wanted)?;
        same(told.as_str(), wanted)?;
    }
    Ok(())
}
