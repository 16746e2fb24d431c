//! The files that words name, and what is told of them.
ghost use Rattle.std.specs.Prelude.{◌≡◌, ◌++◌, ℕ, IfOk, List, string_bytes};
ghost use Rattle.std.specs.List.{before_first};
ghost use Rattle.std.specs.Option.{option_map};
ghost use Rattle.doslink_asked.specs.Responses as spec;
ghost use Rattle.doslink_asked.specs.Responses.{IsTextIn};

use crate::fault::AskingFault;
use doslink_files::{ReadFault, has_extension, read_file};
use doslink_telling::{push_path_line, push_unread_line};
use omf_files::{FileId, PlaceKind, World};
use std::alloc::{AllocError, Global};

/// How deep response files may name others.
pub(crate) const MOST_DEEP: usize = 8;

/// How many response files words may have, those that they name included.
const MOST_FILES: usize = 200;

/// What is read of the files that words name, and what is told of it.
#[derive(Drop)]
pub struct Sources {
    /// The memory that is used.
    pub(crate) alloc: Global,
    /// Which files were read.
    pub files: Vec<FileId>,
    /// How many response files were.
    pub(crate) count: usize,
    /// The lines that are told: warnings, and what is wrong.
    pub lines: Vec<u8>,
}

impl Sources {
    /// Nothing yet.
    pub fn new(alloc: Global) -> Sources {
        Sources {
            alloc,
            files: Vec::new(alloc),
            count: 0,
            lines: Vec::new(alloc),
        }
    }

    /// Tells a line of what is wrong with words.
    pub(crate) fn wrong(&mut self, line: &str) -> AskingFault {
        match self.lines.extend_from_slice(line.as_bytes()) {
            Ok(()) => AskingFault::Words,
            Err(AllocError) => AskingFault::Memory,
        }
    }

    /// Tells what is wrong with a file at a path.
    pub(crate) fn wrong_file(&mut self, path: &str, why: &str) -> AskingFault {
        match push_path_line(&mut self.lines, path, why) {
            Ok(()) => AskingFault::Words,
            Err(AllocError) => AskingFault::Memory,
        }
    }

    // Tells why a file at a path can't be read.
    fn unread(&mut self, path: &str, fault: ReadFault) -> AskingFault {
        if matches!(fault, ReadFault::Memory) {
            return AskingFault::Memory;
        }
        match push_unread_line(&mut self.lines, path, fault) {
            Ok(()) => AskingFault::Device,
            Err(AllocError) => AskingFault::Memory,
        }
    }

    /// Counts a response file. Words that have so many before it may have no more.
    pub(crate) fn count_file(&mut self, path: &str) -> Result<(), AskingFault> {
        if self.count < MOST_FILES {
            self.count = self.count.saturating_add(1);
            return Ok(());
        }
        Err(self.wrong_file(path, "a line has at most 200 response files"))
    }
}

/// The path of the response file that a word names: what stands behind `@`.
pub(crate) fn response_path(word: &str) -> Option<&str>
    ensures { option_map (λ path. path.now) result ≡ spec.response_path word.now }
{
    word.strip_prefix('@')
}

/// The bytes of a file up to a Ctrl-Z.
fn up_to_end(bytes: &[u8]) -> &[u8]
    ensures { result.now ≡ before_first spec.is_end bytes.now }
{
    let end = bytes.iter().position(|byte| *byte == 0x1A);
    &bytes[..end.unwrap_or(bytes.len())]
}

/// Appends the text of a file that words name, up to a Ctrl-Z.
fn push_response<W: World>(
    world: &W,
    path: &str,
    text: &mut String,
    sources: &mut Sources,
) -> Result<(), AskingFault>
    ensures { IfOk result (λ done. (part : List ℕ) × IsTextIn (W.bytes world.now path.now) part
        × (string_bytes text.new ≡ string_bytes text.old ++ part)) }
{
    let file = match read_file(sources.alloc, world, path) {
        Ok(file) => file,
        Err(fault) => return Err(sources.unread(path, fault)),
    };
    if let Some(id) = file.id {
        sources.files.push(id)?;
    }
    match str::from_utf8(up_to_end(&file.bytes)) {
        Ok(part) => Ok(text.push_str(part)?),
        Err(_) => Err(sources.wrong_file(path, "it is no UTF-8 text")),
    }
}

/// The text of a file that words name, up to a Ctrl-Z.
pub(crate) fn response_text<W: World>(
    world: &W,
    path: &str,
    sources: &mut Sources,
) -> Result<String, AskingFault>
    ensures { IfOk result (λ text. IsTextIn (W.bytes world.now path.now) (string_bytes text)) }
{
    let mut text = String::new(sources.alloc);
    push_response(world, path, &mut text, sources)?;
    Ok(text)
}

/// Whether a file is at a path, which is no folder.
fn is_file<W: World>(world: &W, path: &str) -> bool {
    match world.look(path) {
        Ok(looked) => !matches!(looked.kind, PlaceKind::Folder),
        Err(_) => false,
    }
}

/// The path of a file of directives: the one that is said or, where its last part has no dot, that with `.lnk` behind
/// it, if a file is there and none at the path itself.
pub(crate) fn directives_path<W: World>(
    alloc: Global,
    world: &W,
    path: &str,
) -> Result<String, AllocError>
    ensures { IfOk result (λ found. spec.IsDirectivePath path.now (string_bytes found)) }
{
    let said = String::from_str(alloc, path)?;
    if has_extension(path.as_bytes()) || is_file(world, path) {
        return Ok(said);
    }
    let mut longer = String::from_str(alloc, path)?;
    longer.push_str(".lnk")?;
    if is_file(world, longer.as_str()) {
        Ok(longer)
    } else {
        Ok(said)
    }
}
