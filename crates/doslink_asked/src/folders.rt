//! The folders of the environment's LIB.
ghost use Rattle.std.specs.Prelude.{◌≡◌, ◌==◌, IfOk};
ghost use Rattle.std.specs.List.{slice_split};
ghost use Rattle.doslink_words.specs.Tokens.{texts};
ghost use Rattle.doslink_asked.specs.Folders as spec;

use std::alloc::{AllocError, Global};

/// What semicolons separate.
fn at_semicolons<'a>(alloc: Global, list: &'a str) -> Result<Vec<&'a str>, AllocError>
    ensures { IfOk result (λ parts. texts parts.items ≡ slice_split (λ byte. byte == 59) list.now) }
{
    list.split(';').collect(alloc)
}

/// What colons separate.
fn at_colons<'a>(alloc: Global, list: &'a str) -> Result<Vec<&'a str>, AllocError>
    ensures { IfOk result (λ parts. texts parts.items ≡ slice_split (λ byte. byte == 58) list.now) }
{
    list.split(':').collect(alloc)
}

/// Whether a path begins with a drive: a letter, `:`, and `\` or `/`.
fn begins_with_drive(path: &[u8]) -> bool
    ensures { result ≡ spec.begins_with_drive path.now }
{
    matches!(path, [letter, b':', b'\\' | b'/', ..] if letter.is_ascii_alphabetic())
}

/// The folders that colons separate; what begins with a drive is one.
fn between_colons<'a>(alloc: Global, list: &'a str) -> Result<Vec<&'a str>, AllocError>
    ensures { IfOk result (λ folders. texts folders.items ≡ spec.folders_between_colons list.now) }
{
    if begins_with_drive(list.as_bytes()) {
        Ok(vec![in alloc; list]?)
    } else {
        at_colons(alloc, list)
    }
}

/// The folders of a text. `;` stands between them, or `:`, which doesn't part what begins with a drive, as `C:\LIB`.
fn all_folders<'a>(alloc: Global, list: &'a str) -> Result<Vec<&'a str>, AllocError>
    ensures { IfOk result (λ folders. texts folders.items ≡ spec.all_folders list.now) }
{
    let parts = at_semicolons(alloc, list)?;
    let mut folders = Vec::new(alloc);
    for part in &parts {
        let more = between_colons(alloc, part)?;
        folders.extend_from_slice(&more)?;
    }
    Ok(folders)
}

/// The folders that the environment's LIB names: none where it is empty, and else those between `;`, or between `:` in
/// what doesn't begin with a drive.
pub fn library_folders<'a>(alloc: Global, list: &'a str) -> Result<Vec<&'a str>, AllocError>
    ensures { IfOk result (λ folders. texts folders.items ≡ spec.library_folders list.now) }
{
    if list == "" {
        return Ok(Vec::new(alloc));
    }
    all_folders(alloc, list)
}
