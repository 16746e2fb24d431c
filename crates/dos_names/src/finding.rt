//! What is meant by a path of DOS on a machine whose files have names with capital and small letters.

use crate::choice::Choice;
use crate::folders::Folders;
use crate::paths::with_slashes;
use std::fs;
use std::io::{self, Error, ErrorKind};

/// How many names a path has at most that are looked for without regard to case.
const MOST_NAMES: usize = 64;

/// Whether a path has more names.
fn has_more_names(path: &str) -> bool {
    path.as_bytes().iter().filter(|byte| **byte == b'/').count() >= MOST_NAMES
}

/// Whether something stands at a path, and be it a link that leads nowhere.
fn stands_at(rt: &HostRuntime, path: &str) -> bool {
    fs::symlink_metadata(rt, path).is_ok()
}

/// The drive that a path of DOS begins with: a letter and a colon.
fn drive(path: &str) -> Option<&str> {
    match path.as_bytes() {
        [letter, b':', ..] if letter.is_ascii_alphabetic() => path.get(..2),
        _ => None,
    }
}

/// What a name means in a folder: what is so written there, else the one that is the same but for the case of letters.
/// None where there is neither.
fn meant_in(
    rt: &HostRuntime,
    folders: &mut Folders,
    folder: &str,
    name: &str,
) -> io::Result<Option<String>> {
    let written = format!(in rt.alloc(); "{folder}{name}")?;
    if name.is_empty() || stands_at(rt, written.as_str()) {
        return Ok(Some(String::from_str(rt.alloc(), name)?));
    }
    let Some(listing) = folders.names_in(rt, folder)? else {
        return Ok(None);
    };
    match listing.choice(rt.alloc(), name)? {
        Choice::Nothing => Ok(None),
        Choice::One(found) => Ok(Some(String::from_str(rt.alloc(), found)?)),
        Choice::Two(_, _) => Err(Error::from(ErrorKind::InvalidData)),
    }
}

/// Whether a path begins with a drive, and nothing in this folder is called so, where the system tells what stands in
/// it: those that have drives don't.
fn lacks_drive(rt: &HostRuntime, folders: &mut Folders, path: &str) -> io::Result<bool> {
    let Some(name) = drive(path) else {
        return Ok(false);
    };
    match folders.names_in(rt, "")? {
        Some(listing) => Ok(listing.lacks(rt.alloc(), name)?),
        None => Ok(false),
    }
}

/// The path of what is meant by a path of DOS: with `/` for `\`, and as it is written where something stands there.
/// Else each of its names in turn means what it does in the folder before it, and from the first that means nothing
/// there, all are as they are written; so are those of a path of more than 64, since each is looked for by all before.
///
/// # Errors
/// Want of memory. `InvalidData`, where nothing stands at a name as it is written, and two names of its folder are the
/// same as it but for the case of letters. `AddrNotAvailable`, which no call for a file answers, where the path begins
/// with a drive that isn't here.
pub(crate) fn path_meant(
    rt: &HostRuntime,
    folders: &mut Folders,
    path: &str,
) -> io::Result<String> {
    let written = with_slashes(rt.alloc(), path)?;
    if stands_at(rt, written.as_str()) {
        return Ok(written);
    }
    if lacks_drive(rt, folders, written.as_str())? {
        return Err(Error::from(ErrorKind::AddrNotAvailable));
    }
    if has_more_names(written.as_str()) {
        return Ok(written);
    }
    let (mut made, mut stands) = (String::new(rt.alloc()), true);
    for (at, name) in written.as_str().split('/').enumerate() {
        if at > 0 {
            made.push('/')?;
        }
        let meant = if stands {
            meant_in(rt, folders, made.as_str(), name)?
        } else {
            None
        };
        stands = meant.is_some();
        match meant {
            Some(found) => made.push_str(found.as_str())?,
            None => made.push_str(name)?,
        }
    }
    Ok(made)
}
