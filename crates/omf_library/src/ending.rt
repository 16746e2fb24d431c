//! How far a file is read: to the end of its modules.

ghost use Rattle.std.specs.Prelude.{◌≡◌, IfSome};
ghost use Rattle.omf_library.specs.Ending as spec;

use crate::files::{FileKind, file_kind};
use crate::library::{LIBRARY_END, member_at, page_size};

/// How many bytes from the front of an object module are up to the record that ends it.
fn object_end(file: &[u8]) -> Option<usize>
    ensures { result ≡ spec.object_end file.now }
{
    match member_at(file, 0) {
        Ok(module) => Some(module.bytes.len()),
        Err(_) => None,
    }
}

/// How many bytes from the front of a library are up to the type of the record that ends its members.
fn library_end(file: &[u8]) -> Option<usize>
    ensures { result ≡ spec.library_end file.now }
{
    let Ok(page) = page_size(file) else {
        return None;
    };
    let mut place = page;
    while place < file.len() {
        if file[place] == LIBRARY_END {
            return Some(place + 1);
        }
        let Ok(member) = member_at(file, place) else {
            return None;
        };
        place = (place + member.bytes.len()).next_multiple_of(page);
    }
    None
}

/// Of a file that begins with these bytes, how many from its front tell all its modules: what stands behind them never
/// counts. None where the file may go on, or is at fault within the bytes; of an archive always, since only its own end
/// ends it.
pub fn modules_end(bytes: &[u8]) -> Option<usize>
    ensures end { result ≡ spec.modules_end bytes.now }
    // What stands behind it counts for nothing.
    ensures there { IfSome result (spec.EndsThere bytes.now) }
{
    match file_kind(bytes) {
        FileKind::Object => object_end(bytes),
        FileKind::Library => library_end(bytes),
        FileKind::Archive => None,
    }
}
