//! Paths of DOS.
ghost use Rattle.std.specs.Prelude.{◌≡◌, IfOk, map, string_bytes};
ghost use Rattle.dos_names.specs.Names as spec;

use std::alloc::{AllocError, Allocator};
use std::io::{self, Error, ErrorKind};

/// What stands in a path in the place of a byte: `/` in that of `\`.
fn slashed(byte: u8) -> u8
    ensures { result ≡ spec.slashed byte }
{
    if byte == b'\\' { b'/' } else { byte }
}

/// The bytes of a path with `/` in the place of `\`.
fn slashed_bytes<A: Allocator>(alloc: A, path: &[u8]) -> Result<Vec<u8, A>, AllocError>
    ensures { IfOk result (λ bytes. bytes.items ≡ map spec.slashed path.now) }
{
    let mut bytes = Vec::new(alloc);
    for byte in path {
        bytes.push(slashed(*byte))?;
    }
    Ok(bytes)
}

/// A path with `/` in the place of `\`.
///
/// # Errors
/// Want of memory.
pub fn with_slashes<A: Allocator>(alloc: A, path: &str) -> io::Result<String<A>>
    ensures { IfOk result (λ made. string_bytes made ≡ map spec.slashed path.now) }
{
    let bytes = slashed_bytes(alloc, path.as_bytes())?;
    // it is a text as the path is, since a letter of ASCII stands for another
    String::from_utf8(bytes).map_err(|_| Error::from(ErrorKind::InvalidFilename))
}
