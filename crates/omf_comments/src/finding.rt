//! Bytes that may be the text of some fields.

ghost use Rattle.std.specs.Prelude.{◌≡◌, ◌≤◌, IfOk};
ghost use Rattle.omf_codec.specs.inside.Wholes.{IsEnding};
ghost use Rattle.omf_comments.specs.inside.Comments.{FindsText, FrontsByte};

use omf_codec::codec::{Blank, Field};
use omf_codec::whole::{WholeFault, read_whole};
use std::alloc::{AllocError, Allocator};

/// The first byte, and those behind it; none, where there is none.
pub(crate) fn split(bytes: &[u8]) -> Option<(u8, &[u8])>
    ensures { FrontsByte bytes.now result }
{
    match bytes {
        [] => None,
        [first, rest @ ..] => Some((*first, rest)),
    }
}

/// The value that the bytes are the text of; none, where they are of nothing.
pub(crate) fn find_text<'a, A: Allocator + Copy, F: Field<'a, A> + Blank>(
    alloc: A,
    bytes: &'a [u8],
) -> Result<Option<F::Item>, AllocError>
    requires { IsEnding (F.format 0) }
    ensures { IfOk result (FindsText (F.format 0) bytes.now) }
{
    match read_whole::<A, F>(alloc, bytes) {
        Ok(item) => Ok(Some(item)),
        Err(WholeFault::Text { at: _ }) => Ok(None),
        Err(WholeFault::Memory) => Err(AllocError),
    }
}
