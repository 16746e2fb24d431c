//! The records of a file in memory (TIS OMF 1.1, "Record Format").

ghost use Rattle.std.specs.Prelude.{◌≡◌, ◌+◌, ◌≤◌, length, map, IfOk};
ghost use Rattle.omf_library.specs.Records.{record_at, ends_module, comment_text, header_name, module_records};
ghost use Rattle.omf_library.specs.Said.{bytes_said, record_said};
ghost use Rattle.omf_library.specs.inside.Views.{IsSplit};
ghost use Rattle.omf_frame.specs.Lending.{plain_frame};

use crate::fault::{FormatFault, LibraryFault};
use crate::fields::take_name;
use omf_frame::{Frame, closing};
use std::alloc::{AllocError, Allocator};

/// How many records there is room for before a list of them grows: few compilers write more in a module.
const FIRST_ROOM: usize = 16;

/// The record that begins at the place of the file, which is no greater than the file's length; else what is wrong
/// with it. Where the file ends before it, it is cut off.
pub fn record_at(file: &[u8], place: usize) -> Result<Frame<'_>, LibraryFault>
    requires { place ≤ length file.now }
    ensures said { record_said result ≡ record_at file.now place }
    ensures place { IfOk result (λ f. f.place ≡ place) }
    ensures within { IfOk result (λ f. place + (length f.body.now + 4) ≤ length file.now) }
{
    match split_record(&file[place..]) {
        Ok((kind, body)) => Ok(Frame::new(place as u64, kind, body)),
        Err(fault) => Err(LibraryFault::Malformed { place, fault }),
    }
}

/// The type and the body of the record at the front of the bytes.
fn split_record(bytes: &[u8]) -> Result<(u8, &[u8]), FormatFault>
    ensures split { IsSplit bytes.now result }
    ensures within { IfOk result (λ x. length x.1.now + 4 ≤ length bytes.now) }
{
    let [kind, low, high, rest @ ..] = bytes else {
        return Err(FormatFault::Truncated);
    };
    let len = usize::from(*low) + 256 * usize::from(*high);
    if len == 0 {
        return Err(FormatFault::ZeroLength);
    }
    if rest.len() < len {
        return Err(FormatFault::Truncated);
    }
    let body = &rest[..len - 1];
    let last = rest[len - 1];
    if last != 0 && last != closing(*kind, body) {
        return Err(FormatFault::Closing);
    }
    Ok((*kind, body))
}

/// Whether a record of this type ends a module: MODEND, 8AH or 8BH.
pub fn ends_module(kind: u8) -> bool
    ensures { result ≡ ends_module kind }
{
    kind == 0x8A || kind == 0x8B
}

/// The text of a comment of this class, 88H COMENT. None where the record is another.
#[tactic(auto, unfolding(crate::specs::Records::comment_text))]
pub(crate) fn comment_text<'a>(frame: &Frame<'a>, class: u8) -> Option<&'a [u8]>
    ensures { bytes_said result ≡ comment_text class (plain_frame frame.now) }
{
    match frame.body {
        [_, its_class, text @ ..] if frame.kind == 0x88 && *its_class == class => Some(text),
        _ => None,
    }
}

/// The name in a record that heads a module, 80H THEADR or 82H LHEADR. None where the record is another.
#[tactic(auto, unfolding(crate::specs::Records::header_name))]
pub(crate) fn header_name<'a>(frame: &Frame<'a>) -> Option<&'a [u8]>
    ensures { bytes_said result ≡ header_name (plain_frame frame.now) }
{
    if frame.kind != 0x80 && frame.kind != 0x82 {
        return None;
    }
    let (name, _) = take_name(frame.body)?;
    Some(name)
}

/// The records of the module whose records begin the bytes, up to the first that ends a module, or before the first
/// that is at fault.
pub fn module_frames<'a, A: Allocator + Copy>(
    alloc: A,
    bytes: &'a [u8],
) -> Result<Vec<Frame<'a>, A>, AllocError>
    ensures { IfOk result (λ v. map plain_frame v.items ≡ module_records bytes.now 0) }
{
    let mut frames = Vec::with_capacity(alloc, FIRST_ROOM)?;
    let mut place = 0;
    loop {
        let Ok(frame) = record_at(bytes, place) else {
            return Ok(frames);
        };
        frames.push(frame)?;
        if ends_module(frame.kind) {
            return Ok(frames);
        }
        place += frame.body.len() + 4;
    }
}
