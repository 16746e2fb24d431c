//! The listing of records. Nothing here takes memory.
ghost use Rattle.std.specs.Prelude.{◌≡◌, ◌-◌, ◌^◌, ◌<◌};
ghost use Rattle.omf_frame.specs.Device.{Writes};
ghost use Rattle.omf_text.specs.Listing as spec;
ghost use Rattle.omf_text.specs.Listing.{head_line};

use crate::print::{Hexadecimal, put_pieces, spaces};
use itoa::Buffer;
use omf_frame::{IoFault, Sink};

/// The printed width of a record's name.
const NAME_WIDTH: usize = 7;

/// The printed width of a body's length.
const LENGTH_WIDTH: usize = 5;

/// The name of a record's type, empty where the type isn't one of the fourteen.
#[tactic(auto, unfolding(crate::specs::Listing::record_name))]
pub fn record_name(kind: u8) -> &'static str
    ensures { result.now ≡ spec.record_name kind }
{
    match kind {
        0x80 => "THEADR",
        0x88 => "COMENT",
        0x8A => "MODEND",
        0x8C => "EXTDEF",
        0x90 => "PUBDEF",
        0x94 => "LINNUM",
        0x96 => "LNAMES",
        0x98 => "SEGDEF",
        0x9A => "GRPDEF",
        0x9C => "FIXUPP",
        0xA0 => "LEDATA",
        0xA2 => "LIDATA",
        0xB4 => "LEXTDEF",
        0xB6 => "LPUBDEF",
        _ => "",
    }
}

/// Writes the head line of a record: its place, its type, the type's name and the length of its body,
/// in bytes.
pub fn put_head_line<K: Sink>(
    sink: &mut K,
    place: u64,
    kind: u8,
    length: usize,
) -> Result<(), IoFault>
    requires { K.failures sink.old < 2 ^ 64 - 1 }
    ensures { Writes K.written K.failures sink.old sink.new (head_line place kind length) result }
{
    let place = Hexadecimal::new(place, 8);
    let type_byte = Hexadecimal::new(u64::from(kind), 2);
    let name = record_name(kind);
    let mut digits = Buffer::new();
    let length = digits.format(length);
    let pieces = [
        place.as_bytes(),
        b" ".as_slice(),
        type_byte.as_bytes(),
        b" ".as_slice(),
        name.as_bytes(),
        spaces(NAME_WIDTH.saturating_sub(name.len())),
        b" ".as_slice(),
        spaces(LENGTH_WIDTH.saturating_sub(length.len())),
        length.as_bytes(),
        b"\n".as_slice(),
    ];
    put_pieces(sink, pieces.as_slice())
}
