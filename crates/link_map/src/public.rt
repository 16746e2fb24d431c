//! Publics as the map lists them, in its two orders.
ghost use Rattle.std.specs.Prelude.{◌≡◌, ◌+◌, ◌-◌, ◌*◌, ◌^◌, ◌<◌, ◌≤◌, OnOk};
ghost use Rattle.std.specs.List.{flat_map};
ghost use Rattle.omf_frame.specs.Device.{Writes};
ghost use Rattle.link_map.specs.Ordered.{ordered};
ghost use Rattle.link_map.specs.Public as spec;
ghost use Rattle.link_map.specs.inside.Listed.{all_seen, seen};

use omf_frame::{IoFault, Sink};
use omf_text::{Hexadecimal, put_pieces};
use std::alloc::{AllocError, Allocator};

/// The bytes of a paragraph.
pub(crate) const PARAGRAPH_LEN: u32 = 16;

/// The bytes that offsets from a frame reach.
const FRAME_LEN: u32 = 65_536;

/// A public of a program, as it is listed.
#[derive(Clone, Copy, Debug)]
pub(crate) struct ListedPublic<'a> {
    pub(crate) name: &'a [u8],
    /// The paragraph from which the offset counts.
    pub(crate) frame: u32,
    pub(crate) offset: u32,
    pub(crate) is_absolute: bool,
}

/// The frame that a public at an address is listed with: its own, where the address lies in the 65,536 bytes from there
/// on, and else the paragraph of the address.
pub(crate) fn listed_frame(address: u32, frame: u16) -> u32
    ensures same { result ≡ spec.listed_frame address frame }
    ensures below { 16 * result ≤ address }
{
    let start = PARAGRAPH_LEN * u32::from(frame);
    if start <= address && address < start + FRAME_LEN {
        u32::from(frame)
    } else {
        address / PARAGRAPH_LEN
    }
}

/// A public at an address, counted from a frame at or below it.
pub(crate) fn counted_from<'a>(
    name: &'a [u8],
    address: u32,
    frame: u32,
    is_absolute: bool,
) -> ListedPublic<'a>
    requires { 16 * frame ≤ address }
    ensures { seen result ≡ spec.counted_from name.now address frame is_absolute }
{
    ListedPublic {
        name,
        frame,
        offset: address - PARAGRAPH_LEN * frame,
        is_absolute,
    }
}

/// Brings publics into the order of their names.
pub(crate) fn sort_by_name<A: Allocator + Copy>(
    listed: &mut Vec<ListedPublic<'_>, A>,
) -> Result<(), AllocError>
    ensures { OnOk result (all_seen listed.new.items ≡ ordered spec.by_name (all_seen listed.old.items)) }
{
    listed.sort_by(|one, other| one.name.cmp(other.name))?;
    Ok(())
}

/// Brings publics into the order of where they stand.
pub(crate) fn sort_by_value<A: Allocator + Copy>(
    listed: &mut Vec<ListedPublic<'_>, A>,
) -> Result<(), AllocError>
    ensures { OnOk result (all_seen listed.new.items ≡ ordered spec.by_value (all_seen listed.old.items)) }
{
    listed.sort_by(|one, other| {
        one.frame
            .cmp(&other.frame)
            .then(one.offset.cmp(&other.offset))
    })?;
    Ok(())
}

/// What stands between a public's place and its name.
fn mark<'n>(public: ListedPublic<'n>) -> &'n [u8]
    ensures { result.now ≡ spec.mark public.entry.is_absolute }
{
    if public.is_absolute {
        b"  Abs  "
    } else {
        b"       "
    }
}

/// Writes the line of a public.
#[tactic(auto, unfolding(crate::specs::Public::public_line))]
fn put_public<K: Sink>(sink: &mut K, public: &ListedPublic<'_>) -> Result<(), IoFault>
    requires { K.failures sink.old < 2 ^ 64 - 1 }
    ensures { Writes K.written K.failures sink.old sink.new (spec.public_line (seen public.now)) result }
{
    let frame = Hexadecimal::new(u64::from(public.frame), 4);
    let offset = Hexadecimal::new(u64::from(public.offset), 4);
    let pieces = [
        b" ".as_slice(),
        frame.as_bytes(),
        b":".as_slice(),
        offset.as_bytes(),
        mark(*public),
        public.name,
        b"\n".as_slice(),
    ];
    put_pieces(sink, pieces.as_slice())
}

/// Writes the lines of publics.
pub(crate) fn put_publics<K: Sink>(
    sink: &mut K,
    publics: &[ListedPublic<'_>],
) -> Result<(), IoFault>
    requires { K.failures sink.old < 2 ^ 64 - 1 }
    ensures { Writes K.written K.failures sink.old sink.new
        (flat_map spec.public_line (all_seen publics.now)) result }
{
    for public in publics {
        put_public(sink, public)?;
    }
    Ok(())
}
