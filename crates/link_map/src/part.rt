//! Parts of segments as the detailed map lists them.
ghost use Rattle.std.specs.Prelude.{◌≡◌, ◌≤◌, ◌++◌, OnOk};
ghost use Rattle.std.specs.List.{flat_map};
ghost use Rattle.link_map.specs.Detailed as spec;
ghost use Rattle.link_map.specs.Ordered.{ordered};
ghost use Rattle.link_map.specs.inside.Details.{all_parts, part_seen};

use crate::numbers::push_pieces;
use crate::public::ListedPublic;
use omf_text::Hexadecimal;
use std::alloc::{AllocError, Allocator};

/// The columns of the widest name.
const WIDEST: usize = 14;

/// The blanks of its columns.
const BLANKS: [u8; WIDEST] = [b' '; WIDEST];

/// A part of a segment, as it is listed.
#[derive(Clone, Copy, Debug)]
pub(crate) struct ListedPart<'a> {
    /// Its address in bytes.
    pub(crate) address: u32,
    /// Where it stands, as a public of the segment's name would be listed.
    pub(crate) place: ListedPublic<'a>,
    /// In bytes.
    pub(crate) length: u32,
    pub(crate) class: &'a [u8],
    /// The name of its group, or what stands for none.
    pub(crate) group: &'a [u8],
    /// The name of its module.
    pub(crate) module_name: &'a [u8],
    /// Its attribute byte.
    pub(crate) attributes: u8,
}

/// Brings parts into the order of their addresses.
pub(crate) fn sort_by_address<A: Allocator + Copy>(
    parts: &mut Vec<ListedPart<'_>, A>,
) -> Result<(), AllocError>
    ensures { OnOk result (all_parts parts.new.items ≡ ordered spec.by_address (all_parts parts.old.items)) }
{
    parts.sort_by_key(|part| part.address)?;
    Ok(())
}

/// The blanks behind a name, up to the end of so many columns.
fn blanks<'n>(width: usize, name: &'n [u8]) -> &'n [u8]
    requires { width ≤ 14 }
    ensures { result.now ≡ spec.blanks width name.now }
{
    &BLANKS[..width.saturating_sub(name.len())]
}

/// Appends the row of a part.
#[tactic(auto, unfolding(crate::specs::Detailed::part_line))]
fn push_part<A: Allocator + Copy>(
    text: &mut Vec<u8, A>,
    part: &ListedPart<'_>,
) -> Result<(), AllocError>
    ensures { OnOk result (text.new.items ≡ text.old.items ++ spec.part_line (part_seen part.now)) }
{
    let frame = Hexadecimal::new(u64::from(part.place.frame), 4);
    let offset = Hexadecimal::new(u64::from(part.place.offset), 4);
    let length = Hexadecimal::new(u64::from(part.length), 4);
    let attributes = Hexadecimal::new(u64::from(part.attributes), 2);
    let pieces = [
        b" ".as_slice(),
        frame.as_bytes(),
        b":".as_slice(),
        offset.as_bytes(),
        b" ".as_slice(),
        length.as_bytes(),
        b" C=".as_slice(),
        part.class,
        blanks(6, part.class),
        b" S=".as_slice(),
        part.place.name,
        blanks(14, part.place.name),
        b" G=".as_slice(),
        part.group,
        blanks(7, part.group),
        b" M=".as_slice(),
        part.module_name,
        blanks(9, part.module_name),
        b" ACBP=".as_slice(),
        attributes.as_bytes(),
        b"\n".as_slice(),
    ];
    push_pieces(text, pieces.as_slice())
}

/// Appends the rows of parts.
pub(crate) fn push_parts<A: Allocator + Copy>(
    text: &mut Vec<u8, A>,
    parts: &[ListedPart<'_>],
) -> Result<(), AllocError>
    ensures { OnOk result
        (text.new.items ≡ text.old.items ++ flat_map spec.part_line (all_parts parts.now)) }
{
    for part in parts {
        push_part(text, part)?;
    }
    Ok(())
}
