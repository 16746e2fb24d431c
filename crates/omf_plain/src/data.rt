//! The data that fix-ups stand in: the last data record before them.

ghost use Rattle.std.specs.Prelude.{◌≡◌, ◌+◌, ◌++◌, ◌<◌, ◌≤◌, ◌^◌, map, IfOk};
ghost use Rattle.omf_extended.specs.View.{wide_block_view};
ghost use Rattle.std.specs.Option.{option_map};
ghost use Rattle.omf_record.specs.Record.{blocks_of};
ghost use Rattle.omf_record.specs.View.{block_view};
ghost use Rattle.omf_record.specs.Expansion.{all_stored_len, blocks_len};
ghost use Rattle.omf_plain.specs.Data as spec;
ghost use Rattle.omf_plain.specs.Data.{all_wide_stored_len};
ghost use Rattle.omf_plain.specs.Fixups as fixups;
ghost use Rattle.omf_plain.specs.View.{content_view, data_view, wide_content_view};

use crate::fault::Obstacle;
use crate::places::{Places, behind};
use omf_extended::WideBlock;
use omf_record::Block;
use std::alloc::{AllocError, Allocator};

/// A content of repeated data.
#[derive(Clone, Copy, Debug)]
pub(crate) struct Content<'a> {
    /// The stored place of its first byte.
    pub(crate) place: usize,
    pub(crate) bytes: &'a [u8],
}

/// A content of repeated data of 32 bits.
#[derive(Clone, Copy, Debug)]
pub(crate) struct WideContent<'a> {
    /// The places of its first byte.
    pub(crate) places: Places,
    pub(crate) bytes: &'a [u8],
}

/// The last data record.
#[derive(Drop)]
pub(crate) enum Data<'a, A: Allocator + Copy> {
    /// There is none.
    Absent,
    /// That of a segment that is kept out.
    KeptOut,
    /// Bytes of the segment with this index, from an offset on.
    Stored {
        segment: u16,
        offset: u16,
        bytes: &'a [u8],
    },
    /// Repeated contents, in the order in which they are stored.
    Repeated {
        contents: Vec<Content<'a>, A>,
    },
    /// Repeated contents of 32 bits, in the order in which they are stored.
    WideRepeated {
        contents: Vec<WideContent<'a>, A>,
    },
}

/// Lists the contents of blocks that are stored from a place on, and says where the blocks end.
fn list_contents<'a, A: Allocator + Copy>(
    list: &mut Vec<Content<'a>, A>,
    blocks: &[Block<'a, A>],
    place: usize,
) -> Result<usize, AllocError>
    requires { place + all_stored_len (blocks_of (map block_view blocks.now)) < 2 ^ 32 }
    ensures { IfOk result (λ end. (end ≡ place + all_stored_len (blocks_of (map block_view blocks.now)))
        × (map content_view list.new.items
        ≡ map content_view list.old.items ++ spec.all_contents_at place (blocks_of (map block_view blocks.now)))) }
{
    let mut place = place;
    for block in blocks {
        place = match block {
            Block::Content { bytes, .. } => {
                list.push(Content {
                    place: place + 5,
                    bytes,
                })?;
                place + 5 + bytes.len()
            }
            Block::Nested { blocks, .. } => list_contents(list, blocks, place + 4)?,
        };
    }
    Ok(place)
}

/// The contents of a record's blocks.
#[tactic(auto, unfolding(omf_record::specs::Expansion::blocks_len))]
pub(crate) fn contents_of<'a, A: Allocator + Copy>(
    alloc: A,
    blocks: &[Block<'a, A>],
) -> Result<Vec<Content<'a>, A>, AllocError>
    requires { blocks_len (map block_view blocks.now) ≤ 65534 }
    ensures { IfOk result (λ v. map content_view v.items ≡ spec.contents (map block_view blocks.now)) }
{
    let mut list = Vec::new(alloc);
    list_contents(&mut list, blocks, 0)?;
    Ok(list)
}

/// Lists the contents of blocks of 32 bits that stand from these places on, and says where the blocks end.
fn list_wide_contents<'a, A: Allocator + Copy>(
    list: &mut Vec<WideContent<'a>, A>,
    blocks: &[WideBlock<'a, A>],
    places: Places,
) -> Result<Places, AllocError>
    requires { places.given + all_wide_stored_len (blocks_of (map wide_block_view blocks.now)) < 2 ^ 32 }
    ensures { IfOk result
        (λ end. (end.given ≡ places.given + all_wide_stored_len (blocks_of (map wide_block_view blocks.now)))
        × (end.said ≡ places.said + all_stored_len (blocks_of (map wide_block_view blocks.now)))
        × (map wide_content_view list.new.items ≡ map wide_content_view list.old.items
        ++ spec.all_wide_contents_at places.given places.said (blocks_of (map wide_block_view blocks.now)))) }
{
    let mut places = places;
    for block in blocks {
        places = match block {
            WideBlock::Content { bytes, .. } => {
                list.push(WideContent {
                    places: behind(places, 7, 5),
                    bytes,
                })?;
                behind(places, 7 + bytes.len(), 5 + bytes.len())
            }
            WideBlock::Nested { blocks, .. } => {
                list_wide_contents(list, blocks, behind(places, 6, 4))?
            }
        };
    }
    Ok(places)
}

/// The contents of a record's blocks of 32 bits.
pub(crate) fn wide_contents_of<'a, A: Allocator + Copy>(
    alloc: A,
    blocks: &[WideBlock<'a, A>],
) -> Result<Vec<WideContent<'a>, A>, AllocError>
    requires { all_wide_stored_len (blocks_of (map wide_block_view blocks.now)) ≤ 65534 }
    ensures { IfOk result
        (λ v. map wide_content_view v.items ≡ spec.wide_contents (map wide_block_view blocks.now)) }
{
    let mut list = Vec::new(alloc);
    list_wide_contents(&mut list, blocks, Places { given: 0, said: 0 })?;
    Ok(list)
}

/// Whether a place lies in a content.
fn lies_in(content: &Content<'_>, place: usize) -> bool
    ensures { result ≡ spec.lies_in place (content_view content.now) }
{
    content.place <= place && place - content.place < content.bytes.len()
}

/// The bytes of contents from a place on that are stored together with it.
fn together_at<'a>(contents: &[Content<'a>], place: usize) -> Option<&'a [u8]>
    ensures { option_map (λ b. b.now) result ≡ spec.together_at (map content_view contents.now) place }
{
    for content in contents {
        if lies_in(content, place) {
            return Some(&content.bytes[place - content.place..]);
        }
    }
    None
}

/// A content of 32 bits as it is given.
fn as_given<'a>(content: &WideContent<'a>) -> Content<'a>
    ensures { content_view result ≡ spec.as_given (wide_content_view content.now) }
{
    Content {
        place: content.places.given,
        bytes: content.bytes,
    }
}

/// The bytes of contents of 32 bits from a place on that are stored together with it.
fn wide_together_at<'a>(contents: &[WideContent<'a>], place: usize) -> Option<&'a [u8]>
    ensures { option_map (λ b. b.now) result
        ≡ spec.together_at (map spec.as_given (map wide_content_view contents.now)) place }
{
    for content in contents {
        let given = as_given(content);
        if lies_in(&given, place) {
            return Some(&given.bytes[place - given.place..]);
        }
    }
    None
}

/// The place of 16 bits of what is given at a place, where that lies in a content.
fn said_place(contents: &[WideContent<'_>], place: u16) -> Option<u16>
    ensures { result ≡ spec.said_place (map wide_content_view contents.now) place }
{
    for content in contents {
        let WideContent { places, .. } = content;
        if lies_in(&as_given(content), usize::from(place)) {
            return Some(place - (places.given - places.said) as u16);
        }
    }
    None
}

impl<'a, A: Allocator + Copy> Data<'a, A> {
    /// The bytes from a place on that are stored together with it.
    pub(crate) fn stored_at(&self, place: u16) -> Option<&'a [u8]>
        ensures { option_map (λ b. b.now) result ≡ spec.stored_at (data_view self.now) place }
    {
        let place = usize::from(place);
        match self {
            Data::Absent | Data::KeptOut => None,
            Data::Stored {
                segment: _,
                offset: _,
                bytes,
            } => together_at(&[Content { place: 0, bytes }], place),
            Data::Repeated { contents } => together_at(contents, place),
            Data::WideRepeated { contents } => wide_together_at(contents, place),
        }
    }

    /// The place of 16 bits of what is given at a place. `OutsideData` where repeated data of 32 bits hasn't it.
    pub(crate) fn plain_place(&self, place: u16) -> Result<u16, Obstacle>
        ensures { result ≡ fixups.plain_place (data_view self.now) place }
    {
        match self {
            Data::WideRepeated { contents } => {
                said_place(contents, place).ok_or(Obstacle::OutsideData)
            }
            _ => Ok(place),
        }
    }
}
