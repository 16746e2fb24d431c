//! Where segments of modules stand in an image.
ghost use Rattle.std.specs.Prelude.{◌≡◌, ◌<◌, ◌++◌, All, IfOk, OnOk, is_some, filter, length, option_map};
ghost use Rattle.omf_match.specs.Matching as spec;
ghost use Rattle.omf_match.specs.Items.{items_of};
ghost use Rattle.omf_match.specs.Places.{IsInside};

use crate::pattern::pattern_of;
use byte_places::Index;
use omf_module::{Module, Standing};
use std::alloc::{AllocError, Allocator};

/// How many bytes of a segment have to be known, so that it is looked for.
const LEAST_KNOWN: usize = 8;

/// How many bytes a pattern asks for.
fn known_count(cells: &[Option<u8>]) -> usize
    ensures { result ≡ length (filter is_some cells.now) }
{
    let mut count = 0;
    for cell in cells {
        if cell.is_some() {
            count += 1;
        }
    }
    count
}

/// What a segment's address is a multiple of.
fn alignment_of(standing: Standing) -> usize
    ensures { result ≡ spec.alignment_of standing }
{
    match standing {
        Standing::Absolute { .. } => 1,
        Standing::Relocatable { alignment, .. } => usize::from(alignment),
    }
}

/// The first places, at most `limit` of them, at which a segment of a module stands in an image, by its index from 0.
/// None where fewer than 8 of its bytes are known.
///
/// # Errors
/// There was no memory.
pub fn places_of<A: Allocator + Copy, B: Allocator + Copy, C: Allocator + Copy>(
    alloc: A,
    image: &Index<'_, B>,
    from: &Module<C>,
    segment: usize,
    limit: usize,
) -> Result<Option<Vec<usize, A>>, AllocError>
    requires { segment < length from.now.segments }
    ensures { IfOk result (λ found. option_map items_of found ≡ spec.places_of from.now segment image.now limit) }
{
    from.promises();
    let cells = pattern_of(alloc, from, segment)?;
    if known_count(&cells) < LEAST_KNOWN {
        return Ok(None);
    }
    let alignment = alignment_of(from.segment(segment).standing);
    let places = image.places(alloc, &cells, alignment, limit)?;
    Ok(Some(places))
}

/// How many places of a segment are told at most.
const MOST_PLACES: usize = 16;

/// A segment of a module, by its index from 0, that stands at a place of an image.
#[derive(Clone, Copy, Debug, PartialEq, Eq)]
pub struct Stand {
    pub segment: usize,
    pub place: usize,
}

/// Appends the first places at which a segment stands.
fn push_segment<A: Allocator + Copy, B: Allocator + Copy, C: Allocator + Copy>(
    alloc: A,
    found: &mut Vec<Stand, A>,
    image: &Index<'_, B>,
    from: &Module<C>,
    segment: usize,
) -> Result<(), AllocError>
    requires { segment < length from.now.segments }
    ensures { OnOk result (found.new.items ≡ found.old.items ++ spec.segment_stands from.now image.now segment) }
{
    if let Some(places) = places_of(alloc, image, from, segment, MOST_PLACES)? {
        for place in &places {
            found.push(Stand {
                segment,
                place: *place,
            })?;
        }
    }
    Ok(())
}

/// The segments of a module that stand in an image, in their order, each with its first places, at most 16 of them.
///
/// # Errors
/// There was no memory.
pub fn stands<A: Allocator + Copy, B: Allocator + Copy, C: Allocator + Copy>(
    alloc: A,
    image: &Index<'_, B>,
    from: &Module<C>,
) -> Result<Vec<Stand, A>, AllocError>
    ensures exact { IfOk result (λ found. found.items ≡ spec.stands from.now image.now) }
    ensures inside { IfOk result (λ found. All (IsInside from.now image.now) found.items) }
{
    let mut found = Vec::new(alloc);
    for segment in 0..from.segment_count() {
        push_segment(alloc, &mut found, image, from, segment)?;
    }
    Ok(found)
}
