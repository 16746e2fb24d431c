//! The positions of data that a fix-up fixes.

ghost use Rattle.std.specs.Prelude.{◌≡◌, ℕ, List, true, false, length, OnOk};
ghost use Rattle.omf_image.specs.Records.{hits};
ghost use Rattle.omf_image.specs.inside.Marks.{IsPlain};
ghost use Rattle.omf_image.specs.inside.Index.{IsIndex};
ghost use Rattle.omf_image.specs.inside.Stored.{once_at};

use crate::index::Index;
use std::alloc::{AllocError, Allocator};

/// Whether each byte was stored at its own position, as in data that isn't repeated.
pub fn is_plain(places: &[u16]) -> bool
    ensures only { result ≡ true → IsPlain places.now }
    ensures each { IsPlain places.now → result ≡ true }
{
    for (i, place) in places.iter().enumerate() {
        if usize::from(*place) != i {
            return false;
        }
    }
    true
}

/// Finds the position in plain data.
fn find_one<A: Allocator + Copy>(
    len: usize,
    offset: u16,
    found: &mut Vec<u32, A>,
) -> Result<(), AllocError>
    ensures { (stored : List ℕ) → length stored ≡ len → IsPlain stored
        → OnOk result (found.new.items ≡ hits offset stored) }
{
    found.clear();
    if usize::from(offset) < len {
        found.push(u32::from(offset))?;
    }
    Ok(())
}

/// Finds the positions in repeated data by their index.
fn find_all<A: Allocator + Copy>(
    index: &Index<A>,
    offset: u16,
    found: &mut Vec<u32, A>,
) -> Result<(), AllocError>
    ensures { (places : List ℕ) → IsIndex places index.now → OnOk result (found.new.items ≡ hits offset places) }
{
    found.clear();
    found.extend_from_slice(index.hits(offset))?;
    Ok(())
}

/// Finds the positions whose byte was stored at a place, in place of what was found before. Data that isn't plain has
/// an index.
pub fn find_hits<A: Allocator + Copy>(
    places: &[u16],
    plain: bool,
    index: &Index<A>,
    offset: u16,
    found: &mut Vec<u32, A>,
) -> Result<(), AllocError>
    requires plain { plain ≡ true → IsPlain places.now }
    requires index { plain ≡ false → IsIndex places.now index.now }
    ensures { OnOk result (found.new.items ≡ hits offset places.now) }
{
    if plain {
        find_one(places.len(), offset, found)?;
    } else {
        find_all(index, offset, found)?;
    }
    Ok(())
}

/// Finds the place of a location in the bytes as they were stored, where it has a hit.
pub fn find_once<A: Allocator + Copy>(
    index: &Index<A>,
    offset: u16,
    found: &mut Vec<u32, A>,
) -> Result<(), AllocError>
    ensures { (places : List ℕ) → IsIndex places index.now
        → OnOk result (found.new.items ≡ once_at offset (hits offset places)) }
{
    found.clear();
    if !index.hits(offset).is_empty() {
        found.push(u32::from(offset))?;
    }
    Ok(())
}
