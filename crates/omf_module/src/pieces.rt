//! Pieces of the lists of a store: how they are kept at a list's end, and lent.
ghost use Rattle.std.specs.Prelude.{◌≡◌, ℕ, ◌+◌, ◌-◌, ◌≤◌, ◌++◌, length, take, drop, List, map, OnOk, OnErr, IfOk};
ghost use Rattle.std.specs.List.{range_with_len};
ghost use Rattle.omf_record.specs.View.{block_view};
ghost use Rattle.omf_record.specs.Expansion as data_of;
ghost use Rattle.omf_record.specs.Expansion.{expansion, blocks_len};
ghost use Rattle.omf_module.specs.inside.Store as stored;
ghost use Rattle.omf_module.specs.inside.Store.{elements};

use omf_record::{Block, expand_into};
use std::alloc::{AllocError, Allocator};

/// A piece of a list: where it begins, and how many elements it has.
#[derive(Clone, Copy, Debug)]
pub struct Piece {
    pub from: usize,
    pub len: usize,
}

/// Keeps a piece at the end of a list.
pub fn keep<A: Allocator + Copy>(bytes: &mut Vec<u8, A>, kept: &[u8]) -> Result<Piece, AllocError>
    ensures kept { (more : List ℕ) × (bytes.new.items ≡ bytes.old.items ++ more) }
    ensures ok { IfOk result (λ piece. (bytes.new.items ≡ bytes.old.items ++ kept.now)
        × (piece ≡ record { from = length bytes.old.items; len = length kept.now })) }
{
    let from = bytes.len();
    bytes.extend_from_slice(kept)?;
    Ok(Piece {
        from,
        len: kept.len(),
    })
}

/// The elements of a piece.
pub fn lend<T>(list: &[T], piece: Piece) -> &[T]
    requires { piece.from + piece.len ≤ length list.now }
    ensures { result.now ≡ elements list.now piece }
{
    &list[piece.from..piece.from + piece.len]
}

/// Numbers so many stored places from 0.
fn number_places<A: Allocator + Copy>(
    places: &mut Vec<u16, A>,
    len: usize,
) -> Result<(), AllocError>
    requires { len ≤ 65536 }
    ensures kept { (more : List ℕ) × (places.new.items ≡ places.old.items ++ more) }
    ensures ok { OnOk result (places.new.items ≡ places.old.items ++ range_with_len 0 len) }
{
    for place in 0..len {
        places.push(place as u16)?;
    }
    Ok(())
}

/// A piece of the places that counts from 0, of at least so many.
///
/// A longer one is made at the end, with a power of two of places, so all of a module take 256 KB at most.
pub fn rising_piece<A: Allocator + Copy>(
    places: &mut Vec<u16, A>,
    rising: Piece,
    len: usize,
) -> Result<Piece, AllocError>
    requires small { len ≤ 65536 }
    requires rises { stored.Rises places.old.items rising }
    ensures kept { (more : List ℕ) × (places.new.items ≡ places.old.items ++ more) }
    ensures ok { IfOk result (λ piece. (len ≤ piece.len) × stored.Rises places.new.items piece) }
{
    if len <= rising.len {
        return Ok(rising);
    }
    let longer = Piece {
        from: places.len(),
        len: len.next_power_of_two().clamp(16, 65_536),
    };
    number_places(places, longer.len)?;
    Ok(longer)
}

/// Makes a list longer by so many elements, and tells where they begin.
fn lengthen<T: Copy + Default, A: Allocator + Copy>(
    list: &mut Vec<T, A>,
    len: usize,
) -> Result<usize, AllocError>
    requires { len ≤ 65536 }
    ensures kept { (more : List T) × (list.new.items ≡ list.old.items ++ more) }
    ensures ok { IfOk result (λ from. (from ≡ length list.old.items)
        × (more : List T) × (list.new.items ≡ list.old.items ++ more) × (length more ≡ len)) }
{
    let from = list.len();
    list.resize(from + len, T::default())?;
    Ok(from)
}

/// Keeps the expansion of blocks at the end of the two lists.
pub fn keep_expansion<A: Allocator + Copy>(
    bytes: &mut Vec<u8, A>,
    places: &mut Vec<u16, A>,
    len: usize,
    blocks: &[Block<'_, A>],
) -> Result<(), AllocError>
    requires len { len ≡ length (expansion (map block_view blocks.now)) }
    requires small { len ≤ 65536 }
    requires short { blocks_len (map block_view blocks.now) ≤ 65534 }
    ensures kept { OnErr result ((more : List ℕ) × (bytes.new.items ≡ bytes.old.items ++ more)) }
    ensures kept_places { OnErr result ((more : List ℕ) × (places.new.items ≡ places.old.items ++ more)) }
    ensures ok { OnOk result
        ((bytes.new.items ≡ bytes.old.items ++ data_of.bytes (expansion (map block_view blocks.now)))
        × (places.new.items ≡ places.old.items ++ data_of.places (expansion (map block_view blocks.now)))) }
{
    let from = lengthen(bytes, len)?;
    let places_from = lengthen(places, len)?;
    let bytes = bytes.as_mut_slice();
    let places = places.as_mut_slice();
    expand_into(blocks, &mut bytes[from..], &mut places[places_from..]);
    Ok(())
}

/// Cuts off the places from one on where another piece begins with the same ones, and tells where they stand.
pub fn keep_once<A: Allocator + Copy>(places: &mut Vec<u16, A>, from: usize, other: Piece) -> usize
    requires from { from ≤ length places.old.items }
    requires other { stored.IsIn (take from places.old.items) other }
    ensures kept { (more : List ℕ) × (places.new.items ≡ take from places.old.items ++ more) }
    ensures stands { stored.Holds places.new.items (record { from = result; len = length places.old.items - from })
        (drop from places.old.items) }
{
    let (before, last) = places.split_at(from);
    if lend(before, other).starts_with(last) {
        places.truncate(from);
        other.from
    } else {
        from
    }
}
