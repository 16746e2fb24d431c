//! Dictionaries of names (TIS OMF 1.1, Appendix 2).

ghost use Rattle.std.specs.Prelude.{◌≡◌, ◌<◌, ◌≤◌, ◌*◌, All, length, map, Some, None, IfOk, IfSome, option_map};
ghost use Rattle.std.specs.List.{repeat};
ghost use Rattle.omf_librarian.specs.Entering.{all_entered, dictionary_of, empty_block, entered, filled};
ghost use Rattle.omf_librarian.specs.inside.Views.{IsEntered, IsShort, entry_view, items_of};

use crate::block::{BLOCK, Entry, enter_in};
use crate::hashing::{BUCKETS, Hash};
use std::alloc::{AllocError, Allocator};

/// The numbers of blocks that a dictionary can have.
const PRIMES: [usize; 54] = [
    2, 3, 5, 7, 11, 13, 17, 19, 23, 29, 31, 37, 41, 43, 47, 53, 59, 61, 67, 71, 73, 79, 83, 89, 97,
    101, 103, 107, 109, 113, 127, 131, 137, 139, 149, 151, 157, 163, 167, 173, 179, 181, 191, 193,
    197, 199, 211, 223, 227, 229, 233, 239, 241, 251,
];

/// The word at which the free space of a block without entries begins, behind its buckets and the byte that tells it.
const FIRST_FREE: u8 = 19;

/// A dictionary of so many blocks without entries.
fn empty<A: Allocator + Copy>(alloc: A, blocks: usize) -> Result<Vec<u8, A>, AllocError>
    requires { blocks ≤ 251 }
    ensures { IfOk result (λ v. v.items ≡ repeat blocks empty_block) }
{
    let mut dictionary = Vec::with_capacity(alloc, blocks * BLOCK)?;
    for _ in 0..blocks {
        let start = dictionary.len();
        dictionary.resize(start + BUCKETS, 0)?;
        dictionary.push(FIRST_FREE)?;
        dictionary.resize(start + BLOCK, 0)?;
    }
    Ok(dictionary)
}

/// Enters a name in a dictionary of so many blocks, if one of those on its way has room for it. Hands out whether it is
/// entered.
fn enter(dictionary: &mut [u8], blocks: usize, entry: &Entry<'_>) -> bool
    requires some { 0 < blocks }
    requires few { blocks ≤ 251 }
    requires size { length dictionary.old ≡ 512 * blocks }
    requires short { length entry.now.name.now ≤ 255 }
    ensures { IsEntered blocks dictionary.old dictionary.new (entry_view entry.now) result }
{
    let hash = Hash::new(blocks, entry.name);
    let mut block = hash.block;
    for _ in 0..blocks {
        let start = BLOCK * block;
        if enter_in(&mut dictionary[start..start + BLOCK], hash, entry) {
            return true;
        }
        block = (block + hash.block_delta) % blocks;
    }
    false
}

/// A dictionary of so many blocks with these entries, if it has room for them.
fn filled<A: Allocator + Copy>(
    alloc: A,
    blocks: usize,
    entries: &[Entry<'_>],
) -> Result<Option<Vec<u8, A>>, AllocError>
    requires some { 0 < blocks }
    requires few { blocks ≤ 251 }
    requires short { All IsShort entries.now }
    ensures said { IfOk result (λ d. option_map items_of d ≡ filled blocks (map entry_view entries.now)) }
    ensures size { IfOk result (λ d. IfSome d (λ v. length v.items ≡ 512 * blocks)) }
{
    let mut dictionary = empty(alloc, blocks)?;
    for entry in entries {
        if !enter(&mut dictionary, blocks, entry) {
            return Ok(None);
        }
    }
    Ok(Some(dictionary))
}

/// The least dictionary with these entries, none of whose names has more than 255 bytes. None where 251 blocks have no
/// room for them.
pub(crate) fn dictionary_of<A: Allocator + Copy>(
    alloc: A,
    entries: &[Entry<'_>],
) -> Result<Option<Vec<u8, A>>, AllocError>
    requires { All IsShort entries.now }
    ensures said { IfOk result (λ d. option_map items_of d ≡ dictionary_of (map entry_view entries.now)) }
    ensures size { IfOk result (λ d. IfSome d (λ v. length v.items ≤ 128512)) }
{
    for blocks in PRIMES {
        if let Some(dictionary) = filled(alloc, blocks, entries)? {
            return Ok(Some(dictionary));
        }
    }
    Ok(None)
}
