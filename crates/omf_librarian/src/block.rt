//! A block of a dictionary (TIS OMF 1.1, Appendix 2).

ghost use Rattle.std.specs.Prelude.{◌≡◌, ◌<◌, ◌≤◌, ◌+◌, ◌*◌, length, slice_index, Some, None, IfSome};
ghost use Rattle.omf_librarian.specs.Entering.{entry_words, first_empty, with_entry};
ghost use Rattle.omf_librarian.specs.inside.Views.{BlockEntered, entry_view, hash_view};

use crate::hashing::{BUCKETS, Hash};

/// How many bytes a block has.
pub(crate) const BLOCK: usize = 512;

/// How many words.
const WORDS: usize = 256;

/// The byte that tells where the free space of a block begins, as a number of words.
const FREE: usize = 37;

/// What it tells where there is none.
const FULL: u8 = 0xFF;

/// A name, and the number of the page at which the member begins that offers it.
#[derive(Clone, Copy)]
pub(crate) struct Entry<'a> {
    pub name: &'a [u8],
    pub page: u16,
}

/// The first empty bucket of a block by a hash.
fn empty_bucket(block: &[u8], hash: Hash) -> Option<usize>
    requires size { length block.now ≡ 512 }
    requires first { hash.bucket < 37 }
    requires next { hash.bucket_delta < 37 }
    ensures said { result ≡ first_empty block.now (hash_view hash) }
    ensures within { IfSome result (λ bucket. bucket < 37) }
{
    let mut bucket = hash.bucket;
    for _ in 0..BUCKETS {
        if block[bucket] == 0 {
            return Some(bucket);
        }
        bucket = (bucket + hash.bucket_delta) % BUCKETS;
    }
    None
}

/// How many words an entry takes: its length, its name and its page, and a byte more where that makes them even.
fn words(entry: &Entry<'_>) -> usize
    requires { length entry.now.name.now ≤ 255 }
    ensures { result ≡ entry_words (entry_view entry.now) }
{
    (entry.name.len() + 4) / 2
}

/// Puts an entry into an empty bucket of a block whose free space begins at this word and has room for it.
fn put(block: &mut [u8], bucket: usize, free: u8, entry: &Entry<'_>)
    requires size { length block.old ≡ 512 }
    requires bucket { bucket < 37 }
    requires free { free ≡ slice_index block.old 37 }
    requires short { length entry.now.name.now ≤ 255 }
    requires room { free + entry_words (entry_view entry.now) ≤ 256 }
    ensures { block.new ≡ with_entry block.old bucket (entry_view entry.now) }
{
    let place = 2 * usize::from(free);
    let behind = place + 1 + entry.name.len();
    block[place] = entry.name.len() as u8;
    block[place + 1..behind].copy_from_slice(entry.name);
    block[behind..behind + 2].copy_from_slice(&entry.page.to_le_bytes());
    block[bucket] = free;
    block[FREE] = (usize::from(free) + words(entry)).min(usize::from(FULL)) as u8;
}

/// Enters a name in a block, if it has an empty bucket for it and room; else the block is full from then on. Hands out whether the name is entered.
#[tactic(auto, unfolding(crate::specs::Entering::entered_in, crate::specs::Entering::full_block))]
pub(crate) fn enter_in(block: &mut [u8], hash: Hash, entry: &Entry<'_>) -> bool
    requires size { length block.old ≡ 512 }
    requires first { hash.bucket < 37 }
    requires next { hash.bucket_delta < 37 }
    requires short { length entry.now.name.now ≤ 255 }
    ensures { BlockEntered block.old block.new (hash_view hash) (entry_view entry.now) result }
{
    let Some(bucket) = empty_bucket(block, hash) else {
        block[FREE] = FULL;
        return false;
    };
    let free = block[FREE];
    if usize::from(free) + words(entry) > WORDS {
        block[FREE] = FULL;
        return false;
    }
    put(block, bucket, free, entry);
    true
}
