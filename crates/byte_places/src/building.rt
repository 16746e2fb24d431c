//! The table is made.
ghost use Rattle.std.specs.Prelude.{◌≡◌, ◌+◌, ◌*◌, ◌-◌, ◌<◌, IfOk, length};
ghost use Rattle.byte_places.specs.Chains.{AreLinked, IsTable, word_of, word_at};

use crate::index::Index;
use std::alloc::{AllocError, Allocator};

/// How many words there are.
const WORDS: usize = 65_536;

/// The word of two bytes, low byte first.
pub(crate) fn word_of(low: u8, high: u8) -> usize
    ensures word { result ≡ word_of low high }
    ensures small { result < 65536 }
{
    usize::from(low) + 256 * usize::from(high)
}

/// Links each place of an image with the next one of its word, from the last place on.
fn link(image: &[u8], first: &mut [usize], next: &mut [usize], counts: &mut [usize])
    requires first { length first.old ≡ 65536 }
    requires next { length next.old ≡ length image.now - 1 }
    requires counts { length counts.old ≡ 65536 }
    requires none { AreLinked image.now (length image.now - 1) first.old next.old }
    ensures { AreLinked image.now 0 first.new next.new }
{
    let mut place = next.len();
    while place > 0 {
        place -= 1;
        let word = word_of(image[place], image[place + 1]);
        next[place] = first[word];
        first[word] = place;
        counts[word] = counts[word].saturating_add(1);
    }
}

impl<'a, A: Allocator + Copy> Index<'a, A> {
    /// The table of an image.
    pub fn of(alloc: A, image: &'a [u8]) -> Result<Index<'a, A>, AllocError>
        ensures { IfOk result (λ index. index ≡ image.now) }
    {
        let places = image.len().saturating_sub(1);
        let mut first = Vec::from_elem(alloc, places, WORDS)?;
        let mut next = Vec::from_elem(alloc, places, places)?;
        let mut counts = Vec::from_elem(alloc, 0, WORDS)?;
        link(image, &mut first, &mut next, &mut counts);
        Ok(Index {
            image,
            first,
            next,
            counts,
        })
    }
}
