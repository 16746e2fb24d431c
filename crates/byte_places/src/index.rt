//! The table of an image's words.

ghost use Rattle.std.specs.Prelude.{◌≡◌};

use std::alloc::{Allocator, Global};
use std::marker::Model;

/// An image, and for each word the places at which it stands there.
#[derive(Drop)]
pub struct Index<'a, A: Allocator + Copy = Global> {
    pub(crate) image: &'a [u8],
    // The first place of each word, or the number of places where there is none.
    pub(crate) first: Vec<usize, A>,
    // The next place of the word that stands at a place.
    pub(crate) next: Vec<usize, A>,
    // How often each word stands in the image.
    pub(crate) counts: Vec<usize, A>,
}

impl<'a, A: Allocator + Copy> Model for Index<'a, A> {
    ghost use Rattle.std.specs.Prelude.{List, ℕ};
    ghost use Rattle.byte_places.specs.Chains.{IsTable};

    ghost Value = { List ℕ };

    ghost view = { λ i. i.image.now };

    ghost invariant = { λ i. IsTable i.image.now i.first.items i.next.items i.counts.items };
}

impl<'a, A: Allocator + Copy> Index<'a, A> {
    /// The image.
    pub fn image(&self) -> &'a [u8]
        ensures { result.now ≡ self.now }
    {
        self.image
    }
}
