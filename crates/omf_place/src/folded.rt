//! Names as keys that agree without regard to case.

ghost use Rattle.std.specs.Prelude.{◌≡◌};
ghost use Rattle.std.proofs.Common.{ap};
ghost use Rattle.std.specs.Cmp.{partial_equiv_from_equiv};
ghost use Rattle.std.specs.Cmp.Lexicographic.{on_texts_equal, bytes_decides};
ghost use Rattle.std.specs.Hash as fed;
ghost use Rattle.std.specs.List.{flat_map};
ghost use Rattle.std.specs.Str.{bytes_eq};
ghost use Rattle.omf_place.specs.inside.HeldNames.{folded_key, key_name};

use std::alloc::Allocator;
use std::hash::{Hash, Hasher};

/// A name that a map holds, or one that it is asked for.
#[derive(Drop)]
pub(crate) enum FoldedName<'a, A: Allocator + Copy> {
    Held(Vec<u8, A>),
    Asked(&'a [u8]),
}

impl<'a, A: Allocator + Copy> FoldedName<'a, A> {
    /// The bytes of the name.
    fn bytes(&self) -> &[u8]
        ensures { result.now ≡ key_name self.now }
    {
        match self {
            FoldedName::Held(name) => name.as_slice(),
            FoldedName::Asked(name) => name,
        }
    }
}

impl<'a, A: Allocator + Copy> PartialEq for FoldedName<'a, A> {
    ghost eq = { λ x y. bytes_eq (folded_key x) (folded_key y) };

    ghost laws = { partial_equiv_from_equiv (on_texts_equal folded_key) };

    fn eq(&self, other: &FoldedName<'a, A>) -> bool {
        self.bytes().eq_ignore_ascii_case(other.bytes())
    }
}

impl<'a, A: Allocator + Copy> Eq for FoldedName<'a, A> {
    ghost laws = { on_texts_equal folded_key };
}

impl<'a, A: Allocator + Copy> Hash for FoldedName<'a, A> {
    ghost hash_input = { λ x. flat_map fed.u8 (folded_key x) };

    ghost respects_eq = { λ x y h. ap (flat_map fed.u8) ((bytes_decides (folded_key x) (folded_key y)).0 h) };

    fn hash<H: Hasher>(&self, state: &mut H) {
        for byte in self.bytes() {
            state.write_u8(byte.to_ascii_lowercase());
        }
    }
}
