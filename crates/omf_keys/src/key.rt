//! Names as keys that agree by a choice.

ghost use Rattle.std.specs.Prelude.{◌≡◌, ◌∷◌, Some, refl};
ghost use Rattle.std.proofs.Common.{ap};
ghost use Rattle.std.specs.Cmp.{on_po, on_total, partial_equiv_from_equiv};
ghost use Rattle.std.specs.Cmp.Lexicographic.{bytes_decides, nat_list_cmp_total, on_texts_equal, slice_cmp};
ghost use Rattle.std.specs.Cmp.Lexicographic.{texts_po, texts_ties};
ghost use Rattle.std.specs.Hash as fed;
ghost use Rattle.std.specs.List.{flat_map, fold};
ghost use Rattle.std.specs.Ordering.{nat_cmp};
ghost use Rattle.omf_place.specs.inside.Named.{folded};
ghost use Rattle.omf_keys.specs.Keys.{by_length, digest_of, key_of, key_order, key_text, same_key, text_fed};

use omf_place::Names;
use std::cmp::Ordering;
use std::hash::{Hash, Hasher};

/// How a name stands to another one: the shorter comes first, and of two that are as long the bytes decide.
fn exact_order(one: &[u8], other: &[u8]) -> Ordering
    ensures { result ≡ slice_cmp nat_cmp (by_length one.now) (by_length other.now) }
{
    let lengths = one.len().cmp(&other.len());
    if lengths.is_ne() {
        return lengths;
    }
    one.cmp(&other)
}

/// The same of names once both are in lower case.
fn folded_order(one: &[u8], other: &[u8]) -> Ordering
    ensures { result ≡ slice_cmp nat_cmp (by_length (folded one.now)) (by_length (folded other.now)) }
{
    let lengths = one.len().cmp(&other.len());
    if lengths.is_ne() {
        return lengths;
    }
    for at in 0..one.len() {
        let order = one[at]
            .to_ascii_lowercase()
            .cmp(&other[at].to_ascii_lowercase());
        if order.is_ne() {
            return order;
        }
    }
    Ordering::Equal
}

/// How a name with its digest stands to another one: the digests decide, and of two that are one the names.
fn exact_key_order(one: (u64, &[u8]), other: (u64, &[u8])) -> Ordering
    ensures { result ≡ slice_cmp nat_cmp (one.entry.0 ∷ by_length one.entry.1.now)
        (other.entry.0 ∷ by_length other.entry.1.now) }
{
    let digests = one.0.cmp(&other.0);
    if digests.is_ne() {
        return digests;
    }
    exact_order(one.1, other.1)
}

/// The same of names once both are in lower case.
fn folded_key_order(one: (u64, &[u8]), other: (u64, &[u8])) -> Ordering
    ensures { result ≡ slice_cmp nat_cmp (one.entry.0 ∷ by_length (folded one.entry.1.now))
        (other.entry.0 ∷ by_length (folded other.entry.1.now)) }
{
    let digests = one.0.cmp(&other.0);
    if digests.is_ne() {
        return digests;
    }
    folded_order(one.1, other.1)
}

/// What a digest is multiplied with before each byte is added.
const MULTIPLIER: u64 = 1_099_511_628_211;

/// The digest of a name.
fn digest_of(name: &[u8]) -> u64
    ensures { result ≡ digest_of name.now }
{
    let mut digest: u64 = 0;
    for byte in name {
        digest = digest
            .wrapping_mul(MULTIPLIER)
            .wrapping_add(u64::from(*byte));
    }
    digest
}

/// That of a name in lower case.
fn folded_digest_of(name: &[u8]) -> u64
    ensures { result ≡ digest_of (folded name.now) }
{
    let mut digest: u64 = 0;
    for byte in name {
        let byte = byte.to_ascii_lowercase();
        digest = digest
            .wrapping_mul(MULTIPLIER)
            .wrapping_add(u64::from(byte));
    }
    digest
}

/// Feeds a hasher a name, byte by byte: names that would collide as a whole are no nearer to each other than others.
fn feed<H: Hasher>(state: &mut H, name: &[u8])
    ensures { state.new ≡ fold H.write state.old (flat_map fed.u8 name.now) }
{
    for byte in name {
        state.write_u8(*byte);
    }
}

/// Feeds a hasher a name in lower case.
fn feed_folded<H: Hasher>(state: &mut H, name: &[u8])
    ensures { state.new ≡ fold H.write state.old (flat_map fed.u8 (folded name.now)) }
{
    for byte in name {
        state.write_u8(byte.to_ascii_lowercase());
    }
}

/// A name as the key of a map, with which names agree with it: those of one map are all of one choice. Keys have a
/// hash, and an order for maps alone: by their digests first, so that most names are told apart unread, then by their
/// lengths, and then by the bytes that count, so that what a look-up costs doesn't depend on what names there are. A
/// digest is a number of 64 bits that the bytes that count make.
#[derive(Clone, Copy)]
pub enum Key<'a> {
    /// A name that agrees with those of the same bytes.
    Exact { digest: u64, name: &'a [u8] },
    /// One that agrees with those of the same bytes once 41H to 5AH have become 61H to 7AH.
    AsciiFolded { digest: u64, name: &'a [u8] },
}

impl<'a> Key<'a> {
    /// The key of a name under a choice.
    pub fn new(names: Names, name: &'a [u8]) -> Self
        ensures { result ≡ key_of names name.entry }
    {
        match names {
            Names::Exact => Key::Exact {
                digest: digest_of(name),
                name,
            },
            Names::AsciiFolded => Key::AsciiFolded {
                digest: folded_digest_of(name),
                name,
            },
        }
    }
}

impl<'a> PartialEq for Key<'a> {
    ghost eq = { same_key };

    ghost laws = { partial_equiv_from_equiv (on_texts_equal key_text) };

    fn eq(&self, other: &Key<'a>) -> bool {
        match (self, other) {
            (
                Key::Exact {
                    digest: one_digest,
                    name: one,
                },
                Key::Exact {
                    digest: other_digest,
                    name: other,
                },
            ) => one_digest == other_digest && one == other,
            (
                Key::AsciiFolded {
                    digest: one_digest,
                    name: one,
                },
                Key::AsciiFolded {
                    digest: other_digest,
                    name: other,
                },
            ) => one_digest == other_digest && one.eq_ignore_ascii_case(other),
            _ => false,
        }
    }
}

impl<'a> Eq for Key<'a> {
    ghost laws = { on_texts_equal key_text };
}

impl<'a> PartialOrd for Key<'a> {
    ghost partial_cmp = { λ x y. Some (key_order x y) };

    ghost laws = { on_po key_text texts_po };

    fn partial_cmp(&self, other: &Key<'a>) -> Option<Ordering> {
        Some(self.cmp(other))
    }
}

impl<'a> Ord for Key<'a> {
    ghost cmp = { key_order };

    ghost total = { on_total key_text nat_list_cmp_total };

    ghost matches_partial_cmp = { λ x y. refl };

    ghost matches_eq = { λ x y. texts_ties (key_text x) (key_text y) };

    fn cmp(&self, other: &Key<'a>) -> Ordering {
        match (self, other) {
            (
                Key::Exact {
                    digest: one_digest,
                    name: one,
                },
                Key::Exact {
                    digest: other_digest,
                    name: other,
                },
            ) => exact_key_order((*one_digest, one), (*other_digest, other)),
            (
                Key::AsciiFolded {
                    digest: one_digest,
                    name: one,
                },
                Key::AsciiFolded {
                    digest: other_digest,
                    name: other,
                },
            ) => folded_key_order((*one_digest, one), (*other_digest, other)),
            (Key::Exact { .. }, Key::AsciiFolded { .. }) => Ordering::Less,
            (Key::AsciiFolded { .. }, Key::Exact { .. }) => Ordering::Greater,
        }
    }
}

impl<'a> Hash for Key<'a> {
    ghost hash_input = { λ x. text_fed (key_text x) };

    ghost respects_eq = { λ x y h. ap text_fed ((bytes_decides (key_text x) (key_text y)).0 h) };

    fn hash<H: Hasher>(&self, state: &mut H) {
        match self {
            Key::Exact { digest: _, name } => feed(state, name),
            Key::AsciiFolded { digest: _, name } => feed_folded(state, name),
        }
    }
}
