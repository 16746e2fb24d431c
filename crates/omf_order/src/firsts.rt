//! Where keys are first met.

ghost use Rattle.std.specs.Prelude.{◌≡◌, map, cond, IfOk, OnOk, Some, is_some, length, unwrap_or, true, false};
ghost use Rattle.std.specs.List.{list_any, position_or_len};
ghost use Rattle.indexmap.specs.IndexMap.{get};

use indexmap::IndexMap;
use std::alloc::{AllocError, Allocator};
use std::hash::{BuildHasherDefault, FoldHasher, Hash};
use std::marker::Model;

/// The place at which each key was first met. The hash has a fixed seed.
type FirstPlaces<K, A> = IndexMap<K, usize, BuildHasherDefault<FoldHasher>, A>;

/// Notes that a key is met at a place, unless it was met before.
fn meet<K: Eq + Hash + Copy, A: Allocator + Copy>(
    met: &mut FirstPlaces<K, A>,
    key: K,
    place: usize,
) -> Result<(), AllocError>
    ensures kept { OnOk result
        ((q : K) → is_some (get K.eq met.old key) ≡ true → get K.eq met.new q ≡ get K.eq met.old q) }
    ensures added { OnOk result
        ((q : K) → is_some (get K.eq met.old key) ≡ false →
        get K.eq met.new q ≡ cond (K.eq key q) (Some place) (get K.eq met.old q)) }
{
    if met.contains_key(&key) {
        return Ok(());
    }
    met.insert(key, place)?;
    Ok(())
}

/// Where each of some keys is first met.
fn places_met<K: Eq + Hash + Copy, A: Allocator + Copy>(
    alloc: A,
    keys: &[K],
) -> Result<FirstPlaces<K, A>, AllocError>
    ensures { IfOk result (λ met. (q : K) →
        unwrap_or (get K.eq met q) (length keys.now) ≡ position_or_len (K.eq q) keys.now) }
{
    let mut met: FirstPlaces<K, A> = IndexMap::new(alloc);
    for (place, key) in keys.iter().enumerate() {
        meet(&mut met, *key, place)?;
    }
    Ok(met)
}

/// Some keys, and where each is first met.
#[derive(Drop)]
pub(crate) struct KeyPlaces<'k, K: Eq + Hash + Copy, A: Allocator + Copy> {
    keys: &'k [K],
    met: FirstPlaces<K, A>,
}

impl<'k, K: Eq + Hash + Copy, A: Allocator + Copy> Model for KeyPlaces<'k, K, A> {
    ghost use Rattle.std.specs.Prelude.{◌≡◌, List, length, unwrap_or};
    ghost use Rattle.std.specs.List.{position_or_len};
    ghost use Rattle.indexmap.specs.IndexMap.{get};

    ghost Value = { List K };

    ghost view = { λ p. p.keys.now };

    ghost invariant = { λ p. (q : K) →
        unwrap_or (get K.eq p.met q) (length p.keys.now) ≡ position_or_len (K.eq q) p.keys.now };
}

impl<'k, K: Eq + Hash + Copy, A: Allocator + Copy> KeyPlaces<'k, K, A> {
    /// Those of some keys.
    pub(crate) fn new(alloc: A, keys: &'k [K]) -> Result<Self, AllocError>
        ensures { IfOk result (λ p. p ≡ keys.now) }
    {
        let met = places_met(alloc, keys)?;
        Ok(KeyPlaces { keys, met })
    }

    /// The place of the first key that is equal to this one, or their number.
    pub(crate) fn first(&self, key: K) -> usize
        ensures { result ≡ position_or_len (K.eq key) self.now }
    {
        self.met.get(&key).copied().unwrap_or(self.keys.len())
    }

    /// Whether some key is equal to this one.
    pub(crate) fn has(&self, key: K) -> bool
        ensures { result ≡ list_any (K.eq key) self.now }
    {
        self.first(key) < self.keys.len()
    }
}

/// For each key that is asked for, the place of the first of some keys that is equal to it, or their number.
fn places_of<K: Eq + Hash + Copy, A: Allocator + Copy>(
    alloc: A,
    known: &KeyPlaces<'_, K, A>,
    asked: &[K],
) -> Result<Vec<usize, A>, AllocError>
    ensures { IfOk result (λ v. v.items ≡ map (λ k. position_or_len (K.eq k) known.now) asked.now) }
{
    let mut places = Vec::new(alloc);
    for key in asked {
        let place = known.first(*key);
        places.push(place)?;
    }
    Ok(places)
}

/// For each key that is asked for, the place of the first of the others that is equal to it, or their number.
pub(crate) fn first_places<K: Eq + Hash + Copy, A: Allocator + Copy>(
    alloc: A,
    asked: &[K],
    keys: &[K],
) -> Result<Vec<usize, A>, AllocError>
    ensures { IfOk result (λ v. v.items ≡ map (λ k. position_or_len (K.eq k) keys.now) asked.now) }
{
    let known = KeyPlaces::new(alloc, keys)?;
    places_of(alloc, &known, asked)
}
