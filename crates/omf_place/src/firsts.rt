//! Where keys are first met.

ghost use Rattle.std.specs.Prelude.{◌≡◌, map, cond, IfOk, OnOk, Some, is_some, unwrap_or, true, false};
ghost use Rattle.std.specs.List.{position_or_len};
ghost use Rattle.indexmap.specs.IndexMap.{get};

use indexmap::IndexMap;
use std::alloc::{AllocError, Allocator};
use std::hash::{BuildHasherDefault, FoldHasher, Hash};

/// The place at which each key was first met, in the order of first meeting. The hash has a fixed seed.
pub(crate) type FirstPlaces<K, A> = IndexMap<K, usize, BuildHasherDefault<FoldHasher>, A>;

/// The place at which a key was first met, which is this one if it is new.
fn first_met<K: Eq + Hash + Copy, A: Allocator + Copy>(
    met: &mut FirstPlaces<K, A>,
    key: K,
    place: usize,
) -> Result<usize, AllocError>
    ensures first { IfOk result (λ first. first ≡ unwrap_or (get K.eq met.old key) place) }
    ensures kept { OnOk result
        ((q : K) → is_some (get K.eq met.old key) ≡ true → get K.eq met.new q ≡ get K.eq met.old q) }
    ensures added { OnOk result
        ((q : K) → is_some (get K.eq met.old key) ≡ false →
        get K.eq met.new q ≡ cond (K.eq key q) (Some place) (get K.eq met.old q)) }
{
    Ok(*met.entry(key)?.or_insert(place))
}

/// For each key, the place of the first key that is equal to it.
pub(crate) fn first_places<K: Eq + Hash + Copy, A: Allocator + Copy>(
    alloc: A,
    keys: &[K],
) -> Result<Vec<usize, A>, AllocError>
    ensures { IfOk result (λ v. v.items ≡ map (λ k. position_or_len (K.eq k) keys.now) keys.now) }
{
    let mut met: FirstPlaces<K, A> = IndexMap::new(alloc);
    let mut firsts = Vec::new(alloc);
    for (place, key) in keys.iter().enumerate() {
        let first = first_met(&mut met, *key, place)?;
        firsts.push(first)?;
    }
    Ok(firsts)
}
