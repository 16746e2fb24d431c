//! Other lengths of segments.
ghost use Rattle.std.specs.Prelude.{◌≡◌, ℕ, List, map, length};
ghost use Rattle.std.specs.Bool.{then_some};
ghost use Rattle.std.specs.List.{AllByRecursion, enumerate_from};
ghost use Rattle.omf_module.specs.Before.{first};
ghost use Rattle.omf_module.specs.Lengths as spec;
ghost use Rattle.omf_module.specs.Seen.{data_seen};
ghost use Rattle.omf_module.specs.Sound.{SegmentFits};
ghost use Rattle.omf_module.specs.inside.Store as stored;

use crate::entries::SegmentEntry;
use crate::lookups::{DataRecord, Module};
use crate::store::Store;
use omf_record::SegmentLength;
use std::alloc::Allocator;

/// The length that is told for the segment of this number, counted from 0, where there is one.
fn told_length(lengths: &[Option<u16>], number: usize) -> Option<u16>
    ensures { result ≡ spec.told_length lengths.now number }
{
    lengths.get(number).copied().unwrap_or(None)
}

/// A segment with the length that is told for it, where one is.
fn with_length(length: Option<u16>, segment: SegmentEntry) -> SegmentEntry
    ensures says { (bytes : List ℕ) → stored.segment bytes result
        ≡ spec.with_told length (stored.segment bytes segment) }
    ensures inside { (bytes : List ℕ) → stored.SegmentIsIn bytes segment → stored.SegmentIsIn bytes result }
    ensures fits { (bytes : List ℕ) → SegmentFits (stored.segment bytes segment)
        → SegmentFits (stored.segment bytes result) }
{
    match length {
        Some(bytes) => SegmentEntry {
            length: SegmentLength::Word(bytes),
            ..segment
        },
        None => segment,
    }
}

/// Gives segments other lengths, where they are told.
pub fn set_lengths(segments: &mut [SegmentEntry], lengths: &[Option<u16>])
    ensures says { (bytes : List ℕ) → map (stored.segment bytes) segments.new
        ≡ map (spec.with_length lengths.now) (enumerate_from 0 (map (stored.segment bytes) segments.old)) }
    ensures inside { (bytes : List ℕ) → AllByRecursion (stored.SegmentIsIn bytes) segments.old
        → AllByRecursion (stored.SegmentIsIn bytes) segments.new }
    ensures fits { (bytes : List ℕ) → AllByRecursion SegmentFits (map (stored.segment bytes) segments.old)
        → AllByRecursion SegmentFits (map (stored.segment bytes) segments.new) }
{
    for index in 0..segments.len() {
        segments[index] = with_length(told_length(lengths, index), segments[index]);
    }
}

/// Whether data passes the end of its segment.
fn is_outside<A: Allocator + Copy>(store: &Store<A>, data: DataRecord<'_>) -> bool
    requires { length «data».bytes.now ≡ length «data».places.now }
    ensures { result ≡ spec.is_outside store.now.segments (data_seen «data».entry) }
{
    let index = usize::from(data.segment);
    if index < store.segment_count() {
        let end = u64::from(data.offset) + data.bytes.len() as u64;
        u64::from(store.segment(index).length) < end
    } else {
        false
    }
}

/// The place of the first data record that passes the end of its segment.
fn first_outside<A: Allocator + Copy>(store: &Store<A>) -> Option<u64>
    ensures { result
        ≡ first (map (λ d. then_some (spec.is_outside store.now.segments d) d.place) store.now.data_records) }
{
    for index in 0..store.data_record_count() {
        let data = store.data_record(index);
        if is_outside(store, data) {
            return Some(data.place);
        }
    }
    None
}

/// The module with other lengths of its segments: the first segment has the first length where that is some, and so
/// on; a segment behind the last of these stays as it is.
///
/// `Err` is the place of the first data record that doesn't lie in its segment then.
pub fn with_lengths<A: Allocator + Copy>(
    module: Module<A>,
    lengths: &[Option<u16>],
) -> Result<Module<A>, u64>
    ensures { result ≡ spec.with_lengths lengths.now «module» }
{
    let (mut store, start) = module.into_parts();
    store.set_lengths(lengths);
    match first_outside(&store) {
        Some(place) => Err(place),
        None => Ok(Module::from_parts(store, start)),
    }
}
