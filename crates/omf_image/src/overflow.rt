//! Loader-resolved offsets that stand for offsets of 32 bits and need more than 16, and a start that does.

ghost use Rattle.std.specs.Prelude.{◌≡◌, ◌<◌, ◌≤◌, ◌||◌, All, filter, get_or, length, nat_lt, slice_get};
ghost use Rattle.std.specs.List.{filter_map, list_any};
ghost use Rattle.omf_module.specs.Seen.{data_seen};
ghost use Rattle.omf_place.specs.Bounded.{IsBounded};
ghost use Rattle.omf_place.specs.Layout.{places_of};
ghost use Rattle.omf_image.specs.Overflow as spec;
ghost use Rattle.omf_image.specs.Records.{entries};
ghost use Rattle.omf_image.specs.Registers.{starts};
ghost use Rattle.omf_image.specs.inside.Entries.{module_entries};
ghost use Rattle.omf_image.specs.inside.Ready.{IsEntryReady, IsFixupReady, IsStartReady};

use crate::reference::{Resolved, resolve};
use crate::start::next_start;
use omf_module::{DataRecord, Module, ResolvedFixup, Start, all_promise};
use omf_place::Layout;
use omf_record::Location;
use std::alloc::Allocator;

/// The byte at a position of data. Behind the data stand zeros.
fn byte_at(bytes: &[u8], at: usize) -> u32
    ensures value { result ≡ get_or bytes.now at 0 }
    ensures small { result ≤ 255 }
{
    match bytes.get(at) {
        Some(byte) => u32::from(*byte),
        None => 0,
    }
}

/// The number of 32 bits at a position of data.
fn double_word_at(bytes: &[u8], at: usize) -> u32
    requires { at < length bytes.now }
    ensures { result ≡ spec.double_word_at bytes.now at }
{
    let low = byte_at(bytes, at) + 256 * byte_at(bytes, at + 1);
    let high = byte_at(bytes, at + 2) + 256 * byte_at(bytes, at + 3);
    low + 65536 * high
}

/// Whether the sum at one of the numbers that were stored at a place of a data record needs more than 16 bits.
fn has_number_above(resolved: &Resolved, data_record: &DataRecord<'_>, offset: u16) -> bool
    requires { length data_record.now.bytes.now ≡ length data_record.now.places.now }
    ensures { result ≡ list_any (spec.is_above resolved.now) (spec.numbers_at offset (data_seen data_record.now)) }
{
    for (at, place) in data_record.places.iter().enumerate() {
        if *place == offset && resolved.is_above(double_word_at(data_record.bytes, at)) {
            return true;
        }
    }
    false
}

/// Whether a fix-up reaches into the lower word of a number that was stored at a place of a data record.
fn touches(fixup: &ResolvedFixup, offset: u16) -> bool
    ensures { result ≡ spec.touches offset fixup.now }
{
    let begin = u32::from(fixup.offset);
    let end = begin + u32::from(fixup.location.width());
    begin < u32::from(offset) + 2 && u32::from(offset) < end
}

/// Whether more than one of the fix-ups of a data record reaches into the lower word of a number that was stored at a
/// place.
fn is_shared(fixups: &[ResolvedFixup], offset: u16) -> bool
    ensures { result ≡ nat_lt 1 (length (filter (spec.touches offset) fixups.now)) }
{
    let mut is_touched = false;
    for fixup in fixups {
        if touches(fixup, offset) {
            if is_touched {
                return true;
            }
            is_touched = true;
        }
    }
    false
}

/// Whether a number stands at a place of a data record whose lower word fix-ups share, or with which the sum needs more
/// than 16 bits.
fn has_no_room(resolved: &Resolved, data_record: &DataRecord<'_>, offset: u16) -> bool
    requires { length data_record.now.bytes.now ≡ length data_record.now.places.now }
    ensures { result ≡ list_any
        (λ n. spec.is_shared offset (data_seen data_record.now) || spec.is_above resolved.now n)
        (spec.numbers_at offset (data_seen data_record.now)) }
{
    data_record.places.contains(&offset)
        && (is_shared(data_record.fixups, offset)
            || has_number_above(resolved, data_record, offset))
}

/// Whether a fix-up of a data record needs more than the 16 bits of its word.
fn overflows<A: Allocator + Copy>(
    layout: &Layout<A>,
    input: usize,
    module: &Module<A>,
    data_record: &DataRecord<'_>,
    fixup: &ResolvedFixup,
) -> bool
    requires lengths { length data_record.now.bytes.now ≡ length data_record.now.places.now }
    requires input { input < length layout.now.modules }
    requires segment { data_record.now.segment < length (places_of layout.now input).segments }
    requires fixup { IsFixupReady layout.now
        (record { input = input; module' = «module».now; item = data_seen data_record.now }) fixup.now }
    ensures { result ≡ spec.overflows layout.now
        (record { input = input; module' = «module».now; item = data_seen data_record.now }) fixup.now }
{
    if fixup.self_relative || !matches!(fixup.location, Location::LoaderOffset) {
        return false;
    }
    match resolve(
        layout,
        input,
        module,
        data_record.segment,
        fixup.frame,
        fixup.target,
        fixup.displacement,
    ) {
        Ok(resolved) => {
            resolved.is_measured() && has_no_room(&resolved, data_record, fixup.offset)
        }
        Err(_) => false,
    }
}

/// The first fix-up of a data record that does: its input and the place of its record there.
fn overflow_of<A: Allocator + Copy>(
    layout: &Layout<A>,
    input: usize,
    module: &Module<A>,
    data_record: &DataRecord<'_>,
) -> Option<(usize, u64)>
    requires lengths { length data_record.now.bytes.now ≡ length data_record.now.places.now }
    requires ready { IsEntryReady layout.now
        (record { input = input; module' = «module».now; item = data_seen data_record.now }) }
    ensures { result ≡ spec.entry_overflow layout.now
        (record { input = input; module' = «module».now; item = data_seen data_record.now }) }
{
    for fixup in data_record.fixups {
        if overflows(layout, input, module, data_record, fixup) {
            return Some((input, fixup.place));
        }
    }
    None
}

/// The first of a module.
fn overflow_in<A: Allocator + Copy>(
    layout: &Layout<A>,
    input: usize,
    module: &Module<A>,
) -> Option<(usize, u64)>
    requires { All (IsEntryReady layout.now) (module_entries input «module».now) }
    ensures { result
        ≡ slice_get (filter_map (spec.entry_overflow layout.now) (module_entries input «module».now)) 0 }
{
    for index in 0..module.data_record_count() {
        let data_record = module.data_record(index);
        if let Some(found) = overflow_of(layout, input, module, &data_record) {
            return Some(found);
        }
    }
    None
}

/// The first of modules.
fn overflow_among<A: Allocator + Copy>(
    modules: &[Module<A>],
    layout: &Layout<A>,
) -> Option<(usize, u64)>
    requires { All (IsEntryReady layout.now) (entries modules.now) }
    ensures { result ≡ spec.first_overflow layout.now modules.now }
{
    for (input, module) in modules.iter().enumerate() {
        if let Some(found) = overflow_in(layout, input, module) {
            return Some(found);
        }
    }
    None
}

/// The first fix-up of modules by which a loader-resolved offset is put into a word that is too small for it: its
/// input, counted from 0, and the place of its record there. The sum of the number of 32 bits that stands there, of the
/// displacement and of the target's distance from its frame is 65,536 or more, modulo 2 to the 32nd, or other fix-ups of
/// its data reach into the lower word too.
pub fn first_overflow<A: Allocator + Copy>(
    modules: &[Module<A>],
    layout: &Layout<A>,
) -> Option<(usize, u64)>
    requires { IsBounded modules.now layout.now }
    ensures { result ≡ spec.first_overflow layout.now modules.now }
{
    all_promise(modules);
    overflow_among(modules, layout)
}

/// Whether the displacement of a start and its distance from its frame need more than 16 bits together.
fn start_overflows<A: Allocator + Copy>(
    layout: &Layout<A>,
    input: usize,
    module: &Module<A>,
    start: Start,
) -> bool
    requires { IsStartReady layout.now (record { input = input; module' = «module».now; item = start }) }
    ensures { result
        ≡ spec.start_overflows layout.now (record { input = input; module' = «module».now; item = start }) }
{
    match resolve(
        layout,
        input,
        module,
        0,
        start.frame,
        start.target,
        start.displacement,
    ) {
        Ok(resolved) => {
            !resolved.is_mixed(true, Location::Offset)
                && resolved.is_framed()
                && resolved.is_above(0)
        }
        Err(_) => false,
    }
}

/// The only start of modules, where it does: its input and the place of its record there.
fn overflow_at_start<A: Allocator + Copy>(
    modules: &[Module<A>],
    layout: &Layout<A>,
) -> Option<(usize, u64)>
    requires { All (IsStartReady layout.now) (starts modules.now) }
    ensures { result ≡ spec.start_overflow layout.now modules.now }
{
    let Some((input, start)) = next_start(modules, 0) else {
        return None;
    };
    if let Some((_, _)) = next_start(modules, input + 1) {
        return None;
    }
    let module = &modules[input];
    if start_overflows(layout, input, module, start) {
        return Some((input, start.place));
    }
    None
}

/// The only start of modules, where the start's offset needs more than 16 bits: its input, counted from 0, and the
/// place of its record there. None too where the modules have two starts, or where the start is at fault.
pub fn start_overflow<A: Allocator + Copy>(
    modules: &[Module<A>],
    layout: &Layout<A>,
) -> Option<(usize, u64)>
    requires { IsBounded modules.now layout.now }
    ensures { result ≡ spec.start_overflow layout.now modules.now }
{
    all_promise(modules);
    overflow_at_start(modules, layout)
}
