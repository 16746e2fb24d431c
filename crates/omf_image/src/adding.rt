//! A data record laid over the image, and its fix-ups added.

ghost use Rattle.std.specs.Prelude.{◌≡◌, ◌<◌, ◌≤◌, ◌+◌, ◌++◌, ◌∷◌, ℕ, List, All, None, false, flat_map, length, ◌^◌};
ghost use Rattle.std.specs.Prelude.{IfOk, OnOk};
ghost use Rattle.omf_module.specs.Module.{Module as PlainModule};
ghost use Rattle.omf_module.specs.Seen.{data_seen};
ghost use Rattle.omf_place.specs.Layout.{places_of, segment_position};
ghost use Rattle.omf_image.specs.Value.{real_address};
ghost use Rattle.omf_image.specs.declared.patch.Patch.{Patch};
ghost use Rattle.omf_image.specs.Records.{fixup_patches};
ghost use Rattle.omf_image.specs.inside.Entries.{DataEntry};
ghost use Rattle.omf_image.specs.Faults.{fixups_fault};
ghost use Rattle.omf_image.specs.inside.Whole.{covers_word, data_fault};
ghost use Rattle.omf_image.specs.inside.Ready.{IsEntryReady, IsFixupReady};
ghost use Rattle.omf_image.specs.inside.States.{State, state, IsRoom, Holds};
ghost use Rattle.omf_image.specs.inside.PlacedData.{IsPlacedData, entry_seen};
ghost use Rattle.omf_image.specs.inside.Index.{IsIndex};
ghost use Rattle.omf_image.specs.Building.{Answers};
ghost use Rattle.omf_image.specs.inside.Leading.{IsListed, IsWhole, Leads};

use crate::faults::{FixFault, FixKind};
use crate::finding::is_plain;
use crate::fixing::add_fixup;
use crate::index::Index;
use crate::placed_data::PlacedData;
use crate::repeated::lay_data;
use crate::work::Work;
use omf_module::{DataRecord, Module, ResolvedFixup};
use omf_place::{Layout, Position};
use std::alloc::{AllocError, Allocator};

/// Whether data would cover a byte of a relocated word; `words` has a flag where one begins.
fn covers_relocated(words: &[bool], start: u32, len: usize) -> bool
    requires { start + len ≤ length words.now }
    ensures { (bytes listed : List ℕ) → length bytes ≡ len → IsListed words.now listed
        → result ≡ covers_word (record { start = start; bytes = bytes }) listed }
{
    if len == 0 {
        return false;
    }
    let first = (start as usize).saturating_sub(1);
    let mut covers = false;
    for address in first..start as usize + len {
        // without an end at the first flag, so that many are looked at in one step
        covers |= words[address];
    }
    covers
}

/// The address of a data record's first byte.
pub fn data_address<A: Allocator + Copy>(
    layout: &Layout<A>,
    input: usize,
    segment: u16,
    offset: u16,
) -> u32
    requires input { input < length layout.now.modules }
    requires segment { segment < length (places_of layout.now input).segments }
    requires small { layout.now.size ≤ 1048560 }
    requires inside { real_address 0 (segment_position layout.now input segment) + offset ≤ layout.now.size }
    ensures { result ≡ real_address 0 (segment_position layout.now input segment) + offset }
{
    let start = match layout.segment_position(input, usize::from(segment)) {
        Position::Relocatable(address, _) => address,
        Position::Absolute(address, _) => address,
    };
    start + u32::from(offset)
}

/// The index of data that isn't plain.
fn record_index<A: Allocator + Copy>(
    alloc: A,
    places: &[u16],
    plain: bool,
) -> Result<Index<A>, AllocError>
    requires { length places.now < 2 ^ 32 }
    ensures { IfOk result (λ x. plain ≡ false → IsIndex places.now x) }
{
    if plain {
        Ok(Index::empty(alloc))
    } else {
        Index::new(alloc, places)
    }
}

/// Adds fix-ups of a data record in order.
fn add_fixups<A: Allocator + Copy>(
    work: &mut Work<A>,
    hits: &mut Vec<u32, A>,
    placed: &PlacedData<'_, A>,
    fixups: &[ResolvedFixup],
) -> Result<(), FixFault>
    requires placed { IsPlacedData placed.now }
    requires fixups { All (IsFixupReady placed.now.layout.now (entry_seen placed.now)) fixups.now }
    requires room { IsRoom placed.now.start (state work.old) }
    requires sized { length work.old.touched.items ≡ length placed.now.data_record.bytes.now }
    ensures room { IsRoom placed.now.start (state work.new) }
    ensures sized { length work.new.touched.items ≡ length placed.now.data_record.bytes.now }
    ensures gives { (bytes : List ℕ) → (base : State) → (earlier : List Patch)
        → Holds placed.now.start bytes base (state work.old) earlier
        → Answers result (fixups_fault placed.now.layout.now (entry_seen placed.now) earlier fixups.now)
        (λ _. (fixups_fault placed.now.layout.now (entry_seen placed.now) earlier fixups.now ≡ None)
        × Holds placed.now.start bytes base (state work.new)
        (earlier ++ flat_map (fixup_patches 0 placed.now.layout.now (entry_seen placed.now)) fixups.now)) }
{
    for fixup in fixups {
        match add_fixup(work, hits, placed, fixup) {
            Ok(()) => {}
            Err(stop) => return Err(stop.at(placed.input, fixup.place)),
        }
    }
    Ok(())
}

/// Lays a data record over the image and adds its fix-ups, for whose hits `hits` is room.
pub fn add_record<'a, A: Allocator + Copy>(
    work: &mut Work<A>,
    hits: &mut Vec<u32, A>,
    layout: &'a Layout<A>,
    input: usize,
    module: &'a Module<A>,
    data_record: DataRecord<'a>,
) -> Result<(), FixFault>
    requires ready { IsEntryReady layout.now
        (record { input = input; module' = «module».now; item = data_seen data_record }) }
    requires lengths { length data_record.bytes.now ≡ length data_record.places.now }
    requires whole { IsWhole layout.now (state work.old) }
    ensures whole { OnOk result (IsWhole layout.now (state work.new)) }
    ensures gives { (modules : List PlainModule) → (rest : List DataEntry)
        → Leads layout.now modules (state work.old)
        (record { input = input; module' = «module».now; item = data_seen data_record.entry } ∷ rest)
        → Answers result (data_fault layout.now modules) (λ _. Leads layout.now modules (state work.new) rest) }
{
    let start = data_address(layout, input, data_record.segment, data_record.offset);
    if covers_relocated(&work.words, start, data_record.bytes.len()) {
        return Err(FixFault::At {
            kind: FixKind::CoversRelocated,
            input,
            place: data_record.place,
        });
    }
    if data_record.fixups.is_empty() {
        work.lay(start, data_record.bytes)?;
        return Ok(());
    }
    let plain = is_plain(data_record.places);
    let index = record_index(*hits.allocator(), data_record.places, plain)?;
    let placed = PlacedData {
        layout,
        input,
        module,
        data_record,
        start,
        plain,
        index: &index,
    };
    let laid = lay_data(work, hits, &placed)?;
    add_fixups(work, hits, &placed, &data_record.fixups[laid..])
}
