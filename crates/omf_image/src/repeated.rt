//! Repeated data whose leading fix-ups are added once, to its bytes as they were stored.

ghost use Rattle.std.specs.Prelude.{◌≡◌, ◌<◌, ◌≤◌, ◌+◌, ◌++◌, ◌||◌, ◌⊎◌, [], All, ℕ, List, None, false, length, take};
ghost use Rattle.std.specs.Prelude.{drop, map, flat_map, slice_index, slice_index_or, IfOk, OnOk};
ghost use Rattle.std.specs.List.{zip};
ghost use Rattle.omf_image.specs.declared.patch.Patch.{Patch as PlainPatch};
ghost use Rattle.omf_image.specs.Records.{fixup_patches};
ghost use Rattle.omf_image.specs.Faults.{fixups_fault};
ghost use Rattle.omf_record.specs.Expansion.{AreCopies};
ghost use Rattle.omf_image.specs.inside.Ready.{IsFixupReady};
ghost use Rattle.omf_image.specs.inside.States.{state, IsRoom, Holds};
ghost use Rattle.omf_image.specs.inside.PlacedData.{IsPlacedData, entry_seen, FixupGives};
ghost use Rattle.omf_image.specs.inside.Stored.{Copied, IsStored};
ghost use Rattle.omf_image.specs.Building.{Answers};

use crate::faults::{FixFault, Stop};
use crate::finding::find_once;
use crate::fixing::{fix, resolve_fixup};
use crate::index::end_of;
use crate::pages::Pages;
use crate::placed_data::PlacedData;
use crate::work::Work;
use omf_module::ResolvedFixup;
use std::alloc::{AllocError, Allocator};

/// How many fix-ups come before the first self-relative one.
fn leading(fixups: &[ResolvedFixup]) -> usize
    ensures count { result ≤ length fixups.now }
    ensures leading { All (λ x. x.self_relative ≡ false) (take result fixups.now) }
{
    let mut count = 0;
    while count < fixups.len() && !fixups[count].self_relative {
        count += 1;
    }
    count
}

/// The bytes of repeated data as they were stored, by place; 0 at a place of none.
fn stored_bytes<A: Allocator + Copy>(
    alloc: A,
    places: &[u16],
    bytes: &[u8],
    end: usize,
) -> Result<Vec<u8, A>, AllocError>
    requires lengths { length bytes.now ≡ length places.now }
    requires end { All (λ p. p < end) places.now }
    requires copies { AreCopies (zip places.now bytes.now) }
    ensures sized { IfOk result (λ v. length v.items ≡ end) }
    ensures copied { IfOk result (λ v. Copied v.items places.now bytes.now) }
{
    let mut stored = Vec::from_elem(alloc, 0u8, end)?;
    for (i, place) in places.iter().enumerate() {
        stored[usize::from(*place)] = bytes[i];
    }
    Ok(stored)
}

/// An image of the bytes of repeated data as they were stored.
fn stored_work<A: Allocator + Copy>(
    alloc: A,
    places: &[u16],
    bytes: &[u8],
) -> Result<Work<A>, AllocError>
    requires lengths { length bytes.now ≡ length places.now }
    requires copies { AreCopies (zip places.now bytes.now) }
    ensures room { IfOk result (λ w. IsRoom 0 (state w)) }
    ensures ends { IfOk result (λ w. All (λ p. p < length w.touched.items) places.now) }
    ensures stored { IfOk result (λ w. IsStored places.now bytes.now (state w) []) }
{
    let end = end_of(places);
    let contents = stored_bytes(alloc, places, bytes, end)?;
    let mut stored = Work::new(alloc, end as u32)?;
    stored.lay(0, &contents)?;
    Ok(stored)
}

/// Adds a fix-up that isn't self-relative once, to the stored bytes.
fn add_once<A: Allocator + Copy>(
    stored: &mut Work<A>,
    hits: &mut Vec<u32, A>,
    placed: &PlacedData<'_, A>,
    fixup: &ResolvedFixup,
) -> Result<(), Stop>
    requires placed { IsPlacedData placed.now }
    requires repeated { placed.now.plain ≡ false }
    requires fixup { IsFixupReady placed.now.layout.now (entry_seen placed.now) fixup.now }
    requires leading { fixup.now.self_relative ≡ false }
    requires room { IsRoom 0 (state stored.old) }
    requires ends { All (λ p. p < length stored.old.touched.items) placed.now.data_record.places.now }
    ensures room { IsRoom 0 (state stored.new) }
    ensures same { length stored.new.touched.items ≡ length stored.old.touched.items }
    ensures gives { (earlier : List PlainPatch)
        → IsStored placed.now.data_record.places.now placed.now.data_record.bytes.now (state stored.old) earlier
        → FixupGives placed.now.layout.now (entry_seen placed.now) earlier fixup.now result
        (IsStored placed.now.data_record.places.now placed.now.data_record.bytes.now (state stored.new)
        (earlier ++ fixup_patches 0 placed.now.layout.now (entry_seen placed.now) fixup.now)) }
{
    let resolved = resolve_fixup(placed, fixup)?;
    find_once(placed.index, fixup.offset, hits)?;
    fix(stored, &resolved, fixup, 0, hits)?;
    Ok(())
}

/// Adds fix-ups that aren't self-relative once each, in order.
fn add_each_once<A: Allocator + Copy>(
    stored: &mut Work<A>,
    hits: &mut Vec<u32, A>,
    placed: &PlacedData<'_, A>,
    fixups: &[ResolvedFixup],
) -> Result<(), FixFault>
    requires placed { IsPlacedData placed.now }
    requires repeated { placed.now.plain ≡ false }
    requires fixups { All (IsFixupReady placed.now.layout.now (entry_seen placed.now)) fixups.now }
    requires leading { All (λ x. x.self_relative ≡ false) fixups.now }
    requires room { IsRoom 0 (state stored.old) }
    requires ends { All (λ p. p < length stored.old.touched.items) placed.now.data_record.places.now }
    ensures room { IsRoom 0 (state stored.new) }
    ensures same { length stored.new.touched.items ≡ length stored.old.touched.items }
    ensures gives { (earlier : List PlainPatch)
        → IsStored placed.now.data_record.places.now placed.now.data_record.bytes.now (state stored.old) earlier
        → Answers result (fixups_fault placed.now.layout.now (entry_seen placed.now) earlier fixups.now)
        (λ _. (fixups_fault placed.now.layout.now (entry_seen placed.now) earlier fixups.now ≡ None)
        × IsStored placed.now.data_record.places.now placed.now.data_record.bytes.now (state stored.new)
        (earlier ++ flat_map (fixup_patches 0 placed.now.layout.now (entry_seen placed.now)) fixups.now)) }
{
    for fixup in fixups {
        match add_once(stored, hits, placed, fixup) {
            Ok(()) => {}
            Err(stop) => return Err(stop.at(placed.input, fixup.place)),
        }
    }
    Ok(())
}

/// The bytes of an image at places.
fn copied_bytes<A: Allocator + Copy>(
    alloc: A,
    image: &Pages<A>,
    places: &[u16],
) -> Result<Vec<u8, A>, AllocError>
    requires { All (λ p. p < length image.now.bytes) places.now }
    ensures { IfOk result (λ v. v.items ≡ map (λ p. slice_index image.now.bytes p) places.now) }
{
    let mut bytes = Vec::new(alloc);
    for place in places {
        bytes.push(image.byte(usize::from(*place)))?;
    }
    Ok(bytes)
}

/// Puts the marks at places in place of those that were there.
fn copy_marks<A: Allocator>(
    stored: &[bool],
    places: &[u16],
    marks: &mut Vec<bool, A>,
) -> Result<(), AllocError>
    requires { All (λ p. p < length stored.now) places.now }
    ensures { OnOk result (marks.new.items ≡ map (λ p. slice_index_or stored.now p false) places.now) }
{
    marks.clear();
    for place in places {
        marks.push(stored[usize::from(*place)])?;
    }
    Ok(())
}

/// Flags each address from `start` on whose place is flagged.
fn copy_flags(stored: &[bool], places: &[u16], flags: &mut [bool], start: usize)
    requires places { All (λ p. p < length stored.now) places.now }
    requires inside { start + length places.now ≤ length flags.old }
    ensures copied { (k : ℕ) → k < length places.now → slice_index_or flags.new (start + k) false
        ≡ (slice_index_or flags.old (start + k) false || slice_index_or stored.now (slice_index places.now k) false) }
    ensures rest { (a : ℕ) → (a < start) ⊎ (start + length places.now ≤ a)
        → slice_index_or flags.new a false ≡ slice_index_or flags.old a false }
{
    for (i, place) in places.iter().enumerate() {
        if stored[usize::from(*place)] {
            flags[start + i] = true;
        }
    }
}

impl<A: Allocator + Copy> Work<A> {
    /// Lays the copies of stored bytes at an address, with the marks and the flags of their places.
    fn lay_copies(&mut self, stored: &Work<A>, places: &[u16], start: u32) -> Result<(), AllocError>
        requires inside { start + length places.now ≤ length self.old.pages.bytes }
        requires words { length self.old.words.items ≡ length self.old.pages.bytes }
        requires room { IsRoom 0 (state stored.now) }
        requires ends { All (λ p. p < length stored.now.touched.items) places.now }
        ensures room { OnOk result (IsRoom start (state self.new)) }
        ensures sized { OnOk result (length self.new.touched.items ≡ length places.now) }
        ensures holds { (bytes : List ℕ) → (earlier : List PlainPatch)
            → IsStored places.now bytes (state stored.now) earlier
            → OnOk result (Holds start bytes (state self.old) (state self.new) earlier) }
    {
        // its contract says that an image has at most 1,048,560 bytes
        let _size = self.pages.size();
        let bytes = copied_bytes(*self.words.allocator(), &stored.pages, places)?;
        copy_marks(&stored.touched, places, &mut self.touched)?;
        copy_marks(&stored.relocated, places, &mut self.relocated)?;
        copy_flags(&stored.words, places, &mut self.words, start as usize);
        self.pages.lay(start as usize, &bytes)?;
        Ok(())
    }
}

/// How many fix-ups of a data record are added once for all copies of a byte: of plain data none.
fn count_once<A: Allocator + Copy>(placed: &PlacedData<'_, A>) -> usize
    ensures count { result ≤ length placed.now.data_record.fixups.now }
    ensures leading { All (λ x. x.self_relative ≡ false) (take result placed.now.data_record.fixups.now) }
    ensures repeated { 0 < result → placed.now.plain ≡ false }
{
    if placed.plain {
        0
    } else {
        leading(placed.data_record.fixups)
    }
}

/// Lays the data of a record, with the fix-ups that are added once for all copies of a byte: where a byte may have
/// copies, those before the first self-relative one. Answers how many they are.
pub fn lay_data<A: Allocator + Copy>(
    work: &mut Work<A>,
    hits: &mut Vec<u32, A>,
    placed: &PlacedData<'_, A>,
) -> Result<usize, FixFault>
    requires placed { IsPlacedData placed.now }
    requires fixups { All (IsFixupReady placed.now.layout.now (entry_seen placed.now))
        placed.now.data_record.fixups.now }
    requires copies { AreCopies (zip placed.now.data_record.places.now placed.now.data_record.bytes.now) }
    requires inside { placed.now.start + length placed.now.data_record.bytes.now ≤ length work.old.pages.bytes }
    requires words { length work.old.words.items ≡ length work.old.pages.bytes }
    ensures count { IfOk result (λ n. n ≤ length placed.now.data_record.fixups.now) }
    ensures room { OnOk result (IsRoom placed.now.start (state work.new)) }
    ensures sized { OnOk result (length work.new.touched.items ≡ length placed.now.data_record.bytes.now) }
    ensures gives { Answers result
        (fixups_fault placed.now.layout.now (entry_seen placed.now) [] placed.now.data_record.fixups.now)
        (λ n. Holds placed.now.start placed.now.data_record.bytes.now (state work.old) (state work.new)
        (flat_map (fixup_patches 0 placed.now.layout.now (entry_seen placed.now))
        (take n placed.now.data_record.fixups.now))
        × (fixups_fault placed.now.layout.now (entry_seen placed.now)
        (flat_map (fixup_patches 0 placed.now.layout.now (entry_seen placed.now))
        (take n placed.now.data_record.fixups.now))
        (drop n placed.now.data_record.fixups.now)
        ≡ fixups_fault placed.now.layout.now (entry_seen placed.now) [] placed.now.data_record.fixups.now)) }
{
    let record = placed.data_record;
    let count = count_once(placed);
    if count == 0 {
        work.lay(placed.start, record.bytes)?;
        return Ok(0);
    }
    let mut stored = stored_work(*hits.allocator(), record.places, record.bytes)?;
    add_each_once(&mut stored, hits, placed, &record.fixups[..count])?;
    work.lay_copies(&stored, record.places, placed.start)?;
    Ok(count)
}
