//! A fix-up of a data record: its tests, and what it adds.

ghost use Rattle.std.specs.Prelude.{◌≡◌, ◌<◌, ◌≤◌, ◌+◌, ◌++◌, ℕ, List, Some, None, length, slice_index, MatchResult};
ghost use Rattle.omf_record.specs.Numbers.{location_width};
ghost use Rattle.omf_image.specs.declared.patch.Patch.{Patch};
ghost use Rattle.omf_image.specs.Records.{meaning, patches_on, fixup_patches};
ghost use Rattle.omf_image.specs.Faults.{first_test, fixup_fault};
ghost use Rattle.omf_image.specs.inside.Ready.{IsFixupReady};
ghost use Rattle.omf_image.specs.inside.States.{State, state, IsRoom, Holds};
ghost use Rattle.omf_image.specs.inside.PlacedData.{IsPlacedData, entry_seen, FixupGives};

use crate::faults::{FixKind, Stop};
use crate::finding::find_hits;
use crate::placed_data::PlacedData;
use crate::range::range_fault;
use crate::reference::{Resolved, resolve};
use crate::work::Work;
use omf_module::ResolvedFixup;
use std::alloc::Allocator;

/// What the frame and the target of a fix-up stand for.
pub fn resolve_fixup<A: Allocator + Copy>(
    placed: &PlacedData<'_, A>,
    fixup: &ResolvedFixup,
) -> Result<Resolved, FixKind>
    requires placed { IsPlacedData placed.now }
    requires fixup { IsFixupReady placed.now.layout.now (entry_seen placed.now) fixup.now }
    ensures { MatchResult result
        (λ r. meaning placed.now.layout.now (entry_seen placed.now) fixup.now ≡ Ok r)
        (λ kind. (earlier : List Patch) → fixup_fault placed.now.layout.now (entry_seen placed.now) earlier fixup.now
        ≡ Some kind) }
{
    let here = placed.data_record.segment;
    let resolved = resolve(
        placed.layout,
        placed.input,
        placed.module,
        here,
        fixup.frame,
        fixup.target,
        fixup.displacement,
    )?;
    Ok(resolved)
}

/// Tests a fix-up whose frame and target are known at its hits, and adds it.
pub fn fix<A: Allocator + Copy>(
    work: &mut Work<A>,
    resolved: &Resolved,
    fixup: &ResolvedFixup,
    start: u32,
    hits: &[u32],
) -> Result<(), FixKind>
    requires room { IsRoom start (state work.old) }
    requires hits { (k : ℕ) → k < length hits.now
        → slice_index hits.now k + location_width fixup.now.location ≤ length work.old.touched.items }
    ensures room { IsRoom start (state work.new) }
    ensures same { length work.new.touched.items ≡ length work.old.touched.items }
    ensures gives { (bytes : List ℕ) → (base : State) → (earlier : List Patch)
        → Holds start bytes base (state work.old) earlier
        → MatchResult result
        (λ _. (first_test resolved.now fixup.now.self_relative fixup.now.location start hits.now earlier ≡ None)
        × Holds start bytes base (state work.new) (earlier
        ++ patches_on 0 resolved.now fixup.now.self_relative fixup.now.location start hits.now))
        (λ kind. first_test resolved.now fixup.now.self_relative fixup.now.location start hits.now earlier
        ≡ Some kind) }
{
    if let Some(kind) = range_fault(resolved, fixup.self_relative, fixup.location, start, hits) {
        return Err(kind);
    }
    if !work.are_clear(resolved, fixup.self_relative, fixup.location, start, hits) {
        return Err(FixKind::OverlapRelocated);
    }
    work.add_hits(resolved, fixup.self_relative, fixup.location, start, hits);
    Ok(())
}

/// Adds a fix-up of a data record at each of its hits, for which `hits` is room.
pub fn add_fixup<A: Allocator + Copy>(
    work: &mut Work<A>,
    hits: &mut Vec<u32, A>,
    placed: &PlacedData<'_, A>,
    fixup: &ResolvedFixup,
) -> Result<(), Stop>
    requires placed { IsPlacedData placed.now }
    requires fixup { IsFixupReady placed.now.layout.now (entry_seen placed.now) fixup.now }
    requires room { IsRoom placed.now.start (state work.old) }
    requires sized { length work.old.touched.items ≡ length placed.now.data_record.bytes.now }
    ensures room { IsRoom placed.now.start (state work.new) }
    ensures sized { length work.new.touched.items ≡ length placed.now.data_record.bytes.now }
    ensures gives { (bytes : List ℕ) → (base : State) → (earlier : List Patch)
        → Holds placed.now.start bytes base (state work.old) earlier
        → FixupGives placed.now.layout.now (entry_seen placed.now) earlier fixup.now result
        (Holds placed.now.start bytes base (state work.new)
        (earlier ++ fixup_patches 0 placed.now.layout.now (entry_seen placed.now) fixup.now)) }
{
    let resolved = resolve_fixup(placed, fixup)?;
    find_hits(
        placed.data_record.places,
        placed.plain,
        placed.index,
        fixup.offset,
        hits,
    )?;
    fix(work, &resolved, fixup, placed.start, hits)?;
    Ok(())
}
