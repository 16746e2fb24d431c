//! What a store keeps of each element of a module's tables: its names and data as pieces, and the rest of it.
ghost use Rattle.std.specs.Prelude.{◌≡◌, ◌-◌, ◌≤◌, ℕ, ◌∷◌, [], List, length, map, slice_get, OnOk, IfOk};
ghost use Rattle.std.specs.List.{AllByRecursion};
ghost use Rattle.omf_record.specs.Numbers.{segment_len};
ghost use Rattle.omf_module.specs.Tables as tables;
ghost use Rattle.omf_module.specs.inside.Entries as defined;
ghost use Rattle.omf_module.specs.inside.Store as stored;
ghost use Rattle.omf_module.specs.inside.Store.{elements};
ghost use Rattle.omf_module.specs.inside.Running.{add_to_last};

use crate::checks::entry;
use crate::pieces::Piece;
use crate::{Kind, ResolvedFixup, Standing};
use omf_record::{Alignment, Combination, PublicBase, SegmentDefinition, SegmentLength};
use std::alloc::{AllocError, Allocator};

#[derive(Clone, Copy, Debug)]
pub struct SegmentEntry {
    pub name: Piece,
    pub class: Piece,
    pub length: SegmentLength,
    pub standing: Standing,
}

#[derive(Drop)]
pub struct GroupEntry<A: Allocator + Copy> {
    pub name: Piece,
    pub members: Vec<u16, A>,
}

#[derive(Clone, Copy, Debug)]
pub struct ExternalEntry {
    pub name: Piece,
    pub local: bool,
}

#[derive(Clone, Copy, Debug)]
pub struct PublicEntry {
    pub name: Piece,
    pub base: PublicBase,
    pub offset: u16,
    pub local: bool,
}

/// Where the data of a record begins: the record's place, and the segment with the offset in it.
#[derive(Clone, Copy, Debug)]
pub struct DataOrigin {
    pub place: u64,
    /// In a record its index, from 1; in a store counted from 0.
    pub segment: u16,
    pub offset: u16,
}

impl DataOrigin {
    /// At a place, and at an offset in a segment.
    pub fn new(place: u64, segment: u16, offset: u16) -> DataOrigin
        ensures { result ≡ record { place = place; segment = segment; offset = offset } }
    {
        DataOrigin {
            place,
            segment,
            offset,
        }
    }

    /// The same with its segment counted from 0, where it was from 1.
    pub fn from_zero(self) -> DataOrigin
        ensures { result ≡ record self { segment = self.segment - 1 } }
    {
        DataOrigin {
            segment: self.segment.saturating_sub(1),
            ..self
        }
    }
}

#[derive(Drop)]
pub struct DataEntry<A: Allocator + Copy> {
    pub place: u64,
    pub segment: u16,
    pub offset: u16,
    pub bytes: Piece,
    /// Where its stored places begin. There are as many as bytes.
    pub places_from: usize,
    pub fixups: Vec<ResolvedFixup, A>,
}

impl<A: Allocator + Copy> DataEntry<A> {
    /// Its stored places.
    pub fn places(&self) -> Piece
        ensures { result ≡ stored.places_piece self.now }
    {
        Piece {
            from: self.places_from,
            len: self.bytes.len,
        }
    }
}

/// A length of at most 65,536 bytes.
pub fn length_of(bytes: u32) -> SegmentLength
    requires { bytes ≤ 65536 }
    ensures { segment_len result ≡ bytes }
{
    if bytes < 65_536 {
        SegmentLength::Word(bytes as u16)
    } else {
        SegmentLength::Whole
    }
}

/// The piece of the name that an index means; 0 means the empty one.
fn name_piece(names: &[Piece], index: u16) -> Piece
    ensures says { (bytes : List ℕ) → elements bytes result ≡ tables.name_at (map (elements bytes) names.now) index }
    ensures inside { (bytes : List ℕ) → AllByRecursion (stored.IsIn bytes) names.now → stored.IsIn bytes result }
{
    match entry(names, index) {
        Some(name) => *name,
        None => Piece { from: 0, len: 0 },
    }
}

/// How the parts of a segment combine.
fn kind_of(combination: Combination) -> Kind
    ensures { result ≡ tables.segment_kind combination }
{
    match combination {
        Combination::Private => Kind::Private,
        Combination::Public2 | Combination::Public4 | Combination::Public7 => Kind::Public,
        Combination::Stack => Kind::Stack,
        Combination::Common => Kind::Common,
    }
}

/// Where a segment stands.
fn standing_of(alignment: Alignment, combination: Combination) -> Standing
    ensures { result ≡ tables.standing_of alignment combination }
{
    let kind = kind_of(combination);
    let alignment = match alignment {
        Alignment::Absolute { frame, offset } => return Standing::Absolute { frame, offset },
        Alignment::Byte => 1,
        Alignment::Word => 2,
        Alignment::Paragraph => 16,
        Alignment::Page => 256,
        Alignment::DoubleWord => 4,
    };
    Standing::Relocatable { alignment, kind }
}

/// The entry of a segment, with the names so far.
pub fn segment_entry(names: &[Piece], definition: &SegmentDefinition) -> SegmentEntry
    ensures says { (bytes : List ℕ) → stored.segment bytes result
        ≡ defined.segment_of (map (elements bytes) names.now) definition.now }
    ensures inside { (bytes : List ℕ) → AllByRecursion (stored.IsIn bytes) names.now
        → stored.SegmentIsIn bytes result }
{
    SegmentEntry {
        name: name_piece(names, definition.name),
        class: name_piece(names, definition.class),
        length: definition.length,
        standing: standing_of(definition.alignment, definition.combination),
    }
}

/// The entry of a group, with the names so far. The components count from 1, and the members from 0.
pub fn group_entry<A: Allocator + Copy>(
    alloc: A,
    names: &[Piece],
    name: u16,
    components: &[u16],
) -> Result<GroupEntry<A>, AllocError>
    ensures says { IfOk result (λ group. (bytes : List ℕ) → stored.group bytes group
        ≡ defined.group_of (map (elements bytes) names.now) name components.now) }
    ensures inside { IfOk result (λ group. (bytes : List ℕ) → AllByRecursion (stored.IsIn bytes) names.now
        → stored.GroupIsIn bytes group) }
{
    let name = name_piece(names, name);
    let members = components
        .iter()
        .map(|index| index.saturating_sub(1))
        .collect(alloc)?;
    Ok(GroupEntry { name, members })
}

/// The stored places of the last data record; none, where there is none.
pub fn last_places<A: Allocator + Copy>(list: &[DataEntry<A>]) -> Piece
    ensures last { result ≡ stored.last_piece (slice_get list.now (length list.now - 1)) }
    ensures inside { (bytes places : List ℕ) → AllByRecursion (stored.DataIsIn bytes places) list.now
        → stored.IsIn places result }
{
    match list.last() {
        Some(data) => data.places(),
        None => Piece { from: 0, len: 0 },
    }
}

/// Adds a fix-up to the last data record.
pub fn fix_last<A: Allocator + Copy>(
    list: &mut Vec<DataEntry<A>, A>,
    fixup: ResolvedFixup,
) -> Result<(), AllocError>
    ensures says { OnOk result ((bytes places : List ℕ) → map (stored.data_record bytes places) list.new.items
        ≡ add_to_last (fixup ∷ []) (map (stored.data_record bytes places) list.old.items)) }
    ensures inside { (bytes places : List ℕ) → AllByRecursion (stored.DataIsIn bytes places) list.old.items
        → AllByRecursion (stored.DataIsIn bytes places) list.new.items }
{
    let n = list.len();
    if n > 0 {
        let last = &mut list[n - 1];
        last.fixups.push(fixup)?;
    }
    Ok(())
}
