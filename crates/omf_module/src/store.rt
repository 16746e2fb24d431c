//! What is kept of a module: its names and its data in one list of bytes, the stored places of the data in another,
//! and where each piece of them stands.
ghost use Rattle.std.specs.Prelude.{
  ◌≡◌,
  ℕ,
  ◌+◌,
  ◌<◌,
  ◌≤◌,
  ◌++◌,
  ◌∷◌,
  [],
  length,
  slice_get,
  Some,
  None,
  false,
  map,
  OnOk,
  nat_lt,
};
ghost use Rattle.omf_record.specs.View.{block_view};
ghost use Rattle.omf_record.specs.Expansion.{capped, expansion, blocks_len};
ghost use Rattle.omf_record.specs.inside.Fields.{stored_from};
ghost use Rattle.omf_record.specs.Numbers.{segment_len};
ghost use Rattle.omf_module.specs.Before.{first, entry};
ghost use Rattle.omf_module.specs.Defaulted as defaulted;
ghost use Rattle.omf_module.specs.inside.Entries as defined;
ghost use Rattle.omf_module.specs.Faults as faults;
ghost use Rattle.omf_module.specs.Grouped as grouped;
ghost use Rattle.omf_module.specs.Lengths as relengthened;
ghost use Rattle.omf_module.specs.Sound.{SegmentFits};
ghost use Rattle.std.specs.List.{AllByRecursion, enumerate_from};
ghost use Rattle.omf_module.specs.Seen.{segment_seen, group_seen, external_seen, public_seen, data_seen};
ghost use Rattle.omf_module.specs.inside.Running.{add_to_last};

use crate::ResolvedFixup;
use crate::checks::{entry, is_absolute, when};
use crate::defaulting::redirect_data;
use crate::entries::{
    DataEntry, DataOrigin, ExternalEntry, GroupEntry, PublicEntry, SegmentEntry, fix_last,
    group_entry, last_places, length_of, segment_entry,
};
use crate::fault::CheckFault;
use crate::grouping::{group_data, group_publics};
use crate::lengths::set_lengths;
use crate::lookups::{DataRecord, ExternalSymbol, Group, PublicSymbol, Segment};
use crate::pieces::{Piece, keep, keep_expansion, keep_once, lend, rising_piece};
use omf_record::{Block, PublicBase, SegmentDefinition, SegmentLength};
use std::alloc::{AllocError, Allocator};
use std::marker::Model;

/// The tables of a module, as its records fill them.
#[derive(Drop)]
pub struct Store<A: Allocator + Copy> {
    bytes: Vec<u8, A>,
    /// Pieces of several data records may be the same one, or lie in one another.
    places: Vec<u16, A>,
    /// The longest of those that were made to count from 0.
    rising: Piece,
    names: Vec<Piece, A>,
    segments: Vec<SegmentEntry, A>,
    groups: Vec<GroupEntry<A>, A>,
    externals: Vec<ExternalEntry, A>,
    publics: Vec<PublicEntry, A>,
    data_records: Vec<DataEntry<A>, A>,
}

impl<A: Allocator + Copy> Model for Store<A> {
    ghost use Rattle.omf_module.specs.inside.Store.{Kept, kept, IsConsistent};

    ghost Value = { Kept };

    ghost view = { λ store. kept store.bytes.items store.places.items (record {
      names = store.names.items;
      segments = store.segments.items;
      groups = store.groups.items;
      externals = store.externals.items;
      publics = store.publics.items;
      data_records = store.data_records.items;
    }) };

    ghost invariant = { λ store. IsConsistent store.bytes.items store.places.items store.rising (record {
      names = store.names.items;
      segments = store.segments.items;
      groups = store.groups.items;
      externals = store.externals.items;
      publics = store.publics.items;
      data_records = store.data_records.items;
    }) };
}

/// Whether so many bytes from an offset on pass the length. A count of 65,537 stands for any greater one.
fn is_above(length: SegmentLength, offset: u16, count: u32) -> bool
    ensures exact { (n : ℕ) → count ≡ capped n → result ≡ nat_lt (segment_len length) (offset + n) }
    ensures small { result ≡ false → count ≤ 65536 }
{
    u64::from(length.bytes()) < u64::from(offset) + u64::from(count)
}

#[tactic(auto, unfolding(crate::specs::inside::Store::IsConsistent))]
impl<A: Allocator + Copy> Store<A> {
    /// Tables of no record.
    pub fn new(alloc: A) -> Store<A>
        ensures { result
            ≡ record { names = []; segments = []; groups = []; externals = []; publics = []; data_records = [] } }
    {
        Store {
            bytes: Vec::new(alloc),
            places: Vec::new(alloc),
            rising: Piece { from: 0, len: 0 },
            names: Vec::new(alloc),
            segments: Vec::new(alloc),
            groups: Vec::new(alloc),
            externals: Vec::new(alloc),
            publics: Vec::new(alloc),
            data_records: Vec::new(alloc),
        }
    }

    /// How many names are listed.
    pub fn name_count(&self) -> usize
        ensures { result ≡ length self.now.names }
    {
        self.names.len()
    }

    /// How many segments are defined.
    pub fn segment_count(&self) -> usize
        ensures { result ≡ length self.now.segments }
    {
        self.segments.len()
    }

    /// The segment at an index, counted from 0.
    pub fn segment(&self, index: usize) -> Segment<'_>
        requires { index < length self.now.segments }
        ensures { slice_get self.now.segments index ≡ Some (segment_seen result) }
    {
        let segment = &self.segments[index];
        Segment {
            name: lend(&self.bytes, segment.name),
            class: lend(&self.bytes, segment.class),
            length: segment.length.bytes(),
            standing: segment.standing,
        }
    }

    /// How many parts of groups are defined.
    pub fn group_count(&self) -> usize
        ensures { result ≡ length self.now.groups }
    {
        self.groups.len()
    }

    /// The part of a group at an index, counted from 0.
    pub fn group(&self, index: usize) -> Group<'_>
        requires { index < length self.now.groups }
        ensures { slice_get self.now.groups index ≡ Some (group_seen result) }
    {
        let group = &self.groups[index];
        Group {
            name: lend(&self.bytes, group.name),
            members: group.members.as_slice(),
        }
    }

    /// How many external names there are.
    pub fn external_count(&self) -> usize
        ensures { result ≡ length self.now.externals }
    {
        self.externals.len()
    }

    /// The external name at an index, counted from 0.
    pub fn external(&self, index: usize) -> ExternalSymbol<'_>
        requires { index < length self.now.externals }
        ensures { slice_get self.now.externals index ≡ Some (external_seen result) }
    {
        let external = self.externals[index];
        ExternalSymbol {
            name: lend(&self.bytes, external.name),
            local: external.local,
        }
    }

    /// How many public names are defined.
    pub fn public_symbol_count(&self) -> usize
        ensures { result ≡ length self.now.publics }
    {
        self.publics.len()
    }

    /// The public name at an index, counted from 0.
    pub fn public_symbol(&self, index: usize) -> PublicSymbol<'_>
        requires { index < length self.now.publics }
        ensures { slice_get self.now.publics index ≡ Some (public_seen result) }
    {
        let public = self.publics[index];
        PublicSymbol {
            name: lend(&self.bytes, public.name),
            base: public.base,
            offset: public.offset,
            local: public.local,
        }
    }

    /// How many data records there are.
    pub fn data_record_count(&self) -> usize
        ensures { result ≡ length self.now.data_records }
    {
        self.data_records.len()
    }

    /// The data record at an index, counted from 0.
    pub fn data_record(&self, index: usize) -> DataRecord<'_>
        requires { index < length self.now.data_records }
        ensures seen { slice_get self.now.data_records index ≡ Some (data_seen result) }
        ensures lengths { length result.bytes.now ≡ length result.places.now }
    {
        let data = &self.data_records[index];
        DataRecord {
            place: data.place,
            segment: data.segment,
            offset: data.offset,
            bytes: lend(&self.bytes, data.bytes),
            places: lend(&self.places, data.places()),
            fixups: data.fixups.as_slice(),
        }
    }

    /// One more name.
    pub fn push_name(&mut self, name: &[u8]) -> Result<(), AllocError>
        ensures { OnOk result (self.new ≡ record self.old { names = self.old.names ++ name.now ∷ [] }) }
    {
        let name = keep(&mut self.bytes, name)?;
        self.names.push(name)?;
        Ok(())
    }

    /// One more segment, with the names so far.
    pub fn push_segment(&mut self, definition: &SegmentDefinition) -> Result<(), AllocError>
        ensures { OnOk result
            (self.new
            ≡ record self.old {
              segments = self.old.segments ++ defined.segment_of self.old.names definition.now
                  ∷ [];
            }) }
    {
        let segment = segment_entry(&self.names, definition);
        self.segments.push(segment)?;
        Ok(())
    }

    /// One more segment, as it is.
    pub fn push_part(&mut self, segment: Segment<'_>) -> Result<(), AllocError>
        requires { segment.length ≤ 65536 }
        ensures { OnOk result
            (self.new ≡ record self.old { segments = self.old.segments ++ segment_seen segment.entry ∷ [] }) }
    {
        let name = keep(&mut self.bytes, segment.name)?;
        let class = keep(&mut self.bytes, segment.class)?;
        self.segments.push(SegmentEntry {
            name,
            class,
            length: length_of(segment.length),
            standing: segment.standing,
        })?;
        Ok(())
    }

    /// One more part of a group. The components count from 1, and the group's members from 0.
    pub fn push_group(&mut self, alloc: A, name: u16, components: &[u16]) -> Result<(), AllocError>
        ensures { OnOk result
            (self.new
            ≡ record self.old { groups = self.old.groups ++ defined.group_of self.old.names name components.now ∷ [] }) }
    {
        let group = group_entry(alloc, &self.names, name, components)?;
        self.groups.push(group)?;
        Ok(())
    }

    /// One more part of a group, by its name and its members, counted from 0.
    pub fn push_members(&mut self, name: &[u8], members: Vec<u16, A>) -> Result<(), AllocError>
        ensures { OnOk result (self.new ≡ record self.old {
          groups = self.old.groups ++ record { name = name.now; members = members.items } ∷ [];
        }) }
    {
        let name = keep(&mut self.bytes, name)?;
        self.groups.push(GroupEntry { name, members })?;
        Ok(())
    }

    /// Counts from a group, by its index, what counted from segments that are its members.
    pub fn count_from_group(&mut self, joined: &[bool], group: u16)
        ensures { self.new ≡ record self.old {
          publics = map (grouped.public_in joined.now group) self.old.publics;
          data_records = map (grouped.data_in joined.now group) self.old.data_records;
        } }
    {
        group_publics(&mut self.publics, joined, group);
        group_data(&mut self.data_records, joined, group);
    }

    /// One more external name.
    pub fn push_external(&mut self, name: &[u8], local: bool) -> Result<(), AllocError>
        ensures { OnOk result
            (self.new
            ≡ record self.old { externals = self.old.externals ++ record { name = name.now; local = local } ∷ [] }) }
    {
        let name = keep(&mut self.bytes, name)?;
        self.externals.push(ExternalEntry { name, local })?;
        Ok(())
    }

    /// One more public name.
    pub fn push_public(
        &mut self,
        name: &[u8],
        base: PublicBase,
        offset: u16,
        local: bool,
    ) -> Result<(), AllocError>
        ensures { OnOk result (self.new ≡ record self.old {
          publics = self.old.publics ++ record { name = name.now; base = base; offset = offset; local = local } ∷ [];
        }) }
    {
        let name = keep(&mut self.bytes, name)?;
        self.publics.push(PublicEntry {
            name,
            base,
            offset,
            local,
        })?;
        Ok(())
    }

    /// One more data record: bytes as they are stored.
    pub fn push_bytes(
        &mut self,
        alloc: A,
        origin: DataOrigin,
        bytes: &[u8],
    ) -> Result<(), AllocError>
        requires { length bytes.now ≤ 65536 }
        ensures { OnOk result (self.new ≡ record self.old {
          data_records = self.old.data_records ++ record {
            place = origin.place;
            segment = origin.segment;
            offset = origin.offset;
            pairs = stored_from 0 bytes.now;
            fixups = [];
          } ∷ [];
        }) }
    {
        self.rising = rising_piece(&mut self.places, self.rising, bytes.len())?;
        let bytes = keep(&mut self.bytes, bytes)?;
        self.data_records.push(DataEntry {
            place: origin.place,
            segment: origin.segment,
            offset: origin.offset,
            bytes,
            places_from: self.rising.from,
            fixups: Vec::new(alloc),
        })?;
        Ok(())
    }

    /// One more data record: repeated data, written out to so many bytes.
    pub fn push_blocks(
        &mut self,
        alloc: A,
        origin: DataOrigin,
        len: usize,
        blocks: &[Block<'_, A>],
    ) -> Result<(), AllocError>
        requires len { len ≡ length (expansion (map block_view blocks.now)) }
        requires small { len ≤ 65536 }
        requires short { blocks_len (map block_view blocks.now) ≤ 65534 }
        ensures { OnOk result (self.new ≡ record self.old {
          data_records = self.old.data_records ++ record {
            place = origin.place;
            segment = origin.segment;
            offset = origin.offset;
            pairs = expansion (map block_view blocks.now);
            fixups = [];
          } ∷ [];
        }) }
    {
        let bytes = Piece {
            from: self.bytes.len(),
            len,
        };
        let places_from = self.places.len();
        keep_expansion(&mut self.bytes, &mut self.places, len, blocks)?;
        let before = last_places(&self.data_records);
        let places_from = keep_once(&mut self.places, places_from, before);
        self.data_records.push(DataEntry {
            place: origin.place,
            segment: origin.segment,
            offset: origin.offset,
            bytes,
            places_from,
            fixups: Vec::new(alloc),
        })?;
        Ok(())
    }

    /// Makes each reference to an external on data one to that which it means.
    pub fn redirect_externals(&mut self, meanings: &[u16])
        ensures { self.new ≡ record self.old {
          data_records = map (defaulted.data_in meanings.now) self.old.data_records;
        } }
    {
        redirect_data(&mut self.data_records, meanings);
    }

    /// Gives the segments other lengths, where they are told.
    pub fn set_lengths(&mut self, lengths: &[Option<u16>])
        ensures says { self.new ≡ record self.old {
          segments = map (relengthened.with_length lengths.now) (enumerate_from 0 self.old.segments);
        } }
        ensures fits { AllByRecursion SegmentFits self.old.segments → AllByRecursion SegmentFits self.new.segments }
    {
        set_lengths(&mut self.segments, lengths);
    }

    /// One more fix-up on the last data record, where there is one.
    pub fn push_fixup(&mut self, fixup: ResolvedFixup) -> Result<(), AllocError>
        ensures { OnOk result
            (self.new ≡ record self.old { data_records = add_to_last (fixup ∷ []) self.old.data_records }) }
    {
        fix_last(&mut self.data_records, fixup)
    }

    /// The fault of one component of a group.
    fn component_fault(&self, index: u16) -> Option<CheckFault>
        ensures { result ≡ faults.component_fault (entry self.now.segments index) }
    {
        match entry(&self.segments, index) {
            None => Some(CheckFault::SegmentIndex),
            Some(segment) => when(is_absolute(segment.standing), CheckFault::GroupOfAbsolute),
        }
    }

    /// The first fault of a group's components.
    pub fn components_fault(&self, components: &[u16]) -> Option<CheckFault>
        ensures { result
            ≡ first (map (λ index. faults.component_fault (entry self.now.segments index)) components.now) }
    {
        for index in components {
            if let Some(fault) = self.component_fault(*index) {
                return Some(fault);
            }
        }
        None
    }

    /// Why so many bytes can't stand in a segment from an offset on. A count of 65,537 stands for any greater one.
    pub fn data_fault(&self, index: u16, offset: u16, count: u32) -> Option<CheckFault>
        ensures exact { (n : ℕ) → count ≡ capped n
            → result ≡ faults.data_fault (entry self.now.segments index) offset n }
        ensures small { result ≡ None → count ≤ 65536 }
    {
        match entry(&self.segments, index) {
            None => Some(CheckFault::SegmentIndex),
            Some(segment) => {
                let outside = is_above(segment.length, offset, count);
                let absolute = is_absolute(segment.standing);
                when(outside, CheckFault::DataOutside).or(when(
                    absolute,
                    CheckFault::DataInAbsolute,
                ))
            }
        }
    }
}
