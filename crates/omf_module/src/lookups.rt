//! A whole module, and what it hands out.
ghost use Rattle.std.specs.Prelude.{◌≡◌, ◌<◌, length, slice_get, Some, All};
ghost use Rattle.omf_module.specs.Seen.{segment_seen, group_seen, external_seen, public_seen, data_seen};
ghost use Rattle.omf_module.specs.Sound.{IsSound};

use crate::store::Store;
use crate::{ResolvedFixup, Standing, Start};
use omf_record::PublicBase;
use std::alloc::{Allocator, Global};
use std::marker::Model;

/// A segment of a module. Its name and class are empty where the definition names none.
#[derive(Clone, Copy, Debug)]
pub struct Segment<'a> {
    pub name: &'a [u8],
    pub class: &'a [u8],
    /// In bytes, at most 65,536.
    pub length: u32,
    pub standing: Standing,
}

/// A part of a group: its members are segments of the module, counted from 0.
#[derive(Clone, Copy, Debug)]
pub struct Group<'a> {
    pub name: &'a [u8],
    pub members: &'a [u16],
}

/// A name that the module uses: a public name of some module, or, where it is local, a local public name of its own.
#[derive(Clone, Copy, Debug)]
pub struct ExternalSymbol<'a> {
    pub name: &'a [u8],
    pub local: bool,
}

/// A name that the module defines: for all modules, or, where it is local, for itself alone.
#[derive(Clone, Copy, Debug)]
pub struct PublicSymbol<'a> {
    pub name: &'a [u8],
    /// What the offset counts from; segment and group count from 1, as in the record.
    pub base: PublicBase,
    pub offset: u16,
    pub local: bool,
}

/// Data for a segment, counted from 0, from an offset in it on.
#[derive(Clone, Copy, Debug)]
pub struct DataRecord<'a> {
    /// The place of its LEDATA or LIDATA record.
    pub place: u64,
    pub segment: u16,
    pub offset: u16,
    /// The bytes, with repeated ones written out.
    pub bytes: &'a [u8],
    /// The stored place of each byte.
    pub places: &'a [u16],
    /// The fix-ups on it, in order.
    pub fixups: &'a [ResolvedFixup],
}

/// What the records of a whole object module say, where no check refuses them.
#[derive(Drop)]
pub struct Module<A: Allocator + Copy = Global> {
    store: Store<A>,
    start: Option<Start>,
}

impl<A: Allocator + Copy> Model for Module<A> {
    ghost use Rattle.omf_module.specs.Module as says;

    ghost Value = { says.Module };

    ghost view = { λ m. record {
      segments = m.store.segments;
      groups = m.store.groups;
      externals = m.store.externals;
      publics = m.store.publics;
      data_records = m.store.data_records;
      start = m.start;
    } };

    ghost use Rattle.omf_module.specs.Sound.{IsSound};

    ghost invariant = { λ m. IsSound (record {
      segments = m.store.segments;
      groups = m.store.groups;
      externals = m.store.externals;
      publics = m.store.publics;
      data_records = m.store.data_records;
      start = m.start;
    }) };
}

impl<A: Allocator + Copy> Module<A> {
    pub(crate) fn from_parts(store: Store<A>, start: Option<Start>) -> Module<A>
        requires { IsSound (record {
          segments = store.segments;
          groups = store.groups;
          externals = store.externals;
          publics = store.publics;
          data_records = store.data_records;
          start = start;
        }) }
        ensures { result ≡ record {
          segments = store.segments;
          groups = store.groups;
          externals = store.externals;
          publics = store.publics;
          data_records = store.data_records;
          start = start;
        } }
    {
        Module { store, start }
    }

    pub(crate) fn into_parts(self) -> (Store<A>, Option<Start>)
        ensures parts { self ≡ record {
          segments = result.0.segments;
          groups = result.0.groups;
          externals = result.0.externals;
          publics = result.0.publics;
          data_records = result.0.data_records;
          start = result.1;
        } }
        ensures sound { IsSound self }
    {
        let Module { store, start } = self;
        (store, start)
    }

    /// Every index means something, names are short, data lies in its segment, and fix-ups in their data.
    pub fn promises(&self)
        ensures { IsSound self.now }
    {
        // A look at a field tells of the invariant.
        let _ = &self.store;
    }

    /// How many segments the module defines.
    pub fn segment_count(&self) -> usize
        ensures { result ≡ length self.now.segments }
    {
        self.store.segment_count()
    }

    /// The one at an index, counted from 0.
    pub fn segment(&self, index: usize) -> Segment<'_>
        requires { index < length self.now.segments }
        ensures { slice_get self.now.segments index ≡ Some (segment_seen result) }
    {
        self.store.segment(index)
    }

    /// The segment definitions, in order.
    pub fn segments(&self) -> Segments<'_, A>
        ensures { result ≡ self.now.segments }
    {
        Segments {
            module: self,
            next: 0,
        }
    }

    /// How many parts of groups the module defines.
    pub fn group_count(&self) -> usize
        ensures { result ≡ length self.now.groups }
    {
        self.store.group_count()
    }

    /// The one at an index, counted from 0.
    pub fn group(&self, index: usize) -> Group<'_>
        requires { index < length self.now.groups }
        ensures { slice_get self.now.groups index ≡ Some (group_seen result) }
    {
        self.store.group(index)
    }

    /// The parts of groups, in order.
    pub fn groups(&self) -> Groups<'_, A>
        ensures { result ≡ self.now.groups }
    {
        Groups {
            module: self,
            next: 0,
        }
    }

    /// How many external names the module has, local ones among them.
    pub fn external_count(&self) -> usize
        ensures { result ≡ length self.now.externals }
    {
        self.store.external_count()
    }

    /// The one at an index, counted from 0.
    pub fn external(&self, index: usize) -> ExternalSymbol<'_>
        requires { index < length self.now.externals }
        ensures { slice_get self.now.externals index ≡ Some (external_seen result) }
    {
        self.store.external(index)
    }

    /// The external names, local ones among them, in order.
    pub fn externals(&self) -> Externals<'_, A>
        ensures { result ≡ self.now.externals }
    {
        Externals {
            module: self,
            next: 0,
        }
    }

    /// How many public names the module defines, local ones among them.
    pub fn public_symbol_count(&self) -> usize
        ensures { result ≡ length self.now.publics }
    {
        self.store.public_symbol_count()
    }

    /// The one at an index, counted from 0.
    pub fn public_symbol(&self, index: usize) -> PublicSymbol<'_>
        requires { index < length self.now.publics }
        ensures { slice_get self.now.publics index ≡ Some (public_seen result) }
    {
        self.store.public_symbol(index)
    }

    /// The public names, local ones among them, in order.
    pub fn publics(&self) -> Publics<'_, A>
        ensures { result ≡ self.now.publics }
    {
        Publics {
            module: self,
            next: 0,
        }
    }

    /// How many data records the module has.
    pub fn data_record_count(&self) -> usize
        ensures { result ≡ length self.now.data_records }
    {
        self.store.data_record_count()
    }

    /// The one at an index, counted from 0.
    pub fn data_record(&self, index: usize) -> DataRecord<'_>
        requires { index < length self.now.data_records }
        ensures seen { slice_get self.now.data_records index ≡ Some (data_seen result) }
        ensures lengths { length result.bytes.now ≡ length result.places.now }
    {
        self.store.data_record(index)
    }

    /// The data records, in order.
    pub fn data_records(&self) -> DataRecords<'_, A>
        ensures { result ≡ self.now.data_records }
    {
        DataRecords {
            module: self,
            next: 0,
        }
    }

    /// Where the program starts, if the module says so.
    pub fn start(&self) -> Option<Start>
        ensures { result ≡ self.now.start }
    {
        self.start
    }
}

/// Each of these modules keeps its promises.
pub fn all_promise<A: Allocator + Copy>(modules: &[Module<A>])
    ensures { All IsSound modules.now }
{
    for each in modules {
        each.promises();
    }
}

/// The segment definitions, in order.
#[derive(Drop)]
pub struct Segments<'a, A: Allocator + Copy = Global> {
    module: &'a Module<A>,
    next: usize,
}

impl<'a, A: Allocator + Copy> Model for Segments<'a, A> {
    ghost use Rattle.std.specs.Prelude.{List, drop, ◌≤◌, length};
    ghost use Rattle.omf_module.specs.Module as says;

    ghost Value = { List says.Segment };

    ghost view = { λ s. drop s.next s.module.now.segments };

    ghost invariant = { λ s. s.next ≤ length s.module.now.segments };
}

impl<'a, A: Allocator + Copy> Iterator for Segments<'a, A> {
    type Item = Segment<'a>;

    ghost use Rattle.std.specs.Iterator.{YieldsFirstBy, item_count};
    ghost use Rattle.omf_module.specs.Seen.{segment_seen};

    ghost next_gives = { YieldsFirstBy segment_seen (λ s. s) };

    ghost remaining = { item_count (λ s. s) };

    fn next(&mut self) -> Option<Segment<'a>> {
        if self.next < self.module.segment_count() {
            let item = self.module.segment(self.next);
            self.next += 1;
            Some(item)
        } else {
            None
        }
    }
}

/// The parts of groups, in order.
#[derive(Drop)]
pub struct Groups<'a, A: Allocator + Copy = Global> {
    module: &'a Module<A>,
    next: usize,
}

impl<'a, A: Allocator + Copy> Model for Groups<'a, A> {
    ghost use Rattle.std.specs.Prelude.{List, drop, ◌≤◌, length};
    ghost use Rattle.omf_module.specs.Module as says;

    ghost Value = { List says.Group };

    ghost view = { λ s. drop s.next s.module.now.groups };

    ghost invariant = { λ s. s.next ≤ length s.module.now.groups };
}

impl<'a, A: Allocator + Copy> Iterator for Groups<'a, A> {
    type Item = Group<'a>;

    ghost use Rattle.std.specs.Iterator.{YieldsFirstBy, item_count};
    ghost use Rattle.omf_module.specs.Seen.{group_seen};

    ghost next_gives = { YieldsFirstBy group_seen (λ s. s) };

    ghost remaining = { item_count (λ s. s) };

    fn next(&mut self) -> Option<Group<'a>> {
        if self.next < self.module.group_count() {
            let item = self.module.group(self.next);
            self.next += 1;
            Some(item)
        } else {
            None
        }
    }
}

/// The external names, in order.
#[derive(Drop)]
pub struct Externals<'a, A: Allocator + Copy = Global> {
    module: &'a Module<A>,
    next: usize,
}

impl<'a, A: Allocator + Copy> Model for Externals<'a, A> {
    ghost use Rattle.std.specs.Prelude.{List, drop, ◌≤◌, length};
    ghost use Rattle.omf_module.specs.Module as says;

    ghost Value = { List says.ExternalSymbol };

    ghost view = { λ s. drop s.next s.module.now.externals };

    ghost invariant = { λ s. s.next ≤ length s.module.now.externals };
}

impl<'a, A: Allocator + Copy> Iterator for Externals<'a, A> {
    type Item = ExternalSymbol<'a>;

    ghost use Rattle.std.specs.Iterator.{YieldsFirstBy, item_count};
    ghost use Rattle.omf_module.specs.Seen.{external_seen};

    ghost next_gives = { YieldsFirstBy external_seen (λ s. s) };

    ghost remaining = { item_count (λ s. s) };

    fn next(&mut self) -> Option<ExternalSymbol<'a>> {
        if self.next < self.module.external_count() {
            let item = self.module.external(self.next);
            self.next += 1;
            Some(item)
        } else {
            None
        }
    }
}

/// The public names, in order.
#[derive(Drop)]
pub struct Publics<'a, A: Allocator + Copy = Global> {
    module: &'a Module<A>,
    next: usize,
}

impl<'a, A: Allocator + Copy> Model for Publics<'a, A> {
    ghost use Rattle.std.specs.Prelude.{List, drop, ◌≤◌, length};
    ghost use Rattle.omf_module.specs.Module as says;

    ghost Value = { List says.PublicSymbol };

    ghost view = { λ s. drop s.next s.module.now.publics };

    ghost invariant = { λ s. s.next ≤ length s.module.now.publics };
}

impl<'a, A: Allocator + Copy> Iterator for Publics<'a, A> {
    type Item = PublicSymbol<'a>;

    ghost use Rattle.std.specs.Iterator.{YieldsFirstBy, item_count};
    ghost use Rattle.omf_module.specs.Seen.{public_seen};

    ghost next_gives = { YieldsFirstBy public_seen (λ s. s) };

    ghost remaining = { item_count (λ s. s) };

    fn next(&mut self) -> Option<PublicSymbol<'a>> {
        if self.next < self.module.public_symbol_count() {
            let item = self.module.public_symbol(self.next);
            self.next += 1;
            Some(item)
        } else {
            None
        }
    }
}

/// The data records, in order.
#[derive(Drop)]
pub struct DataRecords<'a, A: Allocator + Copy = Global> {
    module: &'a Module<A>,
    next: usize,
}

impl<'a, A: Allocator + Copy> Model for DataRecords<'a, A> {
    ghost use Rattle.std.specs.Prelude.{List, drop, ◌≤◌, length};
    ghost use Rattle.omf_module.specs.Module as says;

    ghost Value = { List says.DataRecord };

    ghost view = { λ s. drop s.next s.module.now.data_records };

    ghost invariant = { λ s. s.next ≤ length s.module.now.data_records };
}

impl<'a, A: Allocator + Copy> Iterator for DataRecords<'a, A> {
    type Item = DataRecord<'a>;

    ghost use Rattle.std.specs.Prelude.{◌≡◌, IfSome, length};
    ghost use Rattle.std.specs.Iterator.{YieldsFirstBy, item_count};
    ghost use Rattle.omf_module.specs.Seen.{data_seen};

    ghost next_gives = { λ s r t. YieldsFirstBy data_seen (λ s. s) s r t
        × IfSome r (λ data_record. length data_record.bytes.now ≡ length data_record.places.now) };

    ghost remaining = { item_count (λ s. s) };

    fn next(&mut self) -> Option<DataRecord<'a>> {
        if self.next < self.module.data_record_count() {
            let item = self.module.data_record(self.next);
            self.next += 1;
            Some(item)
        } else {
            None
        }
    }
}
