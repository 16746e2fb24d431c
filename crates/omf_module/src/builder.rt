//! Takes the records of a module one after the other.
ghost use Rattle.std.specs.Prelude.{
  Some,
  None,
  ◌≡◌,
  ◌+◌,
  ◌-◌,
  ◌++◌,
  ◌∷◌,
  [],
  ◌^◌,
  ◌<◌,
  ◌≤◌,
  ℕ,
  length,
  List,
  map,
  OnOk,
  IfOk,
  slice_set,
};
ghost use Rattle.std.specs.Option.{option_to_list};
ghost use Rattle.std.specs.List.{AllByRecursion};
ghost use Rattle.omf_record.specs.Record as says;
ghost use Rattle.omf_record.specs.View.{external_view, public_view, block_view, view};
ghost use Rattle.omf_record.specs.Expansion.{expansion, blocks_len, data_len};
ghost use Rattle.omf_record.specs.declared.fixups.Subrecord.TheVariants as sub;
ghost use Rattle.omf_module.specs.Before.{first, entry};
ghost use Rattle.omf_module.specs.Tables as tables;
ghost use Rattle.omf_module.specs.inside.Entries as defined;
ghost use Rattle.omf_module.specs.Faults as faults;
ghost use Rattle.omf_module.specs.inside.Checking as checking;
ghost use Rattle.omf_module.specs.inside.Running as running;
ghost use Rattle.omf_module.specs.inside.Running.{module_in};
ghost use Rattle.omf_module.specs.Sound.{IsSound};
ghost use Rattle.omf_module.specs.inside.Building.{Gives, state, contents_of};
ghost use Rattle.omf_record.specs.Records.{Placed};
ghost use Rattle.omf_module.specs.Building.{IsTakable, FitsFields, Holds, Adds};
ghost use Rattle.omf_module.specs.Tables.{module_of};

use crate::checks::{holds_base, is_beyond, misses, smaller, when};
use crate::contents::{Content, contents_of_blocks, lies_in};
use crate::entries::DataOrigin;
use crate::fault::CheckFault;
use crate::lookups::Module;
use crate::store::Store;
use crate::{ResolvedFixup, Start};
use omf_record::{
    Block, Datum, External, Fixup, FrameMethod, Public, PublicBase, Record, Reference,
    SegmentDefinition, Subrecord, TargetMethod, expanded_len, thread_number,
};
use std::alloc::{AllocError, AllocFailed, Allocator};

/// Why a record isn't taken.
#[derive(Clone, Copy, Debug)]
pub enum AddFault {
    Memory,
    Check(CheckFault),
}

impl From<AllocError> for AddFault {
    ghost use Rattle.omf_module.specs.declared.builder.AddFault.TheVariants.{Memory};

    ghost from_gives = { λ _ e. e ≡ Memory };

    fn from(_: AllocError) -> Self {
        AddFault::Memory
    }
}

/// The contents that a fix-up may lie in.
#[derive(Drop)]
pub enum LastData<A: Allocator + Copy> {
    /// There was no data record.
    Absent,
    /// So many bytes as they are stored, which are one content.
    Stored(usize),
    /// The contents of repeated data.
    Repeated(Vec<Content, A>),
}

/// What is kept of the records so far.
#[derive(Drop)]
pub struct ModuleBuilder<A: Allocator + Copy> {
    begun: bool,
    store: Store<A>,
    frame_threads: [Option<FrameMethod>; 4],
    target_threads: [Option<TargetMethod>; 4],
    last_data: LastData<A>,
    start: Option<Start>,
}

/// Keeps the names of LNAMES.
fn add_names<A: Allocator + Copy>(store: &mut Store<A>, names: &[&[u8]]) -> Result<(), AllocError>
    ensures { OnOk result (store.new ≡ record store.old { names = store.old.names ++ map (λ n. n.now) names.now }) }
{
    for name in names {
        store.push_name(name)?;
    }
    Ok(())
}

/// Keeps the names of EXTDEF or LEXTDEF.
fn add_externals<A: Allocator + Copy>(
    store: &mut Store<A>,
    local: bool,
    names: &[External<'_>],
) -> Result<(), AllocError>
    ensures { OnOk result
        (store.new
        ≡ record store.old {
          externals = store.old.externals
              ++ map (defined.external_of local) (map external_view names.now);
        }) }
{
    for external in names {
        store.push_external(external.name, local)?;
    }
    Ok(())
}

/// Keeps the names of PUBDEF or LPUBDEF.
fn add_publics<A: Allocator + Copy>(
    store: &mut Store<A>,
    local: bool,
    base: PublicBase,
    publics: &[Public<'_>],
) -> Result<(), AllocError>
    ensures kept { OnOk result
        (store.new
        ≡ record store.old {
          publics = store.old.publics
              ++ map (defined.public_of local base) (map public_view publics.now);
        }) }
    ensures fits { OnOk result (AllByRecursion (λ p. p.offset < 65536) (map public_view publics.now)) }
{
    for public in publics {
        store.push_public(public.name, base, public.offset, local)?;
    }
    Ok(())
}

/// The method of a frame, by the threads as they are set; none where its thread isn't.
fn frame_used(threads: &[Option<FrameMethod>; 4], datum: Datum<FrameMethod>) -> Option<FrameMethod>
    ensures { result ≡ tables.used (running.slot threads.now) datum }
{
    match datum {
        Datum::Thread(thread) => threads[usize::from(thread_number(thread))],
        Datum::By(method) => Some(method),
    }
}

/// The method of a target, by the threads as they are set; none where its thread isn't.
fn target_used(
    threads: &[Option<TargetMethod>; 4],
    datum: Datum<TargetMethod>,
) -> Option<TargetMethod>
    ensures { result ≡ tables.used (running.slot threads.now) datum }
{
    match datum {
        Datum::Thread(thread) => threads[usize::from(thread_number(thread))],
        Datum::By(method) => Some(method),
    }
}

/// The fix-up by the methods that it uses; none where a thread isn't set.
fn fixup_of(
    place: u64,
    fixup: &Fixup,
    frame: Option<FrameMethod>,
    target: Option<TargetMethod>,
) -> Option<ResolvedFixup>
    ensures { result ≡ checking.fixup_of place fixup.now frame target }
{
    Some(ResolvedFixup {
        place,
        self_relative: fixup.self_relative,
        location: fixup.location,
        offset: fixup.offset,
        frame: frame?,
        target: target?,
        displacement: fixup.reference.displacement.unwrap_or(0),
    })
}

/// The start by the methods that it uses; none where a thread isn't set.
fn start_of(
    place: u64,
    reference: &Reference,
    frame: Option<FrameMethod>,
    target: Option<TargetMethod>,
) -> Option<Start>
    ensures { result ≡ checking.start_of place reference.now frame target }
{
    Some(Start {
        place,
        frame: frame?,
        target: target?,
        displacement: reference.displacement.unwrap_or(0),
    })
}

/// The fault of a base that would be relative to itself.
fn relative_fault(fixup: &Fixup) -> Option<CheckFault>
    ensures { result ≡ checking.relative_fault fixup.now }
{
    if fixup.self_relative {
        when(holds_base(fixup.location), CheckFault::SelfRelativeBase)
    } else {
        None
    }
}

/// The fault of a start with the frame of its location, which it hasn't.
fn location_fault(frame: Option<FrameMethod>) -> Option<CheckFault>
    ensures { result ≡ checking.location_fault frame }
{
    match frame {
        Some(FrameMethod::Location) => Some(CheckFault::FrameOfLocation),
        _ => None,
    }
}

/// The fault of a first record that isn't THEADR.
#[tactic(auto, unfolding(omf_record::specs::View::view))]
fn header_fault<A: Allocator + Copy>(begun: bool, record: &Record<'_, A>) -> Option<CheckFault>
    ensures { result ≡ checking.opening_fault begun (view «record».now) }
{
    match record {
        Record::Theadr { .. } => None,
        _ => when(!begun, CheckFault::NotHeader),
    }
}

impl<A: Allocator + Copy> LastData<A> {
    /// The fault of a fix-up's location against the contents.
    fn place_fault(&self, fixup: &Fixup) -> Option<CheckFault>
        ensures { result ≡ faults.place_fault (contents_of self.now) fixup.now }
    {
        let width = usize::from(fixup.location.width());
        let lies = match self {
            LastData::Absent => return Some(CheckFault::FixupBeforeData),
            LastData::Stored(len) => usize::from(fixup.offset) + width <= *len,
            LastData::Repeated(contents) => lies_in(contents, usize::from(fixup.offset), width),
        };
        when(!lies, CheckFault::FixupPlace)
    }
}

impl<A: Allocator + Copy> ModuleBuilder<A> {
    /// The fault of an index that has to mean a segment.
    fn segment_index(&self, index: u16) -> Option<CheckFault>
        ensures { result
            ≡ checking.when (faults.misses (state self.now).tables.segments index) CheckFault.SegmentIndex }
    {
        let count = self.store.segment_count();
        when(misses(count, index), CheckFault::SegmentIndex)
    }

    /// The fault of an index that has to mean a group.
    fn group_index(&self, index: u16) -> Option<CheckFault>
        ensures { result ≡ checking.when (faults.misses (state self.now).tables.groups index) CheckFault.GroupIndex }
    {
        let count = self.store.group_count();
        when(misses(count, index), CheckFault::GroupIndex)
    }

    /// The fault of an index that has to mean an external.
    fn external_index(&self, index: u16) -> Option<CheckFault>
        ensures { result
            ≡ checking.when (faults.misses (state self.now).tables.externals index) CheckFault.ExternalIndex }
    {
        let count = self.store.external_count();
        when(misses(count, index), CheckFault::ExternalIndex)
    }

    /// The fault of a frame by its method; none: its thread isn't set.
    fn frame_fault(&self, frame: Option<FrameMethod>) -> Option<CheckFault>
        ensures { result ≡ checking.frame_fault (module_in (state self.now)) frame }
    {
        match frame {
            None => Some(CheckFault::ThreadNotSet),
            Some(FrameMethod::By(method)) => self.target_fault(Some(method)),
            Some(FrameMethod::Location | FrameMethod::Target) => None,
        }
    }

    /// The fault of a target by its method; none: its thread isn't set.
    fn target_fault(&self, target: Option<TargetMethod>) -> Option<CheckFault>
        ensures { result ≡ checking.target_fault (module_in (state self.now)) target }
    {
        let Some(method) = target else {
            return Some(CheckFault::ThreadNotSet);
        };
        match method {
            TargetMethod::Segment(index) => self.segment_index(index),
            TargetMethod::Group(index) => self.group_index(index),
            TargetMethod::External(index) => self.external_index(index),
        }
    }

    /// The fault of a fix-up by the methods that it uses.
    fn fixup_fault(
        &self,
        frame: Option<FrameMethod>,
        target: Option<TargetMethod>,
        fixup: &Fixup,
    ) -> Option<CheckFault>
        ensures { result
            ≡ checking.fixup_fault (module_in (state self.now)) frame target (state self.now).contents fixup.now }
    {
        let of_place = smaller(self.last_data.place_fault(fixup), relative_fault(fixup));
        smaller(
            self.frame_fault(frame),
            smaller(self.target_fault(target), of_place),
        )
    }

    /// The fault of a start by the methods that it uses.
    fn start_fault(
        &self,
        frame: Option<FrameMethod>,
        target: Option<TargetMethod>,
    ) -> Option<CheckFault>
        ensures { result ≡ checking.start_fault (module_in (state self.now)) frame target }
    {
        let of_target = smaller(self.target_fault(target), location_fault(frame));
        smaller(self.frame_fault(frame), of_target)
    }

    /// Takes a fix-up, which goes to the last data record.
    #[tactic(auto, using(crate::proofs::LastData::none_to_last), unfolding(crate::specs::inside::Running::step_subrecord))]
    fn add_fixup(&mut self, place: u64, fixup: &Fixup) -> Result<(), AddFault>
        ensures { Gives (λ _. state self.new) result
            (running.step_subrecord place (state self.old) (sub.Fixup fixup.now)) }
    {
        let frame = frame_used(&self.frame_threads, fixup.reference.frame);
        let target = target_used(&self.target_threads, fixup.reference.target);
        if let Some(fault) = self.fixup_fault(frame, target, fixup) {
            return Err(AddFault::Check(fault));
        }
        if let Some(resolved) = fixup_of(place, fixup, frame, target) {
            self.store.push_fixup(resolved)?;
        }
        Ok(())
    }

    /// Takes one subrecord of FIXUPP: it sets a thread or is a fix-up.
    #[tactic(auto, unfolding(crate::specs::inside::Running::step_subrecord))]
    fn add_subrecord(&mut self, place: u64, subrecord: &Subrecord) -> Result<(), AddFault>
        ensures { Gives (λ _. state self.new) result (running.step_subrecord place (state self.old) subrecord.now) }
    {
        match subrecord {
            Subrecord::SetFrame(thread, method) => {
                self.frame_threads[usize::from(thread_number(*thread))] = Some(*method);
                Ok(())
            }
            Subrecord::SetTarget(thread, method) => {
                self.target_threads[usize::from(thread_number(*thread))] = Some(*method);
                Ok(())
            }
            Subrecord::Fixup(fixup) => self.add_fixup(place, fixup),
        }
    }

    /// Takes FIXUPP.
    fn add_subrecords(&mut self, place: u64, subrecords: &[Subrecord]) -> Result<(), AddFault>
        ensures { Gives (λ _. state self.new) result (running.step_subrecords place (state self.old) subrecords.now) }
    {
        for subrecord in subrecords {
            self.add_subrecord(place, subrecord)?;
        }
        Ok(())
    }

    /// Takes SEGDEF.
    #[tactic(auto, unfolding(crate::specs::inside::Running::step_record))]
    fn add_segment(&mut self, place: u64, definition: SegmentDefinition) -> Result<(), AddFault>
        ensures gives { Gives (λ _. state self.new) result
            (running.step_record place (state self.old) (says.Segdef definition)) }
        ensures fits { OnOk result (FitsFields (says.Segdef definition)) }
    {
        let names = self.store.name_count();
        if is_beyond(names, definition.name) || is_beyond(names, definition.class) {
            return Err(AddFault::Check(CheckFault::NameIndex));
        }
        self.store.push_segment(&definition)?;
        Ok(())
    }

    /// The first fault of a group's name and components.
    fn group_fault(&self, name: u16, components: &[u16]) -> Option<CheckFault>
        ensures { result ≡ running.group_fault (state self.now).tables name components.now }
    {
        match when(misses(self.store.name_count(), name), CheckFault::NameIndex) {
            Some(fault) => Some(fault),
            None => self.store.components_fault(components),
        }
    }

    /// Takes GRPDEF.
    #[tactic(auto, unfolding(crate::specs::inside::Running::step_record))]
    fn add_group(
        &mut self,
        alloc: A,
        place: u64,
        name: u16,
        components: &[u16],
    ) -> Result<(), AddFault>
        ensures { Gives (λ _. state self.new) result
            (running.step_record place (state self.old) (says.Grpdef name components.now)) }
    {
        if let Some(fault) = self.group_fault(name, components) {
            return Err(AddFault::Check(fault));
        }
        self.store.push_group(alloc, name, components)?;
        Ok(())
    }

    /// The fault of what the offsets of public symbols count from.
    fn public_fault(&self, base: PublicBase) -> Option<CheckFault>
        ensures { result ≡ faults.public_fault (module_in (state self.now)) base }
    {
        let groups = self.store.group_count();
        match base {
            PublicBase::AtFrame { group, .. } => {
                when(is_beyond(groups, group), CheckFault::GroupIndex)
            }
            PublicBase::InSegment { group, segment } => {
                let segments = self.store.segment_count();
                when(misses(segments, segment), CheckFault::SegmentIndex).or(when(
                    is_beyond(groups, group),
                    CheckFault::GroupIndex,
                ))
            }
        }
    }

    /// Takes PUBDEF or LPUBDEF.
    #[tactic(auto, unfolding(crate::specs::inside::Running::step_record))]
    fn add_publics(
        &mut self,
        place: u64,
        local: bool,
        base: PublicBase,
        publics: &[Public<'_>],
    ) -> Result<(), AddFault>
        ensures gives { Gives (λ _. state self.new) result
            (running.step_record place (state self.old) (says.Pubdef local base (map public_view publics.now))) }
        ensures fits { OnOk result (FitsFields (says.Pubdef local base (map public_view publics.now))) }
    {
        if let Some(fault) = self.public_fault(base) {
            return Err(AddFault::Check(fault));
        }
        add_publics(&mut self.store, local, base, publics)?;
        Ok(())
    }

    /// Takes LEDATA.
    #[tactic(auto, unfolding(crate::specs::inside::Running::step_record))]
    fn add_bytes(&mut self, alloc: A, origin: DataOrigin, bytes: &[u8]) -> Result<(), AddFault>
        requires { length bytes.now ≤ 65534 }
        ensures { Gives (λ _. state self.new) result
            (running.step_record origin.place (state self.old)
            (says.Ledata origin.segment origin.offset bytes.now)) }
    {
        let len = bytes.len() as u32;
        if let Some(fault) = self.store.data_fault(origin.segment, origin.offset, len) {
            return Err(AddFault::Check(fault));
        }
        self.store.push_bytes(alloc, origin.from_zero(), bytes)?;
        self.last_data = LastData::Stored(bytes.len());
        Ok(())
    }

    /// Takes MODEND with a start.
    #[tactic(auto, unfolding(crate::specs::inside::Running::step_record))]
    fn add_start(&mut self, place: u64, main: bool, reference: &Reference) -> Result<(), AddFault>
        ensures { Gives (λ _. state self.new) result
            (running.step_record place (state self.old) (says.Modend main (Some reference.now))) }
    {
        let frame = frame_used(&self.frame_threads, reference.frame);
        let target = target_used(&self.target_threads, reference.target);
        if let Some(fault) = self.start_fault(frame, target) {
            return Err(AddFault::Check(fault));
        }
        if let Some(start) = start_of(place, reference, frame, target) {
            self.start = Some(start);
        }
        Ok(())
    }

    /// Takes LIDATA.
    #[tactic(auto, unfolding(crate::specs::inside::Running::step_record))]
    fn add_blocks(
        &mut self,
        alloc: A,
        origin: DataOrigin,
        blocks: &[Block<'_, A>],
    ) -> Result<(), AddFault>
        requires { blocks_len (map block_view blocks.now) ≤ 65534 }
        ensures { Gives (λ _. state self.new) result
            (running.step_record origin.place (state self.old)
            (says.Lidata origin.segment origin.offset (map block_view blocks.now))) }
    {
        let count = expanded_len(blocks);
        if let Some(fault) = self.store.data_fault(origin.segment, origin.offset, count) {
            return Err(AddFault::Check(fault));
        }
        let contents = contents_of_blocks(alloc, blocks)?;
        self.store
            .push_blocks(alloc, origin.from_zero(), count as usize, blocks)?;
        self.last_data = LastData::Repeated(contents);
        Ok(())
    }

    /// Takes a record that may stand here.
    #[tactic(auto, unfolding(crate::specs::inside::Running::step_record, omf_record::specs::View::view, omf_record::specs::Expansion::data_len))]
    fn add_record(&mut self, alloc: A, place: u64, record: &Record<'_, A>) -> Result<(), AddFault>
        requires { data_len (view «record».now) ≤ 65534 }
        ensures gives { Gives (λ _. state self.new) result
            (running.step_record place (state self.old) (view «record».now)) }
        ensures fits { OnOk result (FitsFields (view «record».now)) }
    {
        match record {
            Record::Theadr { .. } | Record::Coment { .. } | Record::Linnum { .. } => Ok(()),
            Record::Lnames { names } => Ok(add_names(&mut self.store, names)?),
            Record::Segdef { segment } => self.add_segment(place, *segment),
            Record::Grpdef { name, segments } => self.add_group(alloc, place, *name, segments),
            Record::Extdef { local, names } => Ok(add_externals(&mut self.store, *local, names)?),
            Record::Pubdef {
                local,
                base,
                publics,
            } => self.add_publics(place, *local, *base, publics),
            Record::Ledata {
                segment,
                offset,
                bytes,
            } => self.add_bytes(alloc, DataOrigin::new(place, *segment, *offset), bytes),
            Record::Lidata {
                segment,
                offset,
                blocks,
            } => self.add_blocks(alloc, DataOrigin::new(place, *segment, *offset), blocks),
            Record::Fixupp { subrecords } => self.add_subrecords(place, subrecords),
            Record::Modend { start: None, .. } => Ok(()),
            Record::Modend {
                main,
                start: Some(reference),
            } => self.add_start(place, *main, reference),
        }
    }

    /// Takes one more record. What is kept stands for the records so far and this one, or the record has this fault.
    #[tactic(auto, unfolding(crate::specs::inside::Running::step))]
    pub(crate) fn take(
        &mut self,
        alloc: A,
        place: u64,
        record: &Record<'_, A>,
    ) -> Result<(), AddFault>
        requires { data_len (view «record».now) ≤ 65534 }
        ensures gives { Gives (λ _. state self.new) result
            (running.step (state self.old) place (view «record».now)) }
        ensures fits { OnOk result (FitsFields (view «record».now)) }
    {
        if let Some(fault) = header_fault(self.begun, record) {
            return Err(AddFault::Check(fault));
        }
        self.begun = true;
        self.add_record(alloc, place, record)
    }

    /// The module of what is kept.
    pub(crate) fn into_module(self) -> Module<A>
        requires { IsSound (running.module_in (state self)) }
        ensures { result ≡ running.module_in (state self) }
    {
        let ModuleBuilder {
            begun: _,
            store,
            frame_threads: _,
            target_threads: _,
            last_data: _,
            start,
        } = self;
        Module::from_parts(store, start)
    }

    /// A builder that holds no record.
    pub fn new(alloc: A) -> ModuleBuilder<A>
        ensures { Holds [] result }
    {
        ModuleBuilder {
            begun: false,
            store: Store::new(alloc),
            frame_threads: [None, None, None, None],
            target_threads: [None, None, None, None],
            last_data: LastData::Absent,
            start: None,
        }
    }

    /// Takes one more record, which begins at this place, behind those that the builder holds. The place is one of a
    /// file: it goes into what the record adds, and is only told.
    ///
    /// `Check` is the first fault that a module would have with the record behind these. After an `Err` nothing is said
    /// of what the builder holds, and it is to be let go.
    pub fn add(&mut self, alloc: A, place: u64, record: &Record<'_, A>) -> Result<(), AddFault>
        requires { IsTakable (view «record».now) }
        ensures { (records : List Placed) (body : List ℕ) → Holds records self.old
            → Adds records (record { place = place; body = body; says = view «record».now }) self.new result }
    {
        self.take(alloc, place, record)
    }

    /// The module that the records say.
    pub fn finish(self) -> Module<A>
        requires { (records : List Placed) × Holds records self }
        ensures { (records : List Placed) → Holds records self → result ≡ module_of records }
    {
        self.into_module()
    }
}
