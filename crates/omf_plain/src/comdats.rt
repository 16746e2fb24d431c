//! COMDATs: data of which there may be some of one name.

ghost use Rattle.std.specs.Prelude.{◌≡◌, ◌<◌, ℕ, List, OnOk, IfOk, IfSome, length, map, false, Some};
ghost use Rattle.std.specs.Option.{option_map};
ghost use Rattle.omf_comdat.specs.declared.fate.ComdatFate.TheVariants.{Opens, Continues};
ghost use Rattle.omf_extended.specs.View.{extended_view};
ghost use Rattle.omf_record.specs.View.{view};
ghost use Rattle.omf_plain.specs.Comdats as comdats;
ghost use Rattle.omf_plain.specs.Segments as segs;
ghost use Rattle.omf_plain.specs.View.{Answers, given_view, seen_by, taking_of};

use crate::data::{Content, Data};
use crate::fault::{Obstacle, PlainFault};
use crate::flat::flag_at;
use crate::given::Given;
use crate::pass::Pass;
use omf_comdat::ComdatFate;
use omf_extended::{Comdat, ComdatAlignment, ComdatAllocation, Extended};
use omf_library::listed_name;
use omf_record::{
    Alignment, Combination, Public, PublicBase, Record, SegmentDefinition, SegmentLength,
};
use omf_wide::WideSegment;
use std::alloc::{AllocError, Allocator};

/// What a COMDAT record opens.
#[derive(Clone, Copy, Debug)]
pub(crate) struct Opening {
    /// Its segment.
    pub(crate) segment: SegmentDefinition,
    /// The index of the group that its public name counts from.
    pub(crate) group: u16,
    /// The index of its segment.
    pub(crate) index: u16,
    /// Where the data of the record begins in it.
    pub(crate) offset: u16,
}

/// What a COMDAT says, and its data; None of any other record.
#[tactic(auto, unfolding(omf_extended::specs::View::extended_view))]
pub(crate) fn comdat_in<'a, A: Allocator + Copy>(given: &Given<'a, A>) -> Option<(Comdat, &'a [u8])>
    ensures { option_map (λ x. (x.0, x.1.now)) result ≡ comdats.comdat_in (given_view given.now) }
{
    match given {
        Given::Later(
            Extended::Comdat {
                wide: _,
                comdat,
                bytes,
            },
        ) => Some((*comdat, bytes)),
        _ => None,
    }
}

/// A number of 16 bits.
fn word(number: usize) -> Result<u16, Obstacle>
    ensures word { result ≡ comdats.word number }
    ensures same { IfOk result (λ w. w ≡ number) }
{
    if number < 65_536 {
        Ok(number as u16)
    } else {
        Err(Obstacle::Above16Bits)
    }
}

/// The length of a segment of so many bytes.
fn length_of(bytes: u64) -> Result<SegmentLength, Obstacle>
    ensures { result ≡ segs.plain_length false false bytes }
{
    if bytes < 65_536 {
        Ok(SegmentLength::Word(bytes as u16))
    } else if bytes == 65_536 {
        Ok(SegmentLength::Whole)
    } else {
        Err(Obstacle::Above16Bits)
    }
}

/// The alignment that a COMDAT asks for, or that of what it is put into.
fn alignment_of(asked: ComdatAlignment, of_segment: Alignment) -> Alignment
    ensures { result ≡ comdats.alignment_of asked of_segment }
{
    match asked {
        ComdatAlignment::OfSegment => of_segment,
        ComdatAlignment::Byte => Alignment::Byte,
        ComdatAlignment::Word => Alignment::Word,
        ComdatAlignment::Paragraph => Alignment::Paragraph,
        ComdatAlignment::Page => Alignment::Page,
        ComdatAlignment::DoubleWord => Alignment::DoubleWord,
    }
}

/// The combination of what is put into a segment of this one.
fn combination_of(combination: Combination) -> Combination
    ensures { result ≡ comdats.combination_of combination }
{
    match combination {
        Combination::Common => Combination::Public2,
        other => other,
    }
}

/// A part of a segment.
fn part_of(
    segment: WideSegment,
    alignment: ComdatAlignment,
    length: SegmentLength,
) -> SegmentDefinition
    ensures { result ≡ comdats.part_of segment alignment length }
{
    SegmentDefinition {
        alignment: alignment_of(alignment, segment.alignment),
        combination: combination_of(segment.combination),
        length,
        name: segment.name,
        class: segment.class,
        overlay: segment.overlay,
    }
}

/// A private segment of a COMDAT's name.
fn apart(comdat: &Comdat, class: u16, length: SegmentLength) -> SegmentDefinition
    ensures { result ≡ comdats.apart comdat.now class length }
{
    SegmentDefinition {
        alignment: alignment_of(comdat.alignment, Alignment::Paragraph),
        combination: Combination::Private,
        length,
        name: comdat.name,
        class,
        overlay: 0,
    }
}

/// The segment with this index, from 1 on.
fn listed_segment(segments: &[WideSegment], index: u16) -> Option<WideSegment>
    ensures { result ≡ comdats.listed_segment segments.now index }
{
    if index == 0 {
        return None;
    }
    segments.get(usize::from(index) - 1).copied()
}

/// The group of a COMDAT's public name.
fn group_of(allocation: ComdatAllocation) -> u16
    ensures { result ≡ comdats.group_of allocation }
{
    match allocation {
        ComdatAllocation::Explicit {
            base: PublicBase::InSegment { group, segment: _ },
        } => group,
        _ => 0,
    }
}

impl<'a, A: Allocator + Copy> Pass<'a, A> {
    /// What becomes of the next COMDAT record, where that is known.
    pub(crate) fn comdat_fate(&self) -> Option<ComdatFate>
        ensures fate { result ≡ comdats.fate_of (taking_of self.now) (seen_by self.now) }
        ensures within { IfSome result (λ f. self.now.comdat_count < length self.now.comdats.now) }
    {
        self.comdats.get(self.comdat_count).copied()
    }

    /// Whether a COMDAT is put into a segment that is kept out.
    fn is_put_out(&self, allocation: ComdatAllocation) -> bool
        ensures { result ≡ comdats.is_put_out (seen_by self.now) allocation }
    {
        match allocation {
            ComdatAllocation::Explicit {
                base: PublicBase::InSegment { group: _, segment },
            } => flag_at(&self.kept_out, segment),
            _ => false,
        }
    }

    /// The segment of a COMDAT that is put into one, or anywhere.
    fn segment_of(
        &self,
        comdat: &Comdat,
        length: SegmentLength,
    ) -> Result<SegmentDefinition, Obstacle>
        ensures { result ≡ comdats.segment_of (seen_by self.now) comdat.now length comdat.now.allocation }
    {
        match comdat.allocation {
            ComdatAllocation::Explicit {
                base: PublicBase::AtFrame { group: _, frame: _ },
            } => Err(Obstacle::OtherType),
            ComdatAllocation::Explicit {
                base: PublicBase::InSegment { group, segment },
            } => {
                if flag_at(&self.flat, group) {
                    return Err(Obstacle::FlatFrame);
                }
                let segment = listed_segment(&self.segments, segment).ok_or(Obstacle::Body)?;
                Ok(part_of(segment, comdat.alignment, length))
            }
            ComdatAllocation::FarCode | ComdatAllocation::Code32 => {
                let class = word(self.names.code.unwrap_or(0))?;
                Ok(apart(comdat, class, length))
            }
            ComdatAllocation::FarData | ComdatAllocation::Data32 => {
                let class = word(self.names.far_data.unwrap_or(0))?;
                Ok(apart(comdat, class, length))
            }
        }
    }

    /// What a record of this name opens.
    fn opening(&self, comdat: &Comdat, name: &[u8], length: u64) -> Result<Opening, Obstacle>
        ensures opening { result ≡ comdats.opening (seen_by self.now) comdat.now name.now length }
        ensures index { IfOk result (λ o. o.index ≡ comdats.next_segment (seen_by self.now)) }
    {
        let segment = self.segment_of(comdat, length_of(length)?)?;
        let index = word(self.segments.len() + usize::from(self.opened) + 1)?;
        let offset = word(comdat.offset as usize)?;
        if 255 < name.len() {
            return Err(Obstacle::TooLong);
        }
        Ok(Opening {
            segment,
            group: group_of(comdat.allocation),
            index,
            offset,
        })
    }

    /// The records of one that opens a COMDAT.
    #[tactic(auto, unfolding(omf_record::specs::View::view))]
    fn opened_records(
        &self,
        comdat: &Comdat,
        name: &'a [u8],
        bytes: &'a [u8],
        opening: Opening,
    ) -> Result<Vec<Record<'a, A>, A>, AllocError>
        ensures { IfOk result (λ records. map view records.items
            ≡ comdats.opened_says comdat.now name.now bytes.now opening) }
    {
        let mut publics = Vec::new(self.alloc);
        publics.push(Public {
            name,
            offset: 0,
            type_index: comdat.type_index,
        })?;
        let Opening {
            segment,
            group,
            index,
            offset,
        } = opening;
        let mut records = Vec::new(self.alloc);
        records.push(Record::Segdef { segment })?;
        records.push(Record::Pubdef {
            local: comdat.local,
            base: PublicBase::InSegment {
                group,
                segment: index,
            },
            publics,
        })?;
        records.push(Record::Ledata {
            segment: index,
            offset,
            bytes,
        })?;
        Ok(records)
    }

    /// The records of one that goes on with the COMDAT before it.
    #[tactic(auto, unfolding(omf_record::specs::View::view))]
    fn continued_records(
        &self,
        comdat: &Comdat,
        bytes: &'a [u8],
    ) -> Result<Vec<Record<'a, A>, A>, PlainFault>
        ensures { Answers (λ v. map view v.items) result
            (comdats.continued_says comdat.now bytes.now (seen_by self.now).current) }
    {
        let mut records = Vec::new(self.alloc);
        if let Some(segment) = self.current {
            let offset = word(comdat.offset as usize)?;
            records.push(Record::Ledata {
                segment,
                offset,
                bytes,
            })?;
        }
        Ok(records)
    }

    /// Notes that the data of a COMDAT is kept out.
    fn note_without(&mut self)
        ensures taking { taking_of self.new ≡ taking_of self.old }
        ensures seen { seen_by self.new ≡ comdats.seen_without (seen_by self.old) }
    {
        self.current = None;
        self.last = Data::KeptOut;
    }

    /// Notes that it is that of the segment with this index.
    fn note_within(&mut self, index: u16, bytes: &'a [u8]) -> Result<(), AllocError>
        ensures taking { taking_of self.new ≡ taking_of self.old }
        ensures seen { OnOk result (seen_by self.new ≡ comdats.seen_within (seen_by self.old) index bytes.now) }
    {
        let mut contents = Vec::new(self.alloc);
        contents.push(Content { place: 0, bytes })?;
        self.last = Data::Repeated { contents };
        self.current = Some(index);
        Ok(())
    }

    /// One that opens a COMDAT of so many bytes.
    fn open(
        &mut self,
        comdat: &Comdat,
        name: &'a [u8],
        length: u64,
        bytes: &'a [u8],
    ) -> Result<Vec<Record<'a, A>, A>, PlainFault>
        ensures taking { taking_of self.new ≡ taking_of self.old }
        ensures says { Answers (λ v. map view v.items) result
            (comdats.opening_says (seen_by self.old) comdat.now name.now bytes.now length) }
        ensures seen { OnOk result (seen_by self.new
            ≡ comdats.seen_fated (seen_by self.old) comdat.now bytes.now (Some (Opens length))) }
    {
        if comdat.iterated {
            return Err(PlainFault::Of(Obstacle::OtherType));
        }
        if self.is_put_out(comdat.allocation) {
            self.note_without();
            return Ok(Vec::new(self.alloc));
        }
        let opening = self.opening(comdat, name, length)?;
        let records = self.opened_records(comdat, name, bytes, opening)?;
        self.note_within(opening.index, bytes)?;
        self.opened += 1;
        Ok(records)
    }

    /// One that goes on with the COMDAT before it.
    fn go_on(
        &mut self,
        comdat: &Comdat,
        bytes: &'a [u8],
    ) -> Result<Vec<Record<'a, A>, A>, PlainFault>
        ensures taking { taking_of self.new ≡ taking_of self.old }
        ensures says { Answers (λ v. map view v.items) result
            (comdats.continuing_says (seen_by self.old) comdat.now bytes.now) }
        ensures seen { OnOk result (seen_by self.new
            ≡ comdats.seen_fated (seen_by self.old) comdat.now bytes.now (Some Continues)) }
    {
        if comdat.iterated {
            return Err(PlainFault::Of(Obstacle::OtherType));
        }
        let records = self.continued_records(comdat, bytes)?;
        match self.current {
            Some(index) => self.note_within(index, bytes)?,
            None => self.note_without(),
        }
        Ok(records)
    }

    /// The records that a COMDAT says as the fourteen have them: a segment, a public name and data where it opens one that
    /// is taken, data where it goes on with that, and none where it is left out or kept out; else what is in the way of it.
    pub(crate) fn take_comdat(
        &mut self,
        comdat: &Comdat,
        bytes: &'a [u8],
    ) -> Result<Vec<Record<'a, A>, A>, PlainFault>
        ensures taking { taking_of self.new ≡ taking_of self.old }
        ensures says { Answers (λ v. map view v.items) result
            (comdats.comdat_says (taking_of self.old) (seen_by self.old) comdat.now bytes.now) }
        ensures seen { OnOk result (seen_by self.new
            ≡ comdats.seen_after_comdat (taking_of self.old) (seen_by self.old) comdat.now bytes.now) }
    {
        let name = listed_name(&self.names.listed, comdat.name).ok_or(Obstacle::Body)?;
        let fate = self.comdat_fate().ok_or(Obstacle::OtherType)?;
        self.comdat_count += 1;
        match fate {
            ComdatFate::Opens { length } => self.open(comdat, name, length, bytes),
            ComdatFate::Continues => self.go_on(comdat, bytes),
            ComdatFate::LeftOut => {
                self.note_without();
                Ok(Vec::new(self.alloc))
            }
            ComdatFate::Stray => Err(PlainFault::Of(Obstacle::Body)),
        }
    }
}
