//! The records of a module, taken one behind the other.

ghost use Rattle.std.specs.Prelude.{◌≡◌, ◌≤◌, ◌++◌, false, true, List, OnOk, map};
ghost use Rattle.std.specs.declared.result.Result.{Result};
ghost use Rattle.std.specs.Option.{option_map};
ghost use Rattle.omf_alias.specs.Said.{renaming_said};
ghost use Rattle.omf_extended.specs.View.{extended_view, wide_block_view};
ghost use Rattle.omf_library.specs.Names.{texts};
ghost use Rattle.omf_record.specs.Record as said;
ghost use Rattle.omf_record.specs.Record.{blocks_of};
ghost use Rattle.omf_record.specs.View.{external_view, view};
ghost use Rattle.omf_record.specs.declared.fixups.Subrecord.{Subrecord};
ghost use Rattle.omf_wide.specs.View.{said_view};
ghost use Rattle.omf_plain.specs.declared.fault.Obstacle.{Obstacle};
ghost use Rattle.omf_wide.specs.Communals as wide;
ghost use Rattle.omf_plain.specs.Data as last;
ghost use Rattle.omf_plain.specs.Data.{all_wide_stored_len, wide_contents};
ghost use Rattle.omf_plain.specs.Externals as ext;
ghost use Rattle.omf_plain.specs.Fixups as fix;
ghost use Rattle.omf_plain.specs.Step.{alone, each_of};
ghost use Rattle.omf_plain.specs.Given.{given_len, repeated_len, said_len};
ghost use Rattle.omf_plain.specs.Plain as plain;
ghost use Rattle.omf_plain.specs.Seen as seen;
ghost use Rattle.omf_plain.specs.Segments as segs;
ghost use Rattle.omf_plain.specs.inside.Steps.{says_nothing};
ghost use Rattle.omf_plain.specs.View.{Answers, data_view, given_view, seen_by, taking_of};

use crate::data::{Data, contents_of, wide_contents_of};
use crate::externals::{communal_externals, listed_externals, plain_externals};
use crate::fault::{Obstacle, PlainFault};
use crate::fixups::{plain_start, plain_subrecords};
use crate::flat::{base_is_flat, flag_at, is_flat_group};
use crate::given::Given;
use crate::listed::Listed;
use crate::repeated::plain_blocks;
use crate::segments::{is_kept_out, nothing_of, plain_segment};
use omf_alias::Renaming;
use omf_comdat::ComdatFate;
use omf_extended::{Extended, WideBlock, WideRepeated};
use omf_record::{External, Record, Subrecord};
use omf_wide::{Communal, ListedExternal, Said, WideData, WideSegment, WideSubrecord};
use std::alloc::{AllocError, Allocator, Global};

/// How the records of a module are taken, and what is known of it from those so far.
#[derive(Drop)]
pub struct Pass<'a, A: Allocator + Copy = Global> {
    pub(crate) alloc: A,
    /// Whether what debuggers read, of the classes DEBSYM, DEBTYP and DWARF, is kept in the program.
    keep_debug: bool,
    /// What names mean.
    renaming: Renaming<'a, 'a>,
    /// What becomes of the COMDAT records, in their order.
    pub(crate) comdats: &'a [ComdatFate],
    /// The names of LNAMES and LLNAMES.
    pub(crate) names: Listed<'a, A>,
    /// The segments of SEGDEFs, as they are given.
    pub(crate) segments: Vec<WideSegment, A>,
    /// Of each whether it is kept out.
    pub(crate) kept_out: Vec<bool, A>,
    /// Of each group whether it is FLAT.
    pub(crate) flat: Vec<bool, A>,
    /// The last record of data.
    pub(crate) last: Data<'a, A>,
    /// How many COMDAT records there were.
    pub(crate) comdat_count: usize,
    /// How many segments they opened, which stand behind those of SEGDEFs.
    pub(crate) opened: u16,
    /// The index of the segment of the last COMDAT record; None where its data is kept out.
    pub(crate) current: Option<u16>,
}

/// A record, or none, or what is in the way of one.
type Taken<'a, A> = Result<Option<Record<'a, A>>, PlainFault>;

/// What is in the way of a comment.
fn comment_obstacle(class: u8, bytes: &[u8]) -> Option<Obstacle>
    ensures { result ≡ plain.comment_obstacle class bytes.now }
{
    match (class, bytes) {
        (0xAA, _) => Some(Obstacle::EasyOmf),
        (0xA0, [1, ..]) => Some(Obstacle::ImportedName),
        _ => None,
    }
}

/// EXTDEF or LEXTDEF with these names.
#[tactic(auto, unfolding(omf_record::specs::View::view))]
fn extdef<'a, A: Allocator + Copy>(
    local: bool,
    names: Result<Vec<External<'a>, A>, PlainFault>,
) -> Taken<'a, A>
    ensures { (stands : Result (List said.External) Obstacle) → Answers (λ v. map external_view v.items) names.entry stands
        → Answers (option_map view) result (plain.externals local stands) }
{
    let names = names?;
    Ok(Some(Record::Extdef { local, names }))
}

/// FIXUPP with these subrecords.
#[tactic(auto, unfolding(omf_record::specs::View::view))]
fn fixupp<'a, A: Allocator + Copy>(
    subrecords: Result<Vec<Subrecord, A>, PlainFault>,
) -> Taken<'a, A>
    ensures { (stands : Result (List Subrecord) Obstacle) → Answers (λ v. v.items) subrecords stands
        → Answers (option_map view) result (plain.fixupp stands) }
{
    let subrecords = subrecords?;
    Ok(Some(Record::Fixupp { subrecords }))
}

impl<'a, A: Allocator + Copy> Pass<'a, A> {
    /// Before the first record.
    pub fn new(
        alloc: A,
        keep_debug: bool,
        renaming: &Renaming<'a, 'a>,
        comdats: &'a [ComdatFate],
    ) -> Pass<'a, A>
        ensures taking { taking_of result ≡ record {
          keep_debug = keep_debug;
          renaming = renaming_said renaming.now;
          comdats = comdats.now;
        } }
        ensures seen { seen_by result ≡ seen.nothing_seen }
    {
        Pass {
            alloc,
            keep_debug,
            renaming: *renaming,
            comdats,
            names: Listed::new(alloc),
            segments: Vec::new(alloc),
            kept_out: Vec::new(alloc),
            flat: Vec::new(alloc),
            last: Data::Absent,
            comdat_count: 0,
            opened: 0,
            current: None,
        }
    }

    /// Notes the names of LNAMES.
    fn note_names(&mut self, names: &[&'a [u8]]) -> Result<(), AllocError>
        ensures taking { taking_of self.new ≡ taking_of self.old }
        ensures seen { OnOk result (seen_by self.new ≡ record (seen_by self.old) {
          names = (seen_by self.old).names ++ texts names.now;
        }) }
    {
        for name in names {
            self.names.push(name)?;
        }
        Ok(())
    }

    /// Notes the last record of data, which is of this segment.
    fn note_data(&mut self, segment: u16, data: Data<'a, A>)
        ensures taking { taking_of self.new ≡ taking_of self.old }
        ensures seen { seen_by self.new ≡ record (seen_by self.old) {
          last = seen.kept_data (seen_by self.old).kept_out segment (data_view data.entry);
        } }
    {
        self.last = if flag_at(&self.kept_out, segment) {
            Data::KeptOut
        } else {
            data
        };
    }

    /// A record of data, where its segment isn't kept out.
    fn kept(&self, segment: u16, record: Record<'a, A>) -> Option<Record<'a, A>>
        ensures { option_map view result ≡ plain.kept (seen_by self.now) segment (view record.entry) }
    {
        let kept_out = flag_at(&self.kept_out, segment);
        if kept_out { None } else { Some(record) }
    }

    /// EXTDEF as it is taken.
    fn plain_extdef(&self, names: &[External<'a>]) -> Taken<'a, A>
        ensures { Answers (option_map view) result (plain.externals false
            (each_of (λ e. alone (ext.plain_external (taking_of self.now).renaming e)) (map external_view names.now))) }
    {
        extdef(false, plain_externals(self.alloc, &self.renaming, names))
    }

    /// CEXTDEF as it is taken.
    fn plain_cextdef(&self, names: &[ListedExternal]) -> Taken<'a, A>
        ensures { Answers (option_map view) result (plain.externals false
            (each_of (λ e. alone (ext.plain_listed (taking_of self.now).renaming (seen_by self.now).names e)) names.now)) }
    {
        extdef(
            false,
            listed_externals(self.alloc, &self.renaming, &self.names.listed, names),
        )
    }

    /// COMDEF or LCOMDEF as it is taken.
    fn plain_comdef(&self, local: bool, entries: &[Communal<'a>]) -> Taken<'a, A>
        ensures { Answers (option_map view) result (plain.externals local
            (each_of (λ c. alone (ext.plain_communal (taking_of self.now).renaming local c c.extent))
            (map wide.plain_communal entries.now))) }
    {
        extdef(
            local,
            communal_externals(self.alloc, &self.renaming, local, entries),
        )
    }

    /// FIXUPP as it is taken.
    fn plain_fixupp(&self, subrecords: &[WideSubrecord]) -> Taken<'a, A>
        ensures { Answers (option_map view) result (plain.fixupp
            (each_of (fix.plain_subrecord (seen_by self.now).flat (seen_by self.now).last) subrecords.now)) }
    {
        fixupp(plain_subrecords(self.alloc, &self.flat, &self.last, subrecords))
    }

    /// One of the fourteen that says nothing to those behind it, as it is taken.
    #[tactic(auto, unfolding(omf_record::specs::View::view))]
    fn plain_record(&self, record: Record<'a, A>) -> Taken<'a, A>
        requires { says_nothing (view «record») ≡ true }
        ensures { Answers (option_map view) result
            (plain.plain_record (taking_of self.now) (seen_by self.now) (view record.entry)) }
    {
        match record {
            Record::Coment { kind, class, bytes } => match comment_obstacle(class, bytes) {
                Some(obstacle) => Err(PlainFault::Of(obstacle)),
                None => Ok(Some(Record::Coment { kind, class, bytes })),
            },
            Record::Extdef { local, names } => {
                if local {
                    Ok(Some(Record::Extdef { local, names }))
                } else {
                    self.plain_extdef(&names)
                }
            }
            Record::Pubdef {
                local,
                base,
                publics,
            } => {
                if base_is_flat(&self.flat, base) {
                    return Err(PlainFault::Of(Obstacle::FlatFrame));
                }
                Ok(Some(Record::Pubdef {
                    local,
                    base,
                    publics,
                }))
            }
            same => Ok(Some(same)),
        }
    }

    /// One of the fourteen, or one that says what one of them does, as it is taken.
    #[tactic(auto, unfolding(omf_record::specs::View::view))]
    fn take_record(&mut self, record: Record<'a, A>) -> Taken<'a, A>
        requires { repeated_len (view «record») ≤ 65534 }
        ensures taking { taking_of self.new ≡ taking_of self.old }
        ensures plain { Answers (option_map view) result
            (plain.plain_record (taking_of self.old) (seen_by self.old) (view record.entry)) }
        ensures seen { OnOk result (seen_by self.new ≡ seen.seen_after_record (seen_by self.old) (view record.entry)) }
    {
        match record {
            Record::Lnames { names } => {
                self.note_names(&names)?;
                Ok(Some(Record::Lnames { names }))
            }
            Record::Grpdef { name, segments } => {
                let flat = is_flat_group(&self.names.listed, name);
                self.flat.push(flat)?;
                Ok(Some(Record::Grpdef { name, segments }))
            }
            Record::Ledata {
                segment,
                offset,
                bytes,
            } => {
                self.note_data(
                    segment,
                    Data::Stored {
                        segment,
                        offset,
                        bytes,
                    },
                );
                Ok(self.kept(
                    segment,
                    Record::Ledata {
                        segment,
                        offset,
                        bytes,
                    },
                ))
            }
            Record::Lidata {
                segment,
                offset,
                blocks,
            } => {
                let contents = contents_of(self.alloc, &blocks)?;
                self.note_data(segment, Data::Repeated { contents });
                Ok(self.kept(
                    segment,
                    Record::Lidata {
                        segment,
                        offset,
                        blocks,
                    },
                ))
            }
            other => self.plain_record(other),
        }
    }

    /// Whether a segment is kept out of the program.
    pub(crate) fn keeps_out(&self, segment: WideSegment) -> bool
        ensures { result ≡ segs.is_kept_out (taking_of self.now).keep_debug (seen_by self.now).names segment.class }
    {
        is_kept_out(self.keep_debug, &self.names.listed, segment.class)
    }

    /// A segment as it is taken.
    #[tactic(auto, unfolding(omf_record::specs::View::view))]
    fn take_segment(&mut self, wide: bool, segment: WideSegment) -> Taken<'a, A>
        ensures taking { taking_of self.new ≡ taking_of self.old }
        ensures plain { Answers (option_map view) result
            (plain.plain_segdef (taking_of self.old) (seen_by self.old) wide segment) }
        ensures seen { OnOk result (seen_by self.new
            ≡ seen.seen_after_segment (taking_of self.old).keep_debug (seen_by self.old) segment) }
    {
        if self.opened > 0 {
            return Err(PlainFault::Of(Obstacle::LateSegment));
        }
        let kept_out = self.keeps_out(segment);
        let taken = if kept_out {
            nothing_of(segment)
        } else {
            plain_segment(wide, segment)?
        };
        self.segments.push(segment)?;
        self.kept_out.push(kept_out)?;
        Ok(Some(Record::Segdef { segment: taken }))
    }

    /// One of 32 bits, or like it, as it is taken.
    #[tactic(auto, unfolding(omf_wide::specs::View::said_view, omf_record::specs::View::view))]
    fn take_said(&mut self, said: Said<'a, A>) -> Taken<'a, A>
        requires { said_len (said_view said) ≤ 65534 }
        ensures taking { taking_of self.new ≡ taking_of self.old }
        ensures plain { Answers (option_map view) result
            (plain.plain_said (taking_of self.old) (seen_by self.old) (said_view said.entry)) }
        ensures seen { OnOk result (seen_by self.new
            ≡ seen.seen_after_said (taking_of self.old).keep_debug (seen_by self.old) (said_view said.entry)) }
    {
        match said {
            Said::Plain(record) => self.take_record(record),
            Said::Fixupp {
                wide: _,
                subrecords,
            } => self.plain_fixupp(&subrecords),
            Said::Modend {
                wide: _,
                main,
                start,
            } => {
                let start = plain_start(&self.flat, start)?;
                Ok(Some(Record::Modend { main, start }))
            }
            Said::Segdef { wide, segment } => self.take_segment(wide, segment),
            Said::Cextdef { names } => self.plain_cextdef(&names),
        }
    }

    /// Data of 32 bits as it is taken, which is the last data then.
    #[tactic(auto, unfolding(omf_record::specs::View::view))]
    fn take_data(&mut self, data: WideData<'a>) -> Taken<'a, A>
        ensures taking { taking_of self.new ≡ taking_of self.old }
        ensures plain { Answers (option_map view) result
            (plain.plain_data (seen_by self.old) data.entry.segment data.entry.offset data.entry.bytes.now) }
        ensures seen { OnOk result (seen_by self.new ≡ record (seen_by self.old) {
          last = seen.kept_data (seen_by self.old).kept_out data.entry.segment
              (last.Stored data.entry.segment data.entry.offset data.entry.bytes.now);
        }) }
    {
        let WideData {
            segment,
            offset,
            bytes,
        } = data;
        if flag_at(&self.kept_out, segment) {
            self.last = Data::KeptOut;
            return Ok(None);
        }
        if offset >= 65_536 {
            return Err(PlainFault::Of(Obstacle::Above16Bits));
        }
        let offset = offset as u16;
        self.last = Data::Stored {
            segment,
            offset,
            bytes,
        };
        Ok(Some(Record::Ledata {
            segment,
            offset,
            bytes,
        }))
    }

    /// Repeated data of 32 bits as it is taken.
    #[tactic(auto, unfolding(omf_record::specs::View::view))]
    fn plain_repeated(&self, segment: u16, offset: u32, blocks: &[WideBlock<'a, A>]) -> Taken<'a, A>
        ensures { Answers (option_map view) result
            (plain.plain_repeated (seen_by self.now) segment offset (map wide_block_view blocks.now)) }
    {
        if flag_at(&self.kept_out, segment) {
            return Ok(None);
        }
        if offset >= 65_536 {
            return Err(PlainFault::Of(Obstacle::Above16Bits));
        }
        let blocks = plain_blocks(self.alloc, blocks)?;
        Ok(Some(Record::Lidata {
            segment,
            offset: offset as u16,
            blocks,
        }))
    }

    /// Repeated data of 32 bits as it is taken, which is the last data then.
    fn take_repeated(&mut self, repeated: WideRepeated<'a, A>) -> Taken<'a, A>
        requires { all_wide_stored_len (blocks_of (map wide_block_view repeated.blocks.items)) ≤ 65534 }
        ensures taking { taking_of self.new ≡ taking_of self.old }
        ensures plain { Answers (option_map view) result (plain.plain_repeated (seen_by self.old)
            repeated.entry.segment repeated.entry.offset (map wide_block_view repeated.entry.blocks.items)) }
        ensures seen { OnOk result (seen_by self.new ≡ record (seen_by self.old) {
          last = seen.kept_data (seen_by self.old).kept_out repeated.entry.segment
              (last.WideRepeated (wide_contents (map wide_block_view repeated.entry.blocks.items)));
        }) }
    {
        let WideRepeated {
            segment,
            offset,
            blocks,
        } = repeated;
        let taken = self.plain_repeated(segment, offset, &blocks)?;
        let contents = wide_contents_of(self.alloc, &blocks)?;
        self.note_data(segment, Data::WideRepeated { contents });
        Ok(taken)
    }

    /// One that came after Intel's and is no COMDAT, as it is taken.
    #[tactic(auto, unfolding(omf_extended::specs::View::extended_view))]
    fn plain_later(&self, said: Extended<'a, A>) -> Taken<'a, A>
        ensures { Answers (option_map view) result (plain.plain_later (taking_of self.now) (extended_view said.entry)) }
    {
        match said {
            Extended::Comdef {
                local,
                communals,
                unknown: _,
            } => self.plain_comdef(local, &communals),
            Extended::Alias { aliases: _ } | Extended::Linsym { .. } => Ok(None),
            _ => Err(PlainFault::Of(Obstacle::OtherType)),
        }
    }

    /// The record that one says as the fourteen have them, or None where it says nothing there; else what is in the way
    /// of it, as it is of a COMDAT. The records of a module are taken in their order.
    #[tactic(auto, unfolding(crate::specs::Plain::plain, omf_record::specs::View::view))]
    pub fn take(&mut self, given: Given<'a, A>) -> Result<Option<Record<'a, A>>, PlainFault>
        requires { given_len (given_view given) ≤ 65534 }
        ensures taking { taking_of self.new ≡ taking_of self.old }
        ensures plain { Answers (option_map view) result
            (plain.plain (taking_of self.old) (seen_by self.old) (given_view given.entry)) }
        ensures seen { OnOk result (seen_by self.new
            ≡ seen.seen_after (taking_of self.old).keep_debug (seen_by self.old) (given_view given.entry)) }
    {
        match given {
            Given::Narrow(record) => self.take_record(record),
            Given::Wide(said) => self.take_said(said),
            Given::Data(data) => self.take_data(data),
            Given::Repeated(repeated) => self.take_repeated(repeated),
            Given::Later(said) => self.plain_later(said),
        }
    }
}
