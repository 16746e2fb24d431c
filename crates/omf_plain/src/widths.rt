//! What a module has of 32 bits.

ghost use Rattle.std.specs.Prelude.{◌≡◌};
ghost use Rattle.std.specs.List.{list_any};
ghost use Rattle.omf_plain.specs.Widths as spec;
ghost use Rattle.omf_wide.specs.View.{said_view};
ghost use Rattle.omf_plain.specs.View.{given_view, seen_by, taking_of};

use crate::given::Given;
use crate::pass::Pass;
use omf_comdat::ComdatFate;
use omf_extended::{ComdatAllocation, Extended};
use omf_record::{Alignment, Location};
use omf_wide::{Said, WideLocation, WideSegment, WideSubrecord};
use std::alloc::Allocator;

/// What a module has of 32 bits, as it is given.
#[derive(Clone, Copy, Debug, PartialEq, Eq)]
pub struct Widths {
    /// A fix-up at a location of 32 bits, or of a loader-resolved offset.
    pub fixups: bool,
    /// A MODEND of 32 bits with a start.
    pub start: bool,
    /// A segment of 32 bits that isn't absolute and has bytes in the program.
    pub segments: bool,
}

impl Widths {
    /// What one of two has.
    pub(crate) fn or(self, other: Widths) -> Widths
        ensures { result ≡ spec.either self other }
    {
        Widths {
            fixups: self.fixups || other.fixups,
            start: self.start || other.start,
            segments: self.segments || other.segments,
        }
    }
}

/// Whether a location has 32 bits, or is of a loader-resolved offset.
fn is_wide_location(location: WideLocation) -> bool
    ensures { result ≡ spec.is_wide_location location }
{
    match location {
        WideLocation::Of16Bits(Location::LoaderOffset)
        | WideLocation::Offset32
        | WideLocation::LoaderOffset32 => true,
        WideLocation::Of16Bits(_) => false,
    }
}

/// Whether a fix-up at such a location is among subrecords.
fn has_wide_fixup(subrecords: &[WideSubrecord]) -> bool
    ensures { result ≡ list_any spec.is_wide_fixup subrecords.now }
{
    for subrecord in subrecords {
        if let WideSubrecord::Fixup(fixup) = subrecord {
            if is_wide_location(fixup.location) {
                return true;
            }
        }
    }
    false
}

/// Whether a segment is absolute.
fn is_absolute(alignment: Alignment) -> bool
    ensures { result ≡ spec.is_absolute alignment }
{
    matches!(alignment, Alignment::Absolute { .. })
}

/// Whether a segment of 32 bits isn't absolute and has bytes.
fn has_wide_bytes(segment: WideSegment) -> bool
    ensures { result ≡ spec.has_wide_bytes segment }
{
    segment.use32 && !is_absolute(segment.alignment) && (segment.big || segment.length > 0)
}

/// Whether a COMDAT opens a segment of 32 bits with bytes.
fn opens_wide(fate: Option<ComdatFate>, allocation: ComdatAllocation) -> bool
    ensures { result ≡ spec.opens_wide fate allocation }
{
    match (fate, allocation) {
        (Some(ComdatFate::Opens { length }), ComdatAllocation::Code32 | ComdatAllocation::Data32) =>
            length > 0,
        _ => false,
    }
}

impl<'a, A: Allocator + Copy> Pass<'a, A> {
    /// What a record has of 32 bits that is the next one.
    #[tactic(auto, unfolding(omf_wide::specs::View::said_view, omf_extended::specs::View::extended_view))]
    pub(crate) fn widths_of(&self, given: &Given<'a, A>) -> Widths
        ensures { result ≡ spec.record_widths (taking_of self.now) (seen_by self.now) (given_view given.now) }
    {
        let (fixups, start, segments) = match given {
            Given::Wide(
                Said::Fixupp {
                    wide: _,
                    subrecords,
                },
            ) => { (has_wide_fixup(subrecords), false, false) }
            Given::Wide(
                Said::Modend {
                    wide,
                    main: _,
                    start,
                },
            ) => (false, *wide && start.is_some(), false),
            Given::Wide(Said::Segdef { wide: _, segment }) => {
                let wide = has_wide_bytes(*segment) && !self.keeps_out(*segment);
                (false, false, wide)
            }
            Given::Later(
                Extended::Comdat {
                    wide: _,
                    comdat,
                    bytes: _,
                },
            ) => (
                false,
                false,
                opens_wide(self.comdat_fate(), comdat.allocation),
            ),
            _ => (false, false, false),
        };
        Widths {
            fixups,
            start,
            segments,
        }
    }
}
