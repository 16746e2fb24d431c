//! Threads and fix-ups, and the start of a program, with 16 bits.

ghost use Rattle.std.specs.Prelude.{◌≡◌};
ghost use Rattle.omf_plain.specs.Fixups as fixups;
ghost use Rattle.omf_plain.specs.Step.{each_of};
ghost use Rattle.omf_plain.specs.View.{Answers, data_view};
ghost use Rattle.omf_plain.specs.inside.Steps.{Appends};

use crate::data::Data;
use crate::fault::{Obstacle, PlainFault};
use crate::flat::{frame_is_flat, reference_is_flat, target_is_flat};
use omf_record::{Datum, Fixup, FrameMethod, Location, Reference, Subrecord, TargetMethod};
use omf_wide::{WideFixup, WideLocation, WideReference, WideSubrecord};
use std::alloc::Allocator;

/// A displacement of 16 bits.
fn plain_displacement(displacement: Option<u32>) -> Result<Option<u16>, Obstacle>
    ensures { result ≡ fixups.plain_displacement displacement }
{
    match displacement {
        None => Ok(None),
        Some(number) => {
            if number < 65_536 {
                Ok(Some(number as u16))
            } else {
                Err(Obstacle::Above16Bits)
            }
        }
    }
}

/// What a fix-up or a start refers to, which isn't FLAT.
fn plain_reference(flat: &[bool], reference: WideReference) -> Result<Reference, Obstacle>
    ensures { result ≡ fixups.plain_reference flat.now reference }
{
    if reference_is_flat(flat, reference) {
        return Err(Obstacle::FlatFrame);
    }
    let displacement = plain_displacement(reference.displacement)?;
    Ok(Reference {
        frame: reference.frame,
        target: reference.target,
        displacement,
    })
}

/// Whether the number of four bytes at the front is negative.
fn is_negative(content: &[u8]) -> Result<bool, Obstacle>
    ensures { result ≡ fixups.is_negative content.now }
{
    match content {
        [_, _, 0, 0, ..] => Ok(false),
        [_, _, 0xFF, 0xFF, ..] => Ok(true),
        [_, _, _, _, ..] => Err(Obstacle::Above16Bits),
        _ => Err(Obstacle::OutsideData),
    }
}

/// The fix-up that stands behind that of a negative number of 32 bits at a place: it adds 1 to the upper word.
fn carry<A: Allocator + Copy>(last: &Data<'_, A>, place: u16) -> Result<Fixup, Obstacle>
    ensures { result ≡ fixups.carry (data_view last.now) place }
{
    match last {
        Data::Stored {
            segment,
            offset,
            bytes: _,
        } if place < 1022 => {
            let end = (u32::from(*offset) + u32::from(place) + 5) % 65_536;
            Ok(Fixup {
                self_relative: true,
                location: Location::Offset,
                offset: place + 2,
                reference: Reference {
                    frame: Datum::By(FrameMethod::Target),
                    target: Datum::By(TargetMethod::Segment(*segment)),
                    displacement: Some(end as u16),
                },
            })
        }
        _ => Err(Obstacle::Above16Bits),
    }
}

/// The fix-up behind one of 32 bits that is one of 16, where there is one.
fn behind_short<A: Allocator + Copy>(
    last: &Data<'_, A>,
    fixup: &WideFixup,
) -> Result<Option<Fixup>, Obstacle>
    ensures { result ≡ fixups.behind_short (data_view last.now) fixup.now }
{
    if fixup.self_relative {
        return Err(Obstacle::OutsideData);
    }
    let content = last.stored_at(fixup.offset).ok_or(Obstacle::OutsideData)?;
    if is_negative(content)? {
        Ok(Some(carry(last, fixup.offset)?))
    } else {
        Ok(None)
    }
}

/// A location of 16 bits, of which that of a loader-resolved offset is free.
fn plain_location(location: Location) -> Location
    ensures { result ≡ fixups.plain_location location }
{
    match location {
        Location::LoaderOffset => Location::Offset,
        other => other,
    }
}

/// The location of a fix-up, and the fix-up behind it, where there is one.
fn located<A: Allocator + Copy>(
    last: &Data<'_, A>,
    fixup: &WideFixup,
) -> Result<(Location, Option<Fixup>), Obstacle>
    ensures { result ≡ fixups.located (data_view last.now) fixup.now fixup.now.location }
{
    match fixup.location {
        WideLocation::Of16Bits(location) => Ok((plain_location(location), None)),
        WideLocation::Offset32 | WideLocation::LoaderOffset32 => {
            Ok((Location::LoaderOffset, behind_short(last, fixup)?))
        }
    }
}

/// Appends a fix-up with 16 bits, and what stands behind it.
fn push_fixup<A: Allocator + Copy>(
    flat: &[bool],
    last: &Data<'_, A>,
    fixup: &WideFixup,
    subrecords: &mut Vec<Subrecord, A>,
) -> Result<(), PlainFault>
    ensures { Appends subrecords.old.items subrecords.new.items result
        (fixups.plain_fixup flat.now (data_view last.now) fixup.now) }
{
    let reference = plain_reference(flat, fixup.reference)?;
    let (location, behind) = located(last, fixup)?;
    let offset = last.plain_place(fixup.offset)?;
    subrecords.push(Subrecord::Fixup(Fixup {
        self_relative: fixup.self_relative,
        location,
        offset,
        reference,
    }))?;
    if let Some(fixup) = behind {
        subrecords.push(Subrecord::Fixup(fixup))?;
    }
    Ok(())
}

/// Appends a subrecord, where it isn't a fix-up of data that is kept out.
fn push_subrecord<A: Allocator + Copy>(
    flat: &[bool],
    last: &Data<'_, A>,
    subrecord: &WideSubrecord,
    subrecords: &mut Vec<Subrecord, A>,
) -> Result<(), PlainFault>
    ensures { Appends subrecords.old.items subrecords.new.items result
        (fixups.plain_subrecord flat.now (data_view last.now) subrecord.now) }
{
    match (subrecord, last) {
        (WideSubrecord::SetFrame(thread, method), _) => {
            if frame_is_flat(flat, *method) {
                return Err(PlainFault::Of(Obstacle::FlatFrame));
            }
            subrecords.push(Subrecord::SetFrame(*thread, *method))?;
        }
        (WideSubrecord::SetTarget(thread, method), _) => {
            if target_is_flat(flat, *method) {
                return Err(PlainFault::Of(Obstacle::FlatFrame));
            }
            subrecords.push(Subrecord::SetTarget(*thread, *method))?;
        }
        (WideSubrecord::Fixup(_), Data::KeptOut) => {}
        (WideSubrecord::Fixup(fixup), _) => push_fixup(flat, last, fixup, subrecords)?,
    }
    Ok(())
}

/// The subrecords of FIXUPP.
pub(crate) fn plain_subrecords<A: Allocator + Copy>(
    alloc: A,
    flat: &[bool],
    last: &Data<'_, A>,
    wide: &[WideSubrecord],
) -> Result<Vec<Subrecord, A>, PlainFault>
    ensures { Answers (λ v. v.items) result
        (each_of (fixups.plain_subrecord flat.now (data_view last.now)) wide.now) }
{
    let mut subrecords = Vec::new(alloc);
    for subrecord in wide {
        push_subrecord(flat, last, subrecord, &mut subrecords)?;
    }
    Ok(subrecords)
}

/// The start of a program.
pub(crate) fn plain_start(
    flat: &[bool],
    start: Option<WideReference>,
) -> Result<Option<Reference>, Obstacle>
    ensures { result ≡ fixups.plain_start flat.now start }
{
    match start {
        None => Ok(None),
        Some(reference) => Ok(Some(plain_reference(flat, reference)?)),
    }
}
