//! The record that a frame holds.
#![tactic(auto, unfolding(crate::specs::Body::Body, crate::specs::View::extended_view), using(crate::proofs::Layouts::comdef_body, crate::proofs::Layouts::alias_body, crate::proofs::Layouts::comdat_body, crate::proofs::Layouts::linsym_body, crate::proofs::Layouts::bakpat_body, crate::proofs::Layouts::nbkpat_body, crate::proofs::Layouts::lidata_body, crate::proofs::Layouts::vernum_body, crate::proofs::Layouts::vendext_body))]

ghost use Rattle.std.specs.Prelude.{◌≡◌, ◌≤◌};
ghost use Rattle.omf_extended.specs.Answer.{ExtendedAnswers};
ghost use Rattle.omf_extended.specs.Body.{comdef_kind, comdat_kind, linsym_kind, bakpat_kind, nbkpat_kind};

use crate::bodies::{Aliases, Bakpat, Comdats, Comdef, Linsym, Nbkpat, Vendext, Vernum};
use crate::fault::ExtendedFault;
use crate::patches::patch_location_of;
use crate::reading::parts;
use crate::repeated::read_lidata;
use crate::said::Extended;
use omf_codec::codec::ReadError;
use omf_frame::Frame;
use std::alloc::Allocator;

/// What a body says.
type Parsed<'a, A> = Result<Extended<'a, A>, ExtendedFault>;

/// The type of a COMDEF, or of an LCOMDEF.
fn comdef_kind(local: bool) -> u8
    ensures { result ≡ comdef_kind local }
{
    if local { 0xB8 } else { 0xB0 }
}

/// The type of a COMDAT, with numbers of four bytes or two.
fn comdat_kind(wide: bool) -> u8
    ensures { result ≡ comdat_kind wide }
{
    if wide { 0xC3 } else { 0xC2 }
}

/// The type of a LINSYM, with numbers of four bytes or two.
fn linsym_kind(wide: bool) -> u8
    ensures { result ≡ linsym_kind wide }
{
    if wide { 0xC5 } else { 0xC4 }
}

/// The type of a BAKPAT, with numbers of four bytes or two.
fn bakpat_kind(wide: bool) -> u8
    ensures { result ≡ bakpat_kind wide }
{
    if wide { 0xB3 } else { 0xB2 }
}

/// The type of an NBKPAT, with numbers of four bytes or two.
fn nbkpat_kind(wide: bool) -> u8
    ensures { result ≡ nbkpat_kind wide }
{
    if wide { 0xC9 } else { 0xC8 }
}

/// Communal variables, or local ones.
fn comdef<'a, A: Allocator + Copy + 'a>(alloc: A, local: bool, bytes: &'a [u8]) -> Parsed<'a, A>
    ensures { ExtendedAnswers (comdef_kind local) bytes.now result }
{
    let (communals, unknown) = parts::<A, Comdef<A>>(alloc, comdef_kind(local), bytes)?;
    Ok(Extended::Comdef {
        local,
        communals,
        unknown,
    })
}

/// Names that stand for others.
fn aliases<'a, A: Allocator + Copy + 'a>(alloc: A, bytes: &'a [u8]) -> Parsed<'a, A>
    ensures { ExtendedAnswers 0xC6 bytes.now result }
{
    let aliases = parts::<A, Aliases<A>>(alloc, 0xC6, bytes)?;
    Ok(Extended::Alias { aliases })
}

/// Data of which there may be some of one name.
fn comdat<'a, A: Allocator + Copy + 'a, const WIDE: bool>(
    alloc: A,
    bytes: &'a [u8],
) -> Parsed<'a, A>
    ensures { ExtendedAnswers (comdat_kind WIDE) bytes.now result }
{
    let (comdat, bytes) = parts::<A, Comdats<WIDE>>(alloc, comdat_kind(WIDE), bytes)?;
    Ok(Extended::Comdat {
        wide: WIDE,
        comdat,
        bytes,
    })
}

/// Line numbers of a COMDAT.
fn linsym<'a, A: Allocator + Copy + 'a, const WIDE: bool>(
    alloc: A,
    bytes: &'a [u8],
) -> Parsed<'a, A>
    ensures { ExtendedAnswers (linsym_kind WIDE) bytes.now result }
{
    let (flags, (name, lines)) = parts::<A, Linsym<A, WIDE>>(alloc, linsym_kind(WIDE), bytes)?;
    Ok(Extended::Linsym {
        wide: WIDE,
        continuation: flags == 1,
        name,
        lines,
    })
}

/// What is added to places of a segment.
fn bakpat<'a, A: Allocator + Copy + 'a, const WIDE: bool>(
    alloc: A,
    bytes: &'a [u8],
) -> Parsed<'a, A>
    ensures { ExtendedAnswers (bakpat_kind WIDE) bytes.now result }
{
    let (segment, (location, patches)) = parts::<A, Bakpat<A, WIDE>>(
        alloc,
        bakpat_kind(WIDE),
        bytes,
    )?;
    let location = patch_location_of(location);
    Ok(Extended::Bakpat {
        wide: WIDE,
        segment,
        location,
        patches,
    })
}

/// What is added to places of a COMDAT.
fn nbkpat<'a, A: Allocator + Copy + 'a, const WIDE: bool>(
    alloc: A,
    bytes: &'a [u8],
) -> Parsed<'a, A>
    ensures { ExtendedAnswers (nbkpat_kind WIDE) bytes.now result }
{
    let (location, (name, patches)) = parts::<A, Nbkpat<A, WIDE>>(alloc, nbkpat_kind(WIDE), bytes)?;
    let location = patch_location_of(location);
    Ok(Extended::Nbkpat {
        wide: WIDE,
        location,
        name,
        patches,
    })
}

/// Repeated data of a segment.
fn lidata<'a, A: Allocator + Copy + 'a>(alloc: A, bytes: &'a [u8]) -> Parsed<'a, A>
    ensures { ExtendedAnswers 0xA3 bytes.now result }
{
    match read_lidata(alloc, bytes) {
        Ok(((segment, (offset, read)), _)) => Ok(Extended::Lidata {
            segment,
            offset,
            content: read.content,
        }),
        Err(ReadError::Memory) => Err(ExtendedFault::Memory),
        Err(ReadError::Refused(bad)) => Err(ExtendedFault::Body {
            at: bytes.len() - bad.len(),
        }),
    }
}

/// The version of the format.
fn vernum<'a, A: Allocator + Copy + 'a>(alloc: A, bytes: &'a [u8]) -> Parsed<'a, A>
    ensures { ExtendedAnswers 0xCC bytes.now result }
{
    let text = parts::<A, Vernum>(alloc, 0xCC, bytes)?;
    Ok(Extended::Vernum { text })
}

/// What a vendor's translator says in a way of its own.
fn vendext<'a, A: Allocator + Copy + 'a>(alloc: A, bytes: &'a [u8]) -> Parsed<'a, A>
    ensures { ExtendedAnswers 0xCE bytes.now result }
{
    let (vendor, bytes) = parts::<A, Vendext>(alloc, 0xCE, bytes)?;
    Ok(Extended::Vendext { vendor, bytes })
}

/// What a frame of these types says, or the one fault that stands: A3H LIDATA, B0H COMDEF, B2H and B3H BAKPAT,
/// B8H LCOMDEF, C2H and C3H COMDAT, C4H and C5H LINSYM, C6H ALIAS, C8H and C9H NBKPAT, CCH VERNUM and CEH VENDEXT.
/// `Memory` where the lists of the record find none.
pub fn parse_extended<'a, A: Allocator + Copy + 'a>(
    alloc: A,
    frame: &Frame<'a>,
) -> Result<Extended<'a, A>, ExtendedFault>
    ensures { ExtendedAnswers frame.now.kind frame.now.body.now result }
{
    let bytes = frame.body;
    match frame.kind {
        0xA3 => lidata(alloc, bytes),
        0xB0 => comdef(alloc, false, bytes),
        0xB2 => bakpat::<A, false>(alloc, bytes),
        0xB3 => bakpat::<A, true>(alloc, bytes),
        0xB8 => comdef(alloc, true, bytes),
        0xC2 => comdat::<A, false>(alloc, bytes),
        0xC3 => comdat::<A, true>(alloc, bytes),
        0xC4 => linsym::<A, false>(alloc, bytes),
        0xC5 => linsym::<A, true>(alloc, bytes),
        0xC6 => aliases(alloc, bytes),
        0xC8 => nbkpat::<A, false>(alloc, bytes),
        0xC9 => nbkpat::<A, true>(alloc, bytes),
        0xCC => vernum(alloc, bytes),
        0xCE => vendext(alloc, bytes),
        _ => Err(ExtendedFault::OtherType),
    }
}
