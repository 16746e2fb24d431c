//! What a record says, from its frame.
#![tactic(auto, unfolding(crate::specs::Body::Body, crate::specs::View::said_view, omf_record::specs::Body::Body, omf_record::specs::View::view), using(crate::proofs::Layouts::lheadr_body, crate::proofs::Layouts::llnames_body, crate::proofs::Layouts::lextdef_body, crate::proofs::Layouts::cextdef_body, crate::proofs::Layouts::ledata_body, crate::proofs::Layouts::ledata_narrow, crate::proofs::Layouts::fixupp_body, crate::proofs::Layouts::modend_body, crate::proofs::Layouts::segdef_body))]

ghost use Rattle.std.specs.Prelude.{◌≡◌, ◌≤◌, ◌⊎◌};
ghost use Rattle.omf_wide.specs.Answer.{WideAnswers, WideDataAnswers};
ghost use Rattle.omf_wide.specs.Body.{fixupp_kind, modend_kind, segdef_kind};

use crate::bodies::{
    Cextdef, Fixupp, Ledata, Lextdef, Lheadr, Lines, Linnum, Llnames, Modend, Pubdef, Publics,
    Segdef, WideLines, WidePublics,
};
use crate::data::WideData;
use crate::fault::WideFault;
use crate::reading::{narrow_parts, parts};
use crate::said::Said;
use omf_codec::numbers::{DoubleWord, LongWord};
use omf_codec::whole::{WholeFault, read_whole};
use omf_frame::Frame;
use omf_record::Record;
use std::alloc::Allocator;

/// What a body says.
type Parsed<'a, A> = Result<Said<'a, A>, WideFault>;

/// The header of a module of a library.
fn lheadr<'a, A: Allocator + Copy + 'a>(alloc: A, bytes: &'a [u8]) -> Parsed<'a, A>
    ensures { WideAnswers 0x82 bytes.now result }
{
    let name = parts::<A, Lheadr>(alloc, 0x82, bytes)?;
    Ok(Said::Plain(Record::Theadr { name }))
}

/// A list of names that are local.
fn llnames<'a, A: Allocator + Copy + 'a>(alloc: A, bytes: &'a [u8]) -> Parsed<'a, A>
    ensures { WideAnswers 0xCA bytes.now result }
{
    let names = parts::<A, Llnames<A>>(alloc, 0xCA, bytes)?;
    Ok(Said::Plain(Record::Lnames { names }))
}

/// External names that are local.
fn lextdef<'a, A: Allocator + Copy + 'a>(alloc: A, bytes: &'a [u8]) -> Parsed<'a, A>
    ensures { WideAnswers 0xB5 bytes.now result }
{
    let names = parts::<A, Lextdef<A>>(alloc, 0xB5, bytes)?;
    Ok(Said::Plain(Record::Extdef { local: true, names }))
}

/// Public names, or local ones.
fn pubdef<'a, A: Allocator + Copy + 'a>(alloc: A, kind: u8, bytes: &'a [u8]) -> Parsed<'a, A>
    requires { (kind ≡ 0x91) ⊎ (kind ≡ 0xB7) }
    ensures { WideAnswers kind bytes.now result }
{
    let (base, publics) = narrow_parts::<A, Pubdef<Publics<A>>, Pubdef<WidePublics<A>>>(
        alloc, kind, bytes,
    )?;
    let local = kind == 0xB7;
    Ok(Said::Plain(Record::Pubdef {
        local,
        base,
        publics,
    }))
}

/// Line numbers.
fn linnum<'a, A: Allocator + Copy + 'a>(alloc: A, bytes: &'a [u8]) -> Parsed<'a, A>
    ensures { WideAnswers 0x95 bytes.now result }
{
    let (group, (segment, lines)) = narrow_parts::<A, Linnum<Lines<A>>, Linnum<WideLines<A>>>(
        alloc, 0x95, bytes,
    )?;
    Ok(Said::Plain(Record::Linnum {
        group,
        segment,
        lines,
    }))
}

/// Data of a segment.
fn ledata<'a, A: Allocator + Copy + 'a>(alloc: A, bytes: &'a [u8]) -> Parsed<'a, A>
    ensures { WideAnswers 0xA1 bytes.now result }
{
    let (segment, (offset, bytes)) = narrow_parts::<A, Ledata<LongWord>, Ledata<DoubleWord>>(
        alloc, 0xA1, bytes,
    )?;
    Ok(Said::Plain(Record::Ledata {
        segment,
        offset,
        bytes,
    }))
}

/// External names by their indexes.
fn cextdef<'a, A: Allocator + Copy + 'a>(alloc: A, bytes: &'a [u8]) -> Parsed<'a, A>
    ensures { WideAnswers 0xBC bytes.now result }
{
    let names = parts::<A, Cextdef<A>>(alloc, 0xBC, bytes)?;
    Ok(Said::Cextdef { names })
}

/// The type of a FIXUPP, with displacements of four bytes or two.
fn fixupp_kind(wide: bool) -> u8
    ensures { result ≡ fixupp_kind wide }
{
    if wide { 0x9D } else { 0x9C }
}

/// The type of a SEGDEF, with a length of four bytes or two.
fn segdef_kind(wide: bool) -> u8
    ensures { result ≡ segdef_kind wide }
{
    if wide { 0x99 } else { 0x98 }
}

/// The type of a MODEND, with a displacement of four bytes or two.
fn modend_kind(wide: bool) -> u8
    ensures { result ≡ modend_kind wide }
{
    if wide { 0x8B } else { 0x8A }
}

/// Threads and fix-ups, whose displacements have four bytes or two.
fn fixupp<'a, A: Allocator + Copy + 'a, const WIDE: bool>(
    alloc: A,
    bytes: &'a [u8],
) -> Parsed<'a, A>
    ensures { WideAnswers (fixupp_kind WIDE) bytes.now result }
{
    let subrecords = parts::<A, Fixupp<A, WIDE>>(alloc, fixupp_kind(WIDE), bytes)?;
    Ok(Said::Fixupp {
        wide: WIDE,
        subrecords,
    })
}

/// The end of a module, whose start has a displacement of four bytes or two.
fn modend<'a, A: Allocator + Copy + 'a, const WIDE: bool>(
    alloc: A,
    bytes: &'a [u8],
) -> Parsed<'a, A>
    ensures { WideAnswers (modend_kind WIDE) bytes.now result }
{
    let (main, start) = parts::<A, Modend<WIDE>>(alloc, modend_kind(WIDE), bytes)?;
    Ok(Said::Modend {
        wide: WIDE,
        main,
        start,
    })
}

/// A segment, whose length has four bytes or two.
fn segdef<'a, A: Allocator + Copy + 'a, const WIDE: bool>(
    alloc: A,
    bytes: &'a [u8],
) -> Parsed<'a, A>
    ensures { WideAnswers (segdef_kind WIDE) bytes.now result }
{
    let segment = parts::<A, Segdef<WIDE>>(alloc, segdef_kind(WIDE), bytes)?;
    Ok(Said::Segdef {
        wide: WIDE,
        segment,
    })
}

/// What a frame of these types says, or the one fault that stands: 82H LHEADR, 8AH and 8BH MODEND, 91H PUBDEF,
/// 95H LINNUM, 98H and 99H SEGDEF, 9CH and 9DH FIXUPP, A1H LEDATA, B5H LEXTDEF, B7H LPUBDEF, BCH CEXTDEF and CAH
/// LLNAMES. `Memory` where the lists of the record find none.
pub fn parse_wide<'a, A: Allocator + Copy + 'a>(
    alloc: A,
    frame: &Frame<'a>,
) -> Result<Said<'a, A>, WideFault>
    ensures { WideAnswers frame.now.kind frame.now.body.now result }
{
    let bytes = frame.body;
    match frame.kind {
        0x82 => lheadr(alloc, bytes),
        0x8A => modend::<A, false>(alloc, bytes),
        0x8B => modend::<A, true>(alloc, bytes),
        0x91 | 0xB7 => pubdef(alloc, frame.kind, bytes),
        0x95 => linnum(alloc, bytes),
        0x98 => segdef::<A, false>(alloc, bytes),
        0x99 => segdef::<A, true>(alloc, bytes),
        0x9C => fixupp::<A, false>(alloc, bytes),
        0x9D => fixupp::<A, true>(alloc, bytes),
        0xA1 => ledata(alloc, bytes),
        0xB5 => lextdef(alloc, bytes),
        0xBC => cextdef(alloc, bytes),
        0xCA => llnames(alloc, bytes),
        _ => Err(WideFault::OtherType),
    }
}

/// What the body of a LEDATA of 32 bits says, A1H, whatever the offset, or the one fault that stands: `Body`, or `Memory`
/// where there was none.
#[tactic(auto, using(crate::proofs::Layouts::ledata_body))]
pub fn parse_wide_data<'a, A: Allocator + Copy + 'a>(
    alloc: A,
    bytes: &'a [u8],
) -> Result<WideData<'a>, WideFault>
    ensures { WideDataAnswers bytes.now result }
{
    match read_whole::<A, Ledata<DoubleWord>>(alloc, bytes) {
        Ok((segment, (offset, bytes))) => Ok(WideData {
            segment,
            offset,
            bytes,
        }),
        Err(WholeFault::Memory) => Err(WideFault::Memory),
        Err(WholeFault::Text { at }) => Err(WideFault::Body { at }),
    }
}
