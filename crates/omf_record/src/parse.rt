//! A record from its frame.
#![tactic(auto, unfolding(crate::specs::Body::Body, crate::specs::View::view), using(crate::specs::inside::Kinds::theadr_body, crate::specs::inside::Kinds::coment_body, crate::specs::inside::Kinds::modend_body, crate::specs::inside::Kinds::lnames_body, crate::specs::inside::Kinds::segdef_body, crate::specs::inside::Kinds::fixupp_body, crate::specs::inside::Kinds::ledata_body))]

ghost use Rattle.std.specs.Prelude.{◌≡◌, ◌≤◌, ◌⊎◌, length, IfOk};
ghost use Rattle.omf_record.specs.Answer.{Answers};
ghost use Rattle.omf_record.specs.Canonical.{FitsFrame};
ghost use Rattle.omf_record.specs.Expansion.{data_len};
ghost use Rattle.omf_record.specs.View.{view};
ghost use Rattle.omf_record.specs.inside.Kinds.{IsBody, ReadsParts};

use crate::bodies::{
    Coment, Extdef, Fixupp, Grpdef, Ledata, Lidata, Linnum, Lnames, Modend, Pubdef, Segdef, Theadr,
};
use crate::record::Record;
use omf_codec::codec::{Blank, Field};
use omf_codec::whole::{WholeFault, read_whole};
use omf_frame::Frame;
use std::alloc::Allocator;
use thiserror::Error;

/// Why a frame holds no record.
#[derive(Clone, Copy, Debug, PartialEq, Eq, Error)]
pub enum RecordFault {
    #[error("out of memory")]
    Memory,
    /// The type isn't one of the fourteen.
    #[error("the type of the record isn't known")]
    OtherType,
    /// The body isn't one of its type: the length of its longest front that zeros complete.
    #[error("the body of the record is wrong at byte {at}")]
    Body { at: usize },
}

/// The parts of a body.
fn parts<'a, A: Allocator + Copy, P: Field<'a, A> + Blank>(
    alloc: A,
    kind: u8,
    bytes: &'a [u8],
) -> Result<P::Item, RecordFault>
    requires { IsBody (P.format 0) kind }
    ensures { ReadsParts (P.format 0) kind bytes.now result }
{
    match read_whole::<A, P>(alloc, bytes) {
        Ok(parts) => Ok(parts),
        Err(WholeFault::Memory) => Err(RecordFault::Memory),
        Err(WholeFault::Text { at }) => Err(RecordFault::Body { at }),
    }
}

/// What a body says.
type Parsed<'a, A> = Result<Record<'a, A>, RecordFault>;

/// A header.
fn theadr<'a, A: Allocator + Copy + 'a>(alloc: A, bytes: &'a [u8]) -> Parsed<'a, A>
    ensures { Answers 0x80 bytes.now result }
{
    let name = parts::<A, Theadr>(alloc, 0x80, bytes)?;
    Ok(Record::Theadr { name })
}

/// A comment.
fn coment<'a, A: Allocator + Copy + 'a>(alloc: A, bytes: &'a [u8]) -> Parsed<'a, A>
    ensures { Answers 0x88 bytes.now result }
{
    let (kind, (class, bytes)) = parts::<A, Coment>(alloc, 0x88, bytes)?;
    Ok(Record::Coment { kind, class, bytes })
}

/// The end of a module.
fn modend<'a, A: Allocator + Copy + 'a>(alloc: A, bytes: &'a [u8]) -> Parsed<'a, A>
    ensures { Answers 0x8A bytes.now result }
{
    let (main, start) = parts::<A, Modend>(alloc, 0x8A, bytes)?;
    Ok(Record::Modend { main, start })
}

/// External names, or local ones.
fn extdef<'a, A: Allocator + Copy + 'a>(alloc: A, kind: u8, bytes: &'a [u8]) -> Parsed<'a, A>
    requires { (kind ≡ 0x8C) ⊎ (kind ≡ 0xB4) }
    ensures { Answers kind bytes.now result }
{
    let names = parts::<A, Extdef<A>>(alloc, kind, bytes)?;
    let local = kind == 0xB4;
    Ok(Record::Extdef { local, names })
}

/// Public names, or local ones.
fn pubdef<'a, A: Allocator + Copy + 'a>(alloc: A, kind: u8, bytes: &'a [u8]) -> Parsed<'a, A>
    requires { (kind ≡ 0x90) ⊎ (kind ≡ 0xB6) }
    ensures { Answers kind bytes.now result }
{
    let (base, publics) = parts::<A, Pubdef<A>>(alloc, kind, bytes)?;
    let local = kind == 0xB6;
    Ok(Record::Pubdef {
        local,
        base,
        publics,
    })
}

/// Line numbers.
fn linnum<'a, A: Allocator + Copy + 'a>(alloc: A, bytes: &'a [u8]) -> Parsed<'a, A>
    ensures { Answers 0x94 bytes.now result }
{
    let (group, (segment, lines)) = parts::<A, Linnum<A>>(alloc, 0x94, bytes)?;
    Ok(Record::Linnum {
        group,
        segment,
        lines,
    })
}

/// A list of names.
fn lnames<'a, A: Allocator + Copy + 'a>(alloc: A, bytes: &'a [u8]) -> Parsed<'a, A>
    ensures { Answers 0x96 bytes.now result }
{
    let names = parts::<A, Lnames<A>>(alloc, 0x96, bytes)?;
    Ok(Record::Lnames { names })
}

/// A segment.
fn segdef<'a, A: Allocator + Copy + 'a>(alloc: A, bytes: &'a [u8]) -> Parsed<'a, A>
    ensures { Answers 0x98 bytes.now result }
{
    let segment = parts::<A, Segdef>(alloc, 0x98, bytes)?;
    Ok(Record::Segdef { segment })
}

/// A group.
fn grpdef<'a, A: Allocator + Copy + 'a>(alloc: A, bytes: &'a [u8]) -> Parsed<'a, A>
    ensures { Answers 0x9A bytes.now result }
{
    let (name, segments) = parts::<A, Grpdef<A>>(alloc, 0x9A, bytes)?;
    Ok(Record::Grpdef { name, segments })
}

/// Threads and fix-ups.
fn fixupp<'a, A: Allocator + Copy + 'a>(alloc: A, bytes: &'a [u8]) -> Parsed<'a, A>
    ensures { Answers 0x9C bytes.now result }
{
    let subrecords = parts::<A, Fixupp<A>>(alloc, 0x9C, bytes)?;
    Ok(Record::Fixupp { subrecords })
}

/// Data of a segment.
fn ledata<'a, A: Allocator + Copy + 'a>(alloc: A, bytes: &'a [u8]) -> Parsed<'a, A>
    ensures { Answers 0xA0 bytes.now result }
{
    let (segment, (offset, bytes)) = parts::<A, Ledata>(alloc, 0xA0, bytes)?;
    Ok(Record::Ledata {
        segment,
        offset,
        bytes,
    })
}

/// Data of a segment, in blocks that are repeated.
fn lidata<'a, A: Allocator + Copy + 'a>(alloc: A, bytes: &'a [u8]) -> Parsed<'a, A>
    ensures { Answers 0xA2 bytes.now result }
{
    let (segment, (offset, blocks)) = parts::<A, Lidata<A>>(alloc, 0xA2, bytes)?;
    Ok(Record::Lidata {
        segment,
        offset,
        blocks,
    })
}

/// The record that the body of a type says.
fn record_of<'a, A: Allocator + Copy + 'a>(alloc: A, kind: u8, bytes: &'a [u8]) -> Parsed<'a, A>
    ensures { Answers kind bytes.now result }
{
    match kind {
        0x80 => theadr(alloc, bytes),
        0x88 => coment(alloc, bytes),
        0x8A => modend(alloc, bytes),
        0x8C | 0xB4 => extdef(alloc, kind, bytes),
        0x90 | 0xB6 => pubdef(alloc, kind, bytes),
        0x94 => linnum(alloc, bytes),
        0x96 => lnames(alloc, bytes),
        0x98 => segdef(alloc, bytes),
        0x9A => grpdef(alloc, bytes),
        0x9C => fixupp(alloc, bytes),
        0xA0 => ledata(alloc, bytes),
        0xA2 => lidata(alloc, bytes),
        _ => Err(RecordFault::OtherType),
    }
}

/// The record that the frame holds, or the one fault that stands: `OtherType`, or `Body` with its exact place.
/// `Memory` where the lists of the record find none.
pub fn parse_record<'a, A: Allocator + Copy + 'a>(
    alloc: A,
    frame: &Frame<'a>,
) -> Result<Record<'a, A>, RecordFault>
    ensures answer { Answers frame.now.kind frame.now.body.now result }
    // It can be written again.
    ensures fits { IfOk result (λ r. FitsFrame (view r)) }
    // Stored places fit 16 bits.
    ensures stored { IfOk result (λ r. data_len (view r) ≤ 65534) }
{
    record_of(alloc, frame.kind, frame.body)
}
