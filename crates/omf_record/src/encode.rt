//! The canonical body of a record, written or only measured.

ghost use Rattle.std.specs.Prelude.{◌≡◌, ◌++◌, ◌↔◌, IsTrue, OnOk, OnErr};
ghost use Rattle.omf_codec.specs.inside.Format.{Writes};
ghost use Rattle.omf_record.specs.View.{view};
ghost use Rattle.omf_record.specs.Body.{Body};
ghost use Rattle.omf_record.specs.Canonical.{canonical, FitsFrame};

use crate::bodies::{
    Base, Blocks, Coment, Components, Extdef, Fixupp, Ledata, Lines, Lnames, Modend, Publics,
    Segdef, Theadr,
};
use crate::record::Record;
use omf_codec::codec::Codec;
use omf_codec::output::{Output, Room, Written};
use omf_codec::primitives::{Index, Word};
use omf_codec::whole::put_both;
use std::alloc::{AllocError, Allocator};

/// The longest body of a frame.
const BODY_LIMIT: usize = 65_534;

/// Writes the canonical body of the record.
#[tactic(auto, unfolding(crate::specs::Body::Body, crate::specs::Canonical::canonical, crate::specs::View::view))]
fn put_record<A: Allocator + Copy, O: Output>(record: &Record<'_, A>, out: &mut O) -> Written
    ensures { Writes O.Takes O.Refuses (Body (view «record».now)) (canonical (view «record».now))
        out.old out.new result }
{
    match record {
        Record::Theadr { name } => Theadr::put(name, 0, out),
        Record::Coment { kind, class, bytes } => Coment::put(&(*kind, (*class, *bytes)), 0, out),
        Record::Modend { main, start } => Modend::put(&(*main, *start), 0, out),
        Record::Extdef { local: _, names } => Extdef::<A>::put(names, 0, out),
        Record::Pubdef {
            local: _,
            base,
            publics,
        } => put_both::<Base, Publics<A>, O>(base, publics, out),
        Record::Linnum {
            group,
            segment,
            lines,
        } => {
            Index::put(group, 0, out)?;
            put_both::<Index, Lines<A>, O>(segment, lines, out)
        }
        Record::Lnames { names } => Lnames::<A>::put(names, 0, out),
        Record::Segdef { segment } => Segdef::put(segment, 0, out),
        Record::Grpdef { name, segments } => put_both::<Index, Components<A>, O>(
            name, segments, out,
        ),
        Record::Fixupp { subrecords } => Fixupp::<A>::put(subrecords, 0, out),
        Record::Ledata {
            segment,
            offset,
            bytes,
        } => Ledata::put(&(*segment, (*offset, *bytes)), 0, out),
        Record::Lidata {
            segment,
            offset,
            blocks,
        } => {
            Index::put(segment, 0, out)?;
            put_both::<Word, Blocks<A>, O>(offset, blocks, out)
        }
    }
}

/// Appends the canonical body of the record: each index in its shortest form, and 0 in each bit that isn't looked at.
///
/// The record must fit a frame, which `fits_frame` tells. After an `Err` the vector is unchanged.
pub fn encode_record<A: Allocator + Copy>(
    record: &Record<'_, A>,
    out: &mut Vec<u8, A>,
) -> Result<(), AllocError>
    requires { FitsFrame (view «record».now) }
    ensures ok { OnOk result (out.new.items ≡ out.old.items ++ canonical (view «record».now)) }
    ensures err { OnErr result (out.new.items ≡ out.old.items) }
    ensures body { Body (view «record».now) (canonical (view «record».now)) }
{
    let before = out.len();
    if put_record(record, out).is_ok() {
        return Ok(());
    }
    out.truncate(before);
    Err(AllocError)
}

/// Whether the record has a canonical body, of at most 65,534 bytes. It does where each index is at most 32,767,
/// each name and content at most 255 bytes, each fix-up's offset at most 1,023, no block deeper than 64 levels, and
/// so on; each record that was read does.
pub fn fits_frame<A: Allocator + Copy>(record: &Record<'_, A>) -> bool
    ensures { IsTrue result ↔ FitsFrame (view «record».now) }
{
    let mut room = Room { left: BODY_LIMIT };
    put_record(record, &mut room).is_ok()
}
