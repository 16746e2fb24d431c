//! Records as frames, each with its canonical body.

ghost use Rattle.std.specs.Prelude.{◌≡◌, ◌++◌, ◌≤◌, [], ◌∷◌, false, None, IfOk, OnOk, length};
ghost use Rattle.omf_frame.specs.Frame.{frame};
ghost use Rattle.omf_record.specs.Body.{kind_of};
ghost use Rattle.omf_record.specs.Canonical.{FitsFrame, canonical};
ghost use Rattle.omf_record.specs.Record.{Lnames, Modend, Theadr};
ghost use Rattle.omf_record.specs.View.{view};
ghost use Rattle.omf_write.specs.Records.{record_bytes};

use omf_frame::closing;
use omf_record::{Record, encode_record};
use std::alloc::{AllocError, Allocator};

/// Appends a frame of this type and body.
fn put_frame<A: Allocator + Copy>(
    kind: u8,
    body: &[u8],
    out: &mut Vec<u8, A>,
) -> Result<(), AllocError>
    requires { length body.now ≤ 65534 }
    ensures { OnOk result (out.new.items ≡ out.old.items ++ frame kind body.now) }
{
    let length = body.len() + 1;
    out.extend_from_slice(&[kind, (length % 256) as u8, (length / 256) as u8])?;
    out.extend_from_slice(body)?;
    out.push(closing(kind, body))?;
    Ok(())
}

/// The canonical body of a record.
fn body_of<A: Allocator + Copy>(alloc: A, record: &Record<'_, A>) -> Result<Vec<u8, A>, AllocError>
    requires { FitsFrame (view «record».now) }
    ensures { IfOk result (λ body. body.items ≡ canonical (view «record».now)) }
{
    let mut body = Vec::new(alloc);
    encode_record(record, &mut body)?;
    Ok(body)
}

/// Appends a record of this type as a frame with its canonical body. The record fits a frame, which `fits_frame` tells.
///
/// After an `Err` the vector may hold a front of the frame.
pub fn put_record<A: Allocator + Copy>(
    alloc: A,
    kind: u8,
    record: &Record<'_, A>,
    out: &mut Vec<u8, A>,
) -> Result<(), AllocError>
    requires kind { kind ≡ kind_of (view «record».now) }
    requires fits { FitsFrame (view «record».now) }
    ensures { OnOk result (out.new.items ≡ out.old.items ++ record_bytes (view «record».now)) }
{
    let body = body_of(alloc, record)?;
    put_frame(kind, &body, out)
}

/// Appends THEADR with a name of at most 255 bytes.
#[tactic(auto, unfolding(omf_record::specs::View::view))]
pub fn put_header<A: Allocator + Copy>(
    alloc: A,
    name: &[u8],
    out: &mut Vec<u8, A>,
) -> Result<(), AllocError>
    requires { length name.now ≤ 255 }
    ensures { OnOk result (out.new.items ≡ out.old.items ++ record_bytes (Theadr name.now)) }
{
    put_record(alloc, 0x80, &Record::Theadr { name }, out)
}

/// Appends LNAMES with two names, each of at most 255 bytes.
#[tactic(auto, unfolding(omf_record::specs::View::view))]
pub fn put_names<A: Allocator + Copy>(
    alloc: A,
    one: &[u8],
    other: &[u8],
    out: &mut Vec<u8, A>,
) -> Result<(), AllocError>
    requires one { length one.now ≤ 255 }
    requires other { length other.now ≤ 255 }
    ensures { OnOk result
        (out.new.items ≡ out.old.items ++ record_bytes (Lnames (one.now ∷ other.now ∷ []))) }
{
    let mut names = Vec::new(alloc);
    names.push(one)?;
    names.push(other)?;
    put_record(alloc, 0x96, &Record::Lnames { names }, out)
}

/// Appends MODEND of a module that isn't the main one and has no start.
#[tactic(auto, unfolding(omf_record::specs::View::view))]
pub fn put_end<A: Allocator + Copy>(alloc: A, out: &mut Vec<u8, A>) -> Result<(), AllocError>
    ensures { OnOk result (out.new.items ≡ out.old.items ++ record_bytes (Modend false None)) }
{
    let end = Record::Modend {
        main: false,
        start: None,
    };
    put_record(alloc, 0x8A, &end, out)
}
