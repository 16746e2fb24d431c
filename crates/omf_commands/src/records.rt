//! Commands that go through the records of an input, up to the end of its first module.
ghost use Rattle.std.specs.Prelude.{◌≡◌, ℕ, ◌+◌, ◌-◌, ◌^◌, ◌<◌, List, ◌++◌, Some, OnOk, OnErr, is_ok, if◌then◌else◌};
ghost use Rattle.std.specs.List.{flat_map};
ghost use Rattle.omf_frame.specs.Frame.{frame};
ghost use Rattle.omf_record.specs.View.{view};
ghost use Rattle.omf_record.specs.Canonical.{canonical, FitsFrame};
ghost use Rattle.omf_record.specs.Records.{Placed, AreRecords, AreToEnd};
ghost use Rattle.omf_commands.specs.Records.{output};
ghost use Rattle.omf_commands.specs.Reading.{sink_failures, source_failures, AppendsRewritten, GoesThrough};
ghost use Rattle.omf_commands.specs.Reading.{WritesWhole};
ghost use Rattle.omf_commands.specs.inside.Reading.{Handles, Parses, WritesAll};
ghost use Rattle.omf_commands.specs.declared.records.Form.TheVariants.{Listing, Rewriting};

use crate::faults::{frame_fault, record_fault};
use omf_faults::{InputFault, LinkFault};
use omf_frame::{Frame, FrameBuf, IoFault, Sink, Source, put_frame};
use omf_record::{NoRecord, Record, encode_record, parse_record};
use omf_text::put_listing;
use std::alloc::Allocator;

/// The type of the record that ends a module.
const MODEND: u8 = 0x8A;

/// What is written of each record.
#[derive(Clone, Copy)]
enum Form {
    /// Its head line, and the lines of what it says.
    Listing,
    /// The record with its canonical body, and the closing byte that makes its sum 0.
    Rewriting,
}

/// What the frame's body says, or the fault of its type or body.
fn parse<'a, A: Allocator + Copy + 'a>(
    alloc: A,
    frame: &Frame<'a>,
) -> Result<Record<'a, A>, LinkFault<A>>
    ensures { Parses frame.now.place frame.now.kind frame.now.body.now result }
{
    match parse_record(alloc, frame) {
        Ok(record) => Ok(record),
        Err(fault) => Err(record_fault(frame.place, fault)),
    }
}

/// Writes the record with its canonical body.
fn put_canonical<K: Sink, A: Allocator + Copy>(
    alloc: A,
    sink: &mut K,
    kind: u8,
    record: &Record<'_, A>,
) -> Result<(), LinkFault<A>>
    requires fits { FitsFrame (view «record».now) }
    requires working { K.failures sink.old < 2 ^ 64 - 1 }
    ensures { WritesAll K.written K.failures sink.old sink.new (frame kind (canonical (view «record».now))) result }
{
    let mut body = Vec::new(alloc);
    encode_record(record, &mut body)?;
    match put_frame(sink, kind, body.as_slice()) {
        Ok(()) => Ok(()),
        Err(IoFault) => Err(LinkFault::Output),
    }
}

/// Reads what the frame says, and writes it.
fn put_record<'a, K: Sink, A: Allocator + Copy + 'a>(
    alloc: A,
    sink: &mut K,
    form: Form,
    frame: &Frame<'a>,
) -> Result<(), LinkFault<A>>
    requires { K.failures sink.old < 2 ^ 64 - 1 }
    ensures count { K.failures sink.new ≡ K.failures sink.old + sink_failures result }
    ensures handles { Handles (output form) frame.now.place frame.now.kind frame.now.body.now (K.written sink.old)
        (K.written sink.new) result }
{
    let record = parse(alloc, frame)?;
    match form {
        Form::Listing => match put_listing(
            sink,
            frame.place,
            frame.kind,
            frame.body.len(),
            &record,
        ) {
            Ok(()) => Ok(()),
            Err(IoFault) => Err(LinkFault::Output),
        },
        Form::Rewriting => put_canonical(alloc, sink, frame.kind, &record),
    }
}

/// Reads record by record, and writes each, up to the one that ends the first module.
fn go_through<S: Source, K: Sink, A: Allocator + Copy>(
    alloc: A,
    source: &mut S,
    sink: &mut K,
    form: Form,
) -> Result<(), LinkFault<A>>
    requires source { S.failures source.old < 2 ^ 64 - 1 }
    requires sink { K.failures sink.old < 2 ^ 64 - 1 }
    ensures source { S.failures source.new ≡ S.failures source.old + source_failures result }
    ensures sink { K.failures sink.new ≡ K.failures sink.old + sink_failures result }
    ensures output { GoesThrough (output form) (S.remaining source.old) (S.remaining source.new) (K.written sink.old)
        (K.written sink.new) result }
{
    let mut buf = FrameBuf::new(alloc)?;
    let mut place = 0u64;
    loop {
        let frame = match buf.next_record(source) {
            Ok(Some(frame)) => frame,
            Ok(None) => return Err(LinkFault::Record {
                input: 0,
                place,
                fault: InputFault::Absent(NoRecord::NoEnd),
            }),
            Err(fault) => return Err(frame_fault(fault)),
        };
        put_record(alloc, sink, form, &frame)?;
        if frame.kind == MODEND {
            return Ok(());
        }
        place = frame.place + frame.body.len() as u64 + 4;
    }
}

/// Writes the listing of each record up to the one that ends the first module: its head line, and the
/// lines of what it says.
pub fn show<S: Source, K: Sink, A: Allocator + Copy>(
    alloc: A,
    source: &mut S,
    sink: &mut K,
) -> Result<(), LinkFault<A>>
    requires source { S.failures source.old < 2 ^ 64 - 1 }
    requires sink { K.failures sink.old < 2 ^ 64 - 1 }
    // Each device failed exactly where the answer says so, and then once.
    ensures source { S.failures source.new ≡ S.failures source.old + source_failures result }
    ensures sink { K.failures sink.new ≡ K.failures sink.old + sink_failures result }
    // What was read and written, and the fault where one stands.
    ensures output { GoesThrough (output Listing) (S.remaining source.old) (S.remaining source.new)
        (K.written sink.old) (K.written sink.new) result }
    // Where the input has a module's records, their listings are written, and no byte more is read.
    ensures only { (rs : List Placed) (bytes rest : List ℕ) → AreToEnd rs → AreRecords 0 rs bytes
        → S.remaining source.old ≡ Some (bytes ++ rest)
        → WritesWhole (flat_map (output Listing) rs) rest (S.remaining source.new) (K.written sink.old)
        (K.written sink.new) result }
{
    go_through(alloc, source, sink, Form::Listing)
}

/// Writes each record up to the one that ends the first module with its canonical body, and the
/// closing byte that makes its sum 0.
pub fn rewrite<S: Source, K: Sink, A: Allocator + Copy>(
    alloc: A,
    source: &mut S,
    sink: &mut K,
) -> Result<(), LinkFault<A>>
    requires source { S.failures source.old < 2 ^ 64 - 1 }
    requires sink { K.failures sink.old < 2 ^ 64 - 1 }
    // Each device failed exactly where the answer says so, and then once.
    ensures source { S.failures source.new ≡ S.failures source.old + source_failures result }
    ensures sink { K.failures sink.new ≡ K.failures sink.old + sink_failures result }
    // What was read and written, and the fault where one stands.
    ensures output { GoesThrough (output Rewriting) (S.remaining source.old) (S.remaining source.new)
        (K.written sink.old) (K.written sink.new) result }
    // Where the input has a module's records, they are written, and no byte more is read.
    ensures only { (rs : List Placed) (bytes rest : List ℕ) → AreToEnd rs → AreRecords 0 rs bytes
        → S.remaining source.old ≡ Some (bytes ++ rest)
        → WritesWhole (flat_map (output Rewriting) rs) rest (S.remaining source.new) (K.written sink.old)
        (K.written sink.new) result }
    // What was written is records that say the same again, and are rewritten as they are.
    ensures again { OnOk result
        (AppendsRewritten (S.remaining source.old) (S.remaining source.new) (K.written sink.old) (K.written sink.new)) }
{
    go_through(alloc, source, sink, Form::Rewriting)
}
