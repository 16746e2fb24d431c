//! The pieces that lines are made of, written to a sink. Nothing here takes memory.
ghost use Rattle.std.specs.Prelude.{ℕ, List, [], ◌∷◌, ◌-◌, ◌^◌, ◌<◌, decimal};
ghost use Rattle.std.specs.List.{flat_map, concat};
ghost use Rattle.omf_frame.specs.Device.{Writes};
ghost use Rattle.omf_text.specs.Details as spec;
ghost use Rattle.omf_text.specs.Pieces.{printed};
ghost use Rattle.omf_text.specs.Printing.{right};

use crate::print::{
    Hexadecimal, put_count, put_hexadecimal, put_hexadecimal_bytes, put_name, put_pieces,
    put_plain_name, spaces,
};
use itoa::Buffer;
use omf_frame::{IoFault, Sink, put_all};
use omf_record::{
    Alignment, Combination, Datum, FrameMethod, Location, SegmentLength, TargetMethod,
    ThreadNumber, alignment_number, combination_number, location_number, thread_number,
};

/// The printed width of a number of bytes.
const SIZE_WIDTH: usize = 7;

/// What may stand in a listing many times.
pub trait Printed<K: Sink> {
    // Its text.
    ghost text: { Self → List ℕ };

    /// Writes it.
    fn put(&self, sink: &mut K) -> Result<(), IoFault>
        requires { K.failures sink.old < 2 ^ 64 - 1 }
        ensures { Writes K.written K.failures sink.old sink.new (text self.now) result };
}

/// Writes the items one after the other.
pub fn put_each<T: Printed<K>, K: Sink>(sink: &mut K, items: &[T]) -> Result<(), IoFault>
    requires { K.failures sink.old < 2 ^ 64 - 1 }
    ensures { Writes K.written K.failures sink.old sink.new (flat_map T.text items.now) result }
{
    for item in items {
        item.put(sink)?;
    }
    Ok(())
}

/// A piece of a line.
#[derive(Clone, Copy)]
pub enum Piece<'a> {
    /// As it stands.
    Text(&'a str),
    /// As they stand.
    Bytes(&'a [u8]),
    /// In decimal.
    Index(u16),
    /// In decimal.
    Count(usize),
    /// Two hexadecimal digits.
    Byte(u8),
    /// In decimal, in at least seven columns.
    Size(usize),
    /// At least three hexadecimal digits.
    Place(u16),
    /// A place in a file: at least eight hexadecimal digits.
    FilePlace(u64),
    /// Four hexadecimal digits.
    Word(u16),
    /// An address or a length: at least six hexadecimal digits.
    Address(u32),
    /// Between two quotes.
    Name(&'a [u8]),
    /// A name without quotes.
    PlainName(&'a [u8]),
    /// 1 for true, 0 for false.
    Bit(bool),
    /// Two hexadecimal digits a byte, or a dash where there are none.
    CommentBytes(&'a [u8]),
    /// A length up to 65,536, or that it is more.
    Expanded(u32),
    /// The field A of a SEGDEF.
    Alignment(Alignment),
    /// The frame and the offset of an absolute segment, nothing of another.
    Absolute(Alignment),
    /// The field C of a SEGDEF.
    Combination(Combination),
    /// The length of a segment.
    Length(SegmentLength),
    /// Whether a fix-up is self-relative.
    Mode(bool),
    /// The field that says what kind of location a fix-up changes.
    Location(Location),
    /// The number of a thread.
    Thread(ThreadNumber),
    /// What a frame thread is set to.
    FrameMethod(FrameMethod),
    /// What a target thread is set to.
    TargetMethod(TargetMethod),
    /// The frame of a reference.
    Frame(Datum<FrameMethod>),
    /// The target of a reference.
    Target(Datum<TargetMethod>),
    /// What is added to a target's address, nothing where it is absent.
    Displacement(Option<u16>),
}

// Writes two digits a byte, or a dash where there are none.
fn put_comment_bytes<K: Sink>(sink: &mut K, bytes: &[u8]) -> Result<(), IoFault>
    requires { K.failures sink.old < 2 ^ 64 - 1 }
    ensures { Writes K.written K.failures sink.old sink.new (spec.comment_bytes bytes.now) result }
{
    if bytes.is_empty() {
        return put_all(sink, b"-");
    }
    put_hexadecimal_bytes(sink, bytes)
}

// Writes a number of bytes in its columns.
fn put_size<K: Sink>(sink: &mut K, size: usize) -> Result<(), IoFault>
    requires { K.failures sink.old < 2 ^ 64 - 1 }
    ensures { Writes K.written K.failures sink.old sink.new (right 7 (decimal size)) result }
{
    let mut digits = Buffer::new();
    let digits = digits.format(size).as_bytes();
    let pieces = [spaces(SIZE_WIDTH.saturating_sub(digits.len())), digits];
    put_pieces(sink, pieces.as_slice())
}

// Writes a length up to 65,536, or that it is more.
fn put_expanded<K: Sink>(sink: &mut K, length: u32) -> Result<(), IoFault>
    requires { K.failures sink.old < 2 ^ 64 - 1 }
    ensures { Writes K.written K.failures sink.old sink.new (spec.expanded length) result }
{
    if length > 65536 {
        put_all(sink, b">65536")
    } else {
        put_count(sink, length as usize)
    }
}

// Writes the frame and the offset of an absolute segment, and nothing of another.
fn put_absolute<K: Sink>(sink: &mut K, alignment: Alignment) -> Result<(), IoFault>
    requires { K.failures sink.old < 2 ^ 64 - 1 }
    ensures { Writes K.written K.failures sink.old sink.new (spec.absolute alignment) result }
{
    match alignment {
        Alignment::Absolute { frame, offset } => {
            let frame = Hexadecimal::new(u64::from(frame), 4);
            let offset = Hexadecimal::new(u64::from(offset), 2);
            let pieces = [
                b" frame ".as_slice(),
                frame.as_bytes(),
                b" offset ".as_slice(),
                offset.as_bytes(),
            ];
            put_pieces(sink, pieces.as_slice())
        }
        _ => Ok(()),
    }
}

// Writes a text, and a number behind it.
fn put_numbered<K: Sink>(sink: &mut K, text: &str, number: u16) -> Result<(), IoFault>
    requires { K.failures sink.old < 2 ^ 64 - 1 }
    ensures { Writes K.written K.failures sink.old sink.new (concat (text.now ∷ decimal number ∷ [])) result }
{
    let mut digits = Buffer::new();
    let pieces = [text.as_bytes(), digits.format(number).as_bytes()];
    put_pieces(sink, pieces.as_slice())
}

// Writes what a frame thread is set to.
fn put_frame_method<K: Sink>(sink: &mut K, method: FrameMethod) -> Result<(), IoFault>
    requires { K.failures sink.old < 2 ^ 64 - 1 }
    ensures { Writes K.written K.failures sink.old sink.new (spec.frame_method method) result }
{
    match method {
        FrameMethod::By(method) => put_target_method(sink, method),
        FrameMethod::Location => put_all(sink, b"method 4"),
        FrameMethod::Target => put_all(sink, b"method 5"),
    }
}

// Writes what a target thread is set to.
fn put_target_method<K: Sink>(sink: &mut K, method: TargetMethod) -> Result<(), IoFault>
    requires { K.failures sink.old < 2 ^ 64 - 1 }
    ensures { Writes K.written K.failures sink.old sink.new (spec.target_method method) result }
{
    match method {
        TargetMethod::Segment(index) => put_numbered(sink, "method 0 index ", index),
        TargetMethod::Group(index) => put_numbered(sink, "method 1 index ", index),
        TargetMethod::External(index) => put_numbered(sink, "method 2 index ", index),
    }
}

// Writes the frame of a reference.
fn put_frame<K: Sink>(sink: &mut K, frame: Datum<FrameMethod>) -> Result<(), IoFault>
    requires { K.failures sink.old < 2 ^ 64 - 1 }
    ensures { Writes K.written K.failures sink.old sink.new (spec.frame_of frame) result }
{
    match frame {
        Datum::Thread(thread) => put_numbered(sink, "thread ", u16::from(thread_number(thread))),
        Datum::By(method) => put_frame_method(sink, method),
    }
}

// Writes the target of a reference.
fn put_target<K: Sink>(sink: &mut K, target: Datum<TargetMethod>) -> Result<(), IoFault>
    requires { K.failures sink.old < 2 ^ 64 - 1 }
    ensures { Writes K.written K.failures sink.old sink.new (spec.target_of target) result }
{
    match target {
        Datum::Thread(thread) => put_numbered(sink, "thread ", u16::from(thread_number(thread))),
        Datum::By(method) => put_target_method(sink, method),
    }
}

// Writes what is added to a target's address, and nothing where it is absent.
fn put_displacement<K: Sink>(sink: &mut K, displacement: Option<u16>) -> Result<(), IoFault>
    requires { K.failures sink.old < 2 ^ 64 - 1 }
    ensures { Writes K.written K.failures sink.old sink.new (spec.displacement displacement) result }
{
    let Some(displacement) = displacement else {
        return Ok(());
    };
    let digits = Hexadecimal::new(u64::from(displacement), 4);
    let pieces = [b" displacement ".as_slice(), digits.as_bytes()];
    put_pieces(sink, pieces.as_slice())
}

impl<'a, K: Sink> Printed<K> for Piece<'a> {
    ghost text = { printed };

    fn put(&self, sink: &mut K) -> Result<(), IoFault> {
        match *self {
            Piece::Text(text) => put_all(sink, text.as_bytes()),
            Piece::Bytes(bytes) => put_all(sink, bytes),
            Piece::Index(index) => put_count(sink, usize::from(index)),
            Piece::Count(count) => put_count(sink, count),
            Piece::Byte(byte) => put_hexadecimal(sink, u64::from(byte), 2),
            Piece::Size(size) => put_size(sink, size),
            Piece::Place(place) => put_hexadecimal(sink, u64::from(place), 3),
            Piece::FilePlace(place) => put_hexadecimal(sink, place, 8),
            Piece::Word(word) => put_hexadecimal(sink, u64::from(word), 4),
            Piece::Address(address) => put_hexadecimal(sink, u64::from(address), 6),
            Piece::Name(name) => put_name(sink, name),
            Piece::PlainName(name) => put_plain_name(sink, name),
            Piece::Bit(bit) => put_count(sink, usize::from(bit)),
            Piece::CommentBytes(bytes) => put_comment_bytes(sink, bytes),
            Piece::Expanded(length) => put_expanded(sink, length),
            Piece::Alignment(alignment) => put_count(
                sink,
                usize::from(alignment_number(alignment)),
            ),
            Piece::Absolute(alignment) => put_absolute(sink, alignment),
            Piece::Combination(combination) => put_count(
                sink,
                usize::from(combination_number(combination)),
            ),
            Piece::Length(length) => put_count(sink, length.bytes() as usize),
            Piece::Mode(true) => put_all(sink, b"self"),
            Piece::Mode(false) => put_all(sink, b"segment"),
            Piece::Location(location) => put_count(sink, usize::from(location_number(location))),
            Piece::Thread(thread) => put_count(sink, usize::from(thread_number(thread))),
            Piece::FrameMethod(method) => put_frame_method(sink, method),
            Piece::TargetMethod(method) => put_target_method(sink, method),
            Piece::Frame(frame) => put_frame(sink, frame),
            Piece::Target(target) => put_target(sink, target),
            Piece::Displacement(displacement) => put_displacement(sink, displacement),
        }
    }
}
