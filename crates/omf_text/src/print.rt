//! Printed text, written to a sink. Nothing here takes memory.
ghost use Rattle.std.specs.Prelude.{◌≡◌, ℕ, ◌+◌, ◌-◌, ◌^◌, ◌<◌, ◌≤◌, [], ◌++◌, IsTrue, OnOk, false};
ghost use Rattle.std.specs.Prelude.{decimal, replicate};
ghost use Rattle.std.specs.List.{flat_map};
ghost use Rattle.omf_frame.specs.Device.{Writes};
ghost use Rattle.omf_text.specs.Printing as spec;
ghost use Rattle.omf_text.specs.Printing.{hexadecimal, name_byte, printed_name};
ghost use Rattle.omf_text.specs.inside.Printing.{WroteBut};

use itoa::Buffer;
use omf_frame::{IoFault, Sink, put_all};
use std::marker::Model;

/// The most hexadecimal digits that a number has.
const MAX_DIGITS: usize = 16;

/// How much of a line is held back, so that it is written at once.
const LINE_ROOM: usize = 64;

// The end of a line that isn't written yet.
#[derive(Drop)]
struct Line {
    bytes: [u8; LINE_ROOM],
    len: usize,
}

// The text that is held back.
impl Model for Line {
    ghost use Rattle.std.specs.Prelude.{ℕ, List, ◌≤◌, take};

    ghost Value = { List ℕ };

    ghost view = { λ l. take l.len l.bytes };

    ghost invariant = { λ l. l.len ≤ 64 };
}

impl Line {
    // Nothing is held back.
    fn new() -> Line
        ensures { result ≡ [] }
    {
        Line {
            bytes: [0; LINE_ROOM],
            len: 0,
        }
    }

    // Writes what is held back.
    fn put_held<K: Sink>(&mut self, sink: &mut K) -> Result<(), IoFault>
        requires { K.failures sink.old < 2 ^ 64 - 1 }
        ensures written { Writes K.written K.failures sink.old sink.new self.old result }
        ensures emptied { OnOk result (self.new ≡ []) }
    {
        put_all(sink, &self.bytes[..self.len])?;
        self.len = 0;
        Ok(())
    }

    // Holds a piece back, where there is room for it.
    fn hold(&mut self, piece: &[u8]) -> bool
        ensures held { IsTrue result → self.new ≡ self.old ++ piece.now }
        ensures full { result ≡ false → self.new ≡ self.old }
    {
        if piece.len() > LINE_ROOM - self.len {
            return false;
        }
        let end = self.len + piece.len();
        self.bytes[self.len..end].copy_from_slice(piece);
        self.len = end;
        true
    }

    // Writes what is held back and the piece, but for what is held back then.
    fn put<K: Sink>(&mut self, sink: &mut K, piece: &[u8]) -> Result<(), IoFault>
        requires { K.failures sink.old < 2 ^ 64 - 1 }
        ensures { WroteBut self.new (K.written sink.old) (K.written sink.new)
            (K.failures sink.old) (K.failures sink.new) (self.old ++ piece.now) result }
    {
        if self.hold(piece) {
            return Ok(());
        }
        self.put_held(sink)?;
        if self.hold(piece) {
            return Ok(());
        }
        put_all(sink, piece)
    }
}

/// Writes the pieces one after the other, a short line at once.
pub fn put_pieces<K: Sink>(sink: &mut K, pieces: &[&[u8]]) -> Result<(), IoFault>
    requires { K.failures sink.old < 2 ^ 64 - 1 }
    ensures { Writes K.written K.failures sink.old sink.new (flat_map (λ piece. piece.now) pieces.now) result }
{
    let mut line = Line::new();
    for piece in pieces {
        line.put(sink, piece)?;
    }
    line.put_held(sink)
}

// So many spaces.
pub(crate) fn spaces(count: usize) -> &'static [u8]
    requires { count ≤ 7 }
    ensures { result.now ≡ replicate count 32 }
{
    &b"       "[..count]
}

// The digit of a value below 16.
fn digit(value: u8) -> u8
    requires { value < 16 }
    ensures { result ≡ spec.digit value }
{
    if value < 10 {
        b'0' + value
    } else {
        b'A' + (value - 10)
    }
}

// Whether a byte of a printed name stands as it is.
#[tactic(auto, unfolding(crate::specs::Printing::is_plain))]
fn is_plain(byte: u8) -> bool
    ensures { result ≡ spec.is_plain byte }
{
    byte >= b' ' && byte <= b'~' && byte != b'"' && byte != b'\\'
}

// Writes a byte of a name, by its two digits where it cannot stand as it is.
fn put_name_byte<K: Sink>(sink: &mut K, byte: u8) -> Result<(), IoFault>
    requires { K.failures sink.old < 2 ^ 64 - 1 }
    ensures { Writes K.written K.failures sink.old sink.new (name_byte byte) result }
{
    if is_plain(byte) {
        put_all(sink, &[byte])
    } else {
        put_all(sink, &[b'\\', b'x', digit(byte / 16), digit(byte % 16)])
    }
}

// Writes a name without quotes.
pub(crate) fn put_plain_name<K: Sink>(sink: &mut K, name: &[u8]) -> Result<(), IoFault>
    requires { K.failures sink.old < 2 ^ 64 - 1 }
    ensures { Writes K.written K.failures sink.old sink.new (flat_map name_byte name.now) result }
{
    for byte in name {
        put_name_byte(sink, *byte)?;
    }
    Ok(())
}

/// Writes a name between two quotes. The bytes 20H to 7EH other than the quote and the backslash stand
/// as they are, any other byte as `\x` and two hexadecimal digits.
pub fn put_name<K: Sink>(sink: &mut K, name: &[u8]) -> Result<(), IoFault>
    requires { K.failures sink.old < 2 ^ 64 - 1 }
    ensures { Writes K.written K.failures sink.old sink.new (printed_name name.now) result }
{
    put_all(sink, b"\"")?;
    put_plain_name(sink, name)?;
    put_all(sink, b"\"")
}

/// A number in hexadecimal, with capital digits.
#[derive(Drop)]
pub struct Hexadecimal {
    digits: [u8; MAX_DIGITS],
    start: usize,
}

// The printed digits.
impl Model for Hexadecimal {
    ghost use Rattle.std.specs.Prelude.{ℕ, List, ◌≤◌, drop};

    ghost Value = { List ℕ };

    ghost view = { λ h. drop h.start h.digits };

    ghost invariant = { λ h. h.start ≤ 16 };
}

impl Hexadecimal {
    /// The number with at least `width` digits, with leading zeros.
    pub fn new(number: u64, width: usize) -> Hexadecimal
        requires { width ≤ 16 }
        ensures { result ≡ hexadecimal width number }
    {
        let mut digits = [b'0'; MAX_DIGITS];
        let mut start = MAX_DIGITS;
        let mut rest = number;
        while rest > 0 {
            start -= 1;
            digits[start] = digit((rest % 16) as u8);
            rest /= 16;
        }
        Hexadecimal {
            digits,
            start: start.min(MAX_DIGITS - width),
        }
    }

    /// The digits in ASCII.
    pub fn as_bytes(&self) -> &[u8]
        ensures { result.now ≡ self.now }
    {
        &self.digits[self.start..]
    }
}

/// Writes the number in hexadecimal, with capital digits: at least `width` of them, with leading zeros.
///
/// # Errors
/// The sink failed.
pub fn put_hexadecimal<K: Sink>(sink: &mut K, number: u64, width: usize) -> Result<(), IoFault>
    requires working { K.failures sink.old < 2 ^ 64 - 1 }
    requires narrow { width ≤ 16 }
    ensures { Writes K.written K.failures sink.old sink.new (hexadecimal width number) result }
{
    put_all(sink, Hexadecimal::new(number, width).as_bytes())
}

/// Writes the bytes in hexadecimal, each with two capital digits.
///
/// # Errors
/// The sink failed.
pub fn put_hexadecimal_bytes<K: Sink>(sink: &mut K, bytes: &[u8]) -> Result<(), IoFault>
    requires { K.failures sink.old < 2 ^ 64 - 1 }
    ensures { Writes K.written K.failures sink.old sink.new (flat_map (hexadecimal 2) bytes.now) result }
{
    for byte in bytes {
        put_hexadecimal(sink, u64::from(*byte), 2)?;
    }
    Ok(())
}

/// Writes the number in decimal.
///
/// # Errors
/// The sink failed.
pub fn put_count<K: Sink>(sink: &mut K, count: usize) -> Result<(), IoFault>
    requires { K.failures sink.old < 2 ^ 64 - 1 }
    ensures { Writes K.written K.failures sink.old sink.new (decimal count) result }
{
    put_all(sink, Buffer::new().format(count).as_bytes())
}
