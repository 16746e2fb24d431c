//! A program's file as it is loaded at a paragraph.
ghost use Rattle.std.specs.Prelude.{◌≡◌, ◌+◌, ◌-◌, ◌^◌, ◌<◌, ◌≤◌};
ghost use Rattle.omf_frame.specs.Device.{Writes};
ghost use Rattle.omf_commands.specs.Loading.{LoadsFile, bytes_line, bytes_lines, listing, registers_line};
ghost use Rattle.omf_commands.specs.Reading.{sink_failures, source_failures};

use crate::faults::mz_fault;
use mz::{Loaded, load, read_mz};
use omf_faults::LinkFault;
use omf_frame::{IoFault, Sink, Source, put_all};
use omf_text::{Hexadecimal, put_hexadecimal, put_hexadecimal_bytes, put_pieces};
use std::alloc::Allocator;

/// How many bytes a line lists.
const BYTES_IN_LINE: usize = 16;

/// The bytes of a paragraph.
const PARAGRAPH_LEN: u64 = 16;

/// Writes the line of the registers.
fn put_registers<K: Sink, A: Allocator + Copy>(
    sink: &mut K,
    loaded: &Loaded<A>,
) -> Result<(), IoFault>
    requires { K.failures sink.old < 2 ^ 64 - 1 }
    ensures { Writes K.written K.failures sink.old sink.new (registers_line loaded.now) result }
{
    let registers = loaded.registers();
    let cs = Hexadecimal::new(u64::from(registers.cs), 4);
    let ip = Hexadecimal::new(u64::from(registers.ip), 4);
    let ss = Hexadecimal::new(u64::from(registers.ss), 4);
    let sp = Hexadecimal::new(u64::from(registers.sp), 4);
    let pieces = [
        b"CS:IP ".as_slice(),
        cs.as_bytes(),
        b":".as_slice(),
        ip.as_bytes(),
        b" SS:SP ".as_slice(),
        ss.as_bytes(),
        b":".as_slice(),
        sp.as_bytes(),
        b"\n".as_slice(),
    ];
    put_pieces(sink, pieces.as_slice())
}

/// Writes the line of bytes, the first of which stands at this address.
fn put_bytes_line<K: Sink>(sink: &mut K, address: u64, bytes: &[u8]) -> Result<(), IoFault>
    requires { K.failures sink.old < 2 ^ 64 - 1 }
    ensures { Writes K.written K.failures sink.old sink.new (bytes_line address bytes.now) result }
{
    put_hexadecimal(sink, address, 5)?;
    put_all(sink, b" ")?;
    put_hexadecimal_bytes(sink, bytes)?;
    put_all(sink, b"\n")
}

/// Writes the bytes that stand from this address on, 16 in a line.
fn put_bytes<K: Sink>(sink: &mut K, address: u64, bytes: &[u8]) -> Result<(), IoFault>
    requires working { K.failures sink.old < 2 ^ 64 - 1 }
    requires low { address ≤ 2 ^ 32 }
    ensures { Writes K.written K.failures sink.old sink.new (bytes_lines address bytes.now) result }
{
    for line in 0..bytes.len().div_ceil(BYTES_IN_LINE) {
        let start = BYTES_IN_LINE * line;
        let rest = &bytes[start..];
        let count = BYTES_IN_LINE.min(rest.len());
        put_bytes_line(sink, address + start as u64, &rest[..count])?;
    }
    Ok(())
}

/// Writes the registers, and the bytes that stand from the paragraph on.
fn put_loaded<K: Sink, A: Allocator + Copy>(
    sink: &mut K,
    paragraph: u16,
    loaded: &Loaded<A>,
) -> Result<(), IoFault>
    requires { K.failures sink.old < 2 ^ 64 - 1 }
    ensures { Writes K.written K.failures sink.old sink.new (listing paragraph loaded.now) result }
{
    put_registers(sink, loaded)?;
    put_bytes(sink, PARAGRAPH_LEN * u64::from(paragraph), loaded.bytes())
}

/// Loads the file that the source gives at a paragraph, and writes its registers and its bytes. The file
/// is the only input.
pub fn load_file<S: Source, K: Sink, A: Allocator + Copy>(
    alloc: A,
    source: &mut S,
    paragraph: u16,
    sink: &mut K,
) -> Result<(), LinkFault<A>>
    requires source { S.failures source.old < 2 ^ 64 - 1 }
    requires sink { K.failures sink.old < 2 ^ 64 - 1 }
    // Each device failed exactly where the answer says so, and then once.
    ensures source { S.failures source.new ≡ S.failures source.old + source_failures result }
    ensures sink { K.failures sink.new ≡ K.failures sink.old + sink_failures result }
    // What was read and written, and the fault where one stands.
    ensures loads { LoadsFile paragraph (S.remaining source.old) (S.remaining source.new) (K.written sink.old)
        (K.written sink.new) result }
{
    let file = match read_mz(alloc, source) {
        Ok(file) => file,
        Err(fault) => return Err(mz_fault(fault)),
    };
    let loaded = match load(alloc, &file, paragraph) {
        Ok(loaded) => loaded,
        Err(fault) => return Err(mz_fault(fault)),
    };
    match put_loaded(sink, paragraph, &loaded) {
        Ok(()) => Ok(()),
        Err(IoFault) => Err(LinkFault::Output),
    }
}
