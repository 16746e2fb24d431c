//! Writing the file of a program.
ghost use Rattle.std.specs.Prelude.{◌≡◌, ◌-◌, ◌*◌, ◌^◌, ◌<◌, All, length, IsOkUnless};
ghost use Rattle.omf_frame.specs.Device.{Writes};
ghost use Rattle.omf_image.specs.Program.{IsProgram};
ghost use Rattle.mz.specs.File.{table_bytes, Mz, file_bytes, file_image, header_of, paragraphs, padding};
ghost use Rattle.mz.specs.declared.fault.FileFault.TheVariants.{Device};
ghost use Rattle.mz.specs.declared.fault.MzFault.TheVariants.{File};

use crate::fault::{FileFault, MzFault};
use crate::format::{ENTRY_LEN, Entry, HEADER_LEN, Header, PAGE_LEN, PARAGRAPH_LEN};
use omf_frame::{IoFault, Sink, put_all};
use omf_image::Program;
use std::alloc::Allocator;

/// How many entries of the relocation table are written at once.
const ENTRIES_AT_ONCE: usize = 128;

/// What fills the header to a whole paragraph.
const ZEROS: [u8; PARAGRAPH_LEN] = [0; PARAGRAPH_LEN];

/// The header of the program's file.
fn header_of<A: Allocator + Copy>(program: &Program<A>) -> Header
    ensures words { result ≡ header_of program.now }
    ensures limits { IsProgram program.now }
{
    let count = program.relocations().len();
    let paragraphs = (HEADER_LEN + ENTRY_LEN * count).div_ceil(PARAGRAPH_LEN);
    let size = program.size() as usize;
    let written = program.written() as usize;
    let len = PARAGRAPH_LEN * paragraphs + written;
    Header {
        last_page_bytes: (len % PAGE_LEN) as u16,
        pages: len.div_ceil(PAGE_LEN) as u16,
        relocation_count: count as u16,
        header_paragraphs: paragraphs as u16,
        least_extra_paragraphs: (size.div_ceil(PARAGRAPH_LEN) - written / PARAGRAPH_LEN) as u16,
        greatest_extra_paragraphs: u16::MAX,
        registers: program.registers(),
        checksum: 0,
        relocation_table: HEADER_LEN as u16,
        overlay: 0,
    }
}

/// Puts the entries of words at these addresses one after the other.
fn put_entries(addresses: &[u32], bytes: &mut [u8])
    requires low { All (λ address. address < 1048576) addresses.now }
    requires room { length bytes.old ≡ 4 * length addresses.now }
    ensures { bytes.new ≡ table_bytes addresses.now }
{
    for (index, address) in addresses.iter().enumerate() {
        let entry = Entry {
            offset: (*address % 16) as u16,
            segment: (*address / 16) as u16,
        };
        let at = ENTRY_LEN * index;
        bytes[at..at + ENTRY_LEN].copy_from_slice(&entry.to_bytes());
    }
}

/// Writes the relocation table, some entries at once.
fn put_table<K: Sink>(addresses: &[u32], sink: &mut K) -> Result<(), IoFault>
    requires low { All (λ address. address < 1048576) addresses.now }
    requires working { K.failures sink.old < 2 ^ 64 - 1 }
    ensures { Writes K.written K.failures sink.old sink.new (table_bytes addresses.now) result }
{
    let mut bytes = [0; ENTRIES_AT_ONCE * ENTRY_LEN];
    let mut at = 0;
    while at < addresses.len() {
        let end = (at + ENTRIES_AT_ONCE).min(addresses.len());
        let part = &mut bytes[..ENTRY_LEN * (end - at)];
        put_entries(&addresses[at..end], part);
        put_all(sink, part)?;
        at = end;
    }
    Ok(())
}

/// Writes the written part of the image, piece by piece.
fn put_image<A: Allocator + Copy, K: Sink>(
    program: &Program<A>,
    sink: &mut K,
) -> Result<(), IoFault>
    requires { K.failures sink.old < 2 ^ 64 - 1 }
    ensures { Writes K.written K.failures sink.old sink.new (file_image program.now) result }
{
    let mut at = 0;
    let end = program.written();
    while at < end {
        let piece = program.piece(at);
        let len = piece.len().min((end - at) as usize);
        put_all(sink, &piece[..len])?;
        at += len as u32;
    }
    Ok(())
}

/// Writes the whole file.
fn put_file<A: Allocator + Copy, K: Sink>(program: &Program<A>, sink: &mut K) -> Result<(), IoFault>
    requires { K.failures sink.old < 2 ^ 64 - 1 }
    ensures limits { IsProgram program.now }
    ensures written { Writes K.written K.failures sink.old sink.new (file_bytes program.now) result }
{
    let header = header_of(program);
    let filled = HEADER_LEN + ENTRY_LEN * usize::from(header.relocation_count);
    let padding = &ZEROS[..header.header_len() - filled];
    put_all(sink, &header.to_bytes())?;
    put_table(program.relocations(), sink)?;
    put_all(sink, padding)?;
    put_image(program, sink)
}

/// Writes the file of a program: the header, the relocation table and the written part of the image, which goes out
/// piece by piece. The header asks for the memory behind it, which the loader doesn't clear. The only fault is
/// `Device`, where the sink failed; it then holds a front of the file. No memory is taken.
pub fn write_mz<A: Allocator + Copy, K: Sink>(
    program: &Program<A>,
    sink: &mut K,
) -> Result<(), MzFault>
    requires { K.failures sink.old < 2 ^ 64 - 1 }
    // What is written is a file of the format.
    ensures format { Mz program.now (file_bytes program.now) }
    // The only fault is `Device`.
    ensures device { IsOkUnless result (File Device) }
    // All of the file was written and the sink never failed; or a front of it was, and the sink failed once.
    ensures written { Writes K.written K.failures sink.old sink.new (file_bytes program.now) result }
{
    match put_file(program, sink) {
        Ok(()) => Ok(()),
        Err(IoFault) => Err(MzFault::File(FileFault::Device)),
    }
}
