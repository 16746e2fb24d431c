//! Loading a file at a paragraph.
ghost use Rattle.std.specs.Prelude.{◌≡◌, ◌+◌, ◌≤◌, length, map, IsTrue};
ghost use Rattle.std.specs.List.{list_all};
ghost use Rattle.omf_image.specs.Words.{add_word, add_words};
ghost use Rattle.mz.specs.Header.{entry_address, is_inside};
ghost use Rattle.mz.specs.Loading.{needed_len, loading, Loads};

use crate::fault::{FileFault, MzFault};
use crate::format::{Entry, PARAGRAPH_LEN, word};
use crate::reading::MzFile;
use omf_image::Registers;
use std::alloc::{Allocator, Global};
use std::marker::Model;

/// The memory that a real-mode address reaches.
const MEMORY_LEN: usize = 1_048_576;

/// A loaded program: the bytes of its image as they stand in memory, the first at 16 times the paragraph, and its
/// registers at the start.
#[derive(Drop)]
pub struct Loaded<A: Allocator + Copy = Global> {
    bytes: Vec<u8, A>,
    registers: Registers,
}

impl<A: Allocator + Copy> Model for Loaded<A> {
    ghost use Rattle.mz.specs.Loading.{Loaded};

    ghost Value = { Loaded };

    ghost view = { λ l. record { bytes = l.bytes.items; registers = l.registers } };
}

impl<A: Allocator + Copy> Loaded<A> {
    /// The bytes of the image in memory, from 16 times the paragraph on.
    pub fn bytes(&self) -> &[u8]
        ensures { result.now ≡ self.now.bytes }
    {
        &self.bytes
    }

    /// The registers at the start, at the paragraph at which the file was loaded.
    pub fn registers(&self) -> Registers
        ensures { result ≡ self.now.registers }
    {
        self.registers
    }
}

/// Adds a value to the word at a place, modulo 65,536.
fn add_to_word(bytes: &mut [u8], at: usize, value: u16)
    requires { at + 2 ≤ length bytes.old }
    ensures { bytes.new ≡ add_word value at bytes.old }
{
    let [low, high] = word(bytes, at).wrapping_add(value).to_le_bytes();
    bytes[at] = low;
    bytes[at + 1] = high;
}

/// Adds the paragraph to the word of each entry, in the order of the table.
fn relocate(bytes: &mut [u8], entries: &[Entry], paragraph: u16)
    requires { IsTrue (list_all (is_inside (length bytes.old)) entries.now) }
    ensures { bytes.new ≡ add_words paragraph (map entry_address entries.now) bytes.old }
{
    for entry in entries {
        add_to_word(bytes, entry.address(), paragraph);
    }
}

/// How many bytes the program needs from the first of its image on: the image, and the extra paragraphs that the header
/// asks for at least, counted from the end of the image's whole paragraphs.
fn needed_len<A: Allocator + Copy>(file: &MzFile<A>) -> usize
    ensures { result ≡ needed_len file.now }
{
    let len = file.image().len();
    let extra = usize::from(file.header().least_extra_paragraphs);
    len.max(PARAGRAPH_LEN * (len / PARAGRAPH_LEN + extra))
}

/// Loads a file at a paragraph: the image stands at address 16 times the paragraph, which is added to the word of each
/// entry and to CS and SS, modulo 65,536. It is refused exactly where the image, or the least extra paragraphs that the
/// header asks for behind its whole paragraphs, would end above 1,048,576 bytes.
pub fn load<A: Allocator + Copy, B: Allocator + Copy>(
    alloc: A,
    file: &MzFile<B>,
    paragraph: u16,
) -> Result<Loaded<A>, MzFault>
    ensures { Loads result (loading paragraph file.now) }
{
    let start = PARAGRAPH_LEN * usize::from(paragraph);
    if needed_len(file) > MEMORY_LEN - start {
        return Err(MzFault::File(FileFault::DoesNotFit));
    }
    let mut bytes = Vec::from_slice(alloc, file.image())?;
    relocate(&mut bytes, file.entries(), paragraph);
    let registers = file.header().registers;
    Ok(Loaded {
        bytes,
        registers: Registers {
            cs: registers.cs.wrapping_add(paragraph),
            ss: registers.ss.wrapping_add(paragraph),
            ..registers
        },
    })
}
