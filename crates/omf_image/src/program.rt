//! A linked program.

ghost use Rattle.std.specs.Prelude.{All, AllPairs, ◌≡◌, ◌+◌, ◌<◌, ◌≤◌, length, take, drop, count_by, slice_index};
ghost use Rattle.omf_image.specs.Program.{IsProgram};

use crate::pages::Pages;
use crate::start::Registers;
use std::alloc::{Allocator, Global};
use std::marker::Model;

/// A linked program: its image, the rising addresses of its relocated words, and its registers at the start. The image
/// stands in pages of 4,096 bytes, each made when the first data byte fell into it. Its written part ends behind the
/// last byte that data covers; the bytes behind that are 00, and no file holds them.
#[derive(Drop)]
pub struct Program<A: Allocator + Copy = Global> {
    pages: Pages<A>,
    written: u32,
    relocations: Vec<u32, A>,
    registers: Registers,
}

impl<A: Allocator + Copy> Model for Program<A> {
    ghost use Rattle.omf_image.specs.Program.{Program, IsProgram};

    ghost Value = { Program };

    ghost view = { λ p. record {
      image = p.pages.bytes;
      written = p.written;
      relocations = p.relocations.items;
      registers = p.registers;
      made = p.pages.made;
    } };

    ghost invariant = { λ p. IsProgram (record {
      image = p.pages.bytes;
      written = p.written;
      relocations = p.relocations.items;
      registers = p.registers;
      made = p.pages.made;
    }) };
}

impl<A: Allocator + Copy> Program<A> {
    /// A program of these parts.
    pub fn new(
        pages: Pages<A>,
        written: u32,
        relocations: Vec<u32, A>,
        registers: Registers,
    ) -> Program<A>
        requires apart { AllPairs (λ r s. r + 2 ≤ s) relocations.items }
        requires inside { All (λ r. r + 2 ≤ written) relocations.items }
        requires written { written ≤ length pages.bytes }
        requires few { length relocations.items ≤ 65535 }
        ensures { result ≡ record {
          image = pages.bytes;
          written = written;
          relocations = relocations.items;
          registers = registers;
          made = pages.made;
        } }
    {
        // its contract says that an image has at most 1,048,560 bytes, each below 256
        let _size = pages.size();
        Program {
            pages,
            written,
            relocations,
            registers,
        }
    }

    /// The number of bytes of the image.
    pub fn size(&self) -> u32
        ensures size { result ≡ length self.now.image }
        ensures limits { IsProgram self.now }
    {
        self.pages.size() as u32
    }

    /// How many bytes of the image are written: one more than the greatest address that a data record covers, or 0.
    pub fn written(&self) -> u32
        ensures same { result ≡ self.now.written }
        ensures within { result ≤ length self.now.image }
    {
        self.written
    }

    /// The byte of the image at an address.
    pub fn byte(&self, address: u32) -> u8
        requires { address < length self.now.image }
        ensures { result ≡ slice_index self.now.image address }
    {
        self.pages.byte(address as usize)
    }

    /// A front of the image's bytes from an address on, at least one byte.
    pub fn piece(&self, address: u32) -> &[u8]
        requires { address < length self.now.image }
        ensures front { result.now ≡ take (length result.now) (drop address self.now.image) }
        ensures some { 0 < length result.now }
    {
        self.pages.piece(address as usize)
    }

    /// The number of pages of 4,096 bytes in which data covers a byte.
    pub fn page_count(&self) -> usize
        ensures { result ≡ count_by (λ m. m) self.now.made }
    {
        self.pages.page_count()
    }

    /// The addresses of the relocated words, rising.
    pub fn relocations(&self) -> &[u32]
        ensures { result.now ≡ self.now.relocations }
    {
        &self.relocations
    }

    /// The registers at the start, at load paragraph 0.
    pub fn registers(&self) -> Registers
        ensures { result ≡ self.now.registers }
    {
        self.registers
    }
}
