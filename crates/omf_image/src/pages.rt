//! An image in pages, each made when the first data byte falls into it.

ghost use Rattle.std.specs.Prelude.{◌≡◌, All, ℕ, ◌+◌, ◌*◌, ◌/◌, ◌%◌, ◌<◌, ◌≤◌, true, false, length, take, drop};
ghost use Rattle.std.specs.Prelude.{replicate, count_by, slice_index, slice_index_or, slice_set, OnOk, OnErr, IfOk};
ghost use Rattle.omf_image.specs.inside.Pages.{Paged, page_bytes, IsLaid, MakesPages, IsBlank};
ghost use Rattle.omf_image.specs.Words.{add_byte, add_word};

use std::alloc::{AllocError, Allocator};
use std::marker::Model;

/// Bytes in a page.
const PAGE: usize = 4096;

/// An image. A page that no data byte fell into is an empty `Vec`, and reads as zeros.
#[derive(Drop)]
pub struct Pages<A: Allocator + Copy> {
    alloc: A,
    pages: Vec<Vec<u8, A>, A>,
    /// What is lent for pages that weren't made.
    zeros: Vec<u8, A>,
    size: usize,
}

impl<A: Allocator + Copy> Model for Pages<A> {
    ghost use Rattle.std.specs.Prelude.{◌≡◌, ◌<◌, All, map, replicate};
    ghost use Rattle.omf_image.specs.inside.Pages.{Paged, joined, made_pages, IsPaged};

    ghost Value = { Paged };

    ghost view = { λ i. record {
      bytes = joined i.size (map (λ p. p.items) i.pages.items);
      made = made_pages (map (λ p. p.items) i.pages.items);
    } };

    ghost invariant = { λ i. IsPaged i.size (map (λ p. p.items) i.pages.items) × (i.zeros.items ≡ replicate 4096 0)
        × All (λ p. All (λ b. b < 256) p.items) i.pages.items };
}

/// Makes a page where it isn't made.
fn make<A: Allocator + Copy>(alloc: A, page: &mut Vec<u8, A>) -> Result<(), AllocError>
    ensures made { OnOk result (page.new.items ≡ page_bytes page.old.items) }
    ensures kept { OnErr result (page.new.items ≡ page.old.items) }
{
    if page.is_empty() {
        *page = Vec::from_elem(alloc, 0u8, PAGE)?;
    }
    Ok(())
}

/// Lays bytes over those of a page from a place on.
fn lay_over(page: &mut [u8], start: usize, bytes: &[u8])
    requires { start + length bytes.now ≤ length page.old }
    ensures laid { IsLaid (record { start = start; bytes = bytes.now }) page.old page.new }
    ensures bytes { All (λ b. b < 256) page.old → All (λ b. b < 256) page.new }
{
    page[start..start + bytes.len()].copy_from_slice(bytes);
}

impl<A: Allocator + Copy> Pages<A> {
    /// How many bytes it has.
    pub fn size(&self) -> usize
        ensures size { result ≡ length self.now.bytes }
        ensures small { result ≤ 1048560 }
        ensures bytes { All (λ b. b < 256) self.now.bytes }
    {
        self.size
    }

    /// The byte at an address.
    pub fn byte(&self, address: usize) -> u8
        requires { address < length self.now.bytes }
        ensures { result ≡ slice_index self.now.bytes address }
    {
        let page = &self.pages[address / PAGE];
        if page.is_empty() {
            0
        } else {
            page[address % PAGE]
        }
    }

    /// Writes a byte into a page that was made.
    fn write(&mut self, address: usize, byte: u8)
        requires inside { address < length self.old.bytes }
        requires made { slice_index_or self.old.made (address / 4096) false ≡ true }
        ensures bytes { self.new.bytes ≡ slice_set self.old.bytes address byte }
        ensures made { (k : ℕ) → slice_index_or self.new.made k false ≡ slice_index_or self.old.made k false }
    {
        let page = &mut self.pages[address / PAGE];
        let window: &mut [u8] = page.as_mut_slice();
        window[address % PAGE] = byte;
    }

    /// Lays data over the page of its first byte, which is made. All of it lies there.
    fn lay_in_page(&mut self, address: usize, bytes: &[u8]) -> Result<(), AllocError>
        requires inside { address + length bytes.now ≤ length self.old.bytes }
        requires one_page { address % 4096 + length bytes.now ≤ 4096 }
        requires some { 0 < length bytes.now }
        ensures bytes { OnOk result
            (IsLaid (record { start = address; bytes = bytes.now }) self.old.bytes self.new.bytes) }
        ensures made { OnOk result
            (MakesPages (record { start = address; bytes = bytes.now }) self.old.made self.new.made) }
    {
        let alloc = self.alloc;
        let page = &mut self.pages[address / PAGE];
        make(alloc, page)?;
        lay_over(page.as_mut_slice(), address % PAGE, bytes);
        Ok(())
    }

    /// Lays data over it, page by page.
    pub fn lay(&mut self, start: usize, bytes: &[u8]) -> Result<(), AllocError>
        requires { start + length bytes.now ≤ length self.old.bytes }
        ensures bytes { OnOk result
            (IsLaid (record { start = start; bytes = bytes.now }) self.old.bytes self.new.bytes) }
        ensures made { OnOk result
            (MakesPages (record { start = start; bytes = bytes.now }) self.old.made self.new.made) }
    {
        // its contract says that an image has at most 1,048,560 bytes
        let _size = self.size();
        let mut laid = 0;
        while laid < bytes.len() {
            let address = start + laid;
            let end = bytes.len().min(laid + PAGE - address % PAGE);
            self.lay_in_page(address, &bytes[laid..end])?;
            laid = end;
        }
        Ok(())
    }

    /// Adds to a byte, modulo 256.
    #[tactic(auto, unfolding(crate::specs::Words::add_byte))]
    pub fn add_byte(&mut self, address: usize, value: u8)
        requires inside { address < length self.old.bytes }
        requires made { slice_index_or self.old.made (address / 4096) false ≡ true }
        ensures bytes { self.new.bytes ≡ add_byte value address self.old.bytes }
        ensures made { (k : ℕ) → slice_index_or self.new.made k false ≡ slice_index_or self.old.made k false }
    {
        let sum = self.byte(address).wrapping_add(value);
        self.write(address, sum);
    }

    /// Adds to a word, low byte first, modulo 65,536. Its bytes may lie in two pages.
    #[tactic(auto, unfolding(crate::specs::Words::add_word, crate::specs::Words::put_word))]
    pub fn add_word(&mut self, address: usize, value: u16)
        requires inside { address + 1 < length self.old.bytes }
        requires made { slice_index_or self.old.made (address / 4096) false ≡ true }
        requires next_made { slice_index_or self.old.made ((address + 1) / 4096) false ≡ true }
        ensures bytes { self.new.bytes ≡ add_word value address self.old.bytes }
        ensures made { (k : ℕ) → slice_index_or self.new.made k false ≡ slice_index_or self.old.made k false }
    {
        // its contract says that an image has at most 1,048,560 bytes
        let _size = self.size();
        let word = u16::from(self.byte(address)) + 256 * u16::from(self.byte(address + 1));
        let sum = word.wrapping_add(value);
        self.write(address, (sum % 256) as u8);
        self.write(address + 1, (sum / 256) as u8);
    }

    /// A front of the image from an address, which isn't empty.
    pub fn piece(&self, address: usize) -> &[u8]
        requires { address < length self.now.bytes }
        ensures front { result.now ≡ take (length result.now) (drop address self.now.bytes) }
        ensures some { 0 < length result.now }
    {
        let start = address % PAGE;
        let end = PAGE.min(self.size - address + start);
        let page = &self.pages[address / PAGE];
        if page.is_empty() {
            &self.zeros[start..end]
        } else {
            &page[start..end]
        }
    }

    /// How many pages were made.
    pub fn page_count(&self) -> usize
        ensures { result ≡ count_by (λ m. m) self.now.made }
    {
        let mut count = 0;
        for page in &self.pages {
            if !page.is_empty() {
                count += 1;
            }
        }
        count
    }

    /// Zeros, in no page yet.
    pub fn new(alloc: A, size: usize) -> Result<Pages<A>, AllocError>
        requires { size ≤ 1048560 }
        ensures { IfOk result (λ p. IsBlank size p) }
    {
        let mut pages = Vec::new(alloc);
        for _ in 0..(size + PAGE - 1) / PAGE {
            pages.push(Vec::new(alloc))?;
        }
        let zeros = Vec::from_elem(alloc, 0u8, PAGE)?;
        Ok(Pages {
            alloc,
            pages,
            zeros,
            size,
        })
    }
}
