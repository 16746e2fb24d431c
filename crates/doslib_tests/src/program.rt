//! What is printed of MS-DOS executables. Blank lines separate the rows of a table: a row is the bytes of a file, and
//! behind `= ` what is printed of it at the path `F`.

use mz::{MzFault, read_mz};
use mz_text::push_program;
use omf_frame::MemSource;
use refusing::refuse_each;
use rows::{bytes_of, same};
use std::alloc::{AllocError, Allocator, Global};
use std::test::*;

/// Appends what is printed of a file at the path `F`.
fn push_told<A: Allocator + Copy>(
    alloc: A,
    bytes: &[u8],
    lines: &mut Vec<u8, A>,
) -> Result<(), MzFault> {
    let mut source = MemSource::over(bytes, 4096, None);
    let file = read_mz(alloc, &mut source)?;
    match push_program(lines, "F", &file, source.rest().len()) {
        Ok(()) => Ok(()),
        Err(AllocError) => Err(MzFault::Memory),
    }
}

/// What is printed of a file, with the memory of this allocator.
fn told<A: Allocator + Copy>(alloc: A, words: Global, bytes: &[u8]) -> Result<String, Fail> {
    let mut lines = Vec::new(alloc);
    if push_told(alloc, bytes, &mut lines).is_err() {
        return Ok(String::from_str(words, "no memory")?);
    }
    Ok(String::from_str(words, str::from_utf8(&lines)?)?)
}

/// A file of two relocated words, with two bytes behind its image.
const FILE: &str = "\
4D 5A 3C 00 01 00 02 00 03 00 11 00 FF FF 02 00 00 01 CD AB 03 00 01 00 1C 00 00 00
01 00 00 00 02 00 00 00 00*12
B8 00 00 8E D8 34 12 00*5
1A 1A";

/// What is printed of it.
const TOLD: &str = "\
program \"F\"
  00 5A4D signature
  02 003C bytes in last page
  04 0001 pages
  06 0002 relocations
  08 0003 header paragraphs
  0A 0011 minimum allocation
  0C FFFF maximum allocation
  0E 0002 initial SS
  10 0100 initial SP
  12 ABCD checksum
  14 0003 initial IP
  16 0001 initial CS
  18 001C relocation table offset
  1A 0000 overlay
       48 bytes of the header
       12 bytes of the image
        2 bytes behind the image
      272 bytes of memory at least
  0000:0001 -> 00000001 0000
  0000:0002 -> 00000002 8E00
";

#[test]
fn a_program(rt: HostRuntime) -> Result<(), Fail> {
    let file = bytes_of(rt.alloc(), FILE)?;
    same(&told(rt.alloc(), rt.alloc(), &file)?, TOLD)
}

#[test]
fn refused_growths(rt: HostRuntime) -> Result<(), Fail> {
    let words = rt.alloc();
    let file = bytes_of(words, FILE)?;
    let (_, made_do) = refuse_each(words, TOLD, |heap| told(heap, words, &file))?;
    same(&format!(in words; "{made_do} made do")?, "0 made do")
}
