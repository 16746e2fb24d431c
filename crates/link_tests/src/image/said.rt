//! What a test links and writes down.

ghost use Rattle.omf_place.specs.Bounded.{IsBounded};

use omf_image::{Program, Registers, build};
use omf_module::Module;
use omf_place::{Layout, Names, place};
use rows::{push_bytes, read_modules, read_row, same};
use std::alloc::{AllocError, Allocator, Global};
use std::test::*;

/// The most relocated words that are written down one by one.
const FEW: usize = 8;

fn bytes_of<A: Allocator + Copy>(
    alloc: Global,
    program: &Program<A>,
) -> Result<Vec<u8>, AllocError> {
    let mut bytes = Vec::new(alloc);
    for address in 0..program.size() {
        bytes.push(program.byte(address))?;
    }
    Ok(bytes)
}

/// The program's pieces, one after the other.
fn pieces_of<A: Allocator + Copy>(
    alloc: Global,
    program: &Program<A>,
) -> Result<Vec<u8>, AllocError> {
    let mut bytes = Vec::new(alloc);
    for _ in 0..program.size() {
        let address = u32::try_from(bytes.len()).unwrap_or(u32::MAX);
        if address < program.size() {
            bytes.extend_from_slice(program.piece(address))?;
        }
    }
    Ok(bytes)
}

fn push_image<A: Allocator + Copy>(
    alloc: Global,
    text: &mut String,
    program: &Program<A>,
) -> Result<(), AllocError> {
    let bytes = bytes_of(alloc, program)?;
    let pieces = pieces_of(alloc, program)?;
    if pieces.as_slice() == bytes.as_slice() {
        push_bytes(text, &bytes)
    } else {
        text.push_str(" other bytes than its pieces")
    }
}

/// Appends the addresses of relocated words, or their count where they are many.
fn push_relocations(text: &mut String, relocations: &[u32]) -> Result<(), AllocError> {
    let count = relocations.len();
    if count > FEW {
        return write!(text, " and {count} relocated words");
    }
    for address in relocations {
        write!(text, " @{address}")?;
    }
    Ok(())
}

/// How many bytes are written and of how many, and the count of pages; the bytes; the addresses of the relocated words;
/// CS:IP and SS:SP.
fn describe<A: Allocator + Copy>(
    alloc: Global,
    program: &Program<A>,
) -> Result<String, AllocError> {
    let (written, size, pages) = (program.written(), program.size(), program.page_count());
    let mut text = format!(in alloc; "{written} of {size} in {pages}:")?;
    push_image(alloc, &mut text, program)?;
    push_relocations(&mut text, program.relocations())?;
    let Registers { cs, ip, ss, sp } = program.registers();
    write!(text, "; {cs:04X}:{ip:04X} {ss:04X}:{sp:04X}")?;
    Ok(text)
}

fn built<A: Allocator + Copy>(
    alloc: A,
    words: Global,
    modules: &[Module<A>],
    layout: &Layout<A>,
) -> Result<String, AllocError>
    requires { IsBounded modules.now layout.now }
{
    match build(alloc, modules, layout) {
        Ok(program) => describe(words, &program),
        Err(fault) => format!(in words; "{fault}"),
    }
}

/// What is said of the program of modules, or why there is none.
pub fn placed<A: Allocator + Copy>(
    alloc: A,
    words: Global,
    modules: &[Module<A>],
) -> Result<String, AllocError> {
    match place(alloc, modules, Names::Exact) {
        Ok(layout) => built(alloc, words, modules, &layout),
        Err(fault) => format!(in words; "{fault}"),
    }
}

/// What is said of the program that inputs give, or why they give none.
pub fn outcome<A: Allocator + Copy>(
    alloc: A,
    words: Global,
    inputs: &[Vec<u8>],
) -> Result<String, AllocError> {
    match read_modules(alloc, inputs) {
        Ok(modules) => placed(alloc, words, &modules),
        Err(fault) => format!(in words; "{fault}"),
    }
}

/// The inputs of each row of a table give what is wanted of them.
pub fn run(alloc: Global, table: &str) -> Result<(), Fail> {
    for row in table.split("\n\n") {
        let row = read_row(alloc, row)?;
        let said = outcome(alloc, alloc, &row.inputs)?;
        same(said.as_str(), row.wanted)?;
    }
    Ok(())
}
