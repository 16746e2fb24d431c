//! What a test links, writes and writes down.

ghost use Rattle.omf_place.specs.Bounded.{IsBounded};

use flat_file::{
    FlatFault, first_covered, write_bin, write_com, write_from_start, write_raw, write_sys,
};
use omf_frame::{IoFault, MemSink};
use omf_image::{Program, build};
use omf_module::Module;
use omf_place::{Layout, Names, place};
use rows::{push_bytes, read_modules, read_row, same};
use std::alloc::{AllocError, Allocator, Global};
use std::test::*;

/// Room for each file of these tests.
const ROOM: usize = 70_000;

/// How many bytes a sink takes at once, at most.
const PIECE: usize = 7;

/// Appends the bytes of a file that was written, or the fault and the bytes.
fn push_answer(
    text: &mut String,
    answer: Result<(), FlatFault>,
    file: &[u8],
) -> Result<(), AllocError> {
    match answer {
        Ok(()) => {}
        Err(FlatFault::Form(fault)) => {
            let (number, name) = fault.label();
            write!(text, " {number} {name}")?;
        }
        Err(FlatFault::Device) => text.push_str(" failed")?,
    }
    push_bytes(text, file)
}

/// An answer that only a failing sink makes a fault.
fn of_device(answer: Result<(), IoFault>) -> Result<(), FlatFault> {
    match answer {
        Ok(()) => Ok(()),
        Err(IoFault) => Err(FlatFault::Device),
    }
}

/// Room for a file.
fn room(alloc: Global, len: usize) -> Result<Vec<u8>, AllocError> {
    let mut bytes = Vec::new(alloc);
    bytes.resize(len, 0)?;
    Ok(bytes)
}

fn push_com<A: Allocator + Copy>(
    alloc: Global,
    text: &mut String,
    modules: &[Module<A>],
    layout: &Layout<A>,
    program: &Program<A>,
) -> Result<(), AllocError>
    requires { IsBounded modules.now layout.now }
{
    let mut bytes = room(alloc, ROOM)?;
    let mut sink = MemSink::over(&mut bytes, PIECE);
    let answer = write_com(modules, layout, program, &mut sink);
    text.push_str("com:")?;
    push_answer(text, answer, sink.written())
}

fn push_from_start<A: Allocator + Copy>(
    alloc: Global,
    text: &mut String,
    modules: &[Module<A>],
    layout: &Layout<A>,
    program: &Program<A>,
) -> Result<(), AllocError>
    requires { IsBounded modules.now layout.now }
{
    let mut bytes = room(alloc, ROOM)?;
    let mut sink = MemSink::over(&mut bytes, PIECE);
    let answer = write_from_start(modules, layout, program, &mut sink);
    text.push_str("; start:")?;
    push_answer(text, answer, sink.written())
}

fn push_sys<A: Allocator + Copy>(
    alloc: Global,
    text: &mut String,
    program: &Program<A>,
) -> Result<(), AllocError> {
    let mut bytes = room(alloc, ROOM)?;
    let mut sink = MemSink::over(&mut bytes, PIECE);
    let answer = write_sys(program, &mut sink);
    text.push_str("; sys:")?;
    push_answer(text, answer, sink.written())
}

/// Appends the .BIN file at a paragraph, from an address on, in a sink with so much room.
pub fn push_bin<A: Allocator + Copy>(
    alloc: Global,
    text: &mut String,
    program: &Program<A>,
    at: (u16, u32),
    len: usize,
) -> Result<(), AllocError> {
    let (paragraph, from) = at;
    let mut bytes = room(alloc, len)?;
    let mut sink = MemSink::over(&mut bytes, PIECE);
    let answer = of_device(write_bin(program, paragraph, from, &mut sink));
    write!(text, "; {paragraph:04X} from {from:X}:")?;
    push_answer(text, answer, sink.written())
}

/// The files of a program in each form: .COM, from the start on, .SYS, and .BIN at paragraph 07C0H from the first byte
/// that data covers.
fn forms<A: Allocator + Copy>(
    alloc: Global,
    modules: &[Module<A>],
    layout: &Layout<A>,
    program: &Program<A>,
) -> Result<String, AllocError>
    requires { IsBounded modules.now layout.now }
{
    let mut text = String::new(alloc);
    push_com(alloc, &mut text, modules, layout, program)?;
    push_from_start(alloc, &mut text, modules, layout, program)?;
    push_sys(alloc, &mut text, program)?;
    let from = first_covered(modules, layout);
    push_bin(alloc, &mut text, program, (0x07C0, from), ROOM)?;
    Ok(text)
}

/// Appends the raw image at paragraph 0 from an address on, or the fault.
fn push_raw<A: Allocator + Copy>(
    alloc: Global,
    text: &mut String,
    modules: &[Module<A>],
    layout: &Layout<A>,
    program: &Program<A>,
    from: u32,
) -> Result<(), AllocError>
    requires { IsBounded modules.now layout.now }
{
    let mut bytes = room(alloc, ROOM)?;
    let mut sink = MemSink::over(&mut bytes, PIECE);
    let answer = write_raw(modules, layout, program, 0, from, &mut sink);
    if !text.is_empty() {
        text.push_str("; ")?;
    }
    write!(text, "{from:X}:")?;
    push_answer(text, answer, sink.written())
}

/// The raw images of a program from each of these addresses on.
fn raws<A: Allocator + Copy>(
    alloc: Global,
    modules: &[Module<A>],
    layout: &Layout<A>,
    program: &Program<A>,
    addresses: &[u32],
) -> Result<String, AllocError>
    requires { IsBounded modules.now layout.now }
{
    let mut text = String::new(alloc);
    for from in addresses {
        push_raw(alloc, &mut text, modules, layout, program, *from)?;
    }
    Ok(text)
}

fn built(
    alloc: Global,
    modules: &[Module],
    layout: &Layout,
    addresses: &[u32],
) -> Result<String, AllocError>
    requires { IsBounded modules.now layout.now }
{
    match build(alloc, modules, layout) {
        Ok(program) => {
            if addresses.is_empty() {
                forms(alloc, modules, layout, &program)
            } else {
                raws(alloc, modules, layout, &program, addresses)
            }
        }
        Err(fault) => format!(in alloc; "{fault}"),
    }
}

fn placed(alloc: Global, modules: &[Module], addresses: &[u32]) -> Result<String, AllocError> {
    match place(alloc, modules, Names::Exact) {
        Ok(layout) => built(alloc, modules, &layout, addresses),
        Err(fault) => format!(in alloc; "{fault}"),
    }
}

/// What is said of the program that inputs give, or why they give none.
fn outcome(alloc: Global, inputs: &[Vec<u8>], addresses: &[u32]) -> Result<String, AllocError> {
    match read_modules(alloc, inputs) {
        Ok(modules) => placed(alloc, &modules, addresses),
        Err(fault) => format!(in alloc; "{fault}"),
    }
}

/// The inputs of each row of a table give what is wanted of them: each form, or the raw images from addresses on where
/// some are given.
fn run_of(alloc: Global, table: &str, addresses: &[u32]) -> Result<(), Fail> {
    for row in table.split("\n\n") {
        let row = read_row(alloc, row)?;
        let said = outcome(alloc, &row.inputs, addresses)?;
        same(said.as_str(), row.wanted)?;
    }
    Ok(())
}

/// The inputs of each row of a table give the files that are wanted of them.
pub fn run(alloc: Global, table: &str) -> Result<(), Fail> {
    run_of(alloc, table, &[])
}

/// The inputs of each row of a table give the raw images that are wanted of them, from these addresses on.
pub fn run_raw(alloc: Global, table: &str, addresses: &[u32]) -> Result<(), Fail> {
    run_of(alloc, table, addresses)
}
