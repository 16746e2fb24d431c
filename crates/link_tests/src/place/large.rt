//! Many modules and many publics.

use super::laid::run;
use omf_place::{Layout, Names, Position, place};
use rows::{publics, push_name, read_modules, read_row};
use std::alloc::{AllocError, Allocator, Global};
use std::process::Abort;
use std::test::*;

/// A segment of 50,000 bytes.
const SEGMENT: &str = "98 28 50 C3 02 01 01";

/// A layout has each of so many publics at its number.
fn find_each<R: Abort, A: Allocator + Copy>(
    rt: &R,
    words: Global,
    layout: &Layout<A>,
    count: u16,
) -> Result<(), Fail> {
    for number in 0..count {
        let name = format!(in words; "a{number}")?;
        let position = Position::Relocatable(u32::from(number), Some(0));
        assert_eq!(rt; layout.public(name.as_bytes()), Some(position));
    }
    assert_eq!(rt; layout.public(b"a"), None);
    Ok(())
}

/// The layout of inputs does.
fn place_inputs<R: Abort, A: Allocator + Copy>(
    rt: &R,
    (alloc, words): (A, Global),
    inputs: &[Vec<u8>],
    count: u16,
    names: Names,
) -> Result<(), Fail> {
    let modules = read_modules(alloc, inputs)?;
    let layout = place(alloc, &modules, names)?;
    find_each(rt, words, &layout, count)
}

/// The layout of a module with so many publics does.
fn find_publics<R: Abort>(rt: &R, alloc: Global, count: u16, names: Names) -> Result<(), Fail> {
    let publics = publics(alloc, count)?;
    let lines = format!(in alloc; "{SEGMENT}{publics}")?;
    let row = read_row(alloc, &lines)?;
    place_inputs(rt, (alloc, alloc), &row.inputs, count, names)
}

#[test]
fn each_public_is_found(rt: HostRuntime) -> Result<(), Fail> {
    find_publics(&rt, rt.alloc(), 2_000, Names::Exact)?;
    find_publics(&rt, rt.alloc(), 50_000, Names::Exact)?;
    find_publics(&rt, rt.alloc(), 50_000, Names::AsciiFolded)
}

#[test]
fn a_public_too_many(rt: HostRuntime) -> Result<(), Fail> {
    let publics = publics(rt.alloc(), 2_000)?;
    let again = "90 00 01 02 61 37 00 00 00\n= 25 DuplicatePublic a7";
    let row = format!(in rt.alloc(); "{SEGMENT}{publics}\n{again}")?;
    run(rt.alloc(), Names::Exact, &row)
}

/// Appends a module of one part of a byte, with a name and a class of its own.
fn push_part(alloc: Global, row: &mut String, number: u32) -> Result<(), AllocError> {
    row.push_str("80 01 41\n96 00")?;
    push_name(row, &format!(in alloc; "s{number}")?)?;
    row.push_str("\n98 28 01 00 02 02 01\n")
}

/// So many such modules, and where they stand.
fn one_part_each(alloc: Global, count: u32) -> Result<String, AllocError> {
    let mut row = String::new(alloc);
    push_part(alloc, &mut row, 0)?;
    for n in 1..count {
        row.push_str("--\n")?;
        push_part(alloc, &mut row, n)?;
    }
    write!(row, "= size {count}:")?;
    for n in 0..count {
        let frame = n / 16;
        write!(row, " {n}/{frame} |")?;
    }
    row.push_str(";")?;
    for n in 0..count {
        let end = n.saturating_add(1);
        write!(row, " {n}-{end} {n}.0")?;
    }
    row.push_str(";")?;
    Ok(row)
}

#[test]
fn modules(rt: HostRuntime) -> Result<(), Fail> {
    let row = one_part_each(rt.alloc(), 10_000)?;
    run(rt.alloc(), Names::Exact, &row)
}
