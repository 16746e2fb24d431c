//! Inputs that are cut off, changed or deep.

use super::answer::{Command, Devices, answer_of};
use super::failing::gives;
use super::objects::{SMALL, SMALL_FILE};
use super::tables::{Telling, is_answer};
use omf_commands::Options;
use rows::module_of;
use std::alloc::Global;
use std::process::Abort;
use std::test::*;

/// Checking and linking an input tell this fault, or none and this file.
fn tells<R: Abort>(
    rt: &R,
    alloc: Global,
    inputs: &[Vec<u8>],
    file: &[u8],
    fault: &str,
) -> Result<(), Fail> {
    let line: &[u8] = if fault.is_empty() { b"ok\n" } else { b"" };
    for piece in [1usize, 2, 3] {
        let devices = Devices {
            room: 60,
            ..Devices::sound(piece)
        };
        gives(rt, alloc, Command::Check, inputs, devices, line, fault)?;
        gives(
            rt,
            alloc,
            Command::Link(Options::new()),
            inputs,
            devices,
            file,
            fault,
        )?;
    }
    Ok(())
}

/// The place of the record of the small module that holds the byte at this place.
fn record_place(at: usize) -> usize {
    let mut place = 0;
    for begins in [6usize, 16, 26, 38, 47] {
        if begins <= at {
            place = begins;
        }
    }
    place
}

fn front_is_refused<R: Abort>(rt: &R, alloc: Global, front: &[u8]) -> Result<(), Fail> {
    let place = record_place(front.len());
    let why = if place == front.len() {
        "8 NoEnd"
    } else {
        "3 Truncated"
    };
    let fault = format!(in alloc; "1 omf: A.OBJ: {why} at record {place}\n")?;
    tells(rt, alloc, &[Vec::from_slice(alloc, front)?], b"", &fault)
}

#[test]
fn each_front_is_refused(rt: HostRuntime) -> Result<(), Fail> {
    let small = module_of(rt.alloc(), SMALL)?;
    for n in 0..small.len() {
        front_is_refused(&rt, rt.alloc(), &small[..n])?;
    }
    Ok(())
}

/// Whether the byte at this place of the small module is one of a length word.
fn is_length(at: usize) -> bool {
    let after = at.saturating_sub(record_place(at));
    after == 1 || after == 2
}

/// Whether the byte at this place of the small module closes a record.
fn is_closing(at: usize) -> bool {
    [5usize, 15, 25, 37, 46, 56].contains(&at)
}

/// The fault of checking an input, which has to be one of reading.
fn reading_fault<R: Abort>(rt: &R, alloc: Global, inputs: &[Vec<u8>]) -> Result<String, Fail> {
    let fault = answer_of(alloc, Command::Check, inputs, Devices::sound(60))?.fault;
    let number = fault.split(' ').nth(3).unwrap_or("").parse::<u8>()?;
    assert!(rt; number >= 2 && number <= 21, "{fault}");
    Ok(fault)
}

/// The small module with another byte at this place.
fn change_is_told<R: Abort>(
    rt: &R,
    alloc: Global,
    inputs: &[Vec<u8>],
    at: usize,
    value: u8,
) -> Result<(), Fail> {
    if is_length(at) {
        let fault = reading_fault(rt, alloc, inputs)?;
        return tells(rt, alloc, inputs, b"", &fault);
    }
    if is_closing(at) && value == 0 {
        return tells(rt, alloc, inputs, &module_of(alloc, SMALL_FILE)?, "");
    }
    let place = record_place(at);
    let fault = format!(in alloc; "1 omf: A.OBJ: 4 Closing at record {place}\n")?;
    tells(rt, alloc, inputs, b"", &fault)
}

/// The small module with each other byte at this place.
fn changes_are_told<R: Abort>(rt: &R, alloc: Global, small: &[u8], at: usize) -> Result<(), Fail> {
    for value in 0..=255u8 {
        let mut input = Vec::from_slice(alloc, small)?;
        if let Some(byte) = input.get_mut(at) {
            *byte = value;
        }
        if input.as_slice() != small {
            change_is_told(rt, alloc, &[input], at, value)?;
        }
    }
    Ok(())
}

#[test]
fn each_changed_byte_is_told(rt: HostRuntime) -> Result<(), Fail> {
    let small = module_of(rt.alloc(), SMALL)?;
    for at in 0..small.len() {
        changes_are_told(&rt, rt.alloc(), &small, at)?;
    }
    Ok(())
}

/// Data of so many levels, each of which repeats the next one this often, and so does the innermost its content, one
/// byte, in a segment of this length: what is told of checking it and of linking it.
fn nested_is<R: Abort>(
    rt: &R,
    alloc: Global,
    (length, repeat, levels): (&str, &str, usize),
    checked: &str,
    linked: &str,
) -> Result<(), Fail> {
    let outer = format!(in alloc; "{repeat} 01 00 ")?.repeat(alloc, levels)?;
    let module = format!(in alloc;
        "98 28 {length} 02 01 01\nA2 01 00 00 {outer}{repeat} 00 00 01 41"
    )?;
    let link = Command::Link(Options::new());
    is_answer(rt, alloc, Command::Check, Telling::Text, &module, checked)?;
    is_answer(rt, alloc, link, Telling::Bytes, &module, linked)
}

/// The file of a program of one byte.
const BYTE_FILE: &str = "\
raw 4D 5A 21 00 01 00*3 02 00 01 00 FF*2 00*10 1C 00*7 41";

#[test]
fn data_is_nested_as_deep_as_may_be(rt: HostRuntime) -> Result<(), Fail> {
    let too_deep = "1 omf: A.OBJ: 6 Body at record 26 byte 257";
    let too_long = "1 omf: A.OBJ: 17 DataOutside at record 26";
    nested_is(&rt, rt.alloc(), ("01 00", "01 00", 63), "ok", BYTE_FILE)?;
    nested_is(&rt, rt.alloc(), ("01 00", "01 00", 64), too_deep, too_deep)?;
    nested_is(&rt, rt.alloc(), ("FF FF", "FF FF", 16), too_long, too_long)
}
