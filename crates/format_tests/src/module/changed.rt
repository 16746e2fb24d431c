//! Modules without their start, with other lengths of their segments, and with what another defines.

use super::told::push_reference;
use omf_frame::MemSource;
use omf_module::{
    Group, Module, PublicSymbol, Segment, read_module, with_declarations, with_lengths,
    without_start,
};
use omf_record::PublicBase;
use rows::{module_of, push_text, same};
use std::alloc::{AllocError, Global};
use std::test::*;

fn push_segment(told: &mut String, segment: Segment<'_>) -> Result<(), AllocError> {
    push_text(told, segment.name)?;
    write!(told, " {}; ", segment.length)
}

fn push_group(told: &mut String, group: Group<'_>) -> Result<(), AllocError> {
    push_text(told, group.name)?;
    for member in group.members {
        write!(told, " {member}")?;
    }
    told.push_str("; ")
}

fn push_public(told: &mut String, public: PublicSymbol<'_>) -> Result<(), AllocError> {
    push_text(told, public.name)?;
    match public.base {
        PublicBase::InSegment { group, segment } => {
            write!(told, " {group} {segment}+{}; ", public.offset)
        }
        PublicBase::AtFrame { group, frame } => write!(told, " {group} at {frame}; "),
    }
}

/// The segments of a module by name and length, its groups with their members, its publics, how many externals and
/// data records it has, and its start.
fn told_of(alloc: Global, module: &Module) -> Result<String, AllocError> {
    let mut told = String::new(alloc);
    for segment in module.segments() {
        push_segment(&mut told, segment)?;
    }
    for group in module.groups() {
        push_group(&mut told, group)?;
    }
    for public in module.publics() {
        push_public(&mut told, public)?;
    }
    write!(
        told,
        "{} {}",
        module.external_count(),
        module.data_record_count()
    )?;
    if let Some(start) = module.start() {
        push_reference(&mut told, start.frame, start.target)?;
    }
    Ok(told)
}

fn read(alloc: Global, lines: &str) -> Result<Module, Fail> {
    let bytes = module_of(alloc, lines)?;
    Ok(read_module(alloc, &mut MemSource::over(&bytes, 65_536, None))?)
}

/// What is told of a module, where its segments have these lengths.
fn lengthened(alloc: Global, lengths: &[Option<u16>], lines: &str) -> Result<String, Fail> {
    match with_lengths(read(alloc, lines)?, lengths) {
        Ok(module) => Ok(told_of(alloc, &module)?),
        Err(place) => Ok(format!(in alloc; "outside at {place}")?),
    }
}

/// What is told of a module with what another defines behind its own.
fn joined(alloc: Global, module: Module, more: &Module) -> Result<String, Fail> {
    match with_declarations(alloc, module, more)? {
        Some(module) => Ok(told_of(alloc, &module)?),
        None => Ok(format!(in alloc; "too many")?),
    }
}

const START: &str = "\
98 28 10 00 02 01 01
A0 01 00 00 00 00
8A C1 00 01 01 00 00";

#[test]
fn starts(rt: HostRuntime) -> Result<(), Fail> {
    let alloc = rt.alloc();
    let module = read(alloc, START)?;
    same(&told_of(alloc, &module)?, "CODE 16; 0 1 F0 1 T0 1;")?;
    let module = without_start(module);
    same(&told_of(alloc, &module)?, "CODE 16; 0 1")?;
    let module = without_start(module);
    same(&told_of(alloc, &module)?, "CODE 16; 0 1")
}

#[test]
fn lengths(rt: HostRuntime) -> Result<(), Fail> {
    let alloc = rt.alloc();
    // a segment behind the last length stays, and one of 65,536 bytes may become short
    let two = "98 2A 00 00 02 01 01\n98 28 10 00 02 02 01\nA0 01 03 00 11 12\nA0 02 0E 00 11 12";
    same(&lengthened(alloc, &[], two)?, "CODE 65536; CODE 16; 0 2")?;
    same(&lengthened(alloc, &[Some(5)], two)?, "CODE 5; CODE 16; 0 2")?;
    same(
        &lengthened(alloc, &[None, Some(17), Some(1)], two)?,
        "CODE 65536; CODE 17; 0 2",
    )?;
    // the first data that passes the end tells
    same(&lengthened(alloc, &[Some(4)], two)?, "outside at 36")?;
    same(&lengthened(alloc, &[None, Some(15)], two)?, "outside at 45")?;
    same(
        &lengthened(alloc, &[Some(0), Some(0)], two)?,
        "outside at 36",
    )
}

#[test]
fn declarations(rt: HostRuntime) -> Result<(), Fail> {
    let alloc = rt.alloc();
    let more = read(
        alloc,
        "\
98 28 01 00 02 01 01
98 28 02 00 02 01 01
9A 02 FF 02
90 00 01 01 78 05 00 00
90 01 02 01 79 06 00 00
90 01 00 34 12 01 7A 00 00 00
8C 01 65 00
A0 01 00 00 11",
    )?;
    let one = "\
98 28 10 00 02 01 01
9A 02 FF 01
90 01 01 01 77 01 00 00
8C 01 66 00 01 67 00";
    same(
        &joined(alloc, read(alloc, one)?, &more)?,
        "CODE 16; CODE 1; CODE 2; CODE 0; CODE 2; w 1 1+1; x 0 2+5; y 2 3+6; z 2 at 4660; 2 0",
    )?;
    let none = read(alloc, "8C 01 66 00")?;
    same(
        &joined(alloc, read(alloc, START)?, &none)?,
        "CODE 16; 0 1 F0 1 T0 1;",
    )
}
