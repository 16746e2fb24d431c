//! Modules that are built of records as values.

use omf_module::{AddFault, Module, ModuleBuilder};
use omf_record::{Alignment, Combination, Record, SegmentDefinition, SegmentLength};
use rows::same;
use std::alloc::{AllocError, Global};
use std::test::*;

/// A segment of 16 bytes, with no name.
const SEGMENT: SegmentDefinition = SegmentDefinition {
    alignment: Alignment::Byte,
    combination: Combination::Public2,
    length: SegmentLength::Word(16),
    name: 0,
    class: 0,
    overlay: 0,
};

/// The module of a header, a segment, and two bytes at an offset in it.
fn with_data(alloc: Global, offset: u16) -> Result<Module, AddFault> {
    let mut builder = ModuleBuilder::new(alloc);
    builder.add(alloc, 0, &Record::Theadr { name: b"A" })?;
    builder.add(alloc, 6, &Record::Segdef { segment: SEGMENT })?;
    builder.add(
        alloc,
        16,
        &Record::Ledata {
            segment: 1,
            offset,
            bytes: &[1, 2],
        },
    )?;
    Ok(builder.finish())
}

/// The module of a segment, with no header before it.
fn with_no_header(alloc: Global) -> Result<Module, AddFault> {
    let mut builder = ModuleBuilder::new(alloc);
    builder.add(alloc, 0, &Record::Segdef { segment: SEGMENT })?;
    Ok(builder.finish())
}

/// How many segments a module has, and where its data records stand; or the number of its fault.
fn told_of(alloc: Global, built: Result<Module, AddFault>) -> Result<String, AllocError> {
    let module = match built {
        Ok(module) => module,
        Err(AddFault::Check(fault)) => return format!(in alloc; "fault {}", fault.label().0),
        Err(AddFault::Memory) => return format!(in alloc; "memory"),
    };
    let mut told = format!(in alloc; "{}:", module.segment_count())?;
    for data in module.data_records() {
        write!(told, " {} at {}", data.offset, data.place)?;
    }
    Ok(told)
}

#[test]
fn records(rt: HostRuntime) -> Result<(), Fail> {
    let alloc = rt.alloc();
    same(&told_of(alloc, with_data(alloc, 0))?, "1: 0 at 16")?;
    same(&told_of(alloc, with_data(alloc, 14))?, "1: 14 at 16")?;
    same(&told_of(alloc, with_data(alloc, 15))?, "fault 17")?;
    same(&told_of(alloc, with_no_header(alloc))?, "fault 7")
}
