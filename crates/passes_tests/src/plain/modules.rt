//! Modules that are read as they are given, held against those of the fourteen that say the same.

use omf_alias::Renaming;
use omf_comdat::{ComdatFate, comdat_fates, comdat_records};
use omf_frame::MemSource;
use omf_library::module_frames;
use omf_module::{DataRecord, FaultKind, Module, ModuleFault, Start, read_module};
use omf_place::Names;
use omf_plain::{Obstacle, PlainModuleFault, RecordObstacle, read_plain};
use rows::{Row, put_record};
use std::alloc::{AllocError, Allocator, Global};
use std::process::Abort;
use std::test::*;

/// Appends a data record and its fix-ups, but for places in the file.
fn push_data(text: &mut String, data: DataRecord<'_>) -> Result<(), AllocError> {
    let DataRecord {
        segment,
        offset,
        bytes,
        places,
        ..
    } = data;
    writeln!(text, "{segment} {offset} {bytes:?} {places:?}")?;
    for fixup in data.fixups {
        let (own, at, offset) = (fixup.self_relative, fixup.location, fixup.offset);
        write!(text, "{own} {at:?} {offset} {:?} ", fixup.frame)?;
        writeln!(text, "{:?} {}", fixup.target, fixup.displacement)?;
    }
    Ok(())
}

/// Appends where a program starts, but for the place in the file.
fn push_start(text: &mut String, start: Option<Start>) -> Result<(), AllocError> {
    let Some(start) = start else {
        return Ok(());
    };
    let (frame, target) = (start.frame, start.target);
    writeln!(text, "start {frame:?} {target:?} {}", start.displacement)
}

/// What a module says, but for the places of its records.
pub fn module_text<A: Allocator + Copy>(
    alloc: Global,
    module: &Module<A>,
) -> Result<String, AllocError> {
    let mut text = String::new(alloc);
    for segment in module.segments() {
        writeln!(text, "{segment:?}")?;
    }
    for group in module.groups() {
        writeln!(text, "{group:?}")?;
    }
    for external in module.externals() {
        writeln!(text, "{external:?}")?;
    }
    for public in module.publics() {
        writeln!(text, "{public:?}")?;
    }
    for data in module.data_records() {
        push_data(&mut text, data)?;
    }
    push_start(&mut text, module.start())?;
    Ok(text)
}

/// Whether records list names.
fn have_names(alloc: Global, records: &[u8]) -> Result<bool, Fail> {
    let frames = module_frames(alloc, records)?;
    Ok(
        frames
            .iter()
            .any(|frame| frame.kind == 0x96 || frame.kind == 0xCA),
    )
}

/// The records of a row as a whole module, with names, segments, groups and externals before them, where they list no
/// names.
fn whole(alloc: Global, records: &[u8]) -> Result<Vec<u8>, Fail> {
    let mut bytes = Vec::new(alloc);
    put_record(&mut bytes, 0x80, b"\x01m")?;
    if !have_names(alloc, records)? {
        put_record(
            &mut bytes,
            0x96,
            b"\x01A\x01B\x01C\x01D\x01E\x01F\x01G\x01H",
        )?;
        for _ in 0..6 {
            put_record(&mut bytes, 0x98, &[0x2A, 0, 0, 2, 3, 1])?;
        }
        for _ in 0..3 {
            put_record(&mut bytes, 0x9A, &[4, 0xFF, 1])?;
        }
        put_record(&mut bytes, 0x8C, b"\x01x\x00\x01y\x00\x01z\x00\x01w\x00")?;
    }
    bytes.extend_from_slice(records)?;
    put_record(&mut bytes, 0x8A, b"\x00")?;
    Ok(bytes)
}

/// What is read of a module.
#[derive(Drop)]
enum Told {
    /// The module, or what of a record has no saying.
    Text(String),
    /// A check refuses a record.
    Check(String),
    /// A record isn't one of its type, or none that is linked.
    Other,
}

/// What becomes of the COMDAT records of a module that is linked alone; none where those of one name clash.
fn fates_of(alloc: Global, bytes: &[u8]) -> Result<Vec<ComdatFate>, Fail> {
    let records = comdat_records(alloc, &module_frames(alloc, bytes)?)?;
    let modules = vec![in alloc; records]?;
    match comdat_fates(alloc, Names::Exact, &modules) {
        Ok(mut fates) => Ok(fates.pop().unwrap_or(Vec::new(alloc))),
        Err(_) => Ok(Vec::new(alloc)),
    }
}

/// Whether a row's module has a record that isn't one of its type, or none that is linked.
pub fn is_other(alloc: Global, row: &Row<'_>) -> Result<bool, Fail> {
    let [module, ..] = row.inputs.as_slice() else {
        return Ok(false);
    };
    let told = given(alloc, module, false, &Renaming::none(Names::Exact))?;
    Ok(matches!(told, Told::Other))
}

/// What is read of a module as it is given.
fn given(
    alloc: Global,
    records: &[u8],
    keep_debug: bool,
    renaming: &Renaming<'_, '_>,
) -> Result<Told, Fail> {
    let bytes = whole(alloc, records)?;
    let fates = fates_of(alloc, &bytes)?;
    match read_plain(alloc, &bytes, keep_debug, renaming, &fates) {
        Ok(answer) => Ok(Told::Text(module_text(alloc, &answer.module)?)),
        Err(PlainModuleFault::Record { why, .. }) => match why {
            RecordObstacle::Obstacle(Obstacle::OtherType)
            | RecordObstacle::Body(_)
            | RecordObstacle::NoEnd
            | RecordObstacle::Framing(_) => Ok(Told::Other),
            RecordObstacle::Obstacle(obstacle) => {
                Ok(Told::Text(format!(in alloc; "{obstacle}")?))
            }
            RecordObstacle::Check(check) => Ok(Told::Check(format!(in alloc; "{check}")?)),
        },
        Err(PlainModuleFault::Memory) => Ok(Told::Other),
    }
}

/// What is read of a module of the fourteen.
fn plain(alloc: Global, records: &[u8]) -> Result<Told, Fail> {
    let bytes = whole(alloc, records)?;
    match read_module(alloc, &mut MemSource::over(&bytes, 65_536, None)) {
        Ok(module) => Ok(Told::Text(module_text(alloc, &module)?)),
        Err(
            ModuleFault::Record {
                kind: FaultKind::Check(check),
                ..
            },
        ) => Ok(Told::Check(format!(in alloc; "{check}")?)),
        Err(_) => Ok(Told::Other),
    }
}

/// Whether the module of a row, or what is in its way, is something that the row has: it is held against that then.
pub fn compare_modules<R: Abort>(
    rt: &R,
    alloc: Global,
    keep_debug: bool,
    renaming: &Renaming<'_, '_>,
    row: &Row<'_>,
) -> Result<bool, Fail> {
    let [module, ..] = row.inputs.as_slice() else {
        return Ok(false);
    };
    let told = given(alloc, module, keep_debug, renaming)?;
    if let Some((_, wanted)) = row.wanted.split_once(": ") {
        let Told::Text(told) = told else {
            return Ok(false);
        };
        assert_eq!(rt; told.as_str(), wanted);
        return Ok(true);
    }
    match (told, plain(alloc, row.inputs.last().unwrap_or(module))?) {
        (Told::Text(told) | Told::Check(told), Told::Text(wanted) | Told::Check(wanted)) => {
            assert_eq!(rt; told.as_str(), wanted.as_str());
            Ok(true)
        }
        _ => Ok(false),
    }
}
