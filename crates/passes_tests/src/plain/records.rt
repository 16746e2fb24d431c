//! What the records of modules say as the fourteen have them.

use omf_alias::Renaming;
use omf_extended::ExtendedFault;
use omf_library::module_frames;
use omf_plain::{GivenFault, Obstacle, Pass, PlainFault, read_given};
use omf_record::{Record, parse_record};
use omf_wide::WideFault;
use rows::Row;
use std::alloc::Global;
use std::process::Abort;
use std::test::*;

/// Why a frame holds no record that is taken, in the words of what is in the way of one.
fn obstacle_of(fault: GivenFault) -> Obstacle {
    match fault {
        GivenFault::Later(ExtendedFault::OtherType) => Obstacle::OtherType,
        GivenFault::Wide(WideFault::Above16Bits { .. })
        | GivenFault::Data(WideFault::Above16Bits { .. }) => Obstacle::Above16Bits,
        _ => Obstacle::Body,
    }
}

/// The records of a module as they are taken, a line each, or what is in the way.
fn taken_of<'a>(
    alloc: Global,
    module: &'a [u8],
    keep_debug: bool,
    renaming: &Renaming<'a, 'a>,
) -> Result<String, Fail> {
    let mut text = String::new(alloc);
    let mut pass = Pass::new(alloc, keep_debug, renaming, &[]);
    for (number, frame) in module_frames(alloc, module)?.iter().enumerate() {
        let taken = match read_given(alloc, frame) {
            Ok(given) => pass.take(given),
            Err(fault) => Err(PlainFault::Of(obstacle_of(fault))),
        };
        match taken {
            Ok(None) => {}
            Ok(Some(record)) => writeln!(text, "{record:?}")?,
            Err(fault) => return Ok(format!(in alloc; "record {number}: {fault}")?),
        }
    }
    Ok(text)
}

/// The records of a module of the fourteen, a line each, but for the comments that say nothing. None where one isn't one
/// of these.
fn records_of(alloc: Global, module: &[u8]) -> Result<Option<String>, Fail> {
    let mut text = String::new(alloc);
    for frame in module_frames(alloc, module)?.iter() {
        match parse_record(alloc, frame) {
            Ok(
                Record::Coment {
                    kind: 0,
                    class: 0xDA,
                    bytes: [],
                },
            ) => {}
            Ok(record) => writeln!(text, "{record:?}")?,
            Err(_) => return Ok(None),
        }
    }
    Ok(Some(text))
}

/// Whether a row has what the records of its module say, or what is in their way: they are held against it then.
pub fn compare_records<R: Abort>(
    rt: &R,
    alloc: Global,
    keep_debug: bool,
    renaming: &Renaming<'_, '_>,
    row: &Row<'_>,
) -> Result<bool, Fail> {
    let [module, ..] = row.inputs.as_slice() else {
        return Ok(false);
    };
    let wanted = if row.wanted.is_empty() {
        records_of(alloc, row.inputs.last().unwrap_or(module))?
    } else {
        Some(format!(in alloc; "{}", row.wanted)?)
    };
    let Some(wanted) = wanted else {
        return Ok(false);
    };
    let taken = taken_of(alloc, module, keep_debug, renaming)?;
    assert_eq!(rt; taken.as_str(), wanted.as_str());
    Ok(true)
}
