//! The rows of modules that are read whole, and where reading them ends.

use omf_frame::MemSource;
use omf_module::{FaultKind, Module, ModuleFault, read_module};
use rows::{bytes_of, module_of, same};
use std::alloc::{AllocError, Global};
use std::test::*;

/// How far the input is read, or the number under which its fault is reported and the place, in pieces of so many bytes
/// and with a failing call, if any.
fn outcome(
    alloc: Global,
    bytes: &[u8],
    piece: usize,
    fail_at: Option<u64>,
) -> Result<String, AllocError> {
    let mut source = MemSource::over(bytes, piece.max(1), fail_at);
    match read_module(alloc, &mut source) {
        Ok(_) => {
            format!(in alloc;
                "read to {}",
                bytes.len().saturating_sub(source.rest().len())
            )
        }
        Err(ModuleFault::Memory) => format!(in alloc; "memory"),
        Err(ModuleFault::Record { place, kind }) => {
            format!(in alloc; "{} at {place}", number(kind))
        }
    }
}

fn number(kind: FaultKind) -> u8 {
    match kind {
        FaultKind::Device => 1,
        FaultKind::Absent(fault) => fault.label().0,
        FaultKind::Check(fault) => fault.label().0,
    }
}

/// The input has this outcome, in pieces of 1, 2 and 3 bytes and whole.
fn has_outcome(alloc: Global, bytes: &[u8], wanted: &str) -> Result<(), Fail> {
    for piece in [1, 2, 3, 65536] {
        same(&outcome(alloc, bytes, piece, None)?, wanted)?;
    }
    Ok(())
}

/// Each row of a table is an input and its outcome.
fn hold(alloc: Global, table: &str) -> Result<(), Fail> {
    for row in table.split("\n\n") {
        let (input, wanted) = row.split_once("\n= ").unwrap_or((row, "no outcome"));
        let bytes = module_of(alloc, input)?;
        has_outcome(alloc, &bytes, wanted)?;
    }
    Ok(())
}

#[test]
fn checks(rt: HostRuntime) -> Result<(), Fail> {
    let rows = "\
80 01 41
96 00 04 43 4F 44 45
98 28 01 00 02 01 01
80 01 42
= read to 37

98 28 01 00 02 01 01
98 28 01 00 03 01 01
= 10 at 26

98 28 02 00 02 01 01
9A 03 FF 01
= 10 at 26

98 28 02 00 02 01 01
9A 02 FF 02
= 11 at 26

98 28 02 00 02 01 01
90 01 01 01 78 00 00 00
= 12 at 26

98 28 02 00 02 01 01
A0 01 00 00 00 00
9C C4 00 56 01
= 13 at 35

98 28 02 00 02 01 01
A0 01 00 00 00 00
9C C4 00 8C
= 14 at 35

98 28 01 00 02 01 01
9C C4 00 04 01 01
= 15 at 26

98 28 02 00 02 01 01
A0 01 00 00 00 00
9C C4 01 04 01 01
= 16 at 35

98 28 02 00 02 01 01
A0 01 01 00 00 00
= 17 at 26

98 28 02 00 02 01 01
98 00 00 B8 00 00 40 01 01 01
A0 02 00 00 00
= 18 at 39

98 28 02 00 02 01 01
A0 01 00 00 00 00
9C 88 00 04 01 01
= 19 at 35

98 28 02 00 02 01 01
98 00 00 B8 00 00 40 01 01 01
9A 02 FF 02
= 21 at 39

98 28 02 00 02 01 01
9C 00 09
A0 01 00 00 00 00
= read to 46

# of one item the smallest number, and of two items the first
98 28 02 00 02 01 01
A0 01 00 00 00 00
9C 88 00 8C
= 14 at 35

98 28 02 00 02 01 01
A0 01 00 00 00 00
9C 88 00 04 01 01 C4 00 04 02 01
= 19 at 35

# a thread holds over records, and its index is checked where it is used
98 28 02 00 02 01 01
A0 01 00 00 00 00
9C 40 01 00 01
9C C4 00 8C
= read to 55

98 28 02 00 02 01 01
A0 01 00 00 00 00
9C 00 09 C4 00 5C
= 11 at 35

# comments, lines and publics that are absolute
98 28 02 00 02 01 01
88 00 00 01
94 00 09 01 00 00 00
90 00 00 00 00 01 78 00 00 00
= read to 61

98 28 02 00 02 01 01
8C 01 78 00
9C C4 00 56 01
= 15 at 33";
    hold(rt.alloc(), rows)
}

#[test]
fn framing(rt: HostRuntime) -> Result<(), Fail> {
    let rows = "\
raw
= 8 at 0

raw 80 03
= 3 at 0

raw 80 03 00 01 41 3B
= 8 at 6

raw 80 03 00 01 41 3C
= 4 at 0

raw 80 00 00
= 2 at 0

raw 70 02 00 00 8E
= 5 at 0

raw 96 02 00 00 00
= 7 at 0

raw 80 03 00 01 41 00 8A 02 00 00 74 FF
= read to 11";
    hold(rt.alloc(), rows)
}

/// The only segment of a module, its only data record and its start.
fn only_items(alloc: Global, module: &Module) -> Result<String, AllocError> {
    if module.segment_count() != 1 || module.data_record_count() != 1 {
        return Ok(String::new(alloc));
    }
    let (segment, data_record) = (module.segment(0), module.data_record(0));
    format!(in alloc; "{segment:?}\n{data_record:?}\n{:?}", module.start())
}

#[test]
fn first_program(rt: HostRuntime) -> Result<(), Fail> {
    let bytes = bytes_of(
        rt.alloc(),
        "\
80 03 00 01 41 3B 96 07 00 00 04 43 4F 44 45 44 98 07 00 28 05 00 02 01 01 30 A0 09 00 01 00 00 B8 00 00 8E D8 38 \
9C 06 00 C8 01 04 01 01 8F 8A 07 00 C1 00 01 01 00 00 AC",
    )?;
    has_outcome(rt.alloc(), &bytes, "read to 57")?;
    same(&outcome(rt.alloc(), &bytes, 1, Some(30))?, "1 at 26")?;
    same(
        &described(rt.alloc(), &bytes, true)?,
        "\
Segment { name: [67, 79, 68, 69], class: [], length: 5, standing: Relocatable { alignment: 1, kind: Public } }
DataRecord { place: 26, segment: 0, offset: 0, bytes: [184, 0, 0, 142, 216], places: [0, 1, 2, 3, 4], fixups: \
[ResolvedFixup { place: 38, self_relative: false, location: Base, offset: 1, frame: By(Segment(1)), \
target: Segment(1), displacement: 0 }] }
Some(Start { place: 47, frame: By(Segment(1)), target: Segment(1), displacement: 0 })",
    )
}

#[test]
fn repeated(rt: HostRuntime) -> Result<(), Fail> {
    let rows = "\
98 28 0C 00 02 01 01
A2 01 00 00 FF FF 01 00 FF FF 01 00 FF FF 00 00 01 41
= 17 at 26

98 28 06 00 02 01 01
A2 01 00 00 03 00 00 00 02 00 00
9C C8 04 04 01 01
= 16 at 40

98 28 06 00 02 01 01
A2 01 00 00 03 00 00 00 02 00 00
9C C8 05 04 01 01
= read to 54

# sixteen levels of the greatest repeat counts
98 28 0C 00 02 01 01
A2 01 00 00 FF FF 01 00 FF FF 01 00 FF FF 01 00 FF FF 01 00 FF FF 01 00 FF FF 01 00 FF FF 01 00 FF FF 01 00 \
FF FF 01 00 FF FF 01 00 FF FF 01 00 FF FF 01 00 FF FF 01 00 FF FF 01 00 FF FF 01 00 FF FF 00 00 01 41
= 17 at 26

# a great repeat count of an empty content takes no turn for each copy
98 28 01 00 02 01 01
A2 01 00 00 01 00 02 00 01 00 00 00 01 41 FF FF 01 00 FF FF 01 00 FF FF 00 00 00
= read to 61";
    hold(rt.alloc(), rows)?;
    let great = module_of(
        rt.alloc(),
        "\
98 28 01 00 02 01 01
A2 01 00 00 01 00 02 00 01 00 00 00 01 41 FF FF 01 00 FF FF 01 00 FF FF 00 00 00",
    )?;
    same(
        &described(rt.alloc(), &great, true)?,
        "\
Segment { name: [67, 79, 68, 69], class: [], length: 1, standing: Relocatable { alignment: 1, kind: Public } }
DataRecord { place: 26, segment: 0, offset: 0, bytes: [65], places: [9], fixups: [] }
None",
    )
}

#[test]
fn start_at_its_location(rt: HostRuntime) -> Result<(), Fail> {
    let rows = "\
80 01 41
96 00
98 28 05 00 01 01 01
8A C1 44 01
= 20 at 21";
    hold(rt.alloc(), rows)
}

fn push_segments(told: &mut String, module: &Module) -> Result<(), AllocError> {
    for segment in module.segments() {
        write!(told, "{segment:?}\n")?;
    }
    Ok(())
}

fn push_groups(told: &mut String, module: &Module) -> Result<(), AllocError> {
    for group in module.groups() {
        write!(told, "{group:?}\n")?;
    }
    Ok(())
}

fn push_externals(told: &mut String, module: &Module) -> Result<(), AllocError> {
    for external in module.externals() {
        write!(told, "{external:?}\n")?;
    }
    Ok(())
}

fn push_publics(told: &mut String, module: &Module) -> Result<(), AllocError> {
    for public in module.publics() {
        write!(told, "{public:?}\n")?;
    }
    Ok(())
}

fn push_data_records(told: &mut String, module: &Module) -> Result<(), AllocError> {
    for data_record in module.data_records() {
        write!(told, "{data_record:?}\n")?;
    }
    Ok(())
}

/// Each list of a module by its iterator.
fn lists(alloc: Global, module: &Module) -> Result<String, AllocError> {
    let mut told = String::new(alloc);
    push_segments(&mut told, module)?;
    push_groups(&mut told, module)?;
    push_externals(&mut told, module)?;
    push_publics(&mut told, module)?;
    push_data_records(&mut told, module)?;
    Ok(told)
}

/// What is told of the module of an input: its lists, or its only items.
fn described(alloc: Global, bytes: &[u8], only: bool) -> Result<String, Fail> {
    let module = read_module(alloc, &mut MemSource::over(bytes, 5, None))?;
    Ok(match only {
        true => only_items(alloc, &module),
        false => lists(alloc, &module),
    }?)
}

#[test]
fn lists_are_handed_out_in_order(rt: HostRuntime) -> Result<(), Fail> {
    let bytes = module_of(
        rt.alloc(),
        "\
98 28 02 00 02 01 01
98 28 07 00 01 01 01
9A 02 FF 01
9A 01 FF 02 FF 01
8C 01 78 00 02 79 7A 00
90 00 01 01 61 01 00 00 01 62 02 00 00
A0 02 03 00 05
A0 01 00 00 06",
    )?;
    same(
        &described(rt.alloc(), &bytes, false)?,
        "\
Segment { name: [67, 79, 68, 69], class: [], length: 2, standing: Relocatable { alignment: 1, kind: Public } }
Segment { name: [], class: [], length: 7, standing: Relocatable { alignment: 1, kind: Public } }
Group { name: [67, 79, 68, 69], members: [0] }
Group { name: [], members: [1, 0] }
ExternalSymbol { name: [120], local: false }
ExternalSymbol { name: [121, 122], local: false }
PublicSymbol { name: [97], base: InSegment { group: 0, segment: 1 }, offset: 1, local: false }
PublicSymbol { name: [98], base: InSegment { group: 0, segment: 1 }, offset: 2, local: false }
DataRecord { place: 79, segment: 1, offset: 3, bytes: [5], places: [0], fixups: [] }
DataRecord { place: 87, segment: 0, offset: 0, bytes: [6], places: [0], fixups: [] }
",
    )
}
