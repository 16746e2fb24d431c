//! Modules whose segments of a class are put into a group.

use omf_frame::MemSource;
use omf_module::{DataRecord, Group, Module, PublicSymbol, group_class, read_module};
use omf_record::{FrameMethod, PublicBase, TargetMethod};
use rows::{module_of, push_text, same};
use std::alloc::{AllocError, Global};
use std::test::*;

fn push_group(told: &mut String, group: Group<'_>) -> Result<(), AllocError> {
    push_text(told, group.name)?;
    for member in group.members {
        write!(told, " {member}")?;
    }
    told.push_str("; ")
}

fn push_public(told: &mut String, public: PublicSymbol<'_>) -> Result<(), AllocError> {
    push_text(told, public.name)?;
    match public.base {
        PublicBase::InSegment { group, segment } => write!(told, " {group} {segment}; "),
        PublicBase::AtFrame { group, frame } => write!(told, " {group} at {frame}; "),
    }
}

/// Appends a method by its number and its index.
fn push_method(told: &mut String, letter: char, method: TargetMethod) -> Result<(), AllocError> {
    let (number, index) = match method {
        TargetMethod::Segment(index) => (0, index),
        TargetMethod::Group(index) => (1, index),
        TargetMethod::External(index) => (2, index),
    };
    write!(told, " {letter}{number} {index}")
}

/// Appends a frame and a target by the numbers of their methods.
fn push_reference(
    told: &mut String,
    frame: FrameMethod,
    target: TargetMethod,
) -> Result<(), AllocError> {
    match frame {
        FrameMethod::By(method) => push_method(told, 'F', method)?,
        FrameMethod::Location => told.push_str(" F4")?,
        FrameMethod::Target => told.push_str(" F5")?,
    }
    push_method(told, 'T', target)?;
    told.push(';')
}

fn push_fixups(told: &mut String, data: DataRecord<'_>) -> Result<(), AllocError> {
    write!(told, "in {}:", data.segment)?;
    for fixup in data.fixups {
        push_reference(told, fixup.frame, fixup.target)?;
    }
    told.push(' ')
}

/// The groups of a module with their members, its publics with group and segment, the fix-ups on its data, and its
/// start.
fn told_of(alloc: Global, module: &Module) -> Result<String, AllocError> {
    let mut told = String::new(alloc);
    for group in module.groups() {
        push_group(&mut told, group)?;
    }
    for public in module.publics() {
        push_public(&mut told, public)?;
    }
    for data in module.data_records() {
        push_fixups(&mut told, data)?;
    }
    if let Some(start) = module.start() {
        told.push_str("start")?;
        push_reference(&mut told, start.frame, start.target)?;
    }
    Ok(told)
}

/// What is told of an input's module with the segments of the class CODE in the group G.
fn outcome(alloc: Global, bytes: &[u8]) -> Result<String, Fail> {
    let module = read_module(alloc, &mut MemSource::over(bytes, 65_536, None))?;
    match group_class(alloc, module, b"CODE", b"G") {
        Ok(module) => Ok(told_of(alloc, &module)?),
        Err(fault) => Ok(format!(in alloc; "{fault}")?),
    }
}

/// Each row of a table is an input, and what is told of it. A line `= ` alone stands for nothing.
fn hold(alloc: Global, table: &str) -> Result<(), Fail> {
    for row in table.split("\n\n") {
        let (input, wanted) = row.split_once("\n= ").unwrap_or((row, "no outcome"));
        let bytes = module_of(alloc, input)?;
        same(outcome(alloc, &bytes)?.trim_end(), wanted)?;
    }
    Ok(())
}

#[test]
fn members(rt: HostRuntime) -> Result<(), Fail> {
    hold(
        rt.alloc(),
        "\
# segments of the class, of each kind
98 20 01 00 01 02 01
98 28 01 00 01 02 01
98 34 01 00 01 02 01
98 38 01 00 01 02 01
= G 0 1 2 3;

# not one of another class, and no absolute one
98 28 01 00 02 01 01
98 00 00 B8 00 00 01 01 02 01
98 28 01 00 02 02 01
= G 2;

# nor one that a group has, under whatever name, also behind one that has none
98 28 01 00 01 02 01
98 28 01 00 01 02 01
98 28 01 00 01 02 01
9A 02
9A 01 FF 01 FF 03
= CODE;  0 2; G 1;

# a part of a group stands behind one of its name
80 01 41
96 00 04 43 4F 44 45 01 47
98 28 01 00 01 02 01
98 28 01 00 01 01 01
9A 03 FF 02
= G 1; G 0;

# a class is told by all bytes of its name
80 01 41
96 00 03 43 4F 44 05 43 4F 44 45 53 04 63 6F 64 65
98 28 01 00 01 01 01
98 28 01 00 01 02 01
98 28 01 00 01 03 01
98 28 01 00 01 04 01
A0 01 00 00 00
90 00 01 01 78 00 00 00
= x 0 1; in 0:",
    )
}

#[test]
fn frames(rt: HostRuntime) -> Result<(), Fail> {
    hold(
        rt.alloc(),
        "\
# by a segment (F0), by the target (F5), by the location (F4)
98 28 04 00 01 02 01
98 28 04 00 01 01 01
8C 01 78 00
A0 02 00 00 00 00 00 00
9C C4 00 04 01 02 C4 00 04 02 01 C4 00 54 01 C4 00 54 02 C4 00 44 01
A0 01 00 00 00 00 00 00
9C C4 00 44 02 84 02 44 01
= G 0; in 1: F1 1 T0 2; F0 2 T0 1; F1 1 T0 1; F5 T0 2; F4 T0 1; in 0: F1 1 T0 2; F1 1 T0 1;

# an external has the frame of its public, and a group its own
98 28 04 00 01 02 01
98 28 04 00 01 01 01
9A 02 FF 02
8C 01 78 00
A0 02 00 00 00 00 00 00
9C C4 00 56 01 C4 00 26 01 01 C4 00 14 01 01 C4 00 55 01
= CODE 1; G 0; in 1: F5 T2 1; F2 1 T2 1; F1 1 T0 1; F5 T1 1;

# what a group has already stays as it is
98 28 04 00 01 02 01
98 28 04 00 01 02 01
9A 02 FF 01
A0 01 00 00 00 00 00 00
9C C4 00 04 01 01 C4 00 54 01 C4 00 44 01 C4 00 04 02 01
= CODE 0; G 1; in 0: F0 1 T0 1; F5 T0 1; F4 T0 1; F1 2 T0 1;

# a thread stands for what it was set to
98 28 04 00 01 02 01
A0 01 00 00 00 00 00 00
9C 40 01 C4 00 84 01
= G 0; in 0: F1 1 T0 1;

# a start
98 28 04 00 01 02 01
8A C1 00 01 01 00 00
= G 0; start F1 1 T0 1;

98 28 04 00 01 02 01
8A C1 50 01 00 00
= G 0; start F1 1 T0 1;

98 28 04 00 01 02 01
98 28 04 00 01 01 01
8A C1 00 02 01 00 00
= G 0; start F0 2 T0 1;",
    )
}

#[test]
fn publics(rt: HostRuntime) -> Result<(), Fail> {
    hold(
        rt.alloc(),
        "\
# one of a member is one of the group, but for one that is of a group already
98 28 04 00 01 02 01
98 28 04 00 01 01 01
9A 02 FF 02
90 00 01 01 61 00 00 00 01 62 02 00 00
90 00 02 01 63 00 00 00
90 01 01 01 64 00 00 00
90 00 00 34 12 01 65 00 00 00
B6 00 01 01 66 00 00 00
= CODE 1; G 0; a 2 1; b 2 1; c 0 2; d 1 1; e 0 at 4660; f 2 1;",
    )
}

#[test]
fn indexes(rt: HostRuntime) -> Result<(), Fail> {
    let alloc = rt.alloc();
    // none is left for a group, so the module stays as it is
    let taken = module_of(alloc, "98 28 01 00 01 02 01\n9A 01 x32767")?;
    let told = outcome(alloc, &taken)?;
    same(told.get(65_534..).unwrap_or("short"), "")?;
    // the last index is left
    let last = module_of(
        alloc,
        "98 28 01 00 01 02 01\n9A 01 x32766\n90 00 01 01 78 00 00 00",
    )?;
    let told = outcome(alloc, &last)?;
    same(told.get(65_532..).unwrap_or(""), "G 0; x 32767 1; ")?;
    // no segment joins, so none is wanted
    let none = module_of(
        alloc,
        "98 28 01 00 02 01 01\n9A 02 x32767\n90 00 01 01 78 00 00 00",
    )?;
    let told = outcome(alloc, &none)?;
    same(told.get(6 * 32_767..).unwrap_or(""), "x 0 1; ")
}

#[test]
fn segments_without_an_index(rt: HostRuntime) -> Result<(), Fail> {
    let alloc = rt.alloc();
    let many = module_of(
        alloc,
        "98 28 01 00 01 01 01 x32766\n98 28 01 00 01 02 01 x3",
    )?;
    same(&outcome(alloc, &many)?, "G 32766; ")
}
