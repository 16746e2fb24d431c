//! Members that are deleted, replaced and extracted by their names.

use omf_librarian::{ChangeFault, added, deleted, extracted, module_name, replaced};
use rows::{push_text, read_row, same};
use std::alloc::{AllocError, Global};
use std::test::*;

/// Modules of which two have one name, in folders and with extensions.
const MODULES: &str = "\
80 07 63 3A 5C 61 2E 62 63
--
80 03 42 2E 78
--
80 04 78 2F 41 2E
--
80 01 64";

/// Appends the names of modules, with their headers' lengths.
fn push_modules(text: &mut String, modules: &[&[u8]]) -> Result<(), AllocError> {
    for module in modules {
        text.push(' ')?;
        push_text(text, module_name(module))?;
        write!(text, "{}", module.len())?;
    }
    Ok(())
}

/// Appends what becomes of modules, or the fault.
fn push_changed(
    text: &mut String,
    changed: Result<Vec<&[u8]>, ChangeFault>,
) -> Result<(), AllocError> {
    match changed {
        Ok(modules) => push_modules(text, &modules),
        Err(fault) => write!(text, " {fault}"),
    }
}

/// What is told of changes of modules.
fn told(alloc: Global, members: &[&[u8]], name: &[u8]) -> Result<String, AllocError> {
    let mut text = format!(in alloc; "")?;
    push_changed(&mut text, deleted(alloc, members, name))?;
    text.push_str(" |")?;
    push_changed(
        &mut text,
        replaced(alloc, members, name, b"\x80\x02\x00\x00\x7E"),
    )?;
    text.push_str(" |")?;
    match extracted(members, name) {
        Some(module) => write!(text, " {}", module.len())?,
        None => text.push_str(" none")?,
    }
    Ok(text)
}

#[test]
fn changes_of_members(rt: HostRuntime) -> Result<(), Fail> {
    let row = read_row(rt.alloc(), MODULES)?;
    let mut members: Vec<&[u8]> = Vec::new(rt.alloc());
    for input in &row.inputs {
        members.push(input)?;
    }
    same(
        &told(rt.alloc(), &members, b"A")?,
        " B13 A14 d11 | 5 B13 A14 d11 | 17",
    )?;
    same(
        &told(rt.alloc(), &members, b"b")?,
        " a17 A14 d11 | a17 5 A14 d11 | 13",
    )?;
    same(
        &told(rt.alloc(), &members, b"b.x")?,
        " no member has the name | no member has the name | none",
    )?;
    let all = added(rt.alloc(), &members, &members)?;
    let mut text = format!(in rt.alloc(); "")?;
    push_modules(&mut text, &all)?;
    same(&text, " a17 B13 A14 d11 a17 B13 A14 d11")
}
