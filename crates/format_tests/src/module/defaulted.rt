//! Modules whose externals mean others of them.

use super::told::push_reference;
use omf_frame::MemSource;
use omf_module::{Module, are_externals, read_module, redirect_externals};
use rows::{module_of, same};
use std::alloc::{AllocError, Global};
use std::test::*;

/// The fix-ups on the data of a module, and its start.
fn told_of(alloc: Global, module: &Module) -> Result<String, AllocError> {
    let mut told = String::new(alloc);
    for data in module.data_records() {
        for fixup in data.fixups {
            push_reference(&mut told, fixup.frame, fixup.target)?;
        }
        told.push_str(" .")?;
    }
    if let Some(start) = module.start() {
        push_reference(&mut told, start.frame, start.target)?;
    }
    Ok(told)
}

/// What is told of an input's module, where these are the indexes of what its externals mean.
fn outcome(alloc: Global, meanings: &[u16], bytes: &[u8]) -> Result<String, Fail> {
    let module = read_module(alloc, &mut MemSource::over(bytes, 65_536, None))?;
    if !are_externals(&module, meanings) {
        return Ok(format!(in alloc; " no external")?);
    }
    Ok(told_of(alloc, &redirect_externals(module, meanings))?)
}

/// Each row of a table is an input, and what is told of it with these meanings.
fn hold(alloc: Global, meanings: &[u16], table: &str) -> Result<(), Fail> {
    for row in table.split("\n\n") {
        let (input, wanted) = row.split_once("\n=").unwrap_or((row, "no outcome"));
        let bytes = module_of(alloc, input)?;
        same(&outcome(alloc, meanings, &bytes)?, wanted)?;
    }
    Ok(())
}

#[test]
fn references(rt: HostRuntime) -> Result<(), Fail> {
    hold(
        rt.alloc(),
        &[3],
        "\
# targets (T2) and frames (F2), on all data; the third external is local
98 28 02 00 02 01 01
9A 02 FF 01
8C 01 78 00 01 79 00
B4 01 7A 00
A0 01 00 00 00 00
9C C4 00 26 01 01 C4 00 56 01 C4 00 46 01 C4 00 06 01 01 C4 00 24 01 01
A0 01 00 00 00 00
9C C4 00 26 01 02 C4 00 26 03 01
= F2 3 T2 3; F5 T2 3; F4 T2 3; F0 1 T2 3; F2 3 T0 1; . F2 3 T2 2; F2 3 T2 3; .

# segments and groups with the same index stay
98 28 02 00 02 01 01
9A 02 FF 01
8C 01 78 00 01 79 00 01 7A 00
A0 01 00 00 00 00
9C C4 00 04 01 01 C4 00 15 01 01
= F0 1 T0 1; F1 1 T1 1; .

# threads
98 28 02 00 02 01 01
8C 01 78 00 01 79 00 01 7A 00
A0 01 00 00 00 00
9C 48 01 08 01 C4 00 8C
= F2 3 T2 3; .

# a start
8C 01 78 00 01 79 00 01 7A 00
8A C1 22 01 01 00 00
= F2 3 T2 3;

8C 01 78 00 01 79 00 01 7A 00
8A C1 52 01 00 00
= F5 T2 3;

# an index of none
8C 01 78 00 01 79 00
= no external",
    )
}

#[test]
fn meanings(rt: HostRuntime) -> Result<(), Fail> {
    let alloc = rt.alloc();
    let module = "\
98 28 02 00 02 01 01
8C 01 78 00 01 79 00 01 7A 00
A0 01 00 00 00 00
9C C4 00 56 01 C4 00 56 02 C4 00 56 03";
    let bytes = module_of(alloc, module)?;
    // none is told
    same(
        &outcome(alloc, &[], &bytes)?,
        " F5 T2 1; F5 T2 2; F5 T2 3; .",
    )?;
    // what one means isn't looked up again
    same(
        &outcome(alloc, &[2, 3, 1], &bytes)?,
        " F5 T2 2; F5 T2 3; F5 T2 1; .",
    )?;
    // more are told than there are
    same(
        &outcome(alloc, &[1, 2, 1, 1], &bytes)?,
        " F5 T2 1; F5 T2 2; F5 T2 1; .",
    )?;
    same(&outcome(alloc, &[1, 0], &bytes)?, " no external")
}
