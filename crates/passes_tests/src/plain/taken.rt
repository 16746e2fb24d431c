//! Modules that `omf` doesn't read are read as they are given.

use omf_alias::Renaming;
use omf_place::Names;
use omf_plain::read_plain;
use rows::{module_of, read_modules};
use std::alloc::Global;
use std::process::Abort;
use std::test::*;

/// Whether a module is read as it is given.
fn is_taken(alloc: Global, module: &[u8]) -> bool {
    read_plain(alloc, module, false, &Renaming::none(Names::Exact), &[]).is_ok()
}

/// Whether a module is read as it is given, and isn't as one of the fourteen.
fn expect_read<R: Abort>(rt: &R, alloc: Global, lines: &str) -> Result<(), Fail> {
    let module = module_of(alloc, lines)?;
    assert!(rt; is_taken(alloc, &module));
    let inputs = vec![in alloc; module]?;
    assert!(rt; read_modules(alloc, &inputs).is_err());
    Ok(())
}

/// Segments that debuggers read, with their data and its fix-ups.
#[test]
fn kept_out(rt: HostRuntime) -> Result<(), Fail> {
    let lines = "\
80 01 41
96 00 04 43 4F 44 45 05 44 57 41 52 46
98 28 02 00 02 02 01
99 A1 10 00 00 00 01 03 01
A0 01 00 00 90 C3
A1 02 00 00 00 00 11 22 33 44
9D E4 00 54 01
A1 02 0C 00 00 00 11 22 33 44
9D 40 01 E4 00 54 01";
    expect_read(&rt, rt.alloc(), lines)
}

/// Externals and fix-ups of 32 bits.
#[test]
fn narrower(rt: HostRuntime) -> Result<(), Fail> {
    let lines = "\
82 01 42
99 A9 10 00 00 00 02 02 01
B0 01 61 00 62 02
BC 02 00
91 00 01 01 62 02 00 00 00 00
A3 01 00 00 00 00 02 00 00 00 00 00 04 AA BB 00 00
9D E4 07 56 02
95 00 01 05 00 10 00 00 00
8B C1 50 01 02 00 00 00";
    expect_read(&rt, rt.alloc(), lines)
}
