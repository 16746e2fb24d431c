//! Each growth refused in turn.

use super::modules::module_text;
use omf_alias::Renaming;
use omf_place::Names;
use omf_plain::read_plain;
use refusing::refuse_each;
use rows::module_of;
use std::alloc::{Allocator, Global};
use std::test::*;

/// What is read of a module, in memory of its own.
fn told<A: Allocator + Copy>(own: A, alloc: Global, module: &[u8]) -> Result<String, Fail> {
    match read_plain(own, module, false, &Renaming::none(Names::Exact), &[]) {
        Ok(answer) => Ok(module_text(alloc, &answer.module)?),
        Err(fault) => Ok(format!(in alloc; "{fault}")?),
    }
}

/// Where a growth is refused the answer is want of memory, and where none is, the module.
#[test]
fn refused_growths(rt: HostRuntime) -> Result<(), Fail> {
    let alloc = rt.alloc();
    let lines = "\
96 05 44 57 41 52 46
99 A9 10 00 00 00 02 02 01
98 28 02 00 03 01 01
B0 01 61 00 62 02
BC 02 00
91 00 01 01 62 02 00 00 00 00
A3 01 00 00 00 00 02 00 00 00 00 00 04 AA BB 00 00
9D E4 07 56 02
A0 02 00 00 11
9C 40 01
8B C1 50 01 02 00 00 00";
    let module = module_of(alloc, lines)?;
    let wanted = told(alloc, alloc, &module)?;
    let (wants, made_do) = refuse_each(alloc, wanted.as_str(), |heap| told(heap, alloc, &module))?;
    assert!(rt; 20 < wants && wants < 250, "{wants}");
    assert_eq!(rt; made_do, 0u32);
    Ok(())
}
