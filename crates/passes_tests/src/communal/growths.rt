//! Each growth refused in turn.

use super::told::{Asked, told};
use refusing::refuse_each;
use rows::read_row;
use std::test::*;

const MODULES: &str = "\
B0 01 61 00 62 02 01 62 00 61 03 04
--
B0 01 63 00 62 05 01 61 00 62 03
90 00 01 01 63 00 00 00
= c_common.BSS 2 Public 3; FAR_BSS.FAR_BSS 16 Private 12; DGROUP 0; a 0:0 of 0; b 1:0; ";

#[test]
fn refused_growths(rt: HostRuntime) -> Result<(), Fail> {
    let alloc = rt.alloc();
    let row = read_row(alloc, MODULES)?;
    let asked = Asked::Module { in_bss: false };
    let (wants, made_do) = refuse_each(alloc, row.wanted, |heap| {
        Ok(told(heap, alloc, asked, &row.inputs)?)
    })?;
    assert!(rt; 20 < wants && wants < 250, "{wants}");
    assert_eq!(rt; made_do, 0u32);
    Ok(())
}
