//! Variables behind as many segments as a module may have.

use super::told::told_behind;
use rows::{module_of, same};
use std::test::*;

/// The last index of a segment, one more than that, and none that is left.
#[test]
fn behind_all_segments(rt: HostRuntime) -> Result<(), Fail> {
    let alloc = rt.alloc();
    let own = module_of(alloc, "B8 01 61 00 62 01 01 62 00 61 01 01")?;
    let fits =
        "_BSS.BSS 2 Public 1; FAR_BSS.FAR_BSS 16 Private 1; DGROUP 0; a 0:0 of 0 local; b 1:0 local; ";
    same(&told_behind(alloc, 0, &own)?, fits)?;
    same(&told_behind(alloc, 32_765, &own)?, fits)?;
    same(&told_behind(alloc, 32_766, &own)?, "59 1")?;
    same(&told_behind(alloc, 32_767, &own)?, "59 0")?;
    same(&told_behind(alloc, u64::MAX, &own)?, "59 0")?;
    let none = module_of(alloc, "B4 01 61 00")?;
    same(&told_behind(alloc, u64::MAX, &none)?, "same")
}
