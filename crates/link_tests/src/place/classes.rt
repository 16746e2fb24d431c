//! Whether a class stands in one frame.

use omf_place::class_fits;
use rows::{read_modules, read_row, same};
use std::alloc::Global;
use std::test::*;

/// The class CODE of the inputs of each row of a table stands in one frame, or it doesn't.
fn run(alloc: Global, table: &str) -> Result<(), Fail> {
    for row in table.split("\n\n") {
        let row = read_row(alloc, row)?;
        let modules = read_modules(alloc, &row.inputs)?;
        let fits = class_fits(alloc, &modules, b"CODE")?;
        same(if fits { "fits" } else { "too long" }, row.wanted)?;
    }
    Ok(())
}

#[test]
fn frames(rt: HostRuntime) -> Result<(), Fail> {
    run(
        rt.alloc(),
        "\
98 62 00 00 01 02 01
= fits

98 60 F0 FF 01 02 01
--
98 60 10 00 01 02 01
= fits

98 60 F0 FF 01 02 01
--
98 60 11 00 01 02 01
= too long

# public parts follow each other, and so do those of a stack; common ones lie over each other
98 68 00 80 01 02 01
--
98 68 00 80 01 02 01
= fits

98 74 00 C0 01 02 01
98 74 00 C0 01 02 01
= too long

98 78 00 C0 01 02 01
98 78 00 C0 01 02 01
98 60 00 40 01 02 01
= fits

98 78 00 C0 01 02 01
98 78 00 C0 01 02 01
98 60 01 40 01 02 01
= too long

# a gap before a page counts
98 60 01 00 01 02 01
98 80 00 FF 01 02 01
= fits

98 60 01 00 01 02 01
98 80 01 FF 01 02 01
= too long

# and so does what stands in the first paragraph before the class
98 20 07 00 01 01 01
98 20 F9 FF 01 02 01
= fits

98 20 07 00 01 01 01
98 20 FA FF 01 02 01
= too long

# neither other classes nor absolute segments count
98 62 00 00 01 02 01
98 62 00 00 01 01 01
98 02 00 B8 00 00 00 01 02 01
= fits

# what stands apart in the modules stands together in the program
98 60 10 00 01 02 01
98 62 00 00 01 01 01
98 60 10 00 01 02 01
= fits

98 62 00 00 01 01 01
= fits",
    )
}
