//! Modules whose far data is in a group, placed.

use super::laid::placed;
use omf_module::{Module, group_class};
use omf_place::Names;
use rows::{Row, read_modules, read_row, same};
use std::alloc::Global;
use std::test::*;

/// The modules of a row with the segments of the class FAR_DATA in the group AUTO.
fn grouped(alloc: Global, row: &Row<'_>) -> Result<Vec<Module>, Fail> {
    let mut all = Vec::new(alloc);
    for module in read_modules(alloc, &row.inputs)? {
        all.push(group_class(alloc, module, b"FAR_DATA", b"AUTO")?)?;
    }
    Ok(all)
}

/// The inputs of each row of a table, with far data in a group, give what is wanted of them.
fn run(alloc: Global, table: &str) -> Result<(), Fail> {
    for row in table.split("\n\n") {
        let row = read_row(alloc, row)?;
        let modules = grouped(alloc, &row)?;
        same(&placed(alloc, alloc, Names::Exact, &modules)?, row.wanted)?;
    }
    Ok(())
}

/// The names are FAR_DATA, TBL, X and BLK.
#[test]
fn far_data(rt: HostRuntime) -> Result<(), Fail> {
    run(
        rt.alloc(),
        "\
# public parts of one name stand together, with one frame for all, and a public has that one
80 01 41
96 08 46 41 52 5F 44 41 54 41 03 54 42 4C 01 58 03 42 4C 4B
98 68 02 00 02 01 01
--
80 01 41
96 08 46 41 52 5F 44 41 54 41 03 54 42 4C 01 58 03 42 4C 4B
98 68 02 00 03 01 01
90 00 01 01 78 01 00 00
--
80 01 41
96 08 46 41 52 5F 44 41 54 41 03 54 42 4C 01 58 03 42 4C 4B
98 68 02 00 02 01 01
= size 34: 0/0 | 0 32/2 | 0 16/0 | 0; 0-18 0.0 32-34 1.0; 0 0.0; x 33/0

# the frame is the paragraph of the first of them
80 01 41
96 08 46 41 52 5F 44 41 54 41 03 54 42 4C 01 58 03 42 4C 4B
98 28 25 00 02 02 01
98 48 02 00 03 01 01
98 60 04 00 02 01 01
= size 52: 0/0 38/2 48/3 | 2; 0-37 0.0 38-40 0.1 48-52 0.2; 2 0.0

# a common segment has one place
80 01 41
96 08 46 41 52 5F 44 41 54 41 03 54 42 4C 01 58 03 42 4C 4B
98 78 04 00 04 01 01
98 68 02 00 02 01 01
--
80 01 41
96 08 46 41 52 5F 44 41 54 41 03 54 42 4C 01 58 03 42 4C 4B
98 78 06 00 04 01 01
90 00 01 01 78 03 00 00
= size 18: 0/0 16/1 | 0 0/0 | 0; 0-6 0.0 16-18 0.1; 0 0.0; x 3/0

# the parts of a stack follow each other
80 01 41
96 08 46 41 52 5F 44 41 54 41 03 54 42 4C 01 58 03 42 4C 4B
98 68 02 00 02 01 01
98 74 10 00 03 01 01
--
80 01 41
96 08 46 41 52 5F 44 41 54 41 03 54 42 4C 01 58 03 42 4C 4B
98 74 20 00 03 01 01
= size 64: 0/0 16/1 | 0 32/1 | 0; 0-2 0.0 16-64 0.1; 0 0.0

# other classes stand behind it
80 01 41
96 08 46 41 52 5F 44 41 54 41 03 54 42 4C 01 58 03 42 4C 4B
98 68 02 00 02 01 01
98 28 05 00 03 02 01
--
80 01 41
96 08 46 41 52 5F 44 41 54 41 03 54 42 4C 01 58 03 42 4C 4B
98 68 02 00 03 01 01
= size 23: 0/0 18/1 | 0 16/1 | 0; 0-2 0.0 16-18 1.0 18-23 0.1; 0 0.0

# what another module has in a group of its own combines as ever, and keeps that group there
80 01 41
96 08 46 41 52 5F 44 41 54 41 03 54 42 4C 01 58 03 42 4C 4B
98 68 02 00 02 01 01
98 68 02 00 03 01 01
--
80 01 41
96 08 46 41 52 5F 44 41 54 41 03 54 42 4C 01 58 03 42 4C 4B
98 68 02 00 03 01 01
9A 04 FF 01
90 01 01 01 78 00 00 00
= size 34: 0/0 16/1 | 0 32/1 | 1; 0-2 0.0 16-34 0.1; 0 0.0 1 1.0; x 32/1

# 65,536 bytes
80 01 41
96 08 46 41 52 5F 44 41 54 41 03 54 42 4C 01 58 03 42 4C 4B
98 68 F0 FF 02 01 01
98 68 10 00 03 01 01
= size 65536: 0/0 65520/4095 | 0; 0-65520 0.0 65520-65536 0.1; 0 0.0

80 01 41
96 08 46 41 52 5F 44 41 54 41 03 54 42 4C 01 58 03 42 4C 4B
98 68 F0 FF 02 01 01
98 68 11 00 03 01 01
= 24 GroupTooLong AUTO",
    )
}
