//! Programs of modules whose far data is in a group.

use super::said::placed;
use omf_module::{Module, group_class};
use rows::{Row, read_modules, read_row, same};
use std::alloc::Global;
use std::test::*;

/// The modules of a row with the segments of the class FAR_DATA in the group AUTO.
fn grouped(alloc: Global, row: &Row<'_>) -> Result<Vec<Module>, Fail> {
    let mut all = Vec::new(alloc);
    for module in read_modules(alloc, &row.inputs)? {
        all.push(group_class(alloc, module, b"FAR_DATA", b"AUTO")?)?;
    }
    Ok(all)
}

/// The inputs of each row of a table, with far data in a group, give what is wanted of them.
fn run(alloc: Global, table: &str) -> Result<(), Fail> {
    for row in table.split("\n\n") {
        let row = read_row(alloc, row)?;
        let modules = grouped(alloc, &row)?;
        same(&placed(alloc, alloc, &modules)?, row.wanted)?;
    }
    Ok(())
}

/// The names are FAR_DATA, TBL, X and CODE.
#[test]
fn far_data(rt: HostRuntime) -> Result<(), Fail> {
    run(
        rt.alloc(),
        "\
# public parts of one name stand together
80 01 41
96 08 46 41 52 5F 44 41 54 41 03 54 42 4C 01 58 04 43 4F 44 45
98 28 02 00 02 01 01
A0 01 00 00 01 01
--
80 01 41
96 08 46 41 52 5F 44 41 54 41 03 54 42 4C 01 58 04 43 4F 44 45
98 28 02 00 03 01 01
A0 01 00 00 09 09
--
80 01 41
96 08 46 41 52 5F 44 41 54 41 03 54 42 4C 01 58 04 43 4F 44 45
98 28 02 00 02 01 01
A0 01 00 00 02 02
= 6 of 6 in 1: 01*2 02*2 09*2; 0000:0000 0000:0000

# a common segment has one place
80 01 41
96 08 46 41 52 5F 44 41 54 41 03 54 42 4C 01 58 04 43 4F 44 45
98 38 03 00 02 01 01
A0 01 00 00 01 01 01
--
80 01 41
96 08 46 41 52 5F 44 41 54 41 03 54 42 4C 01 58 04 43 4F 44 45
98 28 01 00 03 01 01
A0 01 00 00 09
--
80 01 41
96 08 46 41 52 5F 44 41 54 41 03 54 42 4C 01 58 04 43 4F 44 45
98 38 02 00 02 01 01
A0 01 00 00 02 02
= 4 of 4 in 1: 02*2 01 09; 0000:0000 0000:0000

# the frame of a member by a segment, of the target and of the location is the group's, and so is that of an external;
# that of another segment is its own
80 01 41
96 08 46 41 52 5F 44 41 54 41 03 54 42 4C 01 58 04 43 4F 44 45
98 68 10 00 04 04 01
98 68 02 00 02 01 01
98 68 04 00 03 01 01
8C 01 78 00
A0 01 00 00 00*16
9C C8 00 04 03 03 C4 02 04 02 03 C4 04 54 03 CC 06 54 03 C4 0A 56 01 C8 0C 56 01 C8 0E 04 01 01
A0 02 00 00 00 00
9C C4 00 44 03
--
80 01 41
96 08 46 41 52 5F 44 41 54 41 03 54 42 4C 01 58 04 43 4F 44 45
98 68 04 00 03 01 01
90 00 01 01 78 02 00 00
= 18 of 52 in 1: 01 00 10 00 10 00 10 00 01 00 22 00 01 00*3 10 00*35 @0 @8 @12 @14; 0000:0000 0000:0000

# a distance from the location is the same in any frame
80 01 41
96 08 46 41 52 5F 44 41 54 41 03 54 42 4C 01 58 04 43 4F 44 45
98 68 02 00 02 01 01
98 68 02 00 03 01 01
A0 01 00 00 00 00
9C 84 00 44 02
A0 02 00 00 00 00
9C 84 00 04 01 01
= 18 of 18 in 1: 0E 00*15 EE FF; 0000:0000 0000:0000

# a string in the segment of one unit is reached by the frame of that of another
80 01 41
96 08 46 41 52 5F 44 41 54 41 03 54 42 4C 01 58 04 43 4F 44 45
98 68 08 00 04 04 01
98 68 03 00 02 01 01
8C 01 73 00
A0 01 00 00 B8 00 00 8E D8 BA 00 00
9C C8 01 54 02 C4 06 56 01
--
80 01 41
96 08 46 41 52 5F 44 41 54 41 03 54 42 4C 01 58 04 43 4F 44 45
98 68 05 00 03 01 01
90 00 01 01 73 01 00 00
A0 01 00 00 04 54 65 78 74
= 37 of 37 in 1: B8 01 00 8E D8 BA 11 00*25 04 54 65 78 74 @1; 0000:0000 0000:0000

# a start
80 01 41
96 08 46 41 52 5F 44 41 54 41 03 54 42 4C 01 58 04 43 4F 44 45
98 68 02 00 02 01 01
98 68 02 00 03 01 01
A0 02 00 00 90 90
8A C1 00 02 02 00 00
= 18 of 18 in 1: 00*16 90*2; 0000:0010 0000:0000

# a stack has a frame of its own at the start
80 01 41
96 08 46 41 52 5F 44 41 54 41 03 54 42 4C 01 58 04 43 4F 44 45
98 68 02 00 02 01 01
98 74 10 00 03 01 01
= 0 of 32 in 0: 00*32; 0000:0000 0001:0010

# what stands outside of the class may be out of reach
80 01 41
96 08 46 41 52 5F 44 41 54 41 03 54 42 4C 01 58 04 43 4F 44 45
98 68 F0 FF 02 01 01
98 68 10 00 03 01 01
98 68 02 00 04 04 01
A0 03 00 00 00 00
9C C4 00 04 02 03
= a distance leaves its frame at record 69 of input 0",
    )
}
