//! Names and externals.

use super::tables::run;
use std::test::*;

/// Other records of names and of externals become those of the same names at the same place.
#[test]
fn names(rt: HostRuntime) -> Result<(), Fail> {
    run(
        &rt,
        rt.alloc(),
        "\
# LHEADR, and LLNAMES, whose name has an index
80 01 41
82 01 42
CA 04 43 4F 44 45
98 28 02 00 01 01 01
--
80 01 41
80 01 42
96 04 43 4F 44 45
98 28 02 00 01 01 01

# COMDEF and LCOMDEF between externals: near and far, with lengths of one to five bytes
8C 01 78 00
B0 01 61 00 62 02 01 62 80 05 61 81 00 01 88 01 00 00 00 01 63 00 62 84 00 00 01
B8 01 64 00 61 80 00
8C 01 79 00
--
8C 01 78 00
8C 01 61 00 01 62 80 05 01 63 00
B4 01 64 00
8C 01 79 00

# LEXTDEF of either type
B5 01 61 00 01 62 80 05
B4 01 63 00
--
B4 01 61 00 01 62 80 05
B4 01 63 00

# CEXTDEF by the names so far, one by an index of two bytes
BC 02 00 80 01 80 05
--
8C 04 43 4F 44 45 00 00 80 05",
    )
}

/// What isn't taken is told at its record.
#[test]
fn faults(rt: HostRuntime) -> Result<(), Fail> {
    run(
        &rt,
        rt.alloc(),
        "\
# the data type of a virtual segment, behind one that is near
B0 01 61 00 62 02 01 62 00 05 01
= record 2: a communal variable's data type is neither far nor near

# cut off
88 00 00
B0 01 61 00 62
= record 3: its body isn't one of its type

B0 01 61 00 61 01
= record 2: its body isn't one of its type

B0 01 61 00
= record 2: its body isn't one of its type

# a length that begins with none of its bytes
B0 01 61 00 62 82 00 00 00 00
= record 2: its body isn't one of its type

BC 02
= record 2: its body isn't one of its type

# aliases
C6 01 61 02 62
= record 2: its body isn't one of its type

C6 01 61 01 62 01 63
= record 2: its body isn't one of its type

# no such name
BC 03 00
= record 2: its body isn't one of its type

BC 00 00
= record 2: its body isn't one of its type",
    )
}

/// Comments that say what can't be done, and those that don't.
#[test]
fn comments(rt: HostRuntime) -> Result<(), Fail> {
    run(
        &rt,
        rt.alloc(),
        "\
88 80 AA 38 30 33 38 36
= record 2: the module is Easy OMF

88 00 AA
= record 2: the module is Easy OMF

88 00 A0 01 01 01 66 03 4C 49 42 00
= record 2: a name is imported from a dynamic library

88 00 A0 01
= record 2: a name is imported from a dynamic library

# what comes first in the order of records is told
88 00 00 41
C6 01 61 02 62
88 00 AA
= record 3: its body isn't one of its type

# other classes and other subtypes; what stands behind the end
88 00 A0 02 00
88 00 A0
88 AA 00 AA
88 A0 00 01
8A 00
88 80 AA 38 30 33 38 36

# no class, and no type
88 AA
= record 2: its body isn't one of its type

88
= record 2: its body isn't one of its type",
    )
}

/// What counts from the group FLAT.
#[test]
fn flat(rt: HostRuntime) -> Result<(), Fail> {
    run(
        &rt,
        rt.alloc(),
        "\
# the group alone, and others and segments of its index
80 01 41
96 00 04 46 4C 41 54 04 43 4F 44 45 03 46 4C 41
98 28 04 00 03 03 01
9A 02
9A 03 FF 01
9A 04 FF 01
A0 01 00 00 00 00 00 00
9C 40 01 45 02 00 01 05 02 05 03
9C C4 00 54 01 C4 02 04 01 01 C4 00 14 02 01 C4 00 15 03 02
8A C1 50 01 00 00

# its index by the names so far
80 01 41
96 00 04 43 4F 44 45
9A 03
96 04 46 4C 41 54
98 28 04 00 02 02 01
A0 01 00 00 00 00
9C C4 00 14 01 01

# as a frame
80 01 41
96 00 04 46 4C 41 54 04 43 4F 44 45
98 28 04 00 03 03 01
9A 03 FF 01
9A 02 FF 01
A0 01 00 00 00 00 00 00
9C C4 02 54 01 C4 00 14 02 01
= record 6: an address counts from the group FLAT

80 01 41
96 00 04 46 4C 41 54
9A 80 02
A1 01 00*8
9D E4 00 10 80 01 01 00*4
= record 4: an address counts from the group FLAT

# as a target, behind a frame with an index and without one
80 01 41
96 00 04 46 4C 41 54
9A 02
9C C4 00 05 01 01
= record 3: an address counts from the group FLAT

80 01 41
96 00 04 46 4C 41 54
9A 02
9C C4 00 51 01 00 00
= record 3: an address counts from the group FLAT

# a frame and a target by threads, before what is none
80 01 41
96 00 04 46 4C 41 54
9A 02
9C C4 00 8D 45 02 01
= record 3: its body isn't one of its type

# in threads
80 01 41
96 00 04 46 4C 41 54
9A 02
9C 40 01 45 01
= record 3: an address counts from the group FLAT

80 01 41
96 00 04 46 4C 41 54
9A 02
9C 06 01
= record 3: an address counts from the group FLAT

# of the start
80 01 41
96 00 04 46 4C 41 54
9A 02
8A C1 10 01 01 00 00
= record 3: an address counts from the group FLAT

80 01 41
96 00 04 46 4C 41 54
9A 02
8B C1 51 01 00 00 00 00
= record 3: an address counts from the group FLAT

80 01 41
96 00 04 46 4C 41 54
9A 02
8A 80 10 01 01 00 00
= record 3: its body isn't one of its type

# as the base of public names, and another group and none as theirs
80 01 41
96 00 04 46 4C 41 54 04 43 4F 44 45
9A 02
9A 03
90 02 01 01 70 00 00 00
91 00 01 01 71 00 00 00 00 00
B6 02 01 01 72 00 00 00
90
--
80 01 41
96 00 04 46 4C 41 54 04 43 4F 44 45
9A 02
9A 03
90 02 01 01 70 00 00 00
90 00 01 01 71 00 00 00
B6 02 01 01 72 00 00 00
90

80 01 41
96 00 04 46 4C 41 54
9A 02
90 01 01 01 70 00 00 00
= record 3: an address counts from the group FLAT

80 01 41
96 00 04 46 4C 41 54
9A 02
91 80 01 01 01 70 00 00 00 00 00
= record 3: an address counts from the group FLAT

80 01 41
96 00 04 46 4C 41 54
9A 02
B6 01 00 40 00 01 70 00 00 00
= record 3: an address counts from the group FLAT

80 01 41
96 00 04 46 4C 41 54
9A 02
B7 01 01 01 70 00 00 00 00 00
= record 3: an address counts from the group FLAT

# of what only debuggers read
80 01 41
96 00 04 46 4C 41 54 05 44 57 41 52 46
98 28 04 00 03 03 01
9A 02
A0 01 00 00 00 00 00 00
9C C4 00 14 01 01
--
80 01 41
96 00 04 46 4C 41 54 05 44 57 41 52 46
98 20 00 00 03 03 01
9A 02
88 00 DA
9C",
    )
}
