//! Forms of records that no assembler at hand writes.

use super::tables::run;
use std::test::*;

/// Segments, names and externals: indexes of two bytes, frame words, and bodies without entries.
#[test]
fn definitions(rt: HostRuntime) -> Result<(), Fail> {
    run(
        &rt,
        rt.alloc(),
        "\
# SEGDEF: indexes of two bytes, an absolute one, and one of 65,536 bytes with P
99 69 FF FF 00 00 80 02 80 02 80 01
99 01 00 B8 0F 00 80 00 00 02 02 01
98 2B 00 00 02 02 01
--
98 68 FF FF 80 02 80 02 80 01
98 00 00 B8 0F 00 80 02 02 01
98 2A 00 00 02 02 01

# PUBDEF: indexes of two bytes, a name without bytes, none, and one behind a frame word
91 80 01 80 01 03 61 62 63 00 01 00 00 80 05
91 00 01 00 00 00 00 00 00
91 00 01
91 00 80 00 00 B8 01 61 05 00 00 00 00
--
90 80 01 80 01 03 61 62 63 00 01 80 05
90 00 01 00 00 00 00
90 00 01
90 00 80 00 00 B8 01 61 05 00 00

# LPUBDEF
B7 00 00 00 B8 01 61 FF FF 00 00 00 01 62 00 00 00 00 01
B7 01 01
--
B6 00 00 00 B8 01 61 FF FF 00 01 62 00 00 01
B6 01 01

# LINNUM: indexes of two bytes, a line above 32,767, and none
95 80 01 80 01 00 80 34 12 00 00
95 00 01
--
94 80 01 80 01 00 80 34 12
94 00 01

# CEXTDEF by names of LLNAMES, and without entries
CA 01 78 02 79 79
BC 04 00 80 03 01
BC
--
96 01 78 02 79 79
8C 02 79 79 00 01 78 01
8C

# ALIAS without entries
C6
--
88 00 DA

# LINSYM
C4 00 02 05 00 10 00
C5 00 02 05 00 10 00 00 00
--
88 00 DA

# types that say nothing in the fourteen
B2 01 01 00 00 05 00
= record 2: no record of its type is linked

B3 01 01 00 00 00 00 05 00 00 00
= record 2: no record of its type is linked

B9 01 61 00 62 02
= record 2: no record of its type is linked

BE 01 61
= record 2: no record of its type is linked

C8 01 02 00 00 05 00
= record 2: no record of its type is linked

C9 01 02 00 00 00 00 05 00 00 00
= record 2: no record of its type is linked

CC 00
= record 2: no record of its type is linked

CE 00 00
= record 2: no record of its type is linked",
    )
}

/// Data, repeated data and the end of a module.
#[test]
fn data(rt: HostRuntime) -> Result<(), Fail> {
    run(
        &rt,
        rt.alloc(),
        "\
# LEDATA: an index of two bytes, and no data
A1 80 01 FF FF 00 00 AA
A1 01 00 00 00 00
--
A0 80 01 FF FF AA
A0 01 00 00

# LIDATA: a block of two, of which the second has one, and fix-ups in both contents
A3 80 01 34 12 00*2 02 00*3 02 00 03 00*5 01 AA 01 00*3 01 00 05 00*5 02 BB CC
9D C0 0D 54 01 C4 1B 54 01 C0 1C 50 01 34 12 00 00
--
A2 80 01 34 12 02 00 02 00 03 00 00 00 01 AA 01 00 01 00 05 00 00 00 02 BB CC
9C C0 09 54 01 C4 13 54 01 C0 14 50 01 34 12

# blocks that are repeated no time, and 65,535 times
A3 01 00*4 00*6 01 AA FF FF 00*4 01 BB
9C C0 07 54 01 C0 0F 54 01
--
A2 01 00 00 00 00 00 00 01 AA FF FF 00 00 01 BB
9C C0 05 54 01 C0 0B 54 01

# FIXUPP: each method of a frame and of a target, in threads and by itself
A1 01 00*4 00*8
9D 00 01 05 80 01 0A 01 40 01 45 80 01 4A 01 50 55
9D C4 00 00 01 80 01 34 12 00 00 C8 02 15 01 01 CC 00 26 80 01 01 84 04 44 01 C0 07 8C
9D C4 04 88 FF FF 00 00 C7 FF 54 01
--
A0 01 00 00 00*8
9C 00 01 05 80 01 0A 01 40 01 45 80 01 4A 01 50 55
9C C4 00 00 01 80 01 34 12 C8 02 15 01 01 CC 00 26 80 01 01 84 04 44 01 C0 07 8C
9C C4 04 88 FF FF C7 FF 54 01

# no subrecords
9D
--
9C

# MODEND: without a start, by a group, without a displacement, and with bytes behind it
8B 80
--
8A 80
8A 00

8B C1 11 01 80 01 FF FF 00 00
--
8A C1 11 01 80 01 FF FF
8A 00

8B 41 54 01 AA
= record 2: its body isn't one of its type",
    )
}
