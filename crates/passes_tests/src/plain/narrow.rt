//! Records of 32 bits with content of 16.

use super::tables::run;
use std::test::*;

/// Numbers of four bytes are written in two.
#[test]
fn numbers(rt: HostRuntime) -> Result<(), Fail> {
    run(
        &rt,
        rt.alloc(),
        "\
# SEGDEF, of 32 bits by its type and by P
99 A9 10 00 00 00 02 02 01
98 29 02 00 02 02 01
99 01 34 12 05 02 00 00 00 02 02 01
98 28 02 00 02 02 01
99 A9 00 00 01 00 02 02 01
99 00 00 B8 0F 00 00 01 00 02 02 01
--
98 A8 10 00 02 02 01
98 28 02 00 02 02 01
98 00 34 12 05 02 00 02 02 01
98 28 02 00 02 02 01
98 AA 00 00 02 02 01
98 02 00 B8 0F 00 00 02 02 01

# PUBDEF, LPUBDEF, LINNUM
91 00 01 01 61 34 12 00 00 00 01 62 FF FF 00 00 80 05
91 00 00 78 56 01 61 05 00 00 00 00
B7 00 01 01 61 34 12 00 00 00
95 00 01 05 00 10 00 00 00 06 00 12 00 00 00
--
90 00 01 01 61 34 12 00 01 62 FF FF 80 05
90 00 00 78 56 01 61 05 00 00
B6 00 01 01 61 34 12 00
94 00 01 05 00 10 00 06 00 12 00

# MODEND, with a start by a displacement
8B C1 50 01 34 12 00 00
--
8A C1 50 01 34 12
8A 00

8B 00
--
8A 00
8A 00

# a name listed by an even type keeps its own
90 00 01 01 61 34 12 00
A0 01 00 00 00 00
9C C4 00 54 01",
    )
}

/// Data and fix-ups.
#[test]
fn fixups(rt: HostRuntime) -> Result<(), Fail> {
    run(
        &rt,
        rt.alloc(),
        "\
# LEDATA: locations 9 and 13 become 5, displacements two bytes; others and threads stay
A1 01 04 00 00 00 05 00 00 00 FF FF 00 00 AA
9D 40 01 E4 00 54 01 F4 04 50 01 34 12 00 00 CC 06 54 01 C4 07 9D
9C E4 00 54 01
--
A0 01 04 00 05 00 00 00 FF FF 00 00 AA
9C 40 01 D4 00 54 01 D4 04 50 01 34 12 CC 06 54 01 C4 07 9D
9C D4 00 54 01

# the same behind LEDATA of 16 bits
A0 01 00 00 05 00 00 00
9D E4 00 54 01
--
A0 01 00 00 05 00 00 00
9C D4 00 54 01

# LIDATA: each repeat count before a place moves it by two; one block, one behind it, one in a third
A3 01 00*4 02 00*5 04 AA BB 00*2 01 00*5 02 11 22 03 00*3 01 00 01 00*5 03 33 44 55
9D C4 08 54 01 C4 12 54 01 C4 21 54 01 E4 07 54 01
9C C4 22 50 01 34 12
--
A2 01 00 00 02 00 00 00 04 AA BB 00 00 01 00 00 00 02 11 22 03 00 01 00 01 00 00 00 03 33 44 55
9C C4 06 54 01 C4 0E 54 01 C4 19 54 01 D4 05 54 01
9C C4 1A 50 01 34 12

# LIDATA of 16 bits: a location of 32 in its content
A2 01 00 00 01 00 00 00 04 AA BB 00 00
9D E4 05 54 01
--
A2 01 00 00 01 00 00 00 04 AA BB 00 00
9C D4 05 54 01",
    )
}

/// Fix-ups of 32 bits in a record of 16, as NASM writes them for `dd label` in a segment of 16 bits.
#[test]
fn wide_fixups(rt: HostRuntime) -> Result<(), Fail> {
    run(
        &rt,
        rt.alloc(),
        "\
# one, and one by a displacement of two bytes; the lower word stays, whatever it is
A0 01 00 00 05 00 00 00 FF FF 00 00
9C E4 00 54 01 F4 04 50 01 34 12
--
A0 01 00 00 05 00 00 00 FF FF 00 00
9C D4 00 54 01 D4 04 50 01 34 12

# a negative one: a fix-up that makes its upper word 0 stands behind
A0 01 10 00 FC FF FF FF 00 00
9C E4 00 54 01 C8 04 54 01
--
A0 01 10 00 FC FF FF FF 00 00
9C D4 00 54 01 84 02 50 01 15 00 C8 04 54 01

# the same of 32 bits, with an index of two bytes, behind 256 bytes and at the end of its segment
A1 80 01 FC FE 00 00 00*256 FF FF FF FF
9D E5 00 50 01 34 12 00 00
--
A0 80 01 FC FE 00*256 FF FF FF FF
9C D5 00 50 01 34 12 85 02 50 80 01 01 00

# behind threads and fix-ups of 16 bits, which stay; the data of the last record counts
A0 01 00 00 FF FF FF FF FF FF FF FF
9C C4 04 9D 53 C8 00 54 01
A0 01 08 00 00 00 05 00 00 00
9C 40 01 C4 00 54 01 8C 00 56 80 01 E4 02 9D F4 02 12 01 80 01 34 12 CC 06 54 01
--
A0 01 00 00 FF FF FF FF FF FF FF FF
9C C4 04 9D 53 C8 00 54 01
A0 01 08 00 00 00 05 00 00 00
9C 40 01 C4 00 54 01 8C 00 56 80 01 D4 02 9D D4 02 12 01 80 01 34 12 CC 06 54 01

# repeated data
A2 01 00 00 02 00 00 00 06 AA BB 05 00 00 00
9C E4 07 54 01
--
A2 01 00 00 02 00 00 00 06 AA BB 05 00 00 00
9C D4 07 54 01

# loader-resolved offsets, location 5, become 1: in LEDATA, and in LIDATA of 32 bits
A0 01 00 00 00 00 00 00
9C D4 00 54 01 C8 02 54 01 94 01 54 01
A3 01 00 00 00 00 02 00 00 00 00 00 02 AA BB
9D D4 07 54 01
--
A0 01 00 00 00 00 00 00
9C C4 00 54 01 C8 02 54 01 84 01 54 01
A2 01 00 00 02 00 00 00 02 AA BB
9C C4 05 54 01

# records without one stay, up to what isn't a subrecord
A0 01 00 00 00 00 00 00
9C C4 00 54 01 C8 02 54 01 CC 00 54 01 80 00 54 01

A0 01 00 00 00 00 00 00
9C C4 00 34 01 E4 00 54 01

# one whose upper word is neither 0 nor FFFFH
A0 01 00 00 00 00 01 00
9C E4 00 54 01
= record 3: a number has more than 16 bits

A0 01 00 00 00 00 FF 00
9C E4 00 54 01
= record 3: a number has more than 16 bits

A0 01 00 00 00 00 00 FF
9C E4 00 54 01
= record 3: a number has more than 16 bits

# the last place at which a negative one can stand, and one where its upper word has no place
A0 01 00 00 00*1021 FC FF FF FF
9C E7 FD 54 01
--
A0 01 00 00 00*1021 FC FF FF FF
9C D7 FD 54 01 87 FF 50 01 02 04

A0 01 00 00 00*1022 FC FF FF FF
9C E7 FE 54 01
= record 3: a number has more than 16 bits

# a negative one that is repeated
A2 01 00 00 02 00 00 00 04 FC FF FF FF
9C E4 05 54 01
= record 3: a number has more than 16 bits

# one that is self-relative, one that isn't in the data, and one without data
A0 01 00 00 00 00 00 00
9C A4 00 54 01
= record 3: a fix-up of 32 bits can't be one of 16

A0 01 00 00 00 00 00
9C E4 00 54 01
= record 3: a fix-up of 32 bits can't be one of 16

9C E4 00 54 01
= record 2: a fix-up of 32 bits can't be one of 16

# and one behind which the record isn't one of its type
A0 01 00 00 00 00 00 00
9C E4 00 54 01 C4 00 34 01
= record 3: its body isn't one of its type",
    )
}

/// What isn't taken is told at its record.
#[test]
fn faults(rt: HostRuntime) -> Result<(), Fail> {
    run(
        &rt,
        rt.alloc(),
        "\
# numbers above 16 bits
99 A9 01 00 01 00 02 02 01
= record 2: a number has more than 16 bits

99 A9 00 00 02 00 02 02 01
= record 2: a number has more than 16 bits

99 A9 00 00 01 01 02 02 01
= record 2: a number has more than 16 bits

# 4,294,967,296 bytes
99 AB 00 00 00 00 02 02 01
= record 2: a number has more than 16 bits

91 00 01 01 61 34 12 01 00 00
= record 2: a number has more than 16 bits

95 00 01 05 00 10 00 00 01
= record 2: a number has more than 16 bits

A1 01 04 00 00 01 90
= record 2: a number has more than 16 bits

A3 01 00 00 00 00 02 00 01 00 00 00 01 AA
= record 2: a number has more than 16 bits

8B C1 50 01 34 12 01 00
= record 2: a number has more than 16 bits

A1 01 00 00 00 00 00 00 00 00
9D E4 00 50 01 34 12 01 00
= record 3: a number has more than 16 bits

# the upper word of a location
A1 01 00 00 00 00 00 00 01 00
9D E4 00 54 01
= record 3: a number has more than 16 bits

# a location of 32 bits that is self-relative, or that isn't in the data
A1 01 00 00 00 00 00 00 00 00
9D A4 00 54 01
= record 3: a fix-up of 32 bits can't be one of 16

A1 01 00 00 00 00 00 00 00 00
9D E4 01 54 01
= record 3: a fix-up of 32 bits can't be one of 16

9D E4 00 54 01
= record 2: a fix-up of 32 bits can't be one of 16

A2 01 00 00 01 00 00 00 04 AA BB 00 00 01 00 00 00 04 00 00 00 00
9D E4 07 54 01
= record 3: a fix-up of 32 bits can't be one of 16

# a place in no content of LIDATA
A3 01 00 00 00 00 02 00 00 00 00 00 02 AA BB
9C C4 00 54 01
= record 3: a fix-up of 32 bits can't be one of 16

# bodies that are cut off
99 A9 10 00 00 00 02
= record 2: its body isn't one of its type

99
= record 2: its body isn't one of its type

91 00 01 01 61 34 12 00
= record 2: its body isn't one of its type

95 00 01 05
= record 2: its body isn't one of its type

A1 01 00
= record 2: its body isn't one of its type

A3 01 00 00 00 00 02 00 00 00 00 00 02 AA
= record 2: its body isn't one of its type

9D E4 00 54
= record 2: its body isn't one of its type

8B C1 50 01 34 12
= record 2: its body isn't one of its type",
    )
}
