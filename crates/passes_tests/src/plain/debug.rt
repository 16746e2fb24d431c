//! What debuggers read, and far data.

use super::tables::{run, run_as};
use omf_alias::Renaming;
use omf_place::Names;
use std::test::*;

/// Segments of the classes that debuggers read are kept out.
#[test]
fn kept_out(rt: HostRuntime) -> Result<(), Fail> {
    run(
        &rt,
        rt.alloc(),
        "\
# no such segment
98 28 02 00 02 02 01
A0 01 00 00 90 C3

# .debug_frame as Free Pascal writes it: its data goes, and a thread stays where it is
80 01 41
96 00 04 43 4F 44 45 05 44 57 41 52 46 0C 2E 64 65 62 75 67 5F 66 72 61 6D 65
98 28 02 00 02 02 01
99 A1 10 00 00 00 04 03 01
A0 01 00 00 90 C3
9C C4 00 54 01
A1 02 00 00 00 00 11 22 33 44
9D 40 01 E4 00 54 01
9D E4 04 50 01 78 56 34 12 05 02 A4 00 4D
A2 01 00 00 01 00 00 00 01 90
9C C4 00 54 01
--
80 01 41
96 00 04 43 4F 44 45 05 44 57 41 52 46 0C 2E 64 65 62 75 67 5F 66 72 61 6D 65
98 28 02 00 02 02 01
98 20 00 00 04 03 01
A0 01 00 00 90 C3
9C C4 00 54 01
88 00 DA
9C 40 01
9C 05 02
A2 01 00 00 01 00 00 00 01 90
9C C4 00 54 01

# each class, one named by LLNAMES; an absolute segment and indexes of two bytes
80 01 41
96 00 06 44 45 42 53 59 4D
CA 06 44 45 42 54 59 50
98 28 02 00 01 02 01
98 00 34 12 05 02 00 01 80 03 01
A3 01 00 00 00 00 01 00 00 00 00 00 01 11
A2 02 00 00 01 00 00 00 01 22
--
80 01 41
96 00 06 44 45 42 53 59 4D
96 06 44 45 42 54 59 50
98 20 00 00 01 02 01
98 20 00 00 01 80 03 01
88 00 DA
88 00 DA

# a name behind the segment isn't its class, nor one that only begins so
80 01 41
96 00 05 44 57 41 52 47
98 28 02 00 01 03 01
98 28 02 00 01 02 01
96 05 44 57 41 52 46
A0 01 00 00 11

# fix-ups that aren't subrecords
80 01 41
96 00 05 44 57 41 52 46
98 28 02 00 01 02 01
A0 01 00 00 11 22
9C C4 00 54
= record 4: its body isn't one of its type

80 01 41
96 00 05 44 57 41 52 46
98 28 02 00 01 02 01
A0 01 00 00 11 22
9C 4C 01
= record 4: its body isn't one of its type

# data of no segment, and fix-ups behind a COMDAT stay
80 01 41
96 00 05 44 57 41 52 46
98 28 02 00 01 02 01
A0 01 00 00 11 22
A0 00 00 00 11 22
9C C4 00 54 01
A0 02 00 00 11 22
A0 80
C2 00 00 01 00 00 00 00 01 02
9C C4 00 54 01
98 28 02 00 01
--
80 01 41
96 00 05 44 57 41 52 46
98 20 00 00 01 02 01
88 00 DA
A0 00 00 00 11 22
9C C4 00 54 01
A0 02 00 00 11 22
A0 80
C2 00 00 01 00 00 00 00 01 02
9C C4 00 54 01
98 28 02 00 01",
    )
}

/// They are kept where that is asked.
#[test]
fn kept(rt: HostRuntime) -> Result<(), Fail> {
    run_as(
        &rt,
        rt.alloc(),
        true,
        &Renaming::none(Names::Exact),
        "\
80 01 41
96 00 05 44 57 41 52 46
98 28 02 00 01 02 01
A0 01 00 00 11 22
9C C4 00 54 01",
    )
}

/// Segments of class FAR_DATA are taken as any other: each keeps its name, and combines as it did.
#[test]
fn far_data(rt: HostRuntime) -> Result<(), Fail> {
    run(
        &rt,
        rt.alloc(),
        "\
# private, public, a stack and common, of 65,536 bytes, with an index of two bytes, and absolute
80 01 41
96 00 08 46 41 52 5F 44 41 54 41 03 54 42 4C
98 60 04 00 03 02 01
98 68 04 00 03 02 01
98 74 04 00 03 02 01
98 78 04 00 03 02 01
98 62 00 00 03 80 02 01
98 00 00 B8 00 04 00 03 02 01

# of 32 bits
80 01 41
96 00 08 46 41 52 5F 44 41 54 41 03 54 42 4C
99 61 04 00 00 00 80 03 02 01
99 21 00 00 01 00 03 02 01
99 79 04 00 00 00 03 02 01
98 6B 00 00 03 02 01
--
80 01 41
96 00 08 46 41 52 5F 44 41 54 41 03 54 42 4C
98 60 04 00 80 03 02 01
98 22 00 00 03 02 01
98 78 04 00 03 02 01
98 6A 00 00 03 02 01",
    )
}

/// Bytes that are no record, and what stands behind the end, stay.
#[test]
fn no_records(rt: HostRuntime) -> Result<(), Fail> {
    run(
        &rt,
        rt.alloc(),
        "\
raw

raw 80

# a closing byte of 0, and one that is wrong
raw 80 03 00 01 41 00
raw 96 08 00 00 05 44 57 41 52 46 00
raw 98 07 00 28 02 00 01 02 01 00
raw 98 07 00 28 02 00 01 02 01 01
raw 98 07 00 28 02 00 01 02 01 00
--
raw 80 03 00 01 41 00
raw 96 08 00 00 05 44 57 41 52 46 00
raw 98 07 00 20 00 00 01 02 01 3D
raw 98 07 00 28 02 00 01 02 01 01
raw 98 07 00 28 02 00 01 02 01 00

# what is cut off
raw 96 08 00 00 05 44 57 41 52 46 00
raw 98 07 00 28 02 00 01 02 01 00
raw A0 05 00 01 00 00
--
raw 96 08 00 00 05 44 57 41 52 46 00
raw 98 07 00 20 00 00 01 02 01 3D
raw A0 05 00 01 00 00

# behind the end
raw 96 08 00 00 05 44 57 41 52 46 00
raw 98 07 00 28 02 00 01 02 01 00
raw 8A 02 00 00 74
raw 98 07 00 28 02 00 01 02 01 00
raw 00 00
--
raw 96 08 00 00 05 44 57 41 52 46 00
raw 98 07 00 20 00 00 01 02 01 3D
raw 8A 02 00 00 74
raw 98 07 00 28 02 00 01 02 01 00
raw 00 00",
    )
}
