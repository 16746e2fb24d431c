//! Worked programs.

use super::laid::{expect, run};
use omf_place::Names;
use std::test::*;

#[test]
fn no_modules(rt: HostRuntime) -> Result<(), Fail> {
    expect(rt.alloc(), Names::Exact, &[], "size 0:;;")
}

/// Modules that have a layout, and what it says.
#[test]
fn layouts(rt: HostRuntime) -> Result<(), Fail> {
    run(
        rt.alloc(),
        Names::Exact,
        "\
# the classes B and C, in order of first meeting: the third segment is placed before the second
80 01 41
96 00 01 41 01 42 01 43
98 28 01 00 02 03 01
98 28 02 00 03 04 01
98 28 04 00 04 03 01
= size 7: 0/0 5/0 1/0 |; 0-1 0.0 1-5 0.2 5-7 0.1;

# an absolute segment opens no class
80 01 41
96 00 01 58 01 59
98 00 00 00 00 01 00 01 02 01
98 28 01 00 01 03 01
98 28 01 00 01 02 01
= size 2: =0/=0 0/0 1/0 |; 0-1 0.1 1-2 0.2;

# the second part of a stack has no alignment of its own
98 28 01 00 02 01 01
98 74 03 00 02 01 01
98 74 05 00 02 01 01
= size 24: 0/0 16/1 19/1 |; 0-1 0.0 16-24 0.1;

98 28 05 00 02 01 01
98 74 00 01 02 01 01
= size 272: 0/0 16/1 |; 0-5 0.0 16-272 0.1;

98 28 00 00 02 01 01
98 76 00 00 02 01 01
= size 65536: 0/0 0/0 |; 0-0 0.0 0-65536 0.1;

# a common segment has the greatest length and the greatest alignment of its parts
98 38 04 00 02 01 01
A0 01 00 00 11 22 33 44
--
98 38 02 00 02 01 01
A0 01 00 00 AA BB
= size 4: 0/0 | 0/0 |; 0-4 0.0;

98 28 05 00 02 01 01
98 38 02 00 02 01 01
--
98 78 04 00 02 01 01
= size 20: 0/0 16/1 | 16/1 |; 0-5 0.0 16-20 0.1;

# private segments stay apart
98 28 01 00 02 01 01
98 20 01 00 02 01 01
98 20 01 00 02 01 01
= size 3: 0/0 1/0 2/0 |; 0-1 0.0 1-2 0.1 2-3 0.2;

# an absolute segment and a public in it
98 28 05 00 02 01 01
98 00 00 B8 07 00 40 01 01 01
90 00 02 01 78 02 00 00
= size 5: 0/0 =753671/=47104 |; 0-5 0.0;; x =753673/=47104

# a public at a frame
98 28 05 00 02 01 01
90 00 00 34 12 01 78 05 00 00
= size 5: 0/0 |; 0-5 0.0;; x =74565/=4660

# a group without members
98 28 05 00 02 01 01
9A 02
90 01 01 01 78 02 00 00
= size 5: 0/0 | -; 0-5 0.0; - 0.0; x 2/-

# members of a group in two modules
98 28 10 00 02 01 01
98 68 10 00 01 01 01
9A 02 FF 02
--
98 28 00 00 02 01 01
9A 02 FF 01
= size 32: 0/0 16/1 | 0 16/0 | 0; 0-16 0.0 16-32 0.1; 0 0.0

# a group of 65,536 bytes is not too long
98 28 FF FF 02 01 01
98 28 01 00 01 01 01
9A 02 FF 01 FF 02
= size 65536: 0/0 65535/4095 | 0; 0-65535 0.0 65535-65536 0.1; 0 0.0",
    )
}

/// Two modules with a group and a segment in common, and a public in the second.
pub const TWO: &str = "\
80 01 41
96 00 04 43 4F 44 45 05 5F 44 41 54 41 06 44 47 52 4F 55 50
98 68 12 00 02 02 01
98 48 03 00 03 03 01
9A 04 FF 02
8C 01 78 00
A0 01 00 00 B8 00 00 A1 00 00
9C 44 01 08 01
9C C8 01 8C C4 04 8C
8A C1 00 01 01 00 00
--
80 01 41
96 00 05 5F 44 41 54 41 06 44 47 52 4F 55 50
98 48 02 00 02 02 01
9A 03 FF 01
90 01 01 01 78 00 00 00
A0 01 00 00 34 12
= size 24: 0/0 18/1 | 1 22/1 | 1; 0-18 0.0 18-24 0.1; 1 0.0; x 22/1";

#[test]
fn two_modules(rt: HostRuntime) -> Result<(), Fail> {
    run(rt.alloc(), Names::Exact, TWO)
}

/// A stack that is one byte too long, a group that is, each alone and with two publics of one name; and these alone.
pub const AT_FAULT: &str = "\
98 28 00 00 02 01 01
98 76 00 00 02 01 01
98 74 01 00 02 01 01
= 22 SegmentTooLong CODE

98 28 FF FF 02 01 01
98 28 02 00 01 01 01
9A 02 FF 01 FF 02
= 24 GroupTooLong CODE

98 28 00 00 02 01 01
98 76 00 00 02 01 01
98 74 01 00 02 01 01
90 00 01 01 78 00 00 00 01 78 01 00 00
= 22 SegmentTooLong CODE

98 28 FF FF 02 01 01
98 28 02 00 01 01 01
9A 02 FF 01 FF 02
90 00 01 01 78 00 00 00 01 78 01 00 00
= 24 GroupTooLong CODE

98 28 05 00 02 01 01
90 00 01 01 78 00 00 00 01 78 01 00 00
= 25 DuplicatePublic x";

#[test]
fn faults(rt: HostRuntime) -> Result<(), Fail> {
    run(rt.alloc(), Names::Exact, AT_FAULT)
}

/// Fifteen private segments of 65,536 bytes, and more.
#[test]
fn large_programs(rt: HostRuntime) -> Result<(), Fail> {
    run(
        rt.alloc(),
        Names::Exact,
        "\
# a program of 1,048,560 bytes is not too large
80 01 41
96 00
98 22 00 00 01 01 01 x15
98 20 F0 FF 01 01 01
= size 1048560: 0/0 65536/4096 131072/8192 196608/12288 262144/16384 327680/20480 393216/24576 458752/28672 \
524288/32768 589824/36864 655360/40960 720896/45056 786432/49152 851968/53248 917504/57344 983040/61440 |; 0-65536 \
0.0 65536-131072 0.1 131072-196608 0.2 196608-262144 0.3 262144-327680 0.4 327680-393216 0.5 393216-458752 0.6 \
458752-524288 0.7 524288-589824 0.8 589824-655360 0.9 655360-720896 0.10 720896-786432 0.11 786432-851968 0.12 \
851968-917504 0.13 917504-983040 0.14 983040-1048560 0.15;

80 01 41
96 00
98 22 00 00 01 01 01 x15
98 20 F1 FF 01 01 01
= 23 ProgramTooLarge

# faults come in order of number
98 22 00 00 01 01 01 x15
98 20 F0 FF 01 01 01
9A 02 FF 01 FF 02
= 24 GroupTooLong CODE

98 22 00 00 01 01 01 x15
98 20 F1 FF 01 01 01
9A 02 FF 01 FF 02
= 23 ProgramTooLarge

98 22 00 00 01 01 01 x15
98 20 F1 FF 01 01 01
98 76 00 00 02 01 01
98 74 01 00 02 01 01
= 22 SegmentTooLong CODE",
    )
}

/// Segments whose names differ in case stay two.
#[test]
fn segments_agree_exactly(rt: HostRuntime) -> Result<(), Fail> {
    run(
        rt.alloc(),
        Names::AsciiFolded,
        "\
98 28 01 00 02 01 01
--
80 01 41
96 00 04 63 6F 64 65
98 28 01 00 02 01 01
= size 2: 0/0 | 1/0 |; 0-1 0.0 1-2 1.0;",
    )
}
