//! The files of programs in each form, and why there is none.

use super::said::{push_bin, run, run_raw};
use omf_image::{Program, build};
use omf_place::{Names, place};
use rows::{read_modules, read_row, same};
use std::alloc::Global;
use std::test::*;

#[test]
fn files(rt: HostRuntime) -> Result<(), Fail> {
    run(
        rt.alloc(),
        "\
# the smallest that does something: RET at 100H
98 28 01 01 02 01 01
A0 01 00 01 C3
8A C1 50 01 00 01
= com: C3; start: C3; sys: 00*256 C3; 07C0 from 100: C3

# one without a byte
98 28 01 01 02 01 01
8A C1 50 01 00 01
= com:; start:; sys:; 07C0 from 100000:

# its end is written to the last byte that data covers, also where that is 00
98 28 10 01 02 01 01
A0 01 00 01 B4 4C CD 21
A0 01 08 01 00
8A C1 50 01 00 01
= com: B4 4C CD 21 00*5; start: B4 4C CD 21 00*5; sys: 00*256 B4 4C CD 21 00*5; 07C0 from 100: B4 4C CD 21 00*5

# many modules of one program: the second behind the first, at byte alignment
98 28 03 01 02 01 01
8C 01 78 00
A0 01 00 01 E9 00 00
9C 84 01 56 01
8A C1 50 01 00 01
--
98 28 01 00 02 01 01
90 00 01 01 78 00 00 00
A0 01 00 00 C3
= com: E9 00*2 C3; start: E9 00*2 C3; sys: 00*256 E9 00*2 C3; 07C0 from 100: E9 00*2 C3

# data that is repeated no time covers nothing below 100H
98 28 01 01 02 01 01
A2 01 00 00 00 00 00 00 01 41
A0 01 00 01 C3
8A C1 50 01 00 01
= com: C3; start: C3; sys: 00*256 C3; 07C0 from 100: C3

# a driver begins at its first byte, which nothing may cover
98 28 04 00 02 01 01
A0 01 01 00 FF FF
= com: 70 OtherStart; start: 00 FF*2; sys: 00 FF*2; 07C0 from 1: FF*2",
    )
}

#[test]
fn faults(rt: HostRuntime) -> Result<(), Fail> {
    run(
        rt.alloc(),
        "\
# a segment address at 101H
98 28 04 01 02 01 01
A0 01 00 01 B8 00 00 C3
9C C8 01 04 01 01
8A C1 50 01 00 01
= com: 68 Relocated; start: 68 Relocated; sys: 68 Relocated; 07C0 from 100: B8 C0 07 C3

# a stack segment
98 28 01 01 02 01 01
98 74 00 01 02 01 01
A0 01 00 01 C3
8A C1 50 01 00 01
= com: 69 StackSegment; start: 69 StackSegment; sys: 00*256 C3; 07C0 from 100: C3

# also one without a byte at the program's begin, of which SS and SP tell nothing
98 74 00 00 01 01 01
98 28 01 01 02 01 01
A0 02 00 01 C3
8A C1 50 02 00 01
= com: 69 StackSegment; start: 69 StackSegment; sys: 00*256 C3; 07C0 from 100: C3

# no start, one at 101H, one at the program's begin
98 28 01 01 02 01 01
A0 01 00 01 C3
= com: 70 OtherStart; start: 00*256 C3; sys: 00*256 C3; 07C0 from 100: C3

98 28 02 01 02 01 01
A0 01 00 01 90 C3
8A C1 50 01 01 01
= com: 70 OtherStart; start: 70 OtherStart; sys: 00*256 90 C3; 07C0 from 100: 90 C3

98 28 01 00 02 01 01
A0 01 00 00 C3
8A C1 50 01 00 00
= com: 70 OtherStart; start: C3; sys: C3; 07C0 from 0: C3

# the same address, 100H, in another frame
98 28 00 01 02 01 01
98 60 01 00 02 01 01
A0 02 00 00 C3
8A C1 50 02 00 00
= com: 70 OtherStart; start: 70 OtherStart; sys: 00*256 C3; 07C0 from 100: C3

# a byte 00 below 100H
98 28 01 01 02 01 01
A0 01 FF 00 00 C3
8A C1 50 01 00 01
= com: 71 DataBelow; start: 71 DataBelow; sys: 00*256 C3; 07C0 from FF: 00 C3

# also behind other data
98 28 01 01 02 01 01
A0 01 00 01 C3
A0 01 10 00 41
8A C1 50 01 00 01
= com: 71 DataBelow; start: 71 DataBelow; sys: 00*16 41 00*239 C3; 07C0 from 10: 41 00*239 C3",
    )
}

#[test]
fn lengths(rt: HostRuntime) -> Result<(), Fail> {
    run(
        rt.alloc(),
        "\
# 65,280 bytes
98 2A 00 00 02 01 01
A2 01 00 01 00 FF 00 00 01 41
8A C1 50 01 00 01
= com: 41*65280; start: 41*65280; sys: 00*256 41*65280; 07C0 from 100: 41*65280

# one more
98 2A 00 00 02 01 01
98 20 01 00 01 01 01
A2 01 00 01 00 FF 00 00 01 41
A0 02 00 00 42
8A C1 50 01 00 01
= com: 72 TooLong; start: 72 TooLong; sys: 00*256 41*65280 42; 07C0 from 100: 41*65280 42

# also one that no data covers
98 2A 00 00 02 01 01
98 20 01 00 01 01 01
A0 01 00 01 C3
8A C1 50 01 00 01
= com: 72 TooLong; start: 72 TooLong; sys: 00*256 C3; 07C0 from 100: C3

# 65,536 bytes of a program that starts at 0, and one more
98 2A 00 00 02 01 01
A0 01 FF FF C3
8A C1 50 01 00 00
= com: 70 OtherStart; start: 00*65535 C3; sys: 00*65535 C3; 07C0 from FFFF: C3

98 2A 00 00 02 01 01
98 20 01 00 01 01 01
A0 01 FF FF C3
8A C1 50 01 00 00
= com: 70 OtherStart; start: 72 TooLong; sys: 00*65535 C3; 07C0 from FFFF: C3",
    )
}

#[test]
fn the_first_fault_is_named(rt: HostRuntime) -> Result<(), Fail> {
    run(
        rt.alloc(),
        "\
# all five
98 2A 00 00 02 01 01
98 74 01 00 01 01 01
A0 01 00 00 00 00
9C C8 00 04 01 01
8A C1 50 01 00 00
= com: 68 Relocated; start: 68 Relocated; sys: 68 Relocated; 07C0 from 0: C0 07

98 2A 00 00 02 01 01
98 74 01 00 01 01 01
A0 01 00 00 00 00
8A C1 50 01 00 00
= com: 69 StackSegment; start: 69 StackSegment; sys: 00*2; 07C0 from 0: 00*2

98 2A 00 00 02 01 01
98 20 01 00 01 01 01
A0 01 00 00 00 00
8A C1 50 01 00 00
= com: 70 OtherStart; start: 72 TooLong; sys: 00*2; 07C0 from 0: 00*2

98 2A 00 00 02 01 01
98 20 01 00 01 01 01
A0 01 00 00 00 00
8A C1 50 01 00 01
= com: 71 DataBelow; start: 71 DataBelow; sys: 00*2; 07C0 from 0: 00*2",
    )
}

/// No data is left out below the address that a raw image begins at: it is refused.
#[test]
fn raw_images(rt: HostRuntime) -> Result<(), Fail> {
    run_raw(
        rt.alloc(),
        "\
# memory without data may lie below
98 28 04 7C 02 01 01
A0 01 00 7C 4B 45 50 54
= 0: 00*31744 4B 45 50 54; 7BFF: 00 4B 45 50 54; 7C00: 4B 45 50 54; 7C01: 71 DataBelow; 100001: 71 DataBelow

# data at 0, and at 7C00H
98 28 04 7C 02 01 01
A0 01 00 00 4C 4F 53 54
A0 01 00 7C 4B 45 50 54
= 0: 4C 4F 53 54 00*31740 4B 45 50 54; 7BFF: 71 DataBelow; 7C00: 71 DataBelow; 7C01: 71 DataBelow; 100001: 71 DataBelow

# all of it below
98 28 04 00 02 01 01
A0 01 00 00 4C 4F 53 54
= 0: 4C 4F 53 54; 7BFF: 71 DataBelow; 7C00: 71 DataBelow; 7C01: 71 DataBelow; 100001: 71 DataBelow

# a byte 00 is data
98 28 04 7C 02 01 01
A0 01 FF 7B 00
= 0: 00*31744; 7BFF: 00; 7C00: 71 DataBelow; 7C01: 71 DataBelow; 100001: 71 DataBelow

# data of a second module
98 28 00 7C 02 01 01
--
98 28 01 00 02 01 01
A0 01 00 00 C3
= 0: 00*31744 C3; 7BFF: 00 C3; 7C00: C3; 7C01: 71 DataBelow; 100001: 71 DataBelow

# memory alone, and data that is repeated no time
98 28 04 7C 02 01 01
A2 01 00 00 00 00 00 00 01 41
= 0:; 7BFF:; 7C00:; 7C01:; 100001:",
        &[0, 0x7BFF, 0x7C00, 0x7C01, 0x10_0001],
    )
}

/// The program of a row that is only records.
fn program_of(alloc: Global, records: &str) -> Result<Program, Fail> {
    let row = read_row(alloc, records)?;
    let Ok(modules) = read_modules(alloc, &row.inputs) else {
        return Err(Fail::new(format_args!("no modules")));
    };
    let Ok(layout) = place(alloc, &modules, Names::Exact) else {
        return Err(Fail::new(format_args!("no layout")));
    };
    match build(alloc, &modules, &layout) {
        Ok(program) => Ok(program),
        Err(fault) => Err(Fail::new(format_args!("{fault}"))),
    }
}

/// Two words that are relocated, at 1 and at 4, the first with the frame 1.
const TWO_WORDS: &str = "\
98 28 10 00 02 01 01
98 60 08 00 01 01 01
A0 02 00 00 AA 00 00 BB 00 00 CC
9C C8 01 04 02 02 C8 04 04 01 01";

/// The file at a paragraph is the program's there, from each address on: also from the middle of a word, and behind the
/// end.
#[test]
fn from_each_address_on(rt: HostRuntime) -> Result<(), Fail> {
    let program = program_of(rt.alloc(), TWO_WORDS)?;
    let mut text = String::new(rt.alloc());
    for at in [
        (0, 0x0F),
        (0x07C0, 0x10),
        (0xFFFF, 0x10),
        (0x1234, 0x11),
        (0x1234, 0x12),
        (0x1234, 0x13),
        (0x1234, 0x15),
        (0x1234, 0x16),
        (0x1234, 0x17),
        (0x1234, 0x12_3456),
    ] {
        push_bin(rt.alloc(), &mut text, &program, at, 20)?;
    }
    same(
        &text,
        "\
; 0000 from F: 00 AA 01 00 BB 00*2 CC\
; 07C0 from 10: AA C1 07 BB C0 07 CC\
; FFFF from 10: AA 00*2 BB FF*2 CC\
; 1234 from 11: 35 12 BB 34 12 CC\
; 1234 from 12: 12 BB 34 12 CC\
; 1234 from 13: BB 34 12 CC\
; 1234 from 15: 12 CC\
; 1234 from 16: CC\
; 1234 from 17:\
; 1234 from 123456:",
    )
}

/// Where the sink fails it holds the front of the file for which there was room.
#[test]
fn a_failing_sink(rt: HostRuntime) -> Result<(), Fail> {
    let program = program_of(rt.alloc(), TWO_WORDS)?;
    let mut text = String::new(rt.alloc());
    for len in 0..8 {
        push_bin(rt.alloc(), &mut text, &program, (0x1234, 0x10), len)?;
    }
    same(
        &text,
        "\
; 1234 from 10: failed\
; 1234 from 10: failed AA\
; 1234 from 10: failed AA 35\
; 1234 from 10: failed AA 35 12\
; 1234 from 10: failed AA 35 12 BB\
; 1234 from 10: failed AA 35 12 BB 34\
; 1234 from 10: failed AA 35 12 BB 34 12\
; 1234 from 10: AA 35 12 BB 34 12 CC",
    )
}
