//! Programs by their bytes, relocations and registers, and why none is made.

use super::said::{outcome, run};
use omf_image::{Program, build};
use omf_place::{Names, place};
use refusing::Refusing;
use rows::{read_modules, read_row, same};
use std::alloc::Allocator;
use std::process::Abort;
use std::test::*;

#[test]
fn images(rt: HostRuntime) -> Result<(), Fail> {
    run(
        rt.alloc(),
        "\
# a low byte keeps its carry
98 28 02 00 02 01 01
A0 01 00 00 FF 00
9C C0 00 00 01 01 02 00
= 2 of 2 in 1: 01 00; 0000:0000 0000:0000

# a distance counts from the end of each repetition
98 28 04 00 02 01 01
A2 01 00 00 02 00 00 00 02 00 00
9C 84 05 00 01 01 10 00
= 4 of 4 in 1: 0E 00 0C 00; 0000:0000 0000:0000

# an absolute target has its own frame
98 28 02 00 02 01 01
98 00 00 B8 00 00 40 01 01 01
A0 01 00 00 00 00
9C C4 00 00 01 02 34 12
= 2 of 2 in 1: 34 12; 0000:0000 0000:0000

98 28 02 00 02 01 01
98 00 00 B8 00 00 40 01 01 01
A0 01 00 00 00 00
9C C8 00 04 02 02
= 2 of 2 in 1: 00 B8; 0000:0000 0000:0000

98 28 0C 00 02 01 01
A2 01 00 00 02 00 01 00 03 00 00 00 02 41 42
= 12 of 12 in 1: 41 42 41 42 41 42 41 42 41 42 41 42; 0000:0000 0000:0000

98 28 06 00 02 01 01
A2 01 00 00 03 00 00 00 02 00 00
9C C8 05 04 01 01
= 6 of 6 in 1: 00*6 @0 @2 @4; 0000:0000 0000:0000

# a call
98 28 11 00 02 01 01
8C 01 78 00
90 00 01 01 78 10 00 00
A0 01 00 00 E8 00 00
9C 84 01 56 01
= 3 of 17 in 1: E8 0D 00*15; 0000:0000 0000:0000

# two offsets on the same bytes are added
98 28 03 00 02 01 01
8C 01 78 00 01 79 00
90 00 00 00 00 01 78 32 16 00 01 79 00 40 00
A0 01 00 00 9B 26 D9
9C C4 00 56 01 C4 01 56 02
= 3 of 3 in 1: CD 3C 19; 0000:0000 0000:0000

# later data wins
98 28 04 00 02 01 01
A0 01 00 00 00 00 00 00
9C C4 00 00 01 01 34 12
A0 01 01 00 AA
= 4 of 4 in 1: 34 AA 00*2; 0000:0000 0000:0000

# an external that no fix-up names needs no public
98 28 03 00 02 01 01
8C 01 78 00
A0 01 00 00 E8 00 00
= 3 of 3 in 1: E8 00*2; 0000:0000 0000:0000

# a short jump as far as can be
98 28 02 00 02 01 01
A0 01 00 00 EB 00
9C 80 01 00 01 01 81 00
= 2 of 2 in 1: EB 7F; 0000:0000 0000:0000

# the public of an empty group has an address
98 28 02 00 02 01 01
9A 02
8C 01 78 00
90 01 01 01 78 01 00 00
A0 01 00 00 00 00
9C C4 00 06 01 01
= 2 of 2 in 1: 01 00; 0000:0000 0000:0000

# data that is repeated no time has no hit
98 28 02 00 02 01 01
98 00 00 B8 00 00 40 01 01 01
A2 01 00 00 00 00 00 00 02 00 00
9C C8 05 04 01 01
= 0 of 2 in 0: 00*2; 0000:0000 0000:0000",
    )
}

#[test]
fn faults(rt: HostRuntime) -> Result<(), Fail> {
    run(
        rt.alloc(),
        "\
98 28 04 00 02 01 01
A0 01 00 00 00 00 00 00
9C C8 00 04 01 01
A0 01 01 00 AA
= data covers a relocated word at record 46 of input 0

98 28 11 00 02 01 01
8C 01 78 00
A0 01 00 00 E8 00 00
9C 84 01 56 01
= an external has no public at record 43 of input 0

# also where nothing is added
98 28 02 00 02 01 01
8C 01 78 00
A2 01 00 00 00 00 00 00 02 00 00
9C C4 05 56 01
= an external has no public at record 47 of input 0

# before an empty group
98 28 02 00 02 01 01
9A 02
8C 01 78 00
A0 01 00 00 00 00
9C C8 00 16 01 01
= an external has no public at record 47 of input 0

98 28 02 00 02 01 01
9A 02
A0 01 00 00 00 00
9C C8 00 14 01 01
= a group has no members at record 40 of input 0

98 28 02 00 02 01 01
9A 02
A0 01 00 00 00 00
9C C8 00 05 01 01
= a group has no members at record 40 of input 0

# an absolute target has no frame of its own under a frame that doesn't exist
98 28 02 00 02 01 01
98 00 00 B8 00 00 40 01 01 01
9A 02
A0 01 00 00 00 00
9C C4 00 14 01 02
= a group has no members at record 53 of input 0

98 28 02 00 02 01 01
98 00 00 B8 00 00 40 01 01 01
A0 01 00 00 00 00
9C C4 00 00 02 01 00 00
= a distance between relocatable and absolute at record 48 of input 0

98 28 02 00 02 01 01
98 00 00 B8 00 00 40 01 01 01
A0 01 00 00 00 00
9C 84 00 04 02 02
= a distance between relocatable and absolute at record 48 of input 0

98 28 20 00 02 01 01
98 68 04 00 01 01 01
A0 02 00 00 00 00 05 00
9C C4 00 00 02 01 00 00
= a distance leaves its frame at record 47 of input 0

98 28 02 00 02 01 01
A0 01 00 00 EB 00
9C 80 01 00 01 01 82 00
= a distance doesn't fit a byte at record 35 of input 0

# bases one byte apart
98 28 04 00 02 01 01
A0 01 00 00 00 00 00 00
9C C8 00 04 01 01 C8 01 04 01 01
= fix-ups share a relocated word at record 37 of input 0

# a base on an earlier offset, and an offset on an earlier base
98 28 04 00 02 01 01
A0 01 00 00 00 00 00 00
9C C4 00 04 01 01 C8 01 04 01 01
= fix-ups share a relocated word at record 37 of input 0

98 28 04 00 02 01 01
A0 01 00 00 00 00 00 00
9C C8 00 04 01 01 C4 01 04 01 01
= fix-ups share a relocated word at record 37 of input 0

# a base on the offset of an absolute pointer
98 28 04 00 02 01 01
98 00 00 B8 00 00 40 01 01 01
A0 01 00 00 00 00 00 00
9C CC 00 04 02 02 C8 00 04 01 01
= fix-ups share a relocated word at record 50 of input 0",
    )
}

#[test]
fn bases_and_pointers(rt: HostRuntime) -> Result<(), Fail> {
    run(
        rt.alloc(),
        "\
98 28 20 00 02 01 01
98 68 04 00 01 01 01
A0 02 00 00 00 00 05 00
9C C8 00 00 02 01 00 00
= 36 of 36 in 1: 00*32 02 00 05 00 @32; 0000:0000 0000:0000

98 28 20 00 02 01 01
98 68 04 00 01 01 01
A0 02 00 00 00 00 05 00
9C CC 00 00 02 02 03 00
= 36 of 36 in 1: 00*32 03 00 07 00 @34; 0000:0000 0000:0000

# a word that begins with the last byte of a paragraph
98 28 FE FF 02 01 01
98 28 04 00 01 01 01
A0 02 01 00 00 00
9C C8 00 04 02 02
= 65537 of 65538 in 2: 00*65535 FF 0F 00 @65535; 0000:0000 0000:0000",
    )
}

/// A module that takes a word of another one by a group.
const GROUPED: &str = "\
80 01 41
96 00 04 43 4F 44 45 05 5F 44 41 54 41 06 44 47 52 4F 55 50
98 68 12 00 02 02 01
98 48 03 00 03 03 01
9A 04 FF 02
8C 01 78 00
A0 01 00 00 B8 00 00 A1 00 00
9C 44 01 08 01
9C C8 01 8C C4 04 8C
8A C1 00 01 01 00 00
--
80 01 42
96 00 05 5F 44 41 54 41 06 44 47 52 4F 55 50
98 48 02 00 02 02 01
9A 03 FF 01
90 01 01 01 78 00 00 00
A0 01 00 00 34 12
= 24 of 24 in 1: B8 01 00 A1 06 00*17 34 12 @1; 0000:0000 0000:0000";

#[test]
fn two_inputs(rt: HostRuntime) -> Result<(), Fail> {
    run(rt.alloc(), GROUPED)?;
    run(
        rt.alloc(),
        "\
# common segments lie over one another
98 38 04 00 02 01 01
A0 01 00 00 11 22 33 44
--
98 38 02 00 02 01 01
A0 01 00 00 AA BB
= 4 of 4 in 1: AA BB 33 44; 0000:0000 0000:0000

# each input has its own entry
98 28 05 00 02 01 01
A0 01 00 00 B8 00 00 8E D8
9C C8 01 04 01 01
8A C1 00 01 01 00 00
= 5 of 5 in 1: B8 00*2 8E D8 @1; 0000:0000 0000:0000

98 28 05 00 02 01 01
A0 01 00 00 B8 00 00 8E D8
9C C8 01 04 01 01
8A C1 00 01 01 00 00
--
98 28 05 00 02 01 01
A0 01 00 00 B8 00 00 8E D8
9C C8 01 04 01 01
8A C1 00 01 01 00 00
= a second start at record 47 of input 1",
    )
}

#[test]
fn registers(rt: HostRuntime) -> Result<(), Fail> {
    run(
        rt.alloc(),
        "\
98 68 05 00 02 01 01
= 0 of 5 in 0: 00*5; 0000:0000 0000:0000

98 68 05 00 02 01 01
98 74 00 01 02 01 01
= 0 of 272 in 0: 00*272; 0000:0000 0001:0100

98 68 05 00 02 01 01
98 76 00 00 01 02 01
= 0 of 65552 in 0: 00*65552; 0000:0000 0001:0000

# of two stacks the first
98 68 05 00 02 01 01
98 74 00 01 02 01 01
98 76 00 00 01 02 01
= 0 of 65808 in 0: 00*65808; 0000:0000 0001:0100

98 68 05 00 02 01 01
98 68 05 00 01 01 01
98 74 00 01 02 01 01
8A C1 00 02 02 03 00
= 0 of 288 in 0: 00*288; 0001:0003 0002:0100",
    )
}

#[test]
fn start_faults(rt: HostRuntime) -> Result<(), Fail> {
    run(
        rt.alloc(),
        "\
98 28 20 00 02 01 01
8C 01 78 00
8A C1 56 01
= an external has no public at record 33 of input 0

98 28 20 00 02 01 01
9A 02
8A C1 14 01 01
= a group has no members at record 31 of input 0

98 28 20 00 02 01 01
98 00 00 B8 00 00 40 01 01 01
8A C1 04 02 02
= a distance between relocatable and absolute at record 39 of input 0

98 28 20 00 02 01 01
98 68 04 00 01 01 01
8A C1 04 02 01
= a distance leaves its frame at record 36 of input 0

# a fault of data comes first
98 28 20 00 02 01 01
8C 01 78 00
A0 01 00 00 00 00
9C C4 00 56 01
8A C1 56 01
= an external has no public at record 42 of input 0",
    )
}

/// Data over the end of a page.
const EDGE: &str = "\
98 28 02 10 02 01 01
A0 01 FF 0F 00 00
9C C4 00 00 01 01 34 12";

#[test]
fn pages(rt: HostRuntime) -> Result<(), Fail> {
    run(
        rt.alloc(),
        "\
98 28 02 10 02 01 01
A0 01 FF 0F 00 00
9C C4 00 00 01 01 34 12
= 4097 of 4098 in 2: 00*4095 34 12 00; 0000:0000 0000:0000

98 28 FE FF 02 01 01
A0 01 00 F0 AA
= 61441 of 65534 in 1: 00*61440 AA 00*4093; 0000:0000 0000:0000",
    )
}

/// A piece ends with its page.
fn has_pieces<R: Abort, A: Allocator + Copy>(rt: &R, program: &Program<A>) {
    assert_eq!(rt; program.size(), 4098);
    let pieces = (program.piece(4095), program.piece(4096));
    assert_eq!(rt; pieces, ([0x34].as_slice(), [0x12, 0].as_slice()));
}

fn link_edge<R: Abort, A: Allocator + Copy>(
    rt: &R,
    alloc: A,
    inputs: &[Vec<u8>],
) -> Result<(), Fail> {
    let modules = read_modules(alloc, inputs)?;
    let layout = place(alloc, &modules, Names::Exact)?;
    let program = build(alloc, &modules, &layout)?;
    has_pieces(rt, &program);
    Ok(())
}

#[test]
fn pieces(rt: HostRuntime) -> Result<(), Fail> {
    let row = read_row(rt.alloc(), EDGE)?;
    link_edge(&rt, rt.alloc(), &row.inputs)
}

#[test]
fn written_part(rt: HostRuntime) -> Result<(), Fail> {
    run(
        rt.alloc(),
        "\
98 28 05 00 02 01 01
= 0 of 5 in 0: 00*5; 0000:0000 0000:0000

98 28 04 00 02 01 01
A0 01 00 00 00 00 00 00
= 4 of 4 in 1: 00*4; 0000:0000 0000:0000

98 28 11 00 02 01 01
A0 01 00 00 E8 00 00
= 3 of 17 in 1: E8 00*16; 0000:0000 0000:0000

# at a page's edge and behind it
98 28 88 13 02 01 01
A0 01 FF 0F AA
= 4096 of 5000 in 1: 00*4095 AA 00*904; 0000:0000 0000:0000

98 28 88 13 02 01 01
A0 01 FF 0F AA BB
= 4097 of 5000 in 2: 00*4095 AA BB 00*903; 0000:0000 0000:0000

# zeros of data are data
98 28 08 00 02 01 01
A0 01 00 00 AA
A0 01 02 00 00 00
= 4 of 8 in 1: AA 00*7; 0000:0000 0000:0000

# an earlier record reaches farther
98 28 08 00 02 01 01
A0 01 03 00 AA
A0 01 00 00 AA
= 4 of 8 in 1: AA 00*2 AA 00*4; 0000:0000 0000:0000

# a record without bytes covers none
98 28 08 00 02 01 01
A0 01 00 00 AA
A0 01 08 00
= 1 of 8 in 1: AA 00*7; 0000:0000 0000:0000

98 28 08 00 02 01 01
A0 01 08 00
= 0 of 8 in 0: 00*8; 0000:0000 0000:0000

98 28 08 00 02 01 01
A2 01 02 00 00 00 00 00 01 AA
= 0 of 8 in 0: 00*8; 0000:0000 0000:0000",
    )
}

/// 65,534 and as many more as the last data record has.
#[test]
fn relocated_words(rt: HostRuntime) -> Result<(), Fail> {
    run(
        rt.alloc(),
        "\
98 28 FE FF 02 01 01
98 60 FE FF 01 01 01 x2
A2 01 00 00 FF 7F 00 00 02 00 00
9C C8 05 04 01 01
A2 02 00 00 FF 7F 00 00 02 00 00
9C C8 05 04 01 01
A0 03 00 00 00 00
9C C8 00 04 03 03
= 131074 of 196606 in 33: 00*131073 20 00*65532 and 65535 relocated words; 0000:0000 0000:0000

# one more
98 28 FE FF 02 01 01
98 60 FE FF 01 01 01 x2
A2 01 00 00 FF 7F 00 00 02 00 00
9C C8 05 04 01 01
A2 02 00 00 FF 7F 00 00 02 00 00
9C C8 05 04 01 01
A0 03 00 00 00 00 00 00
9C C8 00 04 03 03 C8 02 04 03 03
= too many relocated words",
    )
}

/// Want of memory where a growth is refused, or the program where an index map makes do with a smaller growth.
#[test]
fn each_growth(rt: HostRuntime) -> Result<(), Fail> {
    let row = read_row(rt.alloc(), GROUPED)?;
    let mut refused_building = 0;
    for number in 1..1000 {
        let heap = Refusing::nth(rt.alloc(), number);
        let said = outcome(&heap, rt.alloc(), &row.inputs)?;
        if !heap.has_refused() {
            same(said.as_str(), row.wanted)?;
            break;
        }
        match said.as_str() {
            "no memory" | "memory" => {}
            "out of memory" => refused_building = number,
            text => same(text, row.wanted)?,
        }
    }
    assert!(rt; refused_building > 4);
    Ok(())
}
