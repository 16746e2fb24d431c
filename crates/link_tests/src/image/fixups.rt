//! Fix-ups of repeated data, and many fix-ups of a record.

use super::said::run;
use std::test::*;

/// Each fix-up is added at each copy of its location. The bytes were stored at places 5 and up.
#[test]
fn repeated_data(rt: HostRuntime) -> Result<(), Fail> {
    run(
        rt.alloc(),
        "\
98 28 06 00 02 01 01
A2 01 00 00 02 00 00 00 03 01 02 03
9C C0 06 00 01 01 10 00
= 6 of 6 in 1: 01 12 03 01 12 03; 0000:0000 0000:0000

# words over the first two and the last two of three bytes; the second carries
98 28 06 00 02 01 01
A2 01 00 00 02 00 00 00 03 00 00 00
9C C4 05 00 01 01 FF 80 C4 06 00 01 01 80 00
= 6 of 6 in 1: FF 00 01 FF 00 01; 0000:0000 0000:0000

# a byte twice and a word, in a block that is repeated
98 28 08 00 02 01 01
A2 01 00 00 02 00 02 00 02 00 00 00 01 AA 01 00 00 00 02 00 00
9C C0 09 00 01 01 01 00 C4 0F 00 01 01 01 02
= 8 of 8 in 1: AB*2 01 02 AB*2 01 02; 0000:0000 0000:0000

# what is repeated no times has no copies
98 28 02 00 02 01 01
A2 01 00 00 00 00 00 00 02 09 09 02 00 00 00 01 05
9C C8 05 04 01 01
9C C8 05 04 01 01
9C C0 0C 00 01 01 01 00
= 2 of 2 in 1: 06*2; 0000:0000 0000:0000

# a relocated word in each copy
98 28 06 00 02 01 01
A2 01 00 00 02 00 00 00 03 01 02 03
9C C8 06 04 01 01
= 6 of 6 in 1: 01 02 03 01 02 03 @1 @4; 0000:0000 0000:0000

98 28 08 00 02 01 01
A2 01 00 00 02 00 00 00 04 00 00 00 00
9C CC 05 00 01 01 34 12
= 8 of 8 in 1: 34 12 00*2 34 12 00*2 @2 @6; 0000:0000 0000:0000

98 28 06 00 02 01 01
A2 01 00 00 02 00 00 00 03 00 00 00
9C C8 05 04 01 01
9C 80 07 00 01 01 10 00
= 6 of 6 in 1: 00*2 0D 00*2 0A @0 @3; 0000:0000 0000:0000

# data beside the relocated words of the copies
98 28 06 00 02 01 01
A2 01 00 00 02 00 00 00 03 00 00 00
9C C8 05 04 01 01
A0 01 02 00 AA
= 6 of 6 in 1: 00*2 AA 00*3 @0 @3; 0000:0000 0000:0000",
    )
}

/// A self-relative fix-up counts from each copy, after segment-relative ones and before them.
#[test]
fn mixed_orders(rt: HostRuntime) -> Result<(), Fail> {
    run(
        rt.alloc(),
        "\
98 28 04 00 02 01 01
A2 01 00 00 02 00 00 00 02 00 00
9C C4 05 00 01 01 F5 00
9C 84 05 00 01 01 10 00
= 4 of 4 in 1: 03 01*3; 0000:0000 0000:0000

98 28 04 00 02 01 01
A2 01 00 00 02 00 00 00 02 00 00
9C 84 05 00 01 01 10 00
9C C4 05 00 01 01 F5 00
= 4 of 4 in 1: 03 01*3; 0000:0000 0000:0000

# of two words that share a byte the second carries into its own high byte
98 28 06 00 02 01 01
A2 01 00 00 02 00 00 00 03 00 00 00
9C C4 05 00 01 01 01 FF
9C 84 06 00 01 01 10 00
= 6 of 6 in 1: 01 0C 01*2 09 01; 0000:0000 0000:0000

98 28 06 00 02 01 01
A2 01 00 00 02 00 00 00 03 00 00 00
9C 84 06 00 01 01 10 00
9C C4 05 00 01 01 01 FF
= 6 of 6 in 1: 01 0C 00 01 09 00; 0000:0000 0000:0000

98 28 06 00 02 01 01
A2 01 00 00 02 00 00 00 03 00 00 00
9C C0 07 00 01 01 01 00
9C 84 05 00 01 01 10 00
9C C0 07 00 01 01 01 00
9C C0 07 00 01 01 01 00
= 6 of 6 in 1: 0E 00 03 0B 00 03; 0000:0000 0000:0000",
    )
}

/// An overlap with a relocated word is found in each order, and so is data over the word of a copy.
#[test]
fn overlaps(rt: HostRuntime) -> Result<(), Fail> {
    run(
        rt.alloc(),
        "\
98 28 06 00 02 01 01
A2 01 00 00 02 00 00 00 03 00 00 00
9C C8 05 04 01 01
9C C4 06 00 01 01 02 01
= fix-ups share a relocated word at record 50 of input 0

98 28 06 00 02 01 01
A2 01 00 00 02 00 00 00 03 00 00 00
9C C4 06 00 01 01 02 01
9C C8 05 04 01 01
= fix-ups share a relocated word at record 52 of input 0

98 28 06 00 02 01 01
A2 01 00 00 02 00 00 00 03 00 00 00
9C C8 05 04 01 01
9C C8 05 04 01 01
= fix-ups share a relocated word at record 50 of input 0

98 28 06 00 02 01 01
A2 01 00 00 02 00 00 00 03 00 00 00
9C C8 05 04 01 01
9C 84 06 00 01 01 10 00
= fix-ups share a relocated word at record 50 of input 0

98 28 06 00 02 01 01
A2 01 00 00 02 00 00 00 03 00 00 00
9C 84 06 00 01 01 10 00
9C C8 05 04 01 01
= fix-ups share a relocated word at record 52 of input 0

98 28 06 00 02 01 01
A2 01 00 00 02 00 00 00 03 00 00 00
9C C4 06 00 01 01 02 01
9C 80 07 00 01 01 10 00
9C C8 05 04 01 01
= fix-ups share a relocated word at record 63 of input 0

98 28 06 00 02 01 01
A2 01 00 00 02 00 00 00 03 00 00 00
9C C8 05 04 01 01
9C 80 07 00 01 01 10 00
9C C0 06 00 01 01 01 00
= fix-ups share a relocated word at record 61 of input 0

98 28 06 00 02 01 01
A2 01 00 00 02 00 00 00 03 00 00 00
9C C8 05 04 01 01
A0 01 04 00 AA
= data covers a relocated word at record 50 of input 0

# a distance from an absolute frame is none, even without a copy
98 28 02 00 02 01 01
98 00 00 B8 00 00 40 01 01 01
A2 01 00 00 00 00 00 00 02 00 00
9C C4 05 00 02 01 00 00
= a distance between relocatable and absolute at record 53 of input 0",
    )
}

/// 204,800 fix-ups of 1,024 bytes take no turn over all bytes for each.
#[test]
fn many_fixups(rt: HostRuntime) -> Result<(), Fail> {
    let mut table = format!(in rt.alloc(); "98 28 00 04 02 01 01\nA0 01 00 00 00*1024\n9C")?;
    for place in 0..1024u16 {
        let [low, high] = place.to_le_bytes();
        let head = 0xC0 | high;
        table.push_str(&format!(in rt.alloc(); " {head:02X} {low:02X} 00 01 01 01 00")?)?;
    }
    table.push_str(" x200\n= 1024 of 1024 in 1: C8*1024; 0000:0000 0000:0000")?;
    run(rt.alloc(), &table)
}

/// 87,300 fix-ups of a byte that is repeated 65,535 times take no turn over its copies for each.
#[test]
fn many_copies(rt: HostRuntime) -> Result<(), Fail> {
    run(
        rt.alloc(),
        "\
98 28 FF FF 02 01 01
A2 01 00 00 FF FF 00 00 01 00
9C C0 05 00 01 01 01 00 x87300
= 65535 of 65535 in 16: 04*65535; 0000:0000 0000:0000",
    )
}
