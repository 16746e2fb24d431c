//! By how many bytes what is too long is.

use omf_place::excess;
use refusing::refuse_each;
use rows::{read_modules, read_row, same};
use std::alloc::{AllocError, Allocator, Global};
use std::process::Abort;
use std::test::*;

/// By how many bytes what inputs give is too long; `-` where it isn't.
fn told<A: Allocator + Copy>(
    alloc: A,
    words: Global,
    inputs: &[Vec<u8>],
) -> Result<String, AllocError> {
    match read_modules(alloc, inputs) {
        Ok(modules) => match excess(alloc, &modules) {
            Ok(Some(bytes)) => format!(in words; "{bytes}"),
            Ok(None) => format!(in words; "-"),
            Err(AllocError) => format!(in words; "memory"),
        },
        Err(fault) => format!(in words; "{fault}"),
    }
}

/// The inputs of each row of a table are too long by as many bytes as is wanted.
fn run(alloc: Global, table: &str) -> Result<(), Fail> {
    for row in table.split("\n\n") {
        let row = read_row(alloc, row)?;
        same(told(alloc, alloc, &row.inputs)?.as_str(), row.wanted)?;
    }
    Ok(())
}

/// Combined segments.
const SEGMENTS: &str = "\
# as long as may be, and one byte longer
98 76 00 00 02 01 01
= -

98 76 00 00 02 01 01
98 74 01 00 02 01 01
= 1

# parts of three modules
98 28 50 C3 02 01 01
--
98 28 50 C3 02 01 01
--
98 28 50 C3 02 01 01
= 84464

# one that begins 15 bytes above its frame has 15 bytes less
98 20 0F 00 02 01 01
98 2A 00 00 02 01 01
= 15

98 20 0F 00 02 01 01
98 28 F2 FF 02 01 01
= 1

98 20 0F 00 02 01 01
98 28 F1 FF 02 01 01
= -

# parts of a common segment lie over each other
98 20 0F 00 02 01 01
98 38 F3 FF 02 01 01
98 38 F5 FF 02 01 01
= 4

# the first in the order of placement, which isn't the one that is met first, nor the longest
80 01 41
96 00 01 41 01 42 01 43
98 28 01 00 02 03 01
98 28 FF FF 02 02 01
98 28 FF FF 02 02 01
98 28 FF FF 04 03 01
98 28 02 00 04 03 01
= 2

# publics of one name come behind
98 28 05 00 02 01 01
90 00 01 01 78 00 00 00 01 78 01 00 00
= -";

#[test]
fn segments(rt: HostRuntime) -> Result<(), Fail> {
    run(rt.alloc(), SEGMENTS)
}

#[test]
fn no_modules(rt: HostRuntime) -> Result<(), Fail> {
    same(told(rt.alloc(), rt.alloc(), &[])?.as_str(), "-")
}

/// Groups and programs.
const GROUPS: &str = "\
# as long as may be, and two bytes longer
98 28 FF FF 02 01 01
98 28 01 00 01 01 01
9A 02 FF 01 FF 02
= -

98 28 FF FF 02 01 01
98 28 03 00 01 01 01
9A 02 FF 01 FF 02
= 2

# members in two modules, with what stands between them
98 28 10 00 02 01 01
98 28 00 F0 01 01 01
9A 02 FF 01
--
98 60 01 20 01 01 01
9A 02 FF 01
= 4113

# no members
9A 02
= -

# the first that is met
80 01 41
96 00 01 41 01 42 01 43
98 28 FF FF 02 01 01
98 68 FF FF 03 01 01
98 28 01 00 04 01 01
9A 04 FF 03
9A 03 FF 02 FF 03
9A 02 FF 01 FF 02
9A 03 FF 01
= 65536

# a program of 1,048,560 bytes, and of one more; segments come first, and groups last
98 22 00 00 01 01 01 x15
98 20 F0 FF 01 01 01
= -

98 22 00 00 01 01 01 x15
98 20 F1 FF 01 01 01
= 1

98 22 00 00 01 01 01 x15
98 20 F1 FF 01 01 01
98 76 00 00 02 01 01
98 74 03 00 02 01 01
= 3

98 22 00 00 01 01 01 x15
98 20 FA FF 01 01 01
9A 02 FF 01 FF 02
= 10

98 22 00 00 01 01 01 x15
98 20 F0 FF 01 01 01
9A 02 FF 01 FF 02
= 65536";

#[test]
fn groups_and_programs(rt: HostRuntime) -> Result<(), Fail> {
    run(rt.alloc(), GROUPS)
}

/// For each row of a table, how many growths can be refused with the same answer.
fn made_do<R: Abort>(rt: &R, alloc: Global, table: &str) -> Result<String, Fail> {
    let mut counts = String::new(alloc);
    for row in table.split("\n\n") {
        let row = read_row(alloc, row)?;
        let (wants, made_do) = refuse_each(alloc, row.wanted, |heap| {
            Ok(told(heap, alloc, &row.inputs)?)
        })?;
        assert!(rt; 10 < wants && wants < 250, "{wants}");
        write!(counts, " {made_do}")?;
    }
    Ok(counts)
}

/// A stack that is one byte too long, and a group that is.
const LONG: &str = "\
98 76 00 00 02 01 01
98 74 01 00 02 01 01
= 1

98 28 FF FF 02 01 01
98 28 02 00 01 01 01
9A 02 FF 01 FF 02
= 1";

#[test]
fn refused_growths(rt: HostRuntime) -> Result<(), Fail> {
    same(made_do(&rt, rt.alloc(), LONG)?.as_str(), " 0 1")
}
