//! COMDATs, held against the segments, public names and data that they are.

use super::modules::{compare_modules, is_other};
use omf_alias::Renaming;
use omf_place::Names;
use rows::read_row;
use std::alloc::Global;
use std::process::Abort;
use std::test::*;

/// Whether each module of a table says what its row has.
fn run<R: Abort>(rt: &R, alloc: Global, table: &str) -> Result<(), Fail> {
    for text in table.split("\n\n") {
        let row = read_row(alloc, text)?;
        let held = compare_modules(rt, alloc, false, &Renaming::none(Names::Exact), &row)?;
        assert!(rt; held, "{text}");
    }
    Ok(())
}

/// Whether a record of each module of a table isn't taken.
fn run_untaken<R: Abort>(rt: &R, alloc: Global, table: &str) -> Result<(), Fail> {
    for text in table.split("\n\n") {
        let row = read_row(alloc, text)?;
        let other = is_other(alloc, &row)?;
        assert!(rt; other, "{text}");
    }
    Ok(())
}

/// Where one is put, by its allocation, its alignment and its base.
#[test]
fn put(rt: HostRuntime) -> Result<(), Fail> {
    run(
        &rt,
        rt.alloc(),
        "\
# into a segment, at a byte; pick any
80 01 41
C2 00 10 01 00 00 00 00 01 05 AA BB
--
80 01 41
98 28 02 00 02 03 01
90 00 07 01 45 00 00 00
A0 07 00 00 AA BB

# aligned as the segment, with a type and a group; exact match, of 32 bits
80 01 41
C3 00 30 00 00 00 00 00 09 01 01 05 AA
--
80 01 41
98 28 01 00 02 03 01
90 01 07 01 45 00 00 09
A0 07 00 00 AA

# a local one at a word, with data behind a gap
80 01 41
C2 04 00 02 03 00 00 00 01 06 AA
--
80 01 41
98 48 04 00 02 03 01
B6 00 07 01 46 00 00 00
A0 07 03 00 AA

# at a double word, a paragraph and a page
80 01 41
C2 00 00 05 00 00 00 00 01 05 AA
C2 00 00 03 00 00 00 00 01 06 BB
C2 00 00 04 00 00 00 00 01 07 CC
--
80 01 41
98 A8 01 00 02 03 01
90 00 07 01 45 00 00 00
A0 07 00 00 AA
98 68 01 00 02 03 01
90 00 08 01 46 00 00 00
A0 08 00 00 BB
98 88 01 00 02 03 01
90 00 09 01 47 00 00 00
A0 09 00 00 CC

# far code and far data, whose classes are listed
80 01 41
96 00 01 66 01 64 04 43 4F 44 45 08 46 41 52 5F 44 41 54 41
C2 08 11 00 00 00 00 02 90
C2 00 12 01 00 00 00 03 91
C2 08 13 02 00 00 00 04 92
C2 00 14 00 00 00 00 05 93
--
80 01 41
96 00 01 66 01 64 04 43 4F 44 45 08 46 41 52 5F 44 41 54 41
98 60 01 00 02 04 00
90 00 01 01 66 00 00 00
A0 01 00 00 90
98 20 01 00 03 05 00
90 00 02 01 64 00 00 00
A0 02 00 00 91
98 40 01 00 04 04 00
90 00 03 04 43 4F 44 45 00 00 00
A0 03 00 00 92
98 60 01 00 05 05 00
90 00 04 08 46 41 52 5F 44 41 54 41 00 00 00
A0 04 00 00 93

# no class of that name
80 01 41
C2 00 11 00 00 00 00 05 90
--
80 01 41
98 60 01 00 05 00 00
90 00 07 01 45 00 00 00
A0 07 00 00 90

# the parts of a common segment lie over each other
80 01 41
96 00 01 42 01 43 01 45
98 78 04 00 02 03 01
C2 00 10 00 00 00 00 00 01 04 AA
--
80 01 41
96 00 01 42 01 43 01 45
98 78 04 00 02 03 01
98 68 01 00 02 03 01
90 00 02 01 45 00 00 00
A0 02 00 00 AA",
    )
}

/// Those that go on, and the fix-ups behind them.
#[test]
fn gone_on_with(rt: HostRuntime) -> Result<(), Fail> {
    run(
        &rt,
        rt.alloc(),
        "\
# a longer one, with fix-ups behind each part, and other data between them
80 01 41
C2 00 10 01 00 00 00 00 01 05 AA BB
9C C4 00 56 01
A0 01 00 00 11 22
9C C4 00 56 02
C2 01 10 01 02 00 00 00 01 05 CC DD EE
9C C4 01 56 03
--
80 01 41
98 28 05 00 02 03 01
90 00 07 01 45 00 00 00
A0 07 00 00 AA BB
9C C4 00 56 01
A0 01 00 00 11 22
9C C4 00 56 02
A0 07 02 00 CC DD EE
9C C4 01 56 03

# one of 32 bits that fits, of the number there
80 01 41
C2 00 10 01 00 00 00 00 01 05 10 00 00 00
9D E4 00 56 01
--
80 01 41
98 28 04 00 02 03 01
90 00 07 01 45 00 00 00
A0 07 00 00 10 00 00 00
9C D4 00 56 01

# a number below 0 there
80 01 41
C2 00 10 01 00 00 00 00 01 05 FC FF FF FF
9D E4 00 56 01
= record 2: a number has more than 16 bits

# of one of two that have a name, the other's threads stay
80 01 41
C2 00 10 01 00 00 00 00 01 05 AA BB
C2 00 10 01 00 00 00 00 01 05 11 22 33
9C 02 01 C4 00 56 02
A0 01 00 00 77 88
9C C4 00 5E
--
80 01 41
98 28 02 00 02 03 01
90 00 07 01 45 00 00 00
A0 07 00 00 AA BB
9C 02 01
A0 01 00 00 77 88
9C C4 00 5E

# two local ones of one name
80 01 41
C2 04 00 01 00 00 00 00 01 05 AA
C2 04 00 01 00 00 00 00 01 05 BB
--
80 01 41
98 28 01 00 02 03 01
B6 00 07 01 45 00 00 00
A0 07 00 00 AA
98 28 01 00 02 03 01
B6 00 08 01 45 00 00 00
A0 08 00 00 BB

# line numbers of one say nothing here
80 01 41
C2 00 10 01 00 00 00 00 01 05 AA
C4 00 05 05 00 00 00
C5 01 05 05 00 00 00 00 00
--
80 01 41
98 28 01 00 02 03 01
90 00 07 01 45 00 00 00
A0 07 00 00 AA",
    )
}

/// What is in the way of one.
#[test]
fn refused(rt: HostRuntime) -> Result<(), Fail> {
    run(
        &rt,
        rt.alloc(),
        "\
# nothing goes before it
80 01 41
C2 01 10 01 00 00 00 00 01 05 AA
= record 2: its body isn't one of its type

# what goes before it has another name
80 01 41
C2 00 10 01 00 00 00 00 01 05 AA
C2 01 10 01 01 00 00 00 01 06 AA
= record 3: its body isn't one of its type

# a segment that isn't defined
80 01 41
C2 00 10 01 00 00 00 00 07 05 AA
= record 2: its body isn't one of its type

# a segment behind one
80 01 41
C2 00 10 01 00 00 00 00 01 05 AA
98 28 01 00 02 03 01
= record 3: a segment is defined behind a COMDAT

# an offset of more than 16 bits
80 01 41
C3 00 10 01 00 00 01 00 00 00 01 05 AA
= record 2: a number has more than 16 bits",
    )
}

/// COMDATs of forms that aren't taken.
#[test]
fn untaken(rt: HostRuntime) -> Result<(), Fail> {
    run_untaken(
        &rt,
        rt.alloc(),
        "\
# at a frame
80 01 41
C2 00 10 01 00 00 00 00 00 00 B8 05 AA

# repeated data
80 01 41
C2 02 10 01 00 00 00 00 01 05 02 00 00 00 01 AA

# changes of its data
80 01 41
C2 00 10 01 00 00 00 00 01 05 AA
C8 01 05 00 00 01 00",
    )
}
