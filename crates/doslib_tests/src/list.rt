//! What `list` tells of files. Blank lines separate the rows of a table: a row is the lines of a file, and behind `= `
//! what is printed of it at the path `F`, and the lines of its faults, each behind `! `.

use super::files::file_of;
use doslib_text::{Whole, push_faults, push_list};
use rows::same;
use std::alloc::{AllocError, Allocator, Global};
use std::test::*;

/// Appends what is printed of a file at the path `F`, and the lines of its faults.
fn push_report<A: Allocator + Copy>(
    alloc: A,
    file: &[u8],
    text: &mut Vec<u8, A>,
    faults: &mut Vec<u8, A>,
) -> Result<(), AllocError> {
    let bytes = Vec::from_slice(alloc, file)?;
    let whole = Whole::of(alloc, bytes)?;
    let members = whole.members(alloc)?;
    push_list(alloc, text, "F", whole.kind, &members)?;
    push_faults(faults, "F", &members, whole.fault)
}

/// What is told of a file, with the memory of this allocator.
pub fn told<A: Allocator + Copy>(alloc: A, words: Global, file: &[u8]) -> Result<String, Fail> {
    let mut printed = Vec::new(alloc);
    let mut faults = Vec::new(alloc);
    if push_report(alloc, file, &mut printed, &mut faults).is_err() {
        return Ok(String::from_str(words, "no memory")?);
    }
    let mut text = String::from_str(words, str::from_utf8(&printed)?)?;
    for line in str::from_utf8(&faults)?.lines() {
        write!(text, "! {line}\n")?;
    }
    Ok(text)
}

/// What is told of each file of a table is what is wanted.
fn run(alloc: Global, table: &str) -> Result<(), Fail> {
    for row in table.split("\n\n") {
        let (lines, wanted) = row.split_once("\n= ").unwrap_or((row, ""));
        let file = file_of(alloc, lines)?;
        let text = told(alloc, alloc, &file)?;
        same(text.strip_suffix("\n").unwrap_or("no line end"), wanted)?;
    }
    Ok(())
}

#[test]
fn members_of_files(rt: HostRuntime) -> Result<(), Fail> {
    run(
        rt.alloc(),
        "\
# an object module, and what stands behind its end
80 05 68 2E 61 73 6D
96 00 01 63
8C 01 78 00 01 79 00
90 00 01 04 6D 61 69 6E 00 00 00
B0 01 76 00 62 02
88 00 9F 45 4D 55
8A 00
raw 1A 1A
= module \"F\" members 1
  00000000      66 \"h.asm\"
    offers \"main\"
    communal \"v\"
    wants \"x\"
    wants \"y\"
    library \"EMU\"

# a library, of which one member has a name of its own
lib 16
80 01 41
90 00 01 02 61 22 00 00 00
8A 00
pad 16
80 03 62 2E 63
88 00 A3 01 42
8C 02 61 5C 00
8A 00
pad 16
raw F1 0D 00 00*14
= library \"F\" members 2
  00000010      23 \"A\"
    offers \"a\\x22\"
  00000030      29 \"B\"
    wants \"a\\x5C\"

# an archive
text !<arch>
ar / 4
raw 00 00 00 00
ar a.o/ 11
80 01 41
8A 00
raw 0A
= archive \"F\" members 1
  00000084      11 \"a.o\"

lib 16
raw F1
= library \"F\" members 0",
    )
}

#[test]
fn members_before_faults(rt: HostRuntime) -> Result<(), Fail> {
    run(
        rt.alloc(),
        "\
# no module
raw 4D 5A 00 00
= module \"F\" members 1
  00000000       4 \"\"
! doslib: F: 44 Truncated at place 0

# a module that is cut off
80 01 41
90 00 01 01 79 00 00 00
raw 8A 02 00
= module \"F\" members 1
  00000000      20 \"A\"
    offers \"y\"
! doslib: F: 44 Truncated at place 17

raw
= module \"F\" members 1
  00000000       0 \"\"
! doslib: F: 44 Truncated at place 0

# a record without a closing byte
80 01 41
raw 8A 00 00
= module \"F\" members 1
  00000000       9 \"A\"
! doslib: F: 43 ZeroLength at place 6

# the second of two members has a wrong closing byte in its second record
lib 16
80 01 41
8A 00
pad 16
80 01 42
raw 8A 02 00 00 75
pad 16
raw F1
= library \"F\" members 1
  00000010      11 \"A\"
! doslib: F: 45 Closing at place 38

# a library that ends behind its first member, before the page of the next
lib 16
80 01 41
8A 00
= library \"F\" members 1
  00000010      11 \"A\"
! doslib: F: 44 Truncated at place 32

# no size of a page
raw F0 0B 00
= library \"F\" members 0
! doslib: F: 42 PageSize at place 0

# an archive that ends within its second member
text !<arch>
ar a.o/ 11
80 01 41
8A 00
raw 0A
ar b.o/ 11
80 01 42
= archive \"F\" members 1
  00000044      11 \"a.o\"
! doslib: F: 47 TooLong at place 80

# members that are no modules
text !<arch>
ar a.o/ 3
text no
raw 0A
ar b.o/ 4
raw 80 01 00 00
text no
= archive \"F\" members 2
  00000044       3 \"a.o\"
  00000084       4 \"b.o\"
! doslib: F: 44 Truncated at place 68
! doslib: F: 44 Truncated at place 136
! doslib: F: 46 Header at place 136",
    )
}
