//! What `compare` tells of two programs and a file. Blank lines separate the rows of a table: a row is the bytes of the
//! image of the program `P`, behind `--` those of the other one `O`, behind another `--` the lines of the file `F`, as
//! those of files.rt, and behind `= ` the status of the run `compare P O F`, what is printed, and the lines of the
//! standard error, each behind `! `. Where a row has no file, that is a module of a segment of the bytes 01 to 08. A line
//! that begins with `#` is a comment.

use super::files::file_of;
use super::libraries::run_in;
use super::searching::without_comment;
use rows::{bytes_of, same};
use std::alloc::Global;
use std::test::*;

/// The file of a row without one.
const MODULE: &str = "\
80 01 41
96 00 04 43 4F 44 45
98 28 08 00 02 02 01
A0 01 00 00 01 02 03 04 05 06 07 08
8A 00";

/// The file of a program with an image of these bytes, behind a header of 32 bytes.
fn program_of(alloc: Global, digits: &str) -> Result<Vec<u8>, Fail> {
    let image = bytes_of(alloc, digits)?;
    let len = image.len().saturating_add(32);
    let [last, above] = ((len % 512) as u16).to_le_bytes();
    let [pages, more] = ((len.saturating_add(511) / 512 % 65_536) as u16).to_le_bytes();
    let mut file = Vec::from_slice(alloc, &[0x4D, 0x5A, last, above, pages, more, 0, 0, 2])?;
    file.resize(32, 0)?;
    file.extend_from_slice(&image)?;
    Ok(file)
}

/// What a run does with the programs and the file of a row.
fn compared(alloc: Global, row: &str) -> Result<String, Fail> {
    let (program, rest) = row.split_once("\n--\n").unwrap_or((row, ""));
    let (other, file) = rest.split_once("\n--\n").unwrap_or((rest, MODULE));
    let program = program_of(alloc, program)?;
    let other = program_of(alloc, other)?;
    let file = file_of(alloc, file)?;
    let files: [(&str, &[u8]); 3] = [("P", &program), ("O", &other), ("F", &file)];
    let done = run_in(alloc, &files, 0, "compare P O F")?;
    Ok(done.text)
}

/// What is told of each row of a table is what is wanted.
fn run(alloc: Global, table: &str) -> Result<(), Fail> {
    for row in table.split("\n\n") {
        let row = without_comment(row);
        let (front, wanted) = row.split_once("\n= ").unwrap_or((row, ""));
        let text = compared(alloc, front)?;
        same(text.strip_suffix("\n").unwrap_or("no line end"), wanted)?;
    }
    Ok(())
}

#[test]
fn images(rt: HostRuntime) -> Result<(), Fail> {
    run(
        rt.alloc(),
        "\
# the same, with a file that is none of modules and isn't looked at
01 02 03 04 05 06 07 08
--
01 02 03 04 05 06 07 08
--
text no module
= status 0
no difference

00*0
--
00*0
= status 0
no difference

# the first of two differences
FF 01 02 03 04 05 06 07 08 FF
--
FF 01 02 33 04 05 66 07 08 FF
= status 1
differ 00000003 03 33
module \"F\" \"A\"
  00000002 in \"CODE\" \"CODE\"

# images that end before the others
FF 01 02 03 04 05 06 07 08 FF
--
FF 01 02 03
= status 1
differ 00000004 04 --
module \"F\" \"A\"
  00000003 in \"CODE\" \"CODE\"

FF 01 02 03 04 05 06 07 08
--
FF 01 02 03 04 05 06 07 08 AB
= status 1
differ 00000009 -- AB

00*0
--
0A
= status 1
differ 00000000 -- 0A

# an address of more than 16 bits
00*70000 01
--
00*70000 02
= status 1
differ 00011170 01 02",
    )
}

#[test]
fn bytes_of_segments(rt: HostRuntime) -> Result<(), Fail> {
    run(
        rt.alloc(),
        "\
# the first byte of a segment and its last, and those before and behind it
FF 01 02 03 04 05 06 07 08 FF
--
FF 11 02 03 04 05 06 07 08 FF
= status 1
differ 00000001 01 11
module \"F\" \"A\"
  00000000 in \"CODE\" \"CODE\"

FF 01 02 03 04 05 06 07 08 FF
--
FF 01 02 03 04 05 06 07 18 FF
= status 1
differ 00000008 08 18
module \"F\" \"A\"
  00000007 in \"CODE\" \"CODE\"

FF 01 02 03 04 05 06 07 08 FF
--
FE 01 02 03 04 05 06 07 08 FF
= status 1
differ 00000000 FF FE

FF 01 02 03 04 05 06 07 08 FF
--
FF 01 02 03 04 05 06 07 08 FE
= status 1
differ 00000009 FF FE

# a segment that stands in the other program alone
FF 01 02 03 04 05 06 07 18 FF
--
FF 01 02 03 04 05 06 07 08 FF
= status 1
differ 00000008 18 08

# one of which seven bytes are known
01 02 03 04 05 06 07
--
01 02 03 04 05 06 17
--
80 01 41
96 00 04 43 4F 44 45
98 28 07 00 02 02 01
A0 01 00 00 01 02 03 04 05 06 07
8A 00
= status 1
differ 00000006 07 17

# a byte without data, and one that a fix-up changes
01 02 03 04 05 06 07 08 99 9A
--
01 02 03 04 05 06 07 08 99 9B
--
80 01 41
96 00 04 43 4F 44 45
98 28 0A 00 02 02 01
A0 01 00 00 01 02 03 04 05 06 07 08
8A 00
= status 1
differ 00000009 9A 9B
module \"F\" \"A\"
  00000009 in \"CODE\" \"CODE\"

00 11 22 B8 34 12 A1 00 00 05 06 07 08 09 0A 33
--
00 11 22 B8 34 13 A1 00 00 05 06 07 08 09 0A 33
--
80 01 41
96 00 04 43 4F 44 45
98 28 0C 00 02 02 01
8C 01 78 00
A0 01 00 00 B8 00 00 A1 00 00 05 06 07 08 09 0A
9C C4 01 56 01
8A 00
= status 1
differ 00000005 12 13
module \"F\" \"A\"
  00000002 in \"CODE\" \"CODE\"",
    )
}

#[test]
fn places_of_segments(rt: HostRuntime) -> Result<(), Fail> {
    run(
        rt.alloc(),
        "\
# the second place alone has the byte
01 02 03 04 05 06 07 08 01 02 03 04 05 06 07 08
--
01 02 03 04 05 06 07 08 01 12 03 04 05 06 07 08
= status 1
differ 00000009 02 12
module \"F\" \"A\"
  00000001 in \"CODE\" \"CODE\"

# each of several places, at multiples of the alignment
00*20
--
00*10 01 00*9
--
80 01 41
96 00 04 43 4F 44 45
98 48 08 00 02 02 01
A0 01 00 00 00*8
8A 00
= status 1
differ 0000000A 00 01
module \"F\" \"A\"
  00000006 in \"CODE\" \"CODE\"
  00000004 in \"CODE\" \"CODE\"
  00000002 in \"CODE\" \"CODE\"
  00000000 in \"CODE\" \"CODE\"

# the last of sixteen places, and a place behind it
00*40
--
00*37 01 00*2
--
80 01 41
96 00 04 43 4F 44 45
98 48 08 00 02 02 01
A0 01 00 00 00*8
8A 00
= status 1
differ 00000025 00 01
module \"F\" \"A\"
  00000007 in \"CODE\" \"CODE\"

00*40
--
00*38 01 00
--
80 01 41
96 00 04 43 4F 44 45
98 48 08 00 02 02 01
A0 01 00 00 00*8
8A 00
= status 1
differ 00000026 00 01",
    )
}

#[test]
fn modules(rt: HostRuntime) -> Result<(), Fail> {
    run(
        rt.alloc(),
        "\
# several segments of a module, whose names have other bytes than letters
01 02 03 04 05 06 07 08 0A
--
01 02 03 04 05 06 07 00 0B
--
80 03 22 5C 80
96 00 02 22 80 04 44 41 54 41
98 28 08 00 02 01 01
98 28 08 00 03 02 01
98 28 08 00 03 03 01
A0 01 00 00 01 02 03 04 05 06 07 08
A0 02 00 00 02 03 04 05 06 07 08 0A
A0 03 00 00 01 02 03 04 05 06 07 09
8A 00
= status 1
differ 00000007 08 00
module \"F\" \"\\x22\\x5C\\x80\"
  00000007 in \"\\x22\\x80\" \"\"
  00000006 in \"DATA\" \"\\x22\\x80\"

# members of a library: one at fault, one that doesn't stand there, and one that does
FF 01 02 03 04 05 06 07 08
--
FF 01 02 03 04 05 06 07 00
--
lib 16
80 01 41
90 00
8A 00
pad 16
80 01 42
96 00 04 43 4F 44 45
98 28 08 00 02 02 01
A0 01 00 00 AA*8
8A 00
pad 16
80 03 62 2E 63
88 00 A3 01 43
96 00 04 43 4F 44 45
98 28 08 00 02 02 01
A0 01 00 00 01 02 03 04 05 06 07 08
8A 00
pad 16
F1
= status 1
differ 00000008 08 00
module \"F\" \"C\"
  00000007 in \"CODE\" \"CODE\"
! doslib: F: 6 Body at place 22

# a file that is cut off behind its first module
FF 01 02 03 04 05 06 07 08
--
FF 01 02 03 04 05 06 00
--
lib 16
80 01 41
96 00 04 43 4F 44 45
98 28 08 00 02 02 01
A0 01 00 00 01 02 03 04 05 06 07 08
8A 00
pad 16
80 01 42
= status 1
differ 00000007 07 00
module \"F\" \"A\"
  00000006 in \"CODE\" \"CODE\"
! doslib: F: 44 Truncated at place 70",
    )
}
