//! What `match` tells of files in an image. Blank lines separate the rows of a table: a row is the bytes of the image,
//! behind `--` the lines of a file, as those of files.rt, and behind `= ` what is printed of the file at the path `F`,
//! which bytes are left, and the lines of its faults, each behind `! `. A line that begins with `#` is a comment.

use super::files::file_of;
use byte_places::Index;
use doslib_match::{Sought, Told, Wanted, match_file};
use omf_match::push_left;
use refusing::refuse_each;
use rows::{bytes_of, same};
use std::alloc::{AllocError, Allocator, Global};
use std::test::*;

/// What is printed of a file in an image, with which bytes are left behind it, and the lines of its faults.
fn search<A: Allocator + Copy>(
    alloc: A,
    image: &[u8],
    file: &[u8],
) -> Result<(Vec<u8, A>, Vec<u8, A>), AllocError> {
    let index = Index::of(alloc, image)?;
    let file = Vec::from_slice(alloc, file)?;
    let sought = Sought {
        image: &index,
        wanted: Wanted::All,
    };
    let Told {
        mut text,
        faults,
        spans,
    } = match_file(alloc, "F", file, &sought)?;
    push_left(alloc, &mut text, &spans, image.len())?;
    Ok((text, faults))
}

/// The same as text, with the memory of this allocator.
fn searched<A: Allocator + Copy>(
    alloc: A,
    words: Global,
    image: &[u8],
    file: &[u8],
) -> Result<String, Fail> {
    let Ok((printed, faults)) = search(alloc, image, file) else {
        return Ok(String::from_str(words, "no memory")?);
    };
    let mut text = String::from_str(words, str::from_utf8(&printed)?)?;
    for line in str::from_utf8(&faults)?.lines() {
        write!(text, "! {line}\n")?;
    }
    Ok(text)
}

/// A row without the line of a comment at its front.
pub fn without_comment(row: &str) -> &str {
    match row.split_once('\n') {
        Some((front, rest)) if front.starts_with('#') => rest,
        _ => row,
    }
}

/// What is told of each row of a table is what is wanted.
fn run(alloc: Global, table: &str) -> Result<(), Fail> {
    for row in table.split("\n\n") {
        let row = without_comment(row);
        let (front, wanted) = row.split_once("\n= ").unwrap_or((row, ""));
        let (image, file) = front.split_once("\n--\n").unwrap_or((front, ""));
        let image = bytes_of(alloc, image)?;
        let file = file_of(alloc, file)?;
        let text = searched(alloc, alloc, &image, &file)?;
        same(text.strip_suffix("\n").unwrap_or("nothing"), wanted)?;
    }
    Ok(())
}

/// A library of two members, the second of which stands in an image.
const LIBRARY: &str = "\
lib 16
80 01 41
96 00 04 43 4F 44 45
98 28 08 00 02 02 01
A0 01 00 00 AA AA AA AA AA AA AA AA
8A 00
pad 16
80 03 62 2E 63
88 00 A3 01 42
96 00 04 43 4F 44 45
98 28 08 00 02 02 01
A0 01 00 00 01 02 03 04 05 06 07 08
8A 00
pad 16
F1";

/// Where, and what is told of it.
const IMAGE: &str = "FF 01 02 03 04 05 06 07 08 FF";

const TOLD: &str = "\
module \"F\" \"B\"
  00000001       8 \"CODE\" \"CODE\"
left 00000000       1
left 00000009       1
";

#[test]
fn files_in_images(rt: HostRuntime) -> Result<(), Fail> {
    let alloc = rt.alloc();
    let (image, file) = (bytes_of(alloc, IMAGE)?, file_of(alloc, LIBRARY)?);
    same(&searched(alloc, alloc, &image, &file)?, TOLD)?;
    run(
        alloc,
        "\
# a segment, data and a fix-up of 32 bits, and a name between them that takes an index
01 02 34 12 00 00 05 06 07 08 09 0A
--
80 01 41
96 00 04 43 4F 44 45
B0 01 76 00 62 02
99 29 0C 00 00 00 02 02 01
8C 01 78 00
A1 01 00 00 00 00 01 02 00 00 00 00 05 06 07 08 09 0A
9D E4 02 56 02
8B 00
= module \"F\" \"A\"
  00000000      12 \"CODE\" \"CODE\"
    00000002 1234 external \"x\"

# what debuggers read is no part of a program
01 02 03 04 05 06 07 08
--
80 01 41
96 06 24 24 54 59 50 45 06 44 45 42 54 59 50
98 28 08 00 01 02 01
A0 01 00 00 01 02 03 04 05 06 07 08
8A 00
= left 00000000       8

# a communal variable that is neither near nor far
01
--
80 01 41
B0 01 76 00 63 02
8A 00
= left 00000000       1
! doslib: F: 54 DataType at place 6

# the same of one that is the module's own
01
--
80 01 41
B8 01 76 00 63 02
8A 00
= left 00000000       1
! doslib: F: 48 DataType at place 6

# a record of another type, one whose body is wrong, one of more than 16 bits, and an index without a name
01
--
80 01 41
7A 00
8A 00
= left 00000000       1
! doslib: F: 5 Type at place 6

01
--
80 01 41
90 00
8A 00
= left 00000000       1
! doslib: F: 6 Body at place 6

01
--
80 01 41
96 00
99 28 00 00 02 00 01 01 01
8A 00
= left 00000000       1
! doslib: F: 49 Above16Bits at place 11

01
--
80 01 41
98 28 00 00 02 02 01
8A 00
= left 00000000       1
! doslib: F: 10 NameIndex at place 6

# bodies that are wrong: of communal variables, aliases, records of 32 bits, and a type that isn't linked
01
--
80 01 41
B0 01 76 00 62
8A 00
= left 00000000       1
! doslib: F: 53 Body at place 6

01
--
80 01 41
B8 01 76 00 62
8A 00
= left 00000000       1
! doslib: F: 51 Body at place 6

01
--
80 01 41
C6 01 76 05
8A 00
= left 00000000       1
! doslib: F: 51 Body at place 6

01
--
80 01 41
91 00
8A 00
= left 00000000       1
! doslib: F: 51 Body at place 6

01
--
80 01 41
A3 00
8A 00
= left 00000000       1
! doslib: F: 51 Body at place 6

01
--
80 01 41
C2 00
8A 00
= left 00000000       1
! doslib: F: 5 Type at place 6

# segments that are big and have a length beside, of 16 and of 32 bits, and a fix-up and an end that are cut
01
--
80 01 41
96 00 01 43
98 2A 05 00 02 02 01
8A 00
= left 00000000       1
! doslib: F: 6 Body at place 13

01
--
80 01 41
96 00 01 43
99 2B 05 00 00 00 02 02 01
8A 00
= left 00000000       1
! doslib: F: 49 Above16Bits at place 13

01
--
80 01 41
9C C4
8A 00
= left 00000000       1
! doslib: F: 6 Body at place 6

01
--
80 01 41
8A 40
= left 00000000       1
! doslib: F: 6 Body at place 6

01
--
80 01 41
8B 40
= left 00000000       1
! doslib: F: 51 Body at place 6

# no end, and a member of a library that isn't whole
01
--
80 01 41
= left 00000000       1
! doslib: F: 44 Truncated at place 6

01
--
lib 16
80 01 41
8A 00
pad 16
80 01 42
= left 00000000       1
! doslib: F: 44 Truncated at place 38",
    )
}

#[test]
fn refused_growths(rt: HostRuntime) -> Result<(), Fail> {
    let words = rt.alloc();
    let (image, file) = (bytes_of(words, IMAGE)?, file_of(words, LIBRARY)?);
    let (_, made_do) = refuse_each(words, TOLD, |heap| searched(heap, words, &image, &file))?;
    same(&format!(in words; "{made_do} made do")?, "0 made do")
}
