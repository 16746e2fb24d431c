//! What is told of modules in an image. Blank lines separate the rows of a table: a row is the bytes of an image and
//! the modules, and behind `= ` what is told of the modules, and which bytes are left.

use byte_places::{Index, Span, first_difference, gaps};
use omf_match::{push_left, push_module, push_titled};
use omf_module::Module;
use refusing::refuse_each;
use rows::{read_modules, read_row, same};
use std::alloc::{AllocError, Allocator, Global};
use std::test::*;

/// Appends what is told of modules in an image.
fn push_told<A: Allocator + Copy>(
    alloc: A,
    image: &[u8],
    modules: &[Module<A>],
    lines: &mut Vec<u8, A>,
) -> Result<(), AllocError> {
    let index = Index::of(alloc, image)?;
    let mut spans = Vec::new(alloc);
    for module in modules {
        let mut part = Vec::new(alloc);
        push_module(alloc, &mut part, &mut spans, &index, module)?;
        push_titled(lines, "F", b"A", &part)?;
    }
    push_left(alloc, lines, &spans, image.len())
}

/// What is told of inputs, of which the first one is the image, with the memory of this allocator.
fn told<A: Allocator + Copy>(alloc: A, words: Global, inputs: &[Vec<u8>]) -> Result<String, Fail> {
    let [image, others @ ..] = inputs else {
        return Err(Fail::new(format_args!("no image")));
    };
    let mut lines = Vec::new(alloc);
    let Ok(modules) = read_modules(alloc, others) else {
        return Ok(String::from_str(words, "no memory")?);
    };
    if push_told(alloc, image, &modules, &mut lines).is_err() {
        return Ok(String::from_str(words, "no memory")?);
    }
    Ok(String::from_str(words, str::from_utf8(&lines)?)?)
}

/// What is told of each row of a table is what is wanted.
fn run(alloc: Global, table: &str) -> Result<(), Fail> {
    for row in table.split("\n\n") {
        let row = read_row(alloc, row)?;
        let text = told(alloc, alloc, &row.inputs)?;
        same(text.strip_suffix("\n").unwrap_or("nothing"), row.wanted)?;
    }
    Ok(())
}

/// A module that stands in an image, and a name that its fix-up refers to.
const ROW: &str = "\
raw 00 11 22 B8 34 12 A1 00 00 05 06 07 08 09 0A 33
--
98 28 0C 00 02 02 01
8C 01 78 00
A0 01 00 00 B8 00 00 A1 00 00 05 06 07 08 09 0A
9C C4 01 56 01
= module \"F\" \"A\"
  00000003      12 \"CODE\" \"CODE\"
    00000004 1234 external \"x\"
left 00000000       3
left 0000000F       1";

#[test]
fn modules_in_images(rt: HostRuntime) -> Result<(), Fail> {
    run(rt.alloc(), ROW)?;
    run(
        rt.alloc(),
        "\
# at multiples of its alignment alone
raw 01 02 03 04 05 06 07 08 00 01 02 03 04 05 06 07 08
--
98 48 08 00 02 02 01
A0 01 00 00 01 02 03 04 05 06 07 08
= module \"F\" \"A\"
  00000000       8 \"CODE\" \"CODE\"
left 00000008       9

# seven known bytes, and a segment that would end behind the image
raw 01 02 03 04 05 06 07 08
--
98 28 07 00 02 02 01
A0 01 00 00 01 02 03 04 05 06 07
--
98 28 09 00 02 02 01
A0 01 00 00 01 02 03 04 05 06 07 08
= left 00000000       8

# no two known bytes one behind the other
raw FF 01 91 02 92 03 93 04 94 05 95 06 96 07 97 08 98 FF
--
98 28 10 00 02 02 01
8C 01 78 00
A0 01 00 00 01 00 02 00 03 00 04 00 05 00 06 00 07 00 08 00
9C C0 01 56 01 C0 03 56 01 C0 05 56 01 C0 07 56 01 C0 09 56 01 C0 0B 56 01 C0 0D 56 01 C0 0F 56 01
= module \"F\" \"A\"
  00000001      16 \"CODE\" \"CODE\"
    00000002 91 external \"x\"
    00000004 92 external \"x\"
    00000006 93 external \"x\"
    00000008 94 external \"x\"
    0000000A 95 external \"x\"
    0000000C 96 external \"x\"
    0000000E 97 external \"x\"
    00000010 98 external \"x\"
left 00000000       1
left 00000011       1

# repeated data, in which a fix-up stands twice; a pointer, a self-relative word, and later data over earlier
raw 11 22 33 44 78 56 11 22 33 44 BC 9A
--
98 28 0C 00 02 02 01
A2 01 00 00 02 00 00 00 06 11 22 33 44 00 00
9C C4 09 54 01
--
96 05 47 52 4F 55 50
98 28 0C 00 02 02 01
9A 03 FF 01
8C 01 78 00
A0 01 00 00 FF FF 33 44 00 00 00 00 33 44 BC 9A
9C 84 04 56 01 CC 04 55 01
A0 01 00 00 11 22
= module \"F\" \"A\"
  00000000      12 \"CODE\" \"CODE\"
    00000004 5678 segment \"CODE\"
    0000000A 9ABC segment \"CODE\"
module \"F\" \"A\"
  00000000      12 \"CODE\" \"CODE\"
    00000004 5678 self external \"x\"
    00000004 2211:5678 group \"GROUP\"",
    )
}

#[test]
fn as_many_as_are_told(rt: HostRuntime) -> Result<(), Fail> {
    run(
        rt.alloc(),
        "\
raw 00*40
--
98 48 08 00 02 02 01
A0 01 00 00 00*8
= module \"F\" \"A\"
  00000000       8 \"CODE\" \"CODE\"
  00000002       8 \"CODE\" \"CODE\"
  00000004       8 \"CODE\" \"CODE\"
  00000006       8 \"CODE\" \"CODE\"
  00000008       8 \"CODE\" \"CODE\"
  0000000A       8 \"CODE\" \"CODE\"
  0000000C       8 \"CODE\" \"CODE\"
  0000000E       8 \"CODE\" \"CODE\"
  00000010       8 \"CODE\" \"CODE\"
  00000012       8 \"CODE\" \"CODE\"
  00000014       8 \"CODE\" \"CODE\"
  00000016       8 \"CODE\" \"CODE\"
  00000018       8 \"CODE\" \"CODE\"
  0000001A       8 \"CODE\" \"CODE\"
  0000001C       8 \"CODE\" \"CODE\"
  0000001E       8 \"CODE\" \"CODE\"
left 00000026       2",
    )
}

#[test]
fn refused_growths(rt: HostRuntime) -> Result<(), Fail> {
    let words = rt.alloc();
    let row = read_row(words, ROW)?;
    let wanted = format!(in words; "{}\n", row.wanted)?;
    let (_, made_do) = refuse_each(words, &wanted, |heap| told(heap, words, &row.inputs))?;
    same(&format!(in words; "{made_do} made do")?, "0 made do")
}

#[test]
fn gaps_and_differences(rt: HostRuntime) -> Result<(), Fail> {
    let words = rt.alloc();
    let spans = [
        Span { start: 3, end: 5 },
        Span { start: 2, end: 4 },
        Span { start: 8, end: 99 },
    ];
    let found = gaps(words, &spans, 9)?;
    let differing = (
        first_difference(b"abc", b"abd"),
        first_difference(b"ab", b"abd"),
        first_difference(b"abd", b"abd"),
    );
    same(
        &format!(in words; "{found:?} {differing:?}")?,
        "[Span { start: 0, end: 2 }, Span { start: 5, end: 8 }] (Some(2), Some(2), None)",
    )
}
