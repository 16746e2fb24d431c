//! What `show` tells of files. Blank lines separate the rows of a table: a row is the lines of a file, and behind `= `
//! what is printed of it at the path `F`, and the lines of the faults of its records' bodies, each behind `! `.

use super::files::file_of;
use doslib_show::show;
use doslib_text::Whole;
use rows::same;
use std::alloc::{AllocError, Allocator, Global};
use std::test::*;

/// Appends what is shown of a file at the path `F`, and the lines of the faults of its records' bodies.
fn push_report<A: Allocator + Copy>(
    alloc: A,
    file: &[u8],
    text: &mut Vec<u8, A>,
    faults: &mut Vec<u8, A>,
) -> Result<(), AllocError> {
    let bytes = Vec::from_slice(alloc, file)?;
    let whole = Whole::of(alloc, bytes)?;
    let members = whole.members(alloc)?;
    let shown = show(alloc, "F", whole.kind, &members)?;
    text.extend_from_slice(&shown.text)?;
    faults.extend_from_slice(&shown.faults)
}

/// What is told of a file, with the memory of this allocator.
pub fn shown<A: Allocator + Copy>(alloc: A, words: Global, file: &[u8]) -> Result<String, Fail> {
    let mut printed = Vec::new(alloc);
    let mut faults = Vec::new(alloc);
    if push_report(alloc, file, &mut printed, &mut faults).is_err() {
        return Ok(String::from_str(words, "no memory")?);
    }
    let mut text = String::from_str(words, str::from_utf8(&printed)?)?;
    for line in str::from_utf8(&faults)?.lines() {
        write!(text, "! {line}\n")?;
    }
    Ok(text)
}

/// What is told of each file of a table is what is wanted.
fn run(alloc: Global, table: &str) -> Result<(), Fail> {
    for row in table.split("\n\n") {
        let (lines, wanted) = row.split_once("\n= ").unwrap_or((row, ""));
        let file = file_of(alloc, lines)?;
        let text = shown(alloc, alloc, &file)?;
        same(text.strip_suffix("\n").unwrap_or("no line end"), wanted)?;
    }
    Ok(())
}

#[test]
fn records_of_16_bits(rt: HostRuntime) -> Result<(), Fail> {
    run(
        rt.alloc(),
        "\
80 03 61 5C 62
88 40 A2 01
88 00 9F 45 4D 55
88 00 EE 01
96 00 02 5F 54 01 43
98 48 05 00 02 03 01
98 60 40 00 00 07 01
98 00 00 F0 05 08 00 01 02 01
9A 02 FF 01 FF 07
8C 01 78 00 01 79 05
B4 01 7A 00
90 01 01 01 70 34 12 00
90 00 00 00 F0
94 00 01 05 00 10 00
8A 00
= module \"F\" members 1
  00000000     134 \"a\\x5Cb\"
    00000000 THEADR \"a\\x5Cb\"
    00000008 COMENT type 40 class A2 separator of the linker's passes bytes 1
      0000 01
    0000000F COMENT type 00 class 9F default library \"EMU\"
    00000018 COMENT type 00 class EE bytes 1
      0000 01
    0000001F LNAMES
      \"\"
      \"_T\"
      \"C\"
    00000029 SEGDEF \"_T\" class \"C\" overlay \"\" word public length 5
    00000033 SEGDEF #0 class #7 overlay \"\" paragraph private length 64
    0000003D SEGDEF \"\" class \"_T\" overlay \"\" absolute frame F000 offset 05 private length 8
    0000004A GRPDEF \"_T\"
      segment \"_T\"
      segment #7
    00000053 EXTDEF
      \"x\" type 0
      \"y\" type 5
    0000005D LEXTDEF
      \"z\" type 0
    00000064 PUBDEF group \"_T\" segment \"_T\"
      \"p\" offset 1234 type 0
    0000006F PUBDEF frame F000
    00000077 LINNUM segment \"_T\"
      line 5 offset 0010
    00000081 MODEND

# fix-ups by names, and by indexes that nothing defines
96 02 5F 54
98 48 20 00 01 00 00
9A 01 FF 01
8C 01 78 00
A0 01 02 00 9A 00 00 00 00 11*12
9C 04 01 45 01 CC 00 56 01 84 03 10 01 09 02 00
9C C5 02 9D
A2 01 00 00 02 00 00 00 02 41 42 03 00 01 00 01 00 00 00 01 00
8A C1 54 01
= module \"F\" members 1
  00000000     112 \"\"
    00000000 LNAMES
      \"_T\"
    00000007 SEGDEF \"_T\" class #0 overlay #0 word public length 32
    00000011 GRPDEF \"_T\"
      segment \"_T\"
    00000018 EXTDEF
      \"x\" type 0
    0000001F LEDATA segment \"_T\" offset 0002 bytes 17
      0002 9A 00 00 00 00 11 11 11 11 11 11 11 11 11 11 11
      0012 11
    00000037 FIXUPP
      target thread 0 group \"_T\"
      frame thread 1 group \"_T\"
      at 000 segment-relative pointer frame target target external \"x\"
      at 003 self-relative offset16 frame group \"_T\" target segment #9 displacement 0002
    0000004A FIXUPP
      at 102 segment-relative offset16 frame thread 1 target thread 1
    00000051 LIDATA segment \"_T\" offset 0000
      2 x 41 42
      3 x ( 1 x 00 )
    00000069 MODEND main start frame target target segment \"_T\"

# a library
lib 16
80 01 41
8C 01 78 00
8A 00
pad 16
80 01 42
9C CC 00 56 01
8A 00
pad 16
raw F1 0D 00 00*14
= library \"F\" members 2
  00000010      18 \"A\"
    00000010 THEADR \"A\"
    00000016 EXTDEF
      \"x\" type 0
    0000001D MODEND
  00000030      19 \"B\"
    00000030 THEADR \"B\"
    00000036 FIXUPP
      at 000 segment-relative pointer frame target target external #1
    0000003E MODEND",
    )
}

#[test]
fn records_of_32_bits(rt: HostRuntime) -> Result<(), Fail> {
    run(
        rt.alloc(),
        "\
82 01 41
CA 02 5F 54
99 A9 00 00 01 00 01 01 01
9A 01
B5 01 7A 00
BC 01 00 09 02
91 00 01 01 70 34 12 00 00 00
95 00 01 05 00 10 00 00 00
A1 01 00 00 00 00 11 22
9D E4 00 56 03 E4 04 52 01 00 00 01 00
# an offset of more than 16 bits
A1 01 00 00 01 00 11
8B 80
= module \"F\" members 1
  00000000     112 \"A\"
    00000000 LHEADR \"A\"
    00000006 LLNAMES
      \"_T\"
    0000000D SEGDEF32 \"_T\" class \"_T\" overlay \"_T\" dword public length 65536 use32
    00000019 GRPDEF \"_T\"
    0000001E LEXTDEF32
      \"z\" type 0
    00000025 CEXTDEF
      \"_T\" type 0
      #9 type 2
    0000002D PUBDEF32 segment \"_T\"
      \"p\" offset 1234 type 0
    0000003A LINNUM32 segment \"_T\"
      line 5 offset 0010
    00000046 LEDATA32 segment \"_T\" offset 0000 bytes 2
      0000 11 22
    00000051 FIXUPP32
      at 000 segment-relative offset32 frame target target external \"\"
      at 004 segment-relative offset32 frame target target external \"z\" displacement 10000
    00000061 LEDATA32 bytes 6
      0000 01 00 00 01 00 11
    0000006B MODEND32 main",
    )
}

#[test]
fn later_records(rt: HostRuntime) -> Result<(), Fail> {
    run(
        rt.alloc(),
        "\
80 01 41
96 01 66 01 43
98 28 00 00 01 02 02
B0 01 76 00 62 02 01 77 03 61 81 00 01 04
B8 01 75 00 05 AA
C6 01 61 02 62 63
C2 0D 10 01 00 00 00 00 01 01 90 C3
C3 00 21 00 08 00 00 00 00 02 90
C4 01 01 07 00 02 00
B2 01 01 02 00 FE FF
C9 02 01 00 00 00 00 01 00 00 00
A3 01 00 00 00 00 02 00 00 00 00 00 01 41
CC 31 2E 31
CE 34 12 55
9C CC 00 56 02
8A 00
= module \"F\" members 1
  00000000     166 \"A\"
    00000000 THEADR \"A\"
    00000006 LNAMES
      \"f\"
      \"C\"
    0000000E SEGDEF \"f\" class \"C\" overlay \"C\" byte public length 0
    00000018 COMDEF
      \"v\" type 0 near 2
      \"w\" type 3 far 256 x 4
    00000029 LCOMDEF
      \"u\" type 0 data 05
      0000 AA
    00000032 ALIAS
      \"a\" is \"bc\"
    0000003B COMDAT \"f\" continued local code any segment \"f\" byte offset 0000 type 0 bytes 2
      0000 90 C3
    0000004A COMDAT32 \"C\" same-size far code offset 0008 type 0 bytes 1
      0008 90
    00000058 LINSYM \"f\" continued
      line 7 offset 0002
    00000062 BAKPAT segment \"f\" word
      at 0002 add FFFE
    0000006C NBKPAT32 \"f\" dword
      at 0000 add 0001
    0000007A LIDATA32 segment \"f\" offset 0000 bytes 8
      0000 02 00 00 00 00 00 01 41
    0000008B VERNUM \"1.1\"
    00000092 VENDEXT vendor 1234 bytes 1
      0000 55
    00000099 FIXUPP
      at 000 segment-relative pointer frame target target external \"w\"
    000000A1 MODEND",
    )
}

#[test]
fn unknown_and_wrong(rt: HostRuntime) -> Result<(), Fail> {
    run(
        rt.alloc(),
        "\
# types that aren't read, and bodies that are none of their types
80 01 41
8E 00 01 02
8D 07
90 00 01 06 5F 63
98 C8 00 00 00 00 00
B2 01 03
8A 40
= module \"F\" members 1
  00000000      48 \"A\"
    00000000 THEADR \"A\"
    00000006 TYPDEF bytes 3
      0000 00 01 02
    0000000D 8DH bytes 1
      0000 07
    00000012 PUBDEF wrong at byte 5 of 5
      0000 00 01 06 5F 63
    0000001B SEGDEF wrong at byte 0 of 6
      0000 C8 00 00 00 00 00
    00000025 BAKPAT wrong at byte 1 of 2
      0000 01 03
    0000002B MODEND wrong at byte 0 of 1
      0000 40
! doslib: F: 6 Body at place 18
! doslib: F: 6 Body at place 27
! doslib: F: 6 Body at place 37
! doslib: F: 6 Body at place 43",
    )
}
