//! Each growth of memory refused in turn: the answer is want of memory.

use super::files::file_of;
use super::list::told;
use super::show::shown;
use refusing::refuse_each;
use rows::same;
use std::test::*;

/// A library that is cut off within its second member.
const CUT: &str = "\
lib 16
80 01 41
8C 01 78 00
8A 00
pad 16
80 01 42";

/// What is told of it.
const TOLD: &str = "\
library \"F\" members 1
  00000010      18 \"A\"
    wants \"x\"
! doslib: F: 44 Truncated at place 54
";

#[test]
fn refused_growths(rt: HostRuntime) -> Result<(), Fail> {
    let words = rt.alloc();
    let file = file_of(words, CUT)?;
    let (_, made_do) = refuse_each(words, TOLD, |heap| told(heap, words, &file))?;
    same(&format!(in words; "{made_do} made do")?, "0 made do")
}

/// A module with names of each kind, data and a fix-up.
const MODULE: &str = "\
80 01 41
96 01 53
98 48 05 00 01 01 01
9A 01 FF 01
8C 01 78 00
B0 01 76 00 62 02
A0 01 00 00 9A 00
9C CC 00 56 02
8A 40";

/// What is shown of it.
const SHOWN: &str = "\
module \"F\" members 1
  00000000      67 \"A\"
    00000000 THEADR \"A\"
    00000006 LNAMES
      \"S\"
    0000000C SEGDEF \"S\" class \"S\" overlay \"S\" word public length 5
    00000016 GRPDEF \"S\"
      segment \"S\"
    0000001D EXTDEF
      \"x\" type 0
    00000024 COMDEF
      \"v\" type 0 near 2
    0000002D LEDATA segment \"S\" offset 0000 bytes 2
      0000 9A 00
    00000036 FIXUPP
      at 000 segment-relative pointer frame target target external \"v\"
    0000003E MODEND wrong at byte 0 of 1
      0000 40
! doslib: F: 6 Body at place 62
";

#[test]
fn refused_growths_of_show(rt: HostRuntime) -> Result<(), Fail> {
    let words = rt.alloc();
    let file = file_of(words, MODULE)?;
    let (_, made_do) = refuse_each(words, SHOWN, |heap| shown(heap, words, &file))?;
    same(&format!(in words; "{made_do} made do")?, "0 made do")
}
