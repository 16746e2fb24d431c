//! Records that are shown and rewritten.

use super::answer::Command;
use super::objects::{HELLO, SMALL};
use super::tables::{Telling, answers, are, is_answer};
use omf_frame::put_index;
use std::test::*;

/// The listing of the small module.
const SMALL_LINES: &str = "\
00000000 80 THEADR      2
  name \"A\"
00000006 96 LNAMES      6
  name \"\"
  name \"CODE\"
00000010 98 SEGDEF      6
  align 1 combine 2 length 5 name 2 class 1 overlay 1
0000001A A0 LEDATA      8
  data segment 1 offset 0000 bytes 5
00000026 9C FIXUPP      5
  fixup at 001 segment location 2 frame method 0 index 1 target method 0 index 1
0000002F 8A MODEND      6
  main 1 start 1 frame method 0 index 1 target method 0 index 1 displacement 0000";

/// The listing of the module that NASM made.
const HELLO_LINES: &str = "\
00000000 80 THEADR     10
  name \"HELLO.ASM\"
0000000E 88 COMENT     32
  comment 00 00 1D546865204E65747769646520417373656D626C657220322E31362E3031
00000032 96 LNAMES     33
  name \"\"
  name \"code\"
  name \"CODE\"
  name \"data\"
  name \"DATA\"
  name \"stack\"
  name \"STACK\"
00000057 98 SEGDEF      6
  align 3 combine 2 length 25 name 2 class 3 overlay 1
00000061 98 SEGDEF      6
  align 3 combine 2 length 31 name 4 class 5 overlay 1
0000006B 98 SEGDEF      6
  align 3 combine 5 length 256 name 6 class 7 overlay 1
00000075 A0 LEDATA     28
  data segment 1 offset 0000 bytes 25
00000095 9C FIXUPP     16
  fixup at 001 segment location 2 frame method 5 target method 0 index 2
  fixup at 006 segment location 2 frame method 5 target method 0 index 3
  fixup at 00B segment location 1 frame method 5 target method 0 index 3
  fixup at 00E segment location 1 frame method 5 target method 0 index 2
000000A9 A0 LEDATA     34
  data segment 2 offset 0000 bytes 31
000000CF 8A MODEND      6
  main 1 start 1 frame method 0 index 1 target method 0 index 1 displacement 0000";

#[test]
fn records_are_shown(rt: HostRuntime) -> Result<(), Fail> {
    is_answer(
        &rt,
        rt.alloc(),
        Command::Show,
        Telling::Text,
        SMALL,
        SMALL_LINES,
    )?;
    is_answer(
        &rt,
        rt.alloc(),
        Command::Show,
        Telling::Text,
        HELLO,
        HELLO_LINES,
    )
}

/// The lines of records behind a segment definition.
const LINES: &str = "\
98 28 03 00 02 01 01
8C 01 78 00 01 79 00
90 00 00 00 00 01 78 32 16 00 01 79 00 40 00
A0 01 00 00 9B 26 D9
9C C4 00 56 01 C4 01 56 02
= ..0000001A 8C EXTDEF      6
  external \"x\" type 0
  external \"y\" type 0
00000024 90 PUBDEF     14
  base group 0 segment 0 frame 0000
  public \"x\" offset 1632 type 0
  public \"y\" offset 4000 type 0
00000036 A0 LEDATA      6
  data segment 1 offset 0000 bytes 3
00000040 9C FIXUPP      8
  fixup at 000 segment location 1 frame method 5 target method 2 index 1
  fixup at 001 segment location 1 frame method 5 target method 2 index 2
0000004C 8A MODEND      1
  main 0 start 0

98 28 11 00 02 01 01
B4 01 78 00
B6 00 01 01 78 10 00 00
A0 01 00 00 E8 00 00
9C 84 01 56 01
= ..0000001A B4 LEXTDEF     3
  local external \"x\" type 0
00000021 B6 LPUBDEF     7
  base group 0 segment 1
  local public \"x\" offset 0010 type 0
0000002C A0 LEDATA      6
  data segment 1 offset 0000 bytes 3
00000036 9C FIXUPP      4
  fixup at 001 self location 1 frame method 5 target method 2 index 1
0000003E 8A MODEND      1
  main 0 start 0

98 28 0C 00 02 01 01
A2 01 00 00 FF FF 01 00 FF FF 01 00 FF FF 00 00 01 41
= ..0000001A A2 LIDATA     17
  data segment 1 offset 0000 blocks 1 expanded >65536
0000002F 8A MODEND      1
  main 0 start 0";

#[test]
fn lines_of_records_are_shown(rt: HostRuntime) -> Result<(), Fail> {
    answers(&rt, rt.alloc(), Command::Show, Telling::Text, LINES)
}

/// Modules of the same records.
const REWRITTEN: &str = "\
raw 80 03 00 01 41 3B 96 07 00*2 04 43 4F 44 45 44 98 07 00 28 05 00 02 01*2 30 A0 09 00 01 00*2 B8 00*2 8E D8 \
38 9C 06 00 C8 01 04 01*2 8F 8A 07 00 C1 00 01*2 00*2 AC
= raw 80 03 00 01 41 3B 96 07 00*2 04 43 4F 44 45 44 98 07 00 28 05 00 02 01*2 30 A0 09 00 01 00*2 B8 00*2 8E \
D8 38 9C 06 00 C8 01 04 01*2 8F 8A 07 00 C1 00 01*2 00*2 AC

# closing bytes of 0
raw 80 03 00 01 41 00 96 07 00*2 04 43 4F 44 45 00 98 07 00 28 05 00 02 01*2 00 A0 09 00 01 00*2 B8 00*2 8E D8 \
00 9C 06 00 C8 01 04 01*2 00 8A 07 00 C1 00 01*2 00*3
= raw 80 03 00 01 41 3B 96 07 00*2 04 43 4F 44 45 44 98 07 00 28 05 00 02 01*2 30 A0 09 00 01 00*2 B8 00*2 8E \
D8 38 9C 06 00 C8 01 04 01*2 8F 8A 07 00 C1 00 01*2 00*2 AC

# an index in two bytes
raw 80 03 00 01 41 3B 96 07 00*2 04 43 4F 44 45 44 98 08 00 28 05 00 80 02 01*2 AF A0 09 00 01 00*2 B8 00*2 8E \
D8 38 9C 06 00 C8 01 04 01*2 8F 8A 07 00 C1 00 01*2 00*2 AC
= raw 80 03 00 01 41 3B 96 07 00*2 04 43 4F 44 45 44 98 07 00 28 05 00 02 01*2 30 A0 09 00 01 00*2 B8 00*2 8E \
D8 38 9C 06 00 C8 01 04 01*2 8F 8A 07 00 C1 00 01*2 00*2 AC";

#[test]
fn modules_are_rewritten(rt: HostRuntime) -> Result<(), Fail> {
    is_answer(
        &rt,
        rt.alloc(),
        Command::Rewrite,
        Telling::Bytes,
        HELLO,
        HELLO,
    )?;
    answers(&rt, rt.alloc(), Command::Rewrite, Telling::Bytes, REWRITTEN)
}

/// The records before the one at fault are rewritten.
const FAULTS: &str = "\
raw 80 03 00 01 41 3C 96 07 00*2 04 43 4F 44 45 44 98 07 00 28 05 00 02 01*2 30 A0 09 00 01 00*2 B8 00*2 8E D8 \
38 9C 06 00 C8 01 04 01*2 8F 8A 07 00 C1 00 01*2 00*2 AC
= 1 omf: A.OBJ: 4 Closing at record 0

raw 80 03
= 1 omf: A.OBJ: 3 Truncated at record 0

raw 80 03 00 01 41 3B
= raw 80 03 00 01 41 3B
1 omf: A.OBJ: 8 NoEnd at record 6

raw
= 1 omf: A.OBJ: 8 NoEnd at record 0

raw 70 02 00*2 8E
= 1 omf: A.OBJ: 5 Type at record 0

raw 80 03 00 01 41 3B 96 07 00*2 04 43 4F 44 45 44 98 08 00 28 05 00 02 01*2 00 2F A0 09 00 01 00*2 B8 00*2 8E \
D8 38 9C 06 00 C8 01 04 01*2 8F 8A 07 00 C1 00 01*2 00*2 AC
= raw 80 03 00 01 41 3B 96 07 00*2 04 43 4F 44 45 44
1 omf: A.OBJ: 6 Body at record 16 byte 6";

#[test]
fn faults_have_places(rt: HostRuntime) -> Result<(), Fail> {
    answers(&rt, rt.alloc(), Command::Rewrite, Telling::Bytes, FAULTS)
}

/// A record, and the end of a module.
const BODIES: &str = "\
raw 8A 02 00 3E 36
= raw 8A 02 00*2 74

raw 8A 07 00 C0 00 01*2 00*2 AD
= 1 omf: A.OBJ: 6 Body at record 0 byte 0

raw 98 07 00 2A 05 00 02 01*2 2E 8A 02 00*2 74
= 1 omf: A.OBJ: 6 Body at record 0 byte 1

raw 98 07 00 2A 00*2 02 01*2 33 8A 02 00*2 74
= raw 98 07 00 2A 00*2 02 01*2 33 8A 02 00*2 74

raw 90 06 00*2 01*2 78 10 E0 8A 02 00*2 74
= 1 omf: A.OBJ: 6 Body at record 0 byte 5

raw 90 01 00 6F 8A 02 00*2 74
= 1 omf: A.OBJ: 6 Body at record 0 byte 0

raw 96 01 00 69 8A 02 00*2 74
= raw 96 01 00 69 8A 02 00*2 74

raw 80 03 00 05 41 37 8A 02 00*2 74
= 1 omf: A.OBJ: 6 Body at record 0 byte 2

raw 9A 04 00 02 FE 01 61 8A 02 00*2 74
= 1 omf: A.OBJ: 6 Body at record 0 byte 1

raw 9C 03 00 10 01 50 8A 02 00*2 74
= raw 9C 03 00*2 01 60 8A 02 00*2 74

raw 9C 03 00 64 01 FC 8A 02 00*2 74
= raw 9C 03 00 44 01 1C 8A 02 00*2 74

raw 9C 04 00 C4 04 CC*2 8A 02 00*2 74
= raw 9C 04 00 C4 04 8C 0C 8A 02 00*2 74

raw B4 05 00 01 78 80 07 47 8A 02 00*2 74
= raw B4 04 00 01 78 07 C8 8A 02 00*2 74

raw B4 03 00 02 78 CF 8A 02 00*2 74
= 1 omf: A.OBJ: 6 Body at record 0 byte 2

raw B6 09 00*2 80 01*2 78 10 00*2 37 8A 02 00*2 74
= raw B6 08 00*2 01*2 78 10 00*2 B8 8A 02 00*2 74

raw B6 06 00*2 01*2 78 10 BA 8A 02 00*2 74
= 1 omf: A.OBJ: 6 Body at record 0 byte 5";

#[test]
fn bodies_are_rewritten_or_refused(rt: HostRuntime) -> Result<(), Fail> {
    answers(&rt, rt.alloc(), Command::Rewrite, Telling::Bytes, BODIES)
}

/// Comments of the greatest length, of bytes 00 and then of FFH, and the end of a module.
const LONGEST: &str = "raw 88 FF*2 00*65534 7A 88 FF*65536 78 8A 02 00*2 74";

#[test]
fn the_longest_bodies_are_rewritten(rt: HostRuntime) -> Result<(), Fail> {
    is_answer(
        &rt,
        rt.alloc(),
        Command::Rewrite,
        Telling::Bytes,
        LONGEST,
        LONGEST,
    )
}

#[test]
fn indexes_are_written_shortest(rt: HostRuntime) -> Result<(), Fail> {
    let mut bytes = Vec::new(rt.alloc());
    put_index(2, &mut bytes)?;
    put_index(128, &mut bytes)?;
    are(&rt, &bytes, &[0x02, 0x80, 0x80]);
    Ok(())
}
