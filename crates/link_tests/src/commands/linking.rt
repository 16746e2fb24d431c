//! Modules that are linked.

use super::answer::{Command, Devices, answer_of};
use super::objects::BOTH;
use super::tables::{Telling, answers, is, is_answer, text_of};
use omf_commands::Options;
use rows::publics;
use std::test::*;

/// Modules, and the file of their program.
const FILES: &str = "\
raw 80 03 00 01 41 3B 96 07 00*2 04 43 4F 44 45 44 98 07 00 28 05 00 02 01*2 30 A0 09 00 01 00*2 B8 00*2 8E D8 \
38 9C 06 00 C8 01 04 01*2 8F 8A 07 00 C1 00 01*2 00*2 AC
= raw 4D 5A 25 00 01 00 01 00 02 00 01 00 FF*2 00*10 1C 00*3 01 00*3 B8 00*2 8E D8

# closing bytes of 0
raw 80 03 00 01 41 00 96 07 00*2 04 43 4F 44 45 00 98 07 00 28 05 00 02 01*2 00 A0 09 00 01 00*2 B8 00*2 8E D8 \
00 9C 06 00 C8 01 04 01*2 00 8A 07 00 C1 00 01*2 00*3
= raw 4D 5A 25 00 01 00 01 00 02 00 01 00 FF*2 00*10 1C 00*3 01 00*3 B8 00*2 8E D8

# an index in two bytes
raw 80 03 00 01 41 3B 96 07 00*2 04 43 4F 44 45 44 98 08 00 28 05 00 80 02 01*2 AF A0 09 00 01 00*2 B8 00*2 8E \
D8 38 9C 06 00 C8 01 04 01*2 8F 8A 07 00 C1 00 01*2 00*2 AC
= raw 4D 5A 25 00 01 00 01 00 02 00 01 00 FF*2 00*10 1C 00*3 01 00*3 B8 00*2 8E D8

# nothing
80 01 41
8A 00
= raw 4D 5A 20 00 01 00*3 02 00*3 FF*2 00*10 1C 00*7";

/// The file of a program without a byte.
const EMPTY_FILE: &str = "\
raw 4D 5A 20 00 01 00*3 02 00*3 FF*2 00*10 1C 00*7";

#[test]
fn modules_give_files(rt: HostRuntime) -> Result<(), Fail> {
    let command = Command::Link(Options::new());
    let answer = answer_of(rt.alloc(), command, &[], Devices::sound(60))?;
    let text = text_of(rt.alloc(), Telling::Bytes, &answer)?;
    is(&rt, text.trim_end(), EMPTY_FILE);
    answers(&rt, rt.alloc(), command, Telling::Bytes, FILES)
}

/// Data and fix-ups of one segment.
const FIXUPS: &str = "\
98 28 0C 00 02 01 01
A2 01 00 00 02 00 01 00 03 00 00 00 02 41 42
= image 41 42 41 42 41 42 41 42 41 42 41 42 relocations

98 28 06 00 02 01 01
A2 01 00 00 03 00 00 00 02 00 00
9C C8 05 04 01 01
= image 00*6 relocations 00*4 02 00*3 04 00*3

98 28 11 00 02 01 01
8C 01 78 00
90 00 01 01 78 10 00 00
A0 01 00 00 E8 00 00
9C 84 01 56 01
= image E8 0D 00 relocations

98 28 03 00 02 01 01
8C 01 78 00 01 79 00
90 00 00 00 00 01 78 32 16 00 01 79 00 40 00
A0 01 00 00 9B 26 D9
9C C4 00 56 01 C4 01 56 02
= image CD 3C 19 relocations

98 28 02 00 02 01 01
98 00 00 B8 00 00 40 01 01 01
A0 01 00 00 00 00
9C C8 00 04 02 02
= image 00 B8 relocations

98 28 04 00 02 01 01
A0 01 00 00 00 00 00 00
9C C4 00 00 01 01 34 12
A0 01 01 00 AA
= image 34 AA 00*2 relocations

98 28 11 00 02 01 01
8C 01 78 00
A0 01 00 00 E8 00 00
= image E8 00*2 relocations

98 28 02 00 02 01 01
A0 01 00 00 EB 00
9C 80 01 00 01 01 81 00
= image EB 7F relocations

98 28 01 00 02 01 01
A2 01 00 00 01 00 02 00 01 00 00 00 01 41 FF FF 01 00 FF FF 01 00 FF FF 00 00 00
= image 41 relocations

98 28 02 00 02 01 01
A0 01 00 00 FF 00
9C C0 00 00 01 01 02 00
= image 01 00 relocations

98 28 04 00 02 01 01
A2 01 00 00 02 00 00 00 02 00 00
9C 84 05 00 01 01 10 00
= image 0E 00 0C 00 relocations

98 28 02 00 02 01 01
98 00 00 B8 00 00 40 01 01 01
A0 01 00 00 00 00
9C C4 00 00 01 02 34 12
= image 34 12 relocations

98 28 02 00 02 01 01
A0 01 00 00 00 00
9C C8 00 04 01 01
= image 00*2 relocations 00*4

98 28 00 00 02 01 01
= image relocations";

#[test]
fn fixups_are_added(rt: HostRuntime) -> Result<(), Fail> {
    let command = Command::Link(Options::new());
    answers(&rt, rt.alloc(), command, Telling::Image, FIXUPS)
}

/// A module with a relocated word behind a segment that is nearly full.
const FAR: &str = "\
98 28 FE FF 02 01 01
98 28 04 00 01 01 01
A0 02 01 00 00 00
9C C8 00 04 02 02";

/// Modules, and their program at 1234H.
const LOADED: &str = "\
raw 80 03 00 01 41 3B 96 07 00*2 04 43 4F 44 45 44 98 07 00 28 05 00 02 01*2 30 A0 09 00 01 00*2 B8 00*2 8E D8 \
38 9C 06 00 C8 01 04 01*2 8F 8A 07 00 C1 00 01*2 00*2 AC
= CS:IP 1234:0000 SS:SP 1234:0000
12340 B834128ED8

98 28 06 00 02 01 01
A2 01 00 00 03 00 00 00 02 00 00
9C C8 05 04 01 01
= CS:IP 1234:0000 SS:SP 1234:0000
12340 341234123412";

#[test]
fn files_are_loaded(rt: HostRuntime) -> Result<(), Fail> {
    let (link, load) = (Command::Link(Options::new()), Command::LinkAndLoad(1));
    answers(
        &rt,
        rt.alloc(),
        Command::LinkAndLoad(0x1234),
        Telling::Text,
        LOADED,
    )?;
    is_answer(
        &rt,
        rt.alloc(),
        link,
        Telling::Bytes,
        FAR,
        "raw 4D 5A 21 00 81 00 01 00 02 00 01 00 FF*2 00*10 1C 00*3 0F 00 FF 0F 00*65535 FF 0F",
    )?;
    is_answer(
        &rt,
        rt.alloc(),
        load,
        Telling::Text,
        FAR,
        "..\n10000 00000000000000000000000000000000\n10010 10",
    )
}

/// The file of two modules with a group over both.
const BOTH_FILE: &str = "\
raw 4D 5A 38 00 01 00 01 00 02 00 01 00 FF*2 00*10 1C 00*3 01 00*3 B8 01 00 A1 06 00*17 34 12";

/// Its program, loaded as high as it fits.
const BOTH_LOADED: &str = "\
CS:IP FFFE:0000 SS:SP FFFE:0000
FFFE0 B8FFFFA1060000000000000000000000
FFFF0 0000000000003412";

/// The same bytes of a common segment.
const COMMON: &str = "\
80 01 41
96 00 04 43 4F 44 45
98 38 04 00 02 01 01
A0 01 00 00 11 22 33 44
--
98 38 02 00 02 01 01
A0 01 00 00 AA BB
= image AA BB 33 44 relocations";

#[test]
fn modules_are_linked_together(rt: HostRuntime) -> Result<(), Fail> {
    let command = Command::Link(Options::new());
    let (high, higher) = (Command::LinkAndLoad(0xFFFE), Command::LinkAndLoad(0xFFFF));
    let unfit = "1 omf: A.OBJ: 39 DoesNotFit";
    is_answer(&rt, rt.alloc(), command, Telling::Bytes, BOTH, BOTH_FILE)?;
    is_answer(&rt, rt.alloc(), high, Telling::Text, BOTH, BOTH_LOADED)?;
    is_answer(&rt, rt.alloc(), higher, Telling::Text, BOTH, unfit)?;
    answers(&rt, rt.alloc(), command, Telling::Image, COMMON)
}

/// Stacks, and what of a program its file holds.
const SIZES: &str = "\
98 28 05 00 02 01 01
98 74 00 01 02 01 01
= raw 4D 5A 20 00 01 00*3 02 00 11 00 FF*2 01 00*2 01 00*6 1C 00*7

98 28 00 00 02 01 01
98 76 00 00 02 01 01
= raw 4D 5A 20 00 01 00*3 02 00*2 10 FF*2 00*10 1C 00*7

98 28 11 00 02 01 01
8C 01 78 00
90 00 01 01 78 10 00 00
A0 01 00 00 E8 00 00
9C 84 01 56 01
= raw 4D 5A 23 00 01 00*3 02 00 02 00 FF*2 00*10 1C 00*7 E8 0D 00

98 28 02 10 02 01 01
A0 01 FF 0F 00 00
9C C4 00 00 01 01 34 12
= raw 4D 5A 21 00 09 00*3 02 00 01 00 FF*2 00*10 1C 00*4102 34 12

98 28 FE FF 02 01 01
A0 01 00 F0 AA
= raw 4D 5A 21 00 79 00*3 02 00*2 01 FF*2 00*10 1C 00*61447 AA

# to the end, and to the edges of a page and of a paragraph
98 28 04 00 02 01 01
A0 01 02 00 AA BB
= raw 4D 5A 24 00 01 00*3 02 00 01 00 FF*2 00*10 1C 00*9 AA BB

98 28 00 20 02 01 01
A0 01 FF 0F AA
= raw 4D 5A 20 00 09 00*3 02 00*2 01 FF*2 00*10 1C 00*4102 AA

98 28 21 00 02 01 01
A0 01 0F 00 AA
= raw 4D 5A 30 00 01 00*3 02 00 02 00 FF*2 00*10 1C 00*22 AA

# zeros of the last data are data, and a record without bytes is none
98 28 21 00 02 01 01
A0 01 00 00 AA
A0 01 01 00 00 00
A0 01 21 00
= raw 4D 5A 23 00 01 00*3 02 00 03 00 FF*2 00*10 1C 00*7 AA 00*2";

#[test]
fn stacks_sizes_and_pages(rt: HostRuntime) -> Result<(), Fail> {
    let command = Command::Link(Options::new());
    answers(&rt, rt.alloc(), command, Telling::Bytes, SIZES)
}

/// What the file doesn't hold has to fit too.
#[test]
fn a_stack_has_to_fit(rt: HostRuntime) -> Result<(), Fail> {
    let stack = "\
98 28 05 00 02 01 01
98 74 00 01 02 01 01";
    let (last, too_high) = (Command::LinkAndLoad(0xFFEF), Command::LinkAndLoad(0xFFF0));
    let registers = "CS:IP FFEF:0000 SS:SP FFF0:0100";
    is_answer(&rt, rt.alloc(), last, Telling::Text, stack, registers)?;
    is_answer(
        &rt,
        rt.alloc(),
        too_high,
        Telling::Text,
        stack,
        "1 omf: A.OBJ: 39 DoesNotFit",
    )
}

/// Inputs, one of which is at fault.
const INPUT_FAULTS: &str = "\
raw 80 03 00 01 41 3C 96 07 00*2 04 43 4F 44 45 44 98 07 00 28 05 00 02 01*2 30 A0 09 00 01 00*2 B8 00*2 8E D8 \
38 9C 06 00 C8 01 04 01*2 8F 8A 07 00 C1 00 01*2 00*2 AC
= 1 omf: A.OBJ: 4 Closing at record 0

raw 80 03
= 1 omf: A.OBJ: 3 Truncated at record 0

raw 80 03 00 01 41 3B
= 1 omf: A.OBJ: 8 NoEnd at record 6

raw
= 1 omf: A.OBJ: 8 NoEnd at record 0

raw 80 03 00 01 41 3B 96 07 00*2 04 43 4F 44 45 44 98 08 00 28 05 00 02 01*2 00 2F A0 09 00 01 00*2 B8 00*2 8E \
D8 38 9C 06 00 C8 01 04 01*2 8F 8A 07 00 C1 00 01*2 00*2 AC
= 1 omf: A.OBJ: 6 Body at record 16 byte 6

raw 80 03 00 01 41 3B 96 07 00*2 04 43 4F 44 45 44 98 07 00 28 05 00 02 01*2 30 A0 09 00 01 00*2 B8 00*2 8E D8 \
38 9C 06 00 C8 01 04 01*2 8F 8A 04 00 C1 44 01 6C
= 1 omf: A.OBJ: 20 FrameOfLocation at record 47

raw 80 03 00 01 41 3B 96 07 00*2 04 43 4F 44 45 44 98 07 00 28 05 00 02 01*2 30 A0 09 00 01 00*2 B8 00*2 8E D8 \
38 9C 06 00 C8 01 04 01*2 8F 8A 07 00 C1 00 01*2 00*2 AC
--
raw 80 03 00 01 41 3B 96 07 00*2 04 43 4F 44 45 44 98 07 00 28 05 00 02 01*2 30 A0 09 00 01 00*2 B8 00*2 8E D8 \
38 9C 06 00 C8 01 04 01*2 8F 8A 07 00 C1 00 01*2 00*2 AC
= 1 omf: B.OBJ: 33 TwoStarts at record 47

# a fix-up of the first is at fault, and the second isn't a module
98 28 11 00 02 01 01
8C 01 78 00
A0 01 00 00 E8 00 00
9C 84 01 56 01
--
raw
= 1 omf: B.OBJ: 8 NoEnd at record 0";

#[test]
fn faults_of_an_input_are_named(rt: HostRuntime) -> Result<(), Fail> {
    let command = Command::Link(Options::new());
    answers(&rt, rt.alloc(), command, Telling::Bytes, INPUT_FAULTS)
}

/// Modules that have no program.
const MODULE_FAULTS: &str = "\
98 28 06 00 02 01 01
A2 01 00 00 03 00 00 00 02 00 00
9C C8 04 04 01 01
= 1 omf: A.OBJ: 16 FixupPlace at record 40

98 28 0C 00 02 01 01
A2 01 00 00 FF FF 01 00 FF FF 01 00 FF FF 00 00 01 41
= 1 omf: A.OBJ: 17 DataOutside at record 26

98 28 00 00 02 01 01
98 76 00 00 02 01 01
98 74 01 00 02 01 01
= 1 omf: link: 22 SegmentTooLong \"CODE\"

98 28 FF FF 02 01 01
98 28 02 00 01 01 01
9A 02 FF 01 FF 02
= 1 omf: link: 24 GroupTooLong \"CODE\"

98 28 05 00 02 01 01
90 00 01 01 78 00 00 00 01 78 01 00 00
= 1 omf: link: 25 DuplicatePublic \"x\"

98 28 00 00 02 01 01
96 04 22 5C 0A E9
98 76 00 00 03 01 01
98 74 01 00 03 01 01
= 1 omf: link: 22 SegmentTooLong \"\\x22\\x5C\\x0A\\xE9\"

98 28 FF FF 02 01 01
96 02 00 7F
98 28 02 00 01 01 01
9A 03 FF 01 FF 02
= 1 omf: link: 24 GroupTooLong \"\\x00\\x7F\"

98 28 05 00 02 01 01
90 00 01 03 20 7E 1F 00 00 00 03 20 7E 1F 01 00 00
= 1 omf: link: 25 DuplicatePublic \" ~\\x1F\"

98 28 04 00 02 01 01
A0 01 00 00 00 00 00 00
9C C8 00 04 01 01
A0 01 01 00 AA
= 1 omf: A.OBJ: 26 CoversRelocated at record 46

98 28 11 00 02 01 01
8C 01 78 00
A0 01 00 00 E8 00 00
9C 84 01 56 01
= 1 omf: A.OBJ: 27 Unresolved at record 43

98 28 02 00 02 01 01
9A 02
A0 01 00 00 00 00
9C C4 00 14 01 01
= 1 omf: A.OBJ: 28 EmptyGroup at record 40

98 28 02 00 02 01 01
9A 02
A0 01 00 00 00 00
9C C4 00 05 01 01
= 1 omf: A.OBJ: 28 EmptyGroup at record 40

98 28 02 00 02 01 01
9A 02
8C 01 78 00
90 01 01 01 78 00 00 00
A0 01 00 00 00 00
9C C4 00 56 01
= 1 omf: A.OBJ: 28 EmptyGroup at record 58

98 28 02 00 02 01 01
98 00 00 B8 00 00 40 01 01 01
A0 01 00 00 00 00
9C C4 00 00 02 01 00 00
= 1 omf: A.OBJ: 29 Mixed at record 48

98 28 20 00 02 01 01
98 68 04 00 01 01 01
A0 02 00 00 00 00 05 00
9C C4 00 00 02 01 00 00
= 1 omf: A.OBJ: 30 OutOfFrame at record 47

98 28 02 00 02 01 01
A0 01 00 00 EB 00
9C 80 01 00 01 01 82 00
= 1 omf: A.OBJ: 31 ShortTooFar at record 35

98 28 04 00 02 01 01
A0 01 00 00 00 00 00 00
9C C8 00 04 01 01 C8 01 04 01 01
= 1 omf: A.OBJ: 32 OverlapRelocated at record 37";

#[test]
fn faults_of_modules_are_named(rt: HostRuntime) -> Result<(), Fail> {
    let command = Command::Link(Options::new());
    answers(&rt, rt.alloc(), command, Telling::Bytes, MODULE_FAULTS)
}

/// Sixteen segments, as large as may be.
const LARGEST: &str = "\
80 01 41
96 00
98 22 00 00 01 01 01 x15
98 20 F0 FF 01 01 01";

/// Segments with 32,767 relocated words, as many, and one.
const MOST_WORDS: &str = "\
98 28 FE FF 02 01 01
98 60 FE FF 01 01 01
98 60 04 00 01 01 01
A2 01 00 00 FF 7F 00 00 02 00 00
9C C8 05 04 01 01
A2 02 00 00 FF 7F 00 00 02 00 00
9C C8 05 04 02 02
A0 03 00 00 00 00 00 00
9C C8 00 04 03 03";

#[test]
fn the_greatest_programs_are_linked(rt: HostRuntime) -> Result<(), Fail> {
    let command = Command::Link(Options::new());
    let most = "393252 bytes 4D 5A 24 00 01 03 FF*2 02 40 01 00";
    is_answer(
        &rt,
        rt.alloc(),
        command,
        Telling::Bytes,
        LARGEST,
        "raw 4D 5A 20 00 01 00*3 02 00 FF*4 00*10 1C 00*7",
    )?;
    is_answer(&rt, rt.alloc(), command, Telling::Head, MOST_WORDS, most)
}

#[test]
fn the_greatest_programs_are_loaded(rt: HostRuntime) -> Result<(), Fail> {
    let (low, high) = (Command::LinkAndLoad(1), Command::LinkAndLoad(2));
    let registers = "CS:IP 0001:0000 SS:SP 0001:0000";
    is_answer(&rt, rt.alloc(), low, Telling::Text, LARGEST, registers)?;
    is_answer(
        &rt,
        rt.alloc(),
        high,
        Telling::Text,
        LARGEST,
        "1 omf: A.OBJ: 39 DoesNotFit",
    )?;
    is_answer(
        &rt,
        rt.alloc(),
        low,
        Telling::Text,
        MOST_WORDS,
        "..\n20010 01200000",
    )?;
    is_answer(
        &rt,
        rt.alloc(),
        high,
        Telling::Text,
        MOST_WORDS,
        "..\n20020 02200000",
    )
}

/// A byte more than the largest, and a word more than the most.
const TOO_LARGE: &str = "\
80 01 41
96 00
98 22 00 00 01 01 01 x15
98 20 F1 FF 01 01 01
= 1 omf: link: 23 ProgramTooLarge

98 28 FE FF 02 01 01
98 60 FE FF 01 01 01
98 60 04 00 01 01 01
A2 01 00 00 FF 7F 00 00 02 00 00
9C C8 05 04 01 01
A2 02 00 00 FF 7F 00 00 02 00 00
9C C8 05 04 02 02
A0 03 00 00 00 00 00 00
9C C8 00 04 03 03 C8 02 04 03 03
= 1 omf: link: 34 TooManyRelocations";

#[test]
fn programs_are_too_large(rt: HostRuntime) -> Result<(), Fail> {
    let command = Command::Link(Options::new());
    answers(&rt, rt.alloc(), command, Telling::Bytes, TOO_LARGE)
}

/// Publics "a0" to "a1999", and then another name and one of theirs.
#[test]
fn two_of_many_publics_have_one_name(rt: HostRuntime) -> Result<(), Fail> {
    let publics = publics(rt.alloc(), 2_000)?;
    let table = format!(in rt.alloc();
        "98 28 D0 07 02 01 01{publics} 05 61 32 30 30 30 D0 07 00
= raw 4D 5A 20 00 01 00*3 02 00 7D 00 FF*2 00*10 1C 00*7

98 28 D0 07 02 01 01{publics} 02 61 37 D0 07 00
= 1 omf: link: 25 DuplicatePublic \"a7\""
    )?;
    let command = Command::Link(Options::new());
    answers(&rt, rt.alloc(), command, Telling::Bytes, &table)
}
