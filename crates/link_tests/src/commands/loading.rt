//! Files that are loaded.

use super::answer::Command;
use super::objects::{SMALL_FILE, SMALL_LOADED};
use super::tables::{Telling, answers, is_answer};
use std::test::*;

#[test]
fn a_file_is_listed(rt: HostRuntime) -> Result<(), Fail> {
    let command = Command::Load(0x1234);
    is_answer(
        &rt,
        rt.alloc(),
        command,
        Telling::Text,
        SMALL_FILE,
        SMALL_LOADED,
    )
}

/// A file with an image of 33 bytes, without relocations.
const LONG_FILE: &str = "\
raw 4D 5A 41 00 01 00*3 02 00*3 FF*2 02 00 80 00*3 03 00 01 00 1C 00*8 01 02 03 04 05 06 07 08 09 0A 0B 0C 0D \
0E 0F 10 11 12 13 14 15 16 17 18 19 1A 1B 1C 1D 1E 1F FF";

/// Its program, loaded as high as it fits.
const LONG_LOADED: &str = "\
CS:IP FFFE:0003 SS:SP FFFF:0080
FFFD0 000102030405060708090A0B0C0D0E0F
FFFE0 101112131415161718191A1B1C1D1E1F
FFFF0 FF";

#[test]
fn sixteen_bytes_stand_in_a_line(rt: HostRuntime) -> Result<(), Fail> {
    let (fits, unfit) = (Command::Load(0xFFFD), Command::Load(0xFFFE));
    is_answer(&rt, rt.alloc(), fits, Telling::Text, LONG_FILE, LONG_LOADED)?;
    is_answer(
        &rt,
        rt.alloc(),
        unfit,
        Telling::Text,
        LONG_FILE,
        "1 omf: A.OBJ: 39 DoesNotFit",
    )
}

/// The file of the small module with one word changed.
const FAULTS: &str = "\
raw 5A 4D 25 00 01 00 01 00 02 00 01 00 FF*2 00*10 1C 00*3 01 00*3 B8 00*2 8E D8
= 1 omf: A.OBJ: 35 Magic

raw 4D 5A 25 00 01 00 02 00 02 00 01 00 FF*2 00*10 1C 00*3 01 00*3 B8 00*2 8E D8
= 1 omf: A.OBJ: 36 Header

raw 4D 5A 26 00 01 00 01 00 02 00 01 00 FF*2 00*10 1C 00*3 01 00*3 B8 00*2 8E D8
= 1 omf: A.OBJ: 37 Truncated

raw 4D 5A 25 00 01 00 01 00 02 00 01 00 FF*2 00*10 1C 00*3 04 00*3 B8 00*2 8E D8
= 1 omf: A.OBJ: 38 RelocationOutside";

#[test]
fn faults_of_a_file_are_told(rt: HostRuntime) -> Result<(), Fail> {
    answers(&rt, rt.alloc(), Command::Load(0), Telling::Text, FAULTS)
}
