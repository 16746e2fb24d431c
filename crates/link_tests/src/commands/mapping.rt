//! Maps of links.

use super::answer::Command;
use super::objects::BOTH;
use super::tables::{Telling, is_answer};
use omf_commands::Options;
use rows::publics;
use std::test::*;

/// The map of the two modules with a group over both.
const BOTH_MAP: &str = "\
segments
000000 000012 public   \"CODE\" \"CODE\"
000012 000006 public   \"_DATA\" \"_DATA\"
groups
0001 \"DGROUP\"
publics
000016 R \"x\"
entry 0000:0000
stack 0000:0000
size 000018
relocations 1";

#[test]
fn a_link_has_a_map(rt: HostRuntime) -> Result<(), Fail> {
    let command = Command::Map(Options::new());
    is_answer(&rt, rt.alloc(), command, Telling::Text, BOTH, BOTH_MAP)
}

/// A reference to a segment that stands at a frame.
const ABSOLUTE: &str = "\
98 28 02 00 02 01 01
98 00 00 B8 00 00 40 01 01 01
A0 01 00 00 00 00
9C C8 00 04 02 02";

const ABSOLUTE_MAP: &str = "\
segments
000000 000002 public   \"CODE\" \"\"
0B8000 004000 absolute \"\" \"\"
groups
publics
entry 0000:0000
stack 0000:0000
size 000002
relocations 0";

#[test]
fn an_absolute_segment_is_listed(rt: HostRuntime) -> Result<(), Fail> {
    let command = Command::Map(Options::new());
    is_answer(
        &rt,
        rt.alloc(),
        command,
        Telling::Text,
        ABSOLUTE,
        ABSOLUTE_MAP,
    )
}

#[test]
fn many_publics_are_listed_in_order(rt: HostRuntime) -> Result<(), Fail> {
    let mut module = String::new(rt.alloc());
    write!(
        module,
        "98 28 D0 07 02 01 01{}",
        publics(rt.alloc(), 2_000)?
    )?;
    let mut map = String::new(rt.alloc());
    write!(
        map,
        "segments\n000000 0007D0 public   \"CODE\" \"\"\ngroups\npublics\n"
    )?;
    for n in 0..2_000u16 {
        write!(map, "{n:06X} R \"a{n}\"\n")?;
    }
    write!(
        map,
        "entry 0000:0000\nstack 0000:0000\nsize 0007D0\nrelocations 0"
    )?;
    let command = Command::Map(Options::new());
    is_answer(&rt, rt.alloc(), command, Telling::Text, &module, &map)
}
