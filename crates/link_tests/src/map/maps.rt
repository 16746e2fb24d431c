//! Maps of linked programs.

ghost use Rattle.std.specs.Prelude.{◌-◌, ◌^◌, ◌<◌};
ghost use Rattle.omf_place.specs.Bounded.{IsBounded};

use omf_frame::MemSink;
use omf_image::{Program, build};
use omf_map::put_map;
use omf_module::Module;
use omf_place::{Layout, Names, place};
use rows::{publics, read_modules, read_row, same};
use std::alloc::{AllocError, Global};
use std::test::*;

/// Modules, and the map of their program.
const MAPS: &str = "\
# a module that takes a word of another one by a group, and the module that has the word
80 01 41
96 00 04 43 4F 44 45 05 5F 44 41 54 41 06 44 47 52 4F 55 50
98 68 12 00 02 02 01
98 48 03 00 03 03 01
9A 04 FF 02
8C 01 78 00
A0 01 00 00 B8 00 00 A1 00 00
9C 44 01 08 01
9C C8 01 8C C4 04 8C
8A C1 00 01 01 00 00
--
80 01 41
96 00 05 5F 44 41 54 41 06 44 47 52 4F 55 50
98 48 02 00 02 02 01
9A 03 FF 01
90 01 01 01 78 00 00 00
A0 01 00 00 34 12
8A 00
= segments
000000 000012 public   \"CODE\" \"CODE\"
000012 000006 public   \"_DATA\" \"_DATA\"
groups
0001 \"DGROUP\"
publics
000016 R \"x\"
entry 0000:0000
stack 0000:0000
size 000018
relocations 1

# a module that names the base of an absolute segment
80 01 41
96 00 04 43 4F 44 45
98 28 02 00 02 01 01
98 00 00 B8 00 00 40 01 01 01
A0 01 00 00 00 00
9C C8 00 04 02 02
8A 00
= segments
000000 000002 public   \"CODE\" \"\"
0B8000 004000 absolute \"\" \"\"
groups
publics
entry 0000:0000
stack 0000:0000
size 000002
relocations 0

# a private, a stack and a common segment and an absolute one before it, a group without members, publics of both
# sorts, and a start; and a longer common segment and an absolute one of 65,536 bytes, a group with a member, and a
# public of it
80 01 41
96 00 02 22 FF 01 47 04 5C 20 7E 7F
98 60 04 00 02 01 01
98 74 00 01 02 01 01
98 00 40 00 02 10 00 04 02 01
98 78 02 00 02 01 01
9A 03
90 00 00 40 00 01 78 6C 04 00
90 00 04 04 5C 20 7E 7F 01 00 00
8A C1 00 01 01 02 00
--
80 01 41
96 00 02 22 FF 01 48
98 78 05 00 02 01 01
98 02 00 B8 00 00 00 03 01 01
9A 03 FF 01
90 01 01 01 7A 03 00 00
8A 00
= segments
000000 000004 private  \"\\x22\\xFF\" \"\"
000010 000100 stack    \"\\x22\\xFF\" \"\"
000110 000005 common   \"\\x22\\xFF\" \"\"
000402 000010 absolute \"\\x5C ~\\x7F\" \"\\x22\\xFF\"
0B8000 010000 absolute \"H\" \"\"
groups
---- \"G\"
0011 \"H\"
publics
00086C A \"x\"
000111 R \"\\x5C ~\\x7F\"
000113 R \"z\"
entry 0000:0002
stack 0001:0100
size 000115
relocations 0

# a public, and local publics of its name and of another one
80 01 41
96 00 04 43 4F 44 45
98 28 04 00 02 01 01
B6 00 01 01 78 02 00 00 01 79 03 00 00
90 00 01 01 78 01 00 00
8A 00
= segments
000000 000004 public   \"CODE\" \"\"
groups
publics
000001 R \"x\"
entry 0000:0000
stack 0000:0000
size 000004
relocations 0";

/// What is linked.
type Linked<'a> = (&'a [Module], &'a Layout, &'a Program);

/// How many bytes a sink takes, and how many of them at once.
type Room = (usize, usize);

/// Whether the sink took the whole map.
fn has_put(linked: Linked<'_>, sink: &mut MemSink<'_>) -> bool
    requires { sink.old.failures < 2 ^ 64 - 1 }
{
    let (modules, layout, program) = linked;
    put_map(sink, modules, layout, program).is_ok()
}

/// What a sink took of the map, and whether it failed.
fn told(alloc: Global, linked: Linked<'_>, (room, piece): Room) -> Result<String, Fail> {
    let mut bytes = vec![in alloc; 0u8; room]?;
    let mut sink = MemSink::over(&mut bytes, piece.max(1));
    let end = if has_put(linked, &mut sink) {
        ""
    } else {
        "cut"
    };
    let text = str::from_utf8(sink.written())?;
    Ok(format!(in alloc; "{text}{end}")?)
}

/// The map, or as much of it as there is room for.
fn wanted(alloc: Global, map: &str, room: usize) -> Result<String, AllocError> {
    match map.get(..room) {
        Some(front) if room < map.len() => format!(in alloc; "{front}cut"),
        _ => String::from_str(alloc, map),
    }
}

/// The map is this text, or a front of it, in sinks with room for so many bytes, each number up to one more than all.
fn maps(alloc: Global, linked: Linked<'_>, map: &str, least: usize) -> Result<(), Fail> {
    for room in least.min(map.len())..=map.len().saturating_add(1) {
        let wanted = wanted(alloc, map, room)?;
        for piece in [1usize, 7, 4_096] {
            same(&told(alloc, linked, (room, piece))?, &wanted)?;
        }
    }
    Ok(())
}

/// That of modules that were placed.
fn built_maps(
    alloc: Global,
    modules: &[Module],
    layout: &Layout,
    map: &str,
    least: usize,
) -> Result<(), Fail>
    requires { IsBounded modules.now layout.now }
{
    let program = build(alloc, modules, layout)?;
    maps(alloc, (modules, layout, &program), map, least)
}

/// That of modules.
fn placed_maps(alloc: Global, modules: &[Module], map: &str, least: usize) -> Result<(), Fail> {
    let layout = place(alloc, modules, Names::Exact)?;
    built_maps(alloc, modules, &layout, map, least)
}

/// That of a row of a table.
fn row_maps(alloc: Global, row: &str, least: usize) -> Result<(), Fail> {
    let row = read_row(alloc, row)?;
    let modules = read_modules(alloc, &row.inputs)?;
    let map = format!(in alloc; "{}\n", row.wanted)?;
    placed_maps(alloc, &modules, &map, least)
}

#[test]
fn programs_have_maps(rt: HostRuntime) -> Result<(), Fail> {
    for row in MAPS.split("\n\n") {
        row_maps(rt.alloc(), row, 0)?;
    }
    Ok(())
}

/// The module of 2,000 numbered publics, and its map.
fn numbered_row(alloc: Global) -> Result<String, Fail> {
    let mut row = String::new(alloc);
    write!(row, "98 28 D0 07 02 01 01{}", publics(alloc, 2_000)?)?;
    row.push_str("\n= segments\n000000 0007D0 public   \"CODE\" \"\"\ngroups\npublics\n")?;
    for n in 0..2_000u16 {
        write!(row, "{n:06X} R \"a{n}\"\n")?;
    }
    row.push_str("entry 0000:0000\nstack 0000:0000\nsize 0007D0\nrelocations 0")?;
    Ok(row)
}

#[test]
fn many_publics_are_listed_in_order(rt: HostRuntime) -> Result<(), Fail> {
    let row = numbered_row(rt.alloc())?;
    row_maps(rt.alloc(), &row, usize::MAX)
}
