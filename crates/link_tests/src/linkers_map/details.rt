//! The detailed map of segments.

ghost use Rattle.omf_place.specs.Bounded.{IsBounded};

use link_map::{LinkedProgram, MapFault, MapForm, Shown, Sources, write_shown_map};
use omf_frame::MemSink;
use omf_image::build;
use omf_module::Module;
use omf_place::{Layout, Names, place};
use refusing::Refusing;
use rows::{push_text, read_modules, read_row, same};
use std::alloc::{Allocator, Global};
use std::test::*;

/// Two modules with code that combines, the first one with data in a group; a line of each.
const TWO_MODULES: &str = "\
80 07 68 65 6C 6C 6F 2E 63
96 00 05 5F 54 45 58 54 04 43 4F 44 45 05 5F 44 41 54 41 04 44 41 54 41 06 44 47 52 4F 55 50
98 28 20 00 02 03 01
98 48 08 00 04 05 01
9A 06 FF 02
90 00 01 01 6D 03 00 00
94 00 01 0C 00 00 00
8A 00
--
80 03 62 2E 63
96 00 05 5F 54 45 58 54 04 43 4F 44 45
98 68 10 00 02 03 01
94 00 01 07 00 02 00
8A 00";

/// Names that are longer than their columns; 65,536 bytes and none; an absolute segment, by its own frame; a segment of
/// two groups, by the first one's frame; one that its own frame doesn't reach; parts of one address, in order of
/// modules; and a module whose name is empty.
const ODD: &str = "\
80 0C 4C 4F 4E 47 45 52 4E 41 4D 45 2E 43
96 00 14 53 45 47 4D 45 4E 54 5F 4F 46 5F 4C 4F 4E 47 5F 4E 41 4D 45 07 43 4C 41 53 53 45 53
96 01 41 01 42 01 43 0A 46 49 52 53 54 47 52 4F 55 50 06 53 45 43 4F 4E 44 03 41 42 53
98 2A 00 00 02 03 01
98 08 40 00 04 10 00 09 03 01
98 3C 00 00 04 04 01
98 30 23 00 04 04 01
98 20 05 00 05 05 01
98 38 01 00 06 05 01
9A 07 FF 04 FF 05
9A 08 FF 05 FF 06
8A 00
--
80 00
96 00 14 53 45 47 4D 45 4E 54 5F 4F 46 5F 4C 4F 4E 47 5F 4E 41 4D 45 07 43 4C 41 53 53 45 53
98 28 00 00 02 03 01
8A 00";

/// The two modules as records of 32 bits say them, with the bit P of a segment, and with its lines.
const TWO_OF_32_BITS: &str = "\
80 07 68 65 6C 6C 6F 2E 63
96 00 05 5F 54 45 58 54 04 43 4F 44 45 05 5F 44 41 54 41 04 44 41 54 41 06 44 47 52 4F 55 50
99 29 20 00 00 00 02 03 01
99 48 08 00 00 00 04 05 01
9A 06 FF 02
91 00 01 01 6D 03 00 00 00 00
95 00 01 0C 00 00 00 00 00 0D 00 00 00 01 00
8B 00
--
80 03 62 2E 63
96 00 05 5F 54 45 58 54 04 43 4F 44 45
98 69 10 00 02 03 01
95 00 01 07 00 02 00 00 00
8A 00";

/// The odd ones, of which the first has a segment and the second none.
const ODD_WITH_MORE: &str = "\
80 0C 4C 4F 4E 47 45 52 4E 41 4D 45 2E 43
99 2B 00 00 01 00 02 03 01
8A 00
--
80 00
8A 00";

/// Which map is that of modules which were given so, but for these attributes.
const GIVEN: [(usize, &str, &str, &[(&str, &str)]); 2] = [
    (
        1,
        TWO_MODULES,
        TWO_OF_32_BITS,
        &[("=28", "=29"), ("=68", "=69")],
    ),
    (
        3,
        ODD,
        ODD_WITH_MORE,
        &[
            ("=2A", "=2B"),
            ("=08", "=00"),
            ("=3C", "=28"),
            ("=30", "=28"),
        ],
    ),
];

/// Modules, what a map of their program shows, and that map.
const MAPS: [(Shown, &str, &str); 4] = [
    // both parts of the code stand in front of the data
    (
        Shown {
            form: MapForm::Tlink,
            details: true,
            line_numbers: false,
        },
        TWO_MODULES,
        "
 Start  Stop   Length Name               Class

 00000H 0002FH 00030H _TEXT              CODE
 00030H 00037H 00008H _DATA              DATA

 Detailed map of segments

 0000:0000 0020 C=CODE   S=_TEXT          G=(none)  M=hello.c   ACBP=28
 0000:0020 0010 C=CODE   S=_TEXT          G=(none)  M=b.c       ACBP=68
 0003:0000 0008 C=DATA   S=_DATA          G=DGROUP  M=hello.c   ACBP=48

  Address         Publics by Name

 0000:0003       m

  Address         Publics by Value

 0000:0003       m

Program entry point at 0000:0000
",
    ),
    (
        Shown {
            form: MapForm::Tlink,
            details: true,
            line_numbers: true,
        },
        TWO_MODULES,
        "
 Start  Stop   Length Name               Class

 00000H 0002FH 00030H _TEXT              CODE
 00030H 00037H 00008H _DATA              DATA

 Detailed map of segments

 0000:0000 0020 C=CODE   S=_TEXT          G=(none)  M=hello.c   ACBP=28
 0000:0020 0010 C=CODE   S=_TEXT          G=(none)  M=b.c       ACBP=68
 0003:0000 0008 C=DATA   S=_DATA          G=DGROUP  M=hello.c   ACBP=48

  Address         Publics by Name

 0000:0003       m

  Address         Publics by Value

 0000:0003       m

Line numbers for hello.obj(hello.c) segment _TEXT

    12 0000:0000

Line numbers for c.lib(b)(b.c) segment _TEXT

     7 0000:0022

Program entry point at 0000:0000
",
    ),
    (
        Shown {
            form: MapForm::Tlink,
            details: false,
            line_numbers: false,
        },
        TWO_MODULES,
        "
 Start  Stop   Length Name               Class

 00000H 0002FH 00030H _TEXT              CODE
 00030H 00037H 00008H _DATA              DATA

  Address         Publics by Name

 0000:0003       m

  Address         Publics by Value

 0000:0003       m

Program entry point at 0000:0000
",
    ),
    (
        Shown {
            form: MapForm::Link,
            details: true,
            line_numbers: false,
        },
        ODD,
        "
 Start  Stop   Length Name                   Class
 00000H 0FFFFH 10000H SEGMENT_OF_LONG_NAME   CLASSES
 10000H 10022H 00023H A                      A
 10023H 10027H 00005H B                      B
 10028H 10028H 00001H C                      B

 Origin   Group
 1000:0   FIRSTGROUP
 1002:0   SECOND

 Detailed map of segments

 0000:0000 10000 C=CLASSES S=SEGMENT_OF_LONG_NAME G=(none)  M=LONGERNAME.C ACBP=2A
 0040:0004 0010 C=CLASSES S=ABS            G=(none)  M=LONGERNAME.C ACBP=08
 1000:0000 0000 C=A      S=A              G=(none)  M=LONGERNAME.C ACBP=3C
 1000:0000 0023 C=A      S=A              G=FIRSTGROUP M=LONGERNAME.C ACBP=30
 1000:0000 0000 C=CLASSES S=SEGMENT_OF_LONG_NAME G=(none)  M=          ACBP=28
 1000:0023 0005 C=B      S=B              G=FIRSTGROUP M=LONGERNAME.C ACBP=20
 1002:0008 0001 C=B      S=C              G=SECOND  M=LONGERNAME.C ACBP=38

  Address         Publics by Name


  Address         Publics by Value


Program entry point at 0000:0000
",
    ),
];

/// The files of the first inputs.
const FILES: [&[u8]; 2] = [b"hello.obj", b"c.lib(b)"];

/// The bytes of modules, what their map shows, and that map.
#[derive(Drop)]
struct Case<'c> {
    shown: Shown,
    inputs: &'c [&'c [u8]],
    map: &'c str,
}

/// What a sink with so much room took of a map, and why it isn't the whole.
fn put<A: Allocator + Copy>(
    alloc: A,
    words: Global,
    case: &Case<'_>,
    linked: &LinkedProgram<'_>,
    room: usize,
) -> Result<String, Fail>
    requires { IsBounded linked.now.modules.now linked.now.layout.now }
{
    let mut bytes = vec![in words; 0u8; room]?;
    let mut sink = MemSink::over(&mut bytes, 7);
    let sources = Sources {
        inputs: case.inputs,
        files: FILES.as_slice(),
    };
    let answer = write_shown_map(alloc, &mut sink, case.shown, linked, sources);
    let mut text = String::new(words);
    push_text(&mut text, sink.written())?;
    match answer {
        Ok(()) => {}
        Err(MapFault::Device) => text.push_str("failed")?,
        Err(MapFault::Memory) => text.push_str("no memory")?,
    }
    Ok(text)
}

/// The map of a program is that, and a sink with room for less has a front of it. Want of memory for parts writes
/// nothing.
fn has_map(words: Global, case: &Case<'_>, linked: &LinkedProgram<'_>) -> Result<(), Fail>
    requires { IsBounded linked.now.modules.now linked.now.layout.now }
{
    same(&put(words, words, case, linked, 4_096)?, case.map)?;
    for room in 0..case.map.len() {
        let front = format!(in words; "{}failed", case.map.get(..room).unwrap_or("?"))?;
        same(&put(words, words, case, linked, room)?, &front)?;
    }
    let growths: u64 = if case.shown.details { 8 } else { 0 };
    for growth in 1..=growths {
        let refusing = Refusing::nth(words, growth);
        same(&put(&refusing, words, case, linked, 4_096)?, "no memory")?;
    }
    Ok(())
}

/// The map of modules that were linked is that.
fn has_details(
    words: Global,
    modules: &[Module],
    layout: &Layout,
    case: &Case<'_>,
) -> Result<(), Fail>
    requires { IsBounded modules.now layout.now }
{
    let program = build(words, modules, layout)?;
    let linked = LinkedProgram {
        modules,
        layout,
        program: &program,
    };
    has_map(words, case, &linked)
}

/// The map of the program of these records is that, where its modules were given as those.
fn is_map(words: Global, shown: Shown, records: &str, given: &str, map: &str) -> Result<(), Fail> {
    let row = read_row(words, records)?;
    let given = read_row(words, given)?;
    let modules = read_modules(words, &row.inputs)?;
    let layout = place(words, &modules, Names::Exact)?;
    let mut inputs = Vec::new(words);
    for input in &given.inputs {
        inputs.push(input.as_slice())?;
    }
    let case = Case {
        shown,
        inputs: &inputs,
        map,
    };
    has_details(words, &modules, &layout, &case)
}

#[test]
fn maps_have_parts_of_segments(rt: HostRuntime) -> Result<(), Fail> {
    for (shown, records, map) in MAPS {
        is_map(rt.alloc(), shown, records, records, map)?;
    }
    Ok(())
}

/// A text with the first of these words, and those behind each other, as others.
fn changed(alloc: Global, text: &str, changes: &[(&str, &str)]) -> Result<String, Fail> {
    let mut out = String::new(alloc);
    let mut rest = text;
    for (old, new) in changes {
        let (front, behind) = rest.split_once(*old).unwrap_or((rest, ""));
        out.push_str(front)?;
        out.push_str(new)?;
        rest = behind;
    }
    out.push_str(rest)?;
    Ok(out)
}

/// Attributes are those of the records that were given, and where these define no segment, those of the module's.
#[test]
fn parts_have_given_attributes(rt: HostRuntime) -> Result<(), Fail> {
    let alloc = rt.alloc();
    for (index, records, given, changes) in GIVEN {
        let (shown, _, map) = MAPS[index];
        is_map(alloc, shown, records, given, &changed(alloc, map, changes)?)?;
    }
    Ok(())
}
