//! Line numbers in maps.

ghost use Rattle.omf_place.specs.Bounded.{IsBounded};

use link_map::{LinkedProgram, MapFault, MapForm, Sources, write_numbered_map};
use omf_frame::MemSink;
use omf_image::build;
use omf_module::Module;
use omf_place::{Layout, Names, place};
use refusing::Refusing;
use rows::{push_text, read_modules, read_row, same};
use std::alloc::{Allocator, Global};
use std::test::*;

/// Two modules with code that combines, the first one with data in a group; a line of a segment that isn't there.
const TWO_MODULES: &str = "\
80 07 68 65 6C 6C 6F 2E 63
96 00 05 5F 54 45 58 54 04 43 4F 44 45 05 5F 44 41 54 41 04 44 41 54 41 06 44 47 52 4F 55 50
98 28 20 00 02 03 01
98 48 08 00 04 05 01
9A 06 FF 02
94 00 01 0C 00 00 00 0D 00 03 00 0F 00 09 00 11 00 0C 00
94 01 02 01 00 04 00
94 00 01 12 00 10 00
8A 00
--
80 03 62 2E 63
96 00 05 5F 54 45 58 54 04 43 4F 44 45
98 68 10 00 02 03 01
90 00 01 01 66 02 00 00
94 00 01 07 00 02 00
94 00 02 08 00 02 00
8A 00";

/// The same two with the lines in records of 32 bits, and lines beyond each segment; one record ends in a line.
const TWO_OF_32_BITS: &str = "\
80 07 68 65 6C 6C 6F 2E 63
95 00 01 0C 00 00 00 00 00 0D 00 03 00 00 00 0E 00 00 00 01 00 0F 00 09 00 00 00
94 00 01 11 00 0C 00
95 01 02 01 00 04 00 00 00 02 00 04 00 00 01 02 00 04 00 00
95 00 01 12 00 10 00 00 00
8A 00
--
80 03 62 2E 63
95 00 01 07 00 02 00 00 00
95 00
95 00 02 08 00 02 00 00 00
8B 00";

/// Modules, and the map of their program in a form.
const MAPS: [(MapForm, &str, &str); 3] = [
    (
        MapForm::Link,
        TWO_MODULES,
        "
 Start  Stop   Length Name                   Class
 00000H 0002FH 00030H _TEXT                  CODE
 00030H 00037H 00008H _DATA                  DATA

 Origin   Group
 0003:0   DGROUP

  Address         Publics by Name

 0000:0022       f

  Address         Publics by Value

 0000:0022       f

Line numbers for hello.obj(hello.c) segment _TEXT

    12 0000:0000    13 0000:0003    15 0000:0009    17 0000:000C
    18 0000:0010

Line numbers for hello.obj(hello.c) segment _DATA

     1 0003:0004

Line numbers for c.lib(b)(b.c) segment _TEXT

     7 0000:0022

Program entry point at 0000:0000
",
    ),
    // lines of a segment by its group, by its own frame, by a group without members and by one that isn't there;
    // places that their group doesn't reach, and that their own frame just reaches; an absolute segment, by its own
    // frame and by a group; and lines of segments that aren't there
    (
        MapForm::Tlink,
        "\
80 01 41
96 00 01 41 01 42 01 43 01 47 01 48
98 28 20 00 02 02 01
98 68 20 00 03 03 01
98 00 40 00 04 10 00 04 04 01
9A 05 FF 01 FF 02
9A 06
94 01 02 01 00 00 00 02 00 FF FF
94 00 01 03 00 01 00
94 00 02 04 00 01 00 05 00 FF FF
94 02 02 06 00 12 00
94 03 02 07 00 13 00
94 00 03 08 00 02 00
94 01 03 09 00 03 00
94 00 04 0A 00 00 00
94 00 00 0B 00 00 00
8A 00",
        "
 Start  Stop   Length Name               Class

 00000H 0001FH 00020H A                  A
 00020H 0003FH 00020H B                  B

  Address         Publics by Name


  Address         Publics by Value


Line numbers for hello.obj(A) segment A

     3 0000:0001

Line numbers for hello.obj(A) segment B

     1 0000:0020     2 1001:000F     4 0002:0001     5 0002:FFFF
     6 0003:0002     7 0002:0013

Line numbers for hello.obj(A) segment C

     8 0040:0006     9 0040:0007

Program entry point at 0000:0000
",
    ),
    // a record without lines, numbers of each width in one whole row, and a third module, which has no file
    (
        MapForm::Tlink,
        "\
80 01 41
96 00 01 41 01 42
98 28 02 00 02 02 01
98 28 02 00 03 03 01
94 00 01
94 00 02 FF FF 00 00 10 27 01 00 E8 03 01 00 64 00 01 00
--
80 01 41
96 00
--
80 01 41
96 00 01 41
98 28 01 00 02 02 01
94 00 01 00 00 00 00",
        "
 Start  Stop   Length Name               Class

 00000H 00002H 00003H A                  A
 00003H 00004H 00002H B                  B

  Address         Publics by Name


  Address         Publics by Value


Line numbers for hello.obj(A) segment B

 65535 0000:0003 10000 0000:0004  1000 0000:0004   100 0000:0004

Line numbers for (A) segment A

     0 0000:0002

Program entry point at 0000:0000
",
    ),
];

/// The files of the first inputs.
const FILES: [&[u8]; 2] = [b"hello.obj", b"c.lib(b)"];

/// The bytes of modules, and their map in a form.
#[derive(Drop)]
struct Case<'c> {
    form: MapForm,
    inputs: &'c [&'c [u8]],
    map: &'c str,
}

/// What a sink with so much room took of a map, and why it isn't the whole.
fn put<A: Allocator + Copy>(
    alloc: A,
    words: Global,
    case: &Case<'_>,
    linked: &LinkedProgram<'_>,
    room: usize,
) -> Result<String, Fail>
    requires { IsBounded linked.now.modules.now linked.now.layout.now }
{
    let mut bytes = vec![in words; 0u8; room]?;
    let mut sink = MemSink::over(&mut bytes, 7);
    let sources = Sources {
        inputs: case.inputs,
        files: FILES.as_slice(),
    };
    let answer = write_numbered_map(alloc, &mut sink, case.form, linked, sources);
    let mut text = String::new(words);
    push_text(&mut text, sink.written())?;
    match answer {
        Ok(()) => {}
        Err(MapFault::Device) => text.push_str("failed")?,
        Err(MapFault::Memory) => text.push_str("no memory")?,
    }
    Ok(text)
}

/// The map of a program is that, a sink with room for less has a front of it, and want of memory writes nothing.
fn has_map(words: Global, case: &Case<'_>, linked: &LinkedProgram<'_>) -> Result<(), Fail>
    requires { IsBounded linked.now.modules.now linked.now.layout.now }
{
    same(&put(words, words, case, linked, 4_096)?, case.map)?;
    for room in 0..case.map.len() {
        let front = format!(in words; "{}failed", case.map.get(..room).unwrap_or("?"))?;
        same(&put(words, words, case, linked, room)?, &front)?;
    }
    for growth in 1..=6u64 {
        let refusing = Refusing::nth(words, growth);
        same(&put(&refusing, words, case, linked, 4_096)?, "no memory")?;
    }
    Ok(())
}

/// The map of modules that were linked is that.
fn has_numbers(
    words: Global,
    modules: &[Module],
    layout: &Layout,
    case: &Case<'_>,
) -> Result<(), Fail>
    requires { IsBounded modules.now layout.now }
{
    let program = build(words, modules, layout)?;
    let linked = LinkedProgram {
        modules,
        layout,
        program: &program,
    };
    has_map(words, case, &linked)
}

/// The map of the program of these records is that, where its modules were given as those.
fn is_map(words: Global, form: MapForm, records: &str, given: &str, map: &str) -> Result<(), Fail> {
    let row = read_row(words, records)?;
    let given = read_row(words, given)?;
    let modules = read_modules(words, &row.inputs)?;
    let layout = place(words, &modules, Names::Exact)?;
    let mut inputs = Vec::new(words);
    for input in &given.inputs {
        inputs.push(input.as_slice())?;
    }
    let case = Case {
        form,
        inputs: &inputs,
        map,
    };
    has_numbers(words, &modules, &layout, &case)
}

#[test]
fn maps_have_line_numbers(rt: HostRuntime) -> Result<(), Fail> {
    for (form, records, map) in MAPS {
        is_map(rt.alloc(), form, records, records, map)?;
    }
    Ok(())
}

/// Lines of records of 32 bits are listed as others; one beyond each segment is none.
#[test]
fn maps_have_line_numbers_of_32_bits(rt: HostRuntime) -> Result<(), Fail> {
    let (form, records, map) = MAPS[0];
    is_map(rt.alloc(), form, records, TWO_OF_32_BITS, map)
}
