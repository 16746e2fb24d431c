//! Maps of linked programs.

ghost use Rattle.std.specs.Prelude.{◌-◌, ◌^◌, ◌<◌};
ghost use Rattle.omf_place.specs.Bounded.{IsBounded};

use link_map::{LinkedProgram, MapFault, MapForm, write_link_map};
use omf_frame::MemSink;
use omf_image::build;
use omf_module::Module;
use omf_place::{Layout, Names, place};
use refusing::Refusing;
use rows::{push_text, read_modules, read_row, same};
use std::alloc::{Allocator, Global};
use std::test::*;

/// Code and data of two modules, the data in a group; publics of both, and a start.
const TWO_MODULES: &str = "\
80 01 41
96 00 04 43 4F 44 45 05 5F 44 41 54 41 06 44 47 52 4F 55 50
98 68 12 00 02 02 01
98 48 03 00 03 03 01
9A 04 FF 02
8C 01 78 00
90 00 01 04 6D 61 69 6E 00 00 00
A0 01 00 00 B8 00 00 A1 00 00
9C 44 01 08 01
9C C8 01 8C C4 04 8C
8A C1 00 01 01 02 00
--
80 01 41
96 00 05 5F 44 41 54 41 06 44 47 52 4F 55 50
98 48 02 00 02 02 01
9A 03 FF 01
90 01 01 01 78 01 00 00 01 61 00 00 00
A0 01 00 00 34 12
8A 00";

/// Modules, and the map of their program in a form.
const MAPS: [(MapForm, &str, &str); 6] = [
    // data counts from the group's frame and not from its segment's; the names of its publics stand in one order, their
    // places in another
    (
        MapForm::Link,
        TWO_MODULES,
        "
 Start  Stop   Length Name                   Class
 00000H 00011H 00012H CODE                   CODE
 00012H 00017H 00006H _DATA                  _DATA

 Origin   Group
 0001:0   DGROUP

  Address         Publics by Name

 0001:0006       a
 0000:0000       main
 0001:0007       x

  Address         Publics by Value

 0000:0000       main
 0001:0006       a
 0001:0007       x

Program entry point at 0000:0002
",
    ),
    (
        MapForm::Tlink,
        TWO_MODULES,
        "
 Start  Stop   Length Name               Class

 00000H 00011H 00012H CODE               CODE
 00012H 00017H 00006H _DATA              _DATA

  Address         Publics by Name

 0001:0006       a
 0000:0000       main
 0001:0007       x

  Address         Publics by Value

 0000:0000       main
 0001:0006       a
 0001:0007       x

Program entry point at 0000:0002
",
    ),
    // a segment of length 0 with a long name, a group without members and a public of it, an absolute public, a local
    // one, and a capital, which stands before small letters
    (
        MapForm::Link,
        "\
80 01 41
96 00 01 43 17 41*23 01 44
98 60 23 00 02 04 01
98 60 00 00 03 02 01
9A 03
90 00 00 40 00 05 6C 69 6D 69 74 04 00 00
90 01 01 05 65 6D 70 74 79 21 00 00
B6 00 01 05 6C 6F 63 61 6C 02 00 00
90 00 01 01 79 01 00 00 01 5A 02 00 00
8A 00",
        "
 Start  Stop   Length Name                   Class
 00000H 00022H 00023H C                      D
 00030H 00030H 00000H AAAAAAAAAAAAAAAAAAAAAAA C

 Origin   Group

  Address         Publics by Name

 0000:0002       Z
 0002:0001       empty
 0040:0004  Abs  limit
 0000:0001       y

  Address         Publics by Value

 0000:0001       y
 0000:0002       Z
 0002:0001       empty
 0040:0004  Abs  limit

Program entry point at 0000:0000
",
    ),
    // publics of one place, in one module and in two, stand by value as they came; of two names that begin alike the
    // shorter one stands first
    (
        MapForm::Link,
        "\
96 00 04 43 4F 44 45
98 28 04 00 02 02 01
90 00 01 01 7A 02 00 00 01 61 02 00 00 01 6D 01 00 00 01 71 04 00 00
--
96 00 04 43 4F 44 45
98 28 02 00 02 02 01
90 00 01 02 61 61 01 00 00 01 62 00 00 00",
        "
 Start  Stop   Length Name                   Class
 00000H 00005H 00006H CODE                   CODE

 Origin   Group

  Address         Publics by Name

 0000:0002       a
 0000:0005       aa
 0000:0004       b
 0000:0001       m
 0000:0004       q
 0000:0002       z

  Address         Publics by Value

 0000:0001       m
 0000:0002       z
 0000:0002       a
 0000:0004       q
 0000:0004       b
 0000:0005       aa

Program entry point at 0000:0000
",
    ),
    // publics whose segments stand above and below the 65,536 bytes of their groups count from their own paragraphs,
    // and the last byte of a group from the group's
    (
        MapForm::Link,
        "\
80 01 41
96 00 01 41 01 42 01 47 01 48
98 2A 00 00 02 02 01
98 28 10 00 03 03 01
9A 04 FF 01
9A 05 FF 02
90 01 02 06 62 65 79 6F 6E 64 04 00 00
90 02 01 05 62 65 6C 6F 77 12 00 00
90 01 01 04 6C 61 73 74 FF FF 00
8A 00",
        "
 Start  Stop   Length Name                   Class
 00000H 0FFFFH 10000H A                      A
 10000H 1000FH 00010H B                      B

 Origin   Group
 0000:0   G
 1000:0   H

  Address         Publics by Name

 0001:0002       below
 1000:0004       beyond
 0000:FFFF       last

  Address         Publics by Value

 0000:FFFF       last
 0001:0002       below
 1000:0004       beyond

Program entry point at 0000:0000
",
    ),
    // a module without segments
    (
        MapForm::Tlink,
        "\
80 01 41
8A 00",
        "
 Start  Stop   Length Name               Class


  Address         Publics by Name


  Address         Publics by Value


Program entry point at 0000:0000
",
    ),
];

/// What a sink with so much room took of a map, and why it isn't the whole.
fn put<A: Allocator + Copy>(
    alloc: A,
    words: Global,
    form: MapForm,
    linked: &LinkedProgram<'_>,
    room: usize,
) -> Result<String, Fail> {
    let mut bytes = vec![in words; 0u8; room]?;
    let mut sink = MemSink::over(&mut bytes, 7);
    let answer = write_link_map(alloc, &mut sink, form, linked);
    let mut text = String::new(words);
    push_text(&mut text, sink.written())?;
    match answer {
        Ok(()) => {}
        Err(MapFault::Device) => text.push_str("failed")?,
        Err(MapFault::Memory) => text.push_str("no memory")?,
    }
    Ok(text)
}

/// The map of a program is that, a sink with room for less has a front of it, and want of memory writes nothing.
fn has_map(
    words: Global,
    form: MapForm,
    linked: &LinkedProgram<'_>,
    wanted: &str,
) -> Result<(), Fail> {
    same(&put(words, words, form, linked, 4_096)?, wanted)?;
    for room in 0..wanted.len() {
        let front = format!(in words; "{}failed", wanted.get(..room).unwrap_or("?"))?;
        same(&put(words, words, form, linked, room)?, &front)?;
    }
    Ok(())
}

/// Where there is no memory for the publics, nothing is written.
fn needs_memory(words: Global, form: MapForm, linked: &LinkedProgram<'_>) -> Result<(), Fail> {
    for growth in 1..=2u64 {
        let refusing = Refusing::nth(words, growth);
        same(&put(&refusing, words, form, linked, 4_096)?, "no memory")?;
    }
    Ok(())
}

/// Has something done with what modules were linked to.
fn with_program(
    words: Global,
    modules: &[Module],
    layout: &Layout,
    form: MapForm,
    wanted: Option<&str>,
) -> Result<(), Fail>
    requires { IsBounded modules.now layout.now }
{
    let program = build(words, modules, layout)?;
    let linked = LinkedProgram {
        modules,
        layout,
        program: &program,
    };
    match wanted {
        Some(map) => has_map(words, form, &linked, map),
        None => needs_memory(words, form, &linked),
    }
}

/// The map of the program of these records is that, whether names agree with regard to case or without; or, where none
/// is given, it needs memory.
fn is_map(words: Global, form: MapForm, records: &str, wanted: Option<&str>) -> Result<(), Fail> {
    let row = read_row(words, records)?;
    let modules = read_modules(words, &row.inputs)?;
    for names in [Names::Exact, Names::AsciiFolded] {
        let layout = place(words, &modules, names)?;
        with_program(words, &modules, &layout, form, wanted)?;
    }
    Ok(())
}

#[test]
fn programs_have_maps(rt: HostRuntime) -> Result<(), Fail> {
    for (form, records, map) in MAPS {
        is_map(rt.alloc(), form, records, Some(map))?;
    }
    Ok(())
}

#[test]
fn publics_need_memory(rt: HostRuntime) -> Result<(), Fail> {
    is_map(rt.alloc(), MapForm::Link, TWO_MODULES, None)
}
