//! Runs that make and change libraries, over a world in memory. Blank lines separate the rows of a table: a row is the
//! words of a run, and behind `= ` its status, what is written to the standard output, the lines of the standard error,
//! each behind `! `, and what `list` tells of the file OUT that was written, each line behind `> `.

use super::files::file_of;
use desk::{Count, Desk, Page, Pen};
use doslib_jobs::{out_of_memory, run_words};
use omf_files::BufferedSink;
use omf_frame::WriteSink;
use rows::same;
use std::alloc::Global;
use std::test::*;

/// A module that offers `y`.
const Y: &str = "\
80 05 59 2E 61 73 6D
90 00 01 01 79 00 00 00
8A 00";

/// A module that offers `z` and wants `y`.
const Z: &str = "\
80 03 64 5C 7A
8C 01 79 00
90 00 01 01 7A 00 00 00
8A 00";

/// Another module of the name of the first, which offers `x`.
const OTHER: &str = "\
80 01 79
90 00 01 01 78 00 00 00
8A 00";

/// A library of the first two.
const LIBRARY: &str = "\
lib 16
80 05 59 2E 61 73 6D
90 00 01 01 79 00 00 00
8A 00
pad 16
80 03 64 5C 7A
8C 01 79 00
90 00 01 01 7A 00 00 00
8A 00
pad 16
F1 00 00";

/// A library of a module that wants `x`, to which the librarian gave a name of no bytes.
const UNNAMED: &str = "\
lib 16
80 05 59 2E 61 73 6D
88 00 A3 00
8C 01 78 00
8A 00
pad 16
F1 00 00";

/// An archive of the second module, with a name of no bytes.
const BLANK: &str = "\
text !<arch>
ar  31
80 03 64 5C 7A
8C 01 79 00
90 00 01 01 7A 00 00 00
8A 00
raw 0A";

/// What the output of a run is, and what `list` tells of the file that it wrote.
#[derive(Drop)]
pub struct Done {
    pub text: String,
    pub written: Vec<u8>,
}

/// Does what words ask for, over these files, where the file that is written takes so many bytes.
pub fn run_in(
    alloc: Global,
    files: &[(&str, &[u8])],
    room: usize,
    line: &str,
) -> Result<Done, Fail> {
    let mut words = Vec::new(alloc);
    for word in line.split(' ') {
        words.push(word)?;
    }
    let output = Page::blank(alloc, "standard output", 20_000);
    let errors = Page::blank(alloc, "standard error", 20_000);
    let opened = Page::blank(alloc, "opened", 20_000);
    let out = Page::blank(alloc, "OUT", room);
    let object = Page::blank(alloc, "y.OBJ", room);
    let count = Count::new();
    let desk = Desk {
        files,
        folders: &["DIR"],
        devices: &[],
        locked: &["LOCKED"],
        links: &[],
        out: &out,
        map: &object,
        opened: &opened,
        count: &count,
    };
    let mut telling = WriteSink::new(Pen::new(&errors));
    let status = match BufferedSink::new(alloc, Pen::new(&output)) {
        Ok(mut sink) => run_words(alloc, desk, &words, &mut sink, &mut telling),
        Err(_) => out_of_memory(&mut telling),
    };
    let mut text = format!(in alloc; "status {status}\n")?;
    text.push_str(str::from_utf8(&output.bytes(alloc)?)?)?;
    for line in str::from_utf8(&errors.bytes(alloc)?)?.lines() {
        write!(text, "! {line}\n")?;
    }
    let mut written = out.bytes(alloc)?;
    written.extend_from_slice(&object.bytes(alloc)?)?;
    Ok(Done { text, written })
}

/// The same, and what `list` tells of what was written, where something was.
fn told(alloc: Global, files: &[(&str, &[u8])], room: usize, line: &str) -> Result<String, Fail> {
    let done = run_in(alloc, files, room, line)?;
    let mut text = done.text;
    if !done.written.is_empty() {
        let made: [(&str, &[u8]); 1] = [("OUT", &done.written)];
        let listed = run_in(alloc, &made, 0, "list OUT")?;
        for line in listed.text.lines() {
            write!(text, "> {line}\n")?;
        }
    }
    Ok(text)
}

/// The words of each row of a table do what is wanted of them, where a file that is written takes so many bytes.
fn run(alloc: Global, room: usize, table: &str) -> Result<(), Fail> {
    let y = file_of(alloc, Y)?;
    let z = file_of(alloc, Z)?;
    let other = file_of(alloc, OTHER)?;
    let library = file_of(alloc, LIBRARY)?;
    let headless = file_of(alloc, "8A 00")?;
    let unnamed = file_of(alloc, UNNAMED)?;
    let blank = file_of(alloc, BLANK)?;
    let files: [(&str, &[u8]); 10] = [
        ("Y", &y),
        ("Z", &z),
        ("OTHER", &other),
        ("LIB", &library),
        ("OUT", &library),
        ("CUT", b"\x80\x03"),
        ("NOHEAD", &headless),
        ("ARCHIVE", b"!<arch>\n"),
        ("UNNAMED", &unnamed),
        ("BLANK", &blank),
    ];
    for row in table.split("\n\n") {
        let (line, wanted) = row.split_once("\n= ").unwrap_or((row, ""));
        let text = told(alloc, &files, room, line)?;
        same(text.strip_suffix("\n").unwrap_or("no line end"), wanted)?;
    }
    Ok(())
}

#[test]
fn made(rt: HostRuntime) -> Result<(), Fail> {
    run(
        rt.alloc(),
        20_000,
        "\
make OUT Y Z
= status 0
> status 0
> library \"OUT\" members 2
>   00000010      26 \"Y.asm\"
>     offers \"y\"
>   00000030      31 \"d\\x5Cz\"
>     offers \"z\"
>     wants \"y\"

make OUT LIB
= status 0
> status 0
> library \"OUT\" members 2
>   00000010      26 \"Y.asm\"
>     offers \"y\"
>   00000030      31 \"d\\x5Cz\"
>     offers \"z\"
>     wants \"y\"

make OUT Y OTHER Y
= status 0
! doslib: warning: OUT: \"Y!\" is in \"Y\" and in \"Y\"
! doslib: warning: OUT: \"y\" is in \"Y\" and in \"Y\"
> status 0
> library \"OUT\" members 3
>   00000010      26 \"Y.asm\"
>     offers \"y\"
>   00000030      22 \"y\"
>     offers \"x\"
>   00000050      26 \"Y.asm\"
>     offers \"y\"

make OUT Y CUT NONE
= status 3
! doslib: CUT: 44 Truncated at place 0
! doslib: NONE: 1 Device: no such file

make OUT Y NOHEAD
= status 1
! doslib: OUT: 7 NotHeader behind 1 members

make NOWHERE Y
= status 3
! doslib: NOWHERE: 40 Device

make Y Z
= status 1
! doslib: Y: 73 NotLibrary

make ARCHIVE NONE
= status 1
! doslib: ARCHIVE: 73 NotLibrary",
    )
}

#[test]
fn changed(rt: HostRuntime) -> Result<(), Fail> {
    run(
        rt.alloc(),
        20_000,
        "\
add OUT OTHER
= status 0
> status 0
> library \"OUT\" members 3
>   00000010      26 \"Y.asm\"
>     offers \"y\"
>   00000030      31 \"d\\x5Cz\"
>     offers \"z\"
>     wants \"y\"
>   00000050      22 \"y\"
>     offers \"x\"

add NONE Y
= status 3
! doslib: NONE: 1 Device: no such file

add Y Z
= status 1
! doslib: Y: 73 NotLibrary

add ARCHIVE Z
= status 1
! doslib: ARCHIVE: 73 NotLibrary

delete OUT y
= status 0
> status 0
> library \"OUT\" members 1
>   00000010      31 \"d\\x5Cz\"
>     offers \"z\"
>     wants \"y\"

delete OUT Y Z
= status 0
> status 0
> library \"OUT\" members 0

delete OUT y none
= status 1
! doslib: OUT: 74 NoMember \"none\"

delete OUT y y
= status 1
! doslib: OUT: 74 NoMember \"y\"

replace OUT OTHER
= status 0
> status 0
> library \"OUT\" members 2
>   00000010      22 \"y\"
>     offers \"x\"
>   00000030      31 \"d\\x5Cz\"
>     offers \"z\"
>     wants \"y\"

replace OUT NOHEAD
= status 1
! doslib: OUT: 74 NoMember \"\"",
    )
}

#[test]
fn extracted(rt: HostRuntime) -> Result<(), Fail> {
    run(
        rt.alloc(),
        20_000,
        "\
extract LIB y
= status 0
> status 0
> module \"OUT\" members 1
>   00000000      26 \"Y.asm\"
>     offers \"y\"

extract LIB y z
= status 3
! doslib: z.OBJ: 40 Device
> status 0
> module \"OUT\" members 1
>   00000000      26 \"Y.asm\"
>     offers \"y\"

extract LIB y none
= status 1
! doslib: LIB: 74 NoMember \"none\"

extract Z z
= status 3
! doslib: z.OBJ: 40 Device",
    )
}

#[test]
fn full_device(rt: HostRuntime) -> Result<(), Fail> {
    run(
        rt.alloc(),
        100,
        "\
make OUT Y Z
= status 3
! doslib: OUT: 40 Device

delete OUT y
= status 3
! doslib: OUT: 40 Device",
    )
}

#[test]
fn names(rt: HostRuntime) -> Result<(), Fail> {
    run(
        rt.alloc(),
        20_000,
        "\
names Y Z
= status 0
each name that is wanted is defined once

names Z
= status 1
missing \"y\": Z wants it in the record at 00000008

names LIB Y
= status 1
defined twice \"y\": LIB(Y.asm) and Y define it

names UNNAMED
= status 1
missing \"x\": UNNAMED(Y.asm) wants it in the record at 00000021

names BLANK Z
= status 1
missing \"y\": BLANK(d\\x5Cz) wants it in the record at 0000004C
missing \"y\": Z wants it in the record at 00000008
defined twice \"z\": BLANK(d\\x5Cz) and Z define it

names LIB CUT NONE
= status 3
each name that is wanted is defined once
! doslib: CUT: 44 Truncated at place 0
! doslib: NONE: 1 Device: no such file",
    )
}
