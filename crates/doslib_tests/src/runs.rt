//! Runs over a world in memory. Blank lines separate the rows of a table: a row is the words of a run, and behind `= `
//! its status, what is written to the standard output, the lines of the standard error, each behind `! `, and behind
//! `OUT` the bytes of the file of that name, where one is written.

use desk::{Count, Desk, Page, Pen};
use doslib_jobs::{out_of_memory, run_job, run_words};
use doslib_words::{Job, parse_words};
use omf_files::BufferedSink;
use omf_frame::WriteSink;
use refusing::{Refusing, refuse_each};
use rows::same;
use std::alloc::{AllocError, Global};
use std::test::*;

/// A module that offers `y`.
const MODULE: [u8; 22] = [
    0x80, 0x03, 0x00, 0x01, 0x41, 0x3B, 0x90, 0x08, 0x00, 0x00, 0x01, 0x01, 0x79, 0x00, 0x00, 0x00,
    0xED, 0x8A, 0x02, 0x00, 0x00, 0x74,
];

/// A library of that module alone.
const LIBRARY: [u8; 51] = [
    0xF0, 0x0D, 0x00, 0, 0, 0, 0, 0, 0, 0, 0, 0, 0, 0, 0, 0, 0x80, 0x03, 0x00, 0x01, 0x41, 0x3B,
    0x90, 0x08, 0x00, 0x00, 0x01, 0x01, 0x79, 0x00, 0x00, 0x00, 0xED, 0x8A, 0x02, 0x00, 0x00, 0x74,
    0, 0, 0, 0, 0, 0, 0, 0, 0, 0, 0xF1, 0x00, 0x00,
];

/// A program of five bytes, the second and third of which are a relocated word, and a byte behind it.
const PROGRAM: [u8; 38] = [
    0x4D, 0x5A, 0x25, 0x00, 0x01, 0x00, 0x01, 0x00, 0x02, 0x00, 0x02, 0x00, 0xFF, 0xFF, 0x00, 0x00,
    0x00, 0x00, 0x00, 0x00, 0x00, 0x00, 0x00, 0x00, 0x1C, 0x00, 0x00, 0x00, 0x01, 0x00, 0x00, 0x00,
    0xB8, 0x00, 0x10, 0x8E, 0xD8, 0x1A,
];

/// One of the same image, without a relocated word and a byte behind it.
const BARE: [u8; 37] = [
    0x4D, 0x5A, 0x25, 0x00, 0x01, 0x00, 0x00, 0x00, 0x02, 0x00, 0x00, 0x00, 0xFF, 0xFF, 0x00, 0x00,
    0x00, 0x00, 0x00, 0x00, 0x00, 0x00, 0x00, 0x00, 0x1C, 0x00, 0x00, 0x00, 0x00, 0x00, 0x00, 0x00,
    0xB8, 0x00, 0x10, 0x8E, 0xD8,
];

/// A program of which a segment of the module behind it has the bytes from 3 to 15.
const LINKED: [u8; 48] = [
    0x4D, 0x5A, 0x30, 0x00, 0x01, 0x00, 0x00, 0x00, 0x02, 0x00, 0x00, 0x00, 0xFF, 0xFF, 0x00, 0x00,
    0x00, 0x00, 0x00, 0x00, 0x00, 0x00, 0x00, 0x00, 0x1C, 0x00, 0x00, 0x00, 0x00, 0x00, 0x00, 0x00,
    0x00, 0x11, 0x22, 0xB8, 0x34, 0x12, 0xA1, 0x00, 0x00, 0x05, 0x06, 0x07, 0x08, 0x09, 0x0A, 0x33,
];

/// Another one that differs from it by the byte A1, at 6.
const CHANGED: [u8; 48] = [
    0x4D, 0x5A, 0x30, 0x00, 0x01, 0x00, 0x00, 0x00, 0x02, 0x00, 0x00, 0x00, 0xFF, 0xFF, 0x00, 0x00,
    0x00, 0x00, 0x00, 0x00, 0x00, 0x00, 0x00, 0x00, 0x1C, 0x00, 0x00, 0x00, 0x00, 0x00, 0x00, 0x00,
    0x00, 0x11, 0x22, 0xB8, 0x34, 0x12, 0xA3, 0x00, 0x00, 0x05, 0x06, 0x07, 0x08, 0x09, 0x0A, 0x33,
];

const LINKED_MODULE: [u8; 65] = [
    0x80, 0x03, 0x00, 0x01, 0x41, 0x00, 0x96, 0x07, 0x00, 0x00, 0x04, 0x43, 0x4F, 0x44, 0x45, 0x00,
    0x98, 0x07, 0x00, 0x28, 0x0C, 0x00, 0x02, 0x02, 0x01, 0x00, 0x8C, 0x04, 0x00, 0x01, 0x78, 0x00,
    0x00, 0xA0, 0x10, 0x00, 0x01, 0x00, 0x00, 0xB8, 0x00, 0x00, 0xA1, 0x00, 0x00, 0x05, 0x06, 0x07,
    0x08, 0x09, 0x0A, 0x00, 0x9C, 0x05, 0x00, 0xC4, 0x01, 0x56, 0x01, 0x00, 0x8A, 0x02, 0x00, 0x00,
    0x00,
];

const FILES: [(&str, &[u8]); 10] = [
    ("A", &MODULE),
    ("LIB", &LIBRARY),
    ("CUT", b"\x80\x03"),
    ("WRONG", b"\x8A\x02\x00\x40\x00"),
    ("P", &PROGRAM),
    ("SHORT", b"MZ"),
    ("BARE", &BARE),
    ("LINKED", &LINKED),
    ("CHANGED", &CHANGED),
    ("M", &LINKED_MODULE),
];

/// The pages of a world, and how many of its files are open.
#[derive(Drop)]
struct Pages<'a> {
    output: Page<'a>,
    errors: Page<'a>,
    written: Page<'a>,
    other: Page<'a>,
    count: Count,
}

/// Blank pages, of which that of the standard output takes so many bytes, and one stands at another path than `OUT`: at
/// any, where this is empty.
fn blank_pages<'a>(alloc: Global, room: usize, other: &'a str) -> Pages<'a> {
    Pages {
        output: Page::blank(alloc, "", room),
        errors: Page::blank(alloc, "", 20_000),
        written: Page::blank(alloc, "OUT", 20_000),
        other: Page::blank(alloc, other, 20_000),
        count: Count::new(),
    }
}

/// A world of the files and these pages, with a folder, a file that can't be opened, and another path of the program.
fn desk_of<'p>(pages: &'p Pages<'p>) -> Desk<'static, 'p> {
    Desk {
        files: &FILES,
        folders: &["DIR"],
        devices: &[],
        locked: &["LOCKED"],
        links: &[("LINK", "P")],
        out: &pages.written,
        map: &pages.other,
        opened: &pages.other,
        count: &pages.count,
    }
}

/// The status of what words ask for.
fn words_status<'p>(alloc: Global, words: &[&str], pages: &'p Pages<'p>) -> u8 {
    let mut errors = WriteSink::new(Pen::new(&pages.errors));
    match BufferedSink::new(alloc, Pen::new(&pages.output)) {
        Ok(mut output) => run_words(alloc, desk_of(pages), words, &mut output, &mut errors),
        Err(_) => out_of_memory(&mut errors),
    }
}

/// The status of a job, with the memory of an allocator that refuses a growth.
fn job_status<'p>(memory: &Refusing<Global>, job: &Job<'_>, pages: &'p Pages<'p>) -> u8 {
    let mut errors = WriteSink::new(Pen::new(&pages.errors));
    match BufferedSink::new(memory, Pen::new(&pages.output)) {
        Ok(mut output) => run_job(memory, desk_of(pages), job, &mut output, &mut errors),
        Err(_) => out_of_memory(&mut errors),
    }
}

/// What a run did: its status, and what was written.
fn done(alloc: Global, status: u8, pages: &Pages<'_>) -> Result<String, Fail> {
    let mut text = format!(in alloc; "status {status}\n")?;
    text.push_str(str::from_utf8(&pages.output.bytes(alloc)?)?)?;
    for line in str::from_utf8(&pages.errors.bytes(alloc)?)?.lines() {
        write!(text, "! {line}\n")?;
    }
    let written = pages.written.bytes(alloc)?;
    if !written.is_empty() {
        text.push_str("OUT")?;
        for byte in &written {
            write!(text, " {byte:02X}")?;
        }
        text.push('\n')?;
    }
    Ok(text)
}

/// The words of a line.
fn words_of<'a>(alloc: Global, line: &'a str) -> Result<Vec<&'a str>, AllocError> {
    let mut words = Vec::new(alloc);
    for word in line.split(' ') {
        words.push(word)?;
    }
    Ok(words)
}

/// The words of each row of a table do what is wanted of them, where the standard output takes so many bytes.
fn run(alloc: Global, room: usize, table: &str) -> Result<(), Fail> {
    for row in table.split("\n\n") {
        let (line, wanted) = row.split_once("\n= ").unwrap_or((row, ""));
        let words = words_of(alloc, line)?;
        let pages = blank_pages(alloc, room, "OTHER");
        let status = words_status(alloc, &words, &pages);
        let text = done(alloc, status, &pages)?;
        same(text.strip_suffix("\n").unwrap_or("no line end"), wanted)?;
    }
    Ok(())
}

#[test]
fn lists(rt: HostRuntime) -> Result<(), Fail> {
    run(
        rt.alloc(),
        20_000,
        "\
list A
= status 0
module \"A\" members 1
  00000000      22 \"A\"
    offers \"y\"

list CUT A
= status 1
module \"CUT\" members 1
  00000000       2 \"\"
module \"A\" members 1
  00000000      22 \"A\"
    offers \"y\"
! doslib: CUT: 44 Truncated at place 0

list CUT NONE DIR LOCKED A
= status 3
module \"CUT\" members 1
  00000000       2 \"\"
module \"A\" members 1
  00000000      22 \"A\"
    offers \"y\"
! doslib: CUT: 44 Truncated at place 0
! doslib: NONE: 1 Device: no such file
! doslib: DIR: 1 Device: it is a folder
! doslib: LOCKED: 1 Device: no permission",
    )
}

#[test]
fn shows(rt: HostRuntime) -> Result<(), Fail> {
    run(
        rt.alloc(),
        20_000,
        "\
show CUT NONE A
= status 3
module \"CUT\" members 1
  00000000       2 \"\"
module \"A\" members 1
  00000000      22 \"A\"
    00000000 THEADR \"A\"
    00000006 PUBDEF segment #1
      \"y\" offset 0000 type 0
    00000011 MODEND
! doslib: CUT: 44 Truncated at place 0
! doslib: NONE: 1 Device: no such file

show WRONG
= status 1
module \"WRONG\" members 1
  00000000       5 \"\"
    00000000 MODEND wrong at byte 0 of 1
      0000 40
! doslib: WRONG: 6 Body at place 0",
    )
}

/// What `program` prints of the program.
const TOLD: &str = "\
program \"P\"
  00 5A4D signature
  02 0025 bytes in last page
  04 0001 pages
  06 0001 relocations
  08 0002 header paragraphs
  0A 0002 minimum allocation
  0C FFFF maximum allocation
  0E 0000 initial SS
  10 0000 initial SP
  12 0000 checksum
  14 0000 initial IP
  16 0000 initial CS
  18 001C relocation table offset
  1A 0000 overlay
       32 bytes of the header
        5 bytes of the image
        1 bytes behind the image
       32 bytes of memory at least
  0000:0001 -> 00000001 1000
";

/// The words of runs of `program`, with their statuses, and what is told behind what is printed of it.
const TOLD_PROGRAMS: [(&str, u8, &str); 5] = [
    ("program P", 0, ""),
    ("program P --image OUT", 0, "OUT B8 00 10 8E D8\n"),
    ("program --at 1234 --image OUT P", 0, "OUT B8 34 22 8E D8\n"),
    (
        "program P --image OUT --at ffff",
        1,
        "! doslib: P: 39 DoesNotFit\n",
    ),
    (
        "program P --image NONE --at 1000",
        3,
        "! doslib: NONE: 40 Device\n",
    ),
];

#[test]
fn programs(rt: HostRuntime) -> Result<(), Fail> {
    let alloc = rt.alloc();
    for (line, status, rest) in TOLD_PROGRAMS {
        let words = words_of(alloc, line)?;
        let pages = blank_pages(alloc, 20_000, "OTHER");
        let ended = words_status(alloc, &words, &pages);
        let wanted = format!(in alloc; "status {status}\n{TOLD}{rest}")?;
        same(&done(alloc, ended, &pages)?, &wanted)?;
    }
    run(
        alloc,
        20_000,
        "\
program A --image OUT
= status 1
! doslib: A: 35 Magic

program SHORT
= status 1
! doslib: SHORT: 37 Truncated

program NONE --image OUT
= status 3
! doslib: NONE: 1 Device: no such file

program P --image P
= status 2
! doslib: P: it is read and would be written

program P --image LINK --at 1000
= status 2
! doslib: LINK: it is read and would be written

program LINK --image P
= status 2
! doslib: P: it is read and would be written

program A --image A
= status 2
! doslib: A: it is read and would be written

program A --image P
= status 1
! doslib: A: 35 Magic",
    )?;
    // no image is written where the output fails
    run(
        alloc,
        7,
        "\
program P --image OUT
= status 3
program! doslib: output: 40 Device",
    )
}

#[test]
fn matches(rt: HostRuntime) -> Result<(), Fail> {
    run(
        rt.alloc(),
        20_000,
        "\
match LINKED M
= status 0
module \"M\" \"A\"
  00000003      12 \"CODE\" \"CODE\"
    00000004 1234 external \"x\"
left 00000000       3
left 0000000F       1

match LINKED A CUT NONE M
= status 3
module \"M\" \"A\"
  00000003      12 \"CODE\" \"CODE\"
    00000004 1234 external \"x\"
left 00000000       3
left 0000000F       1
! doslib: A: 11 SegmentIndex at place 6
! doslib: CUT: 44 Truncated at place 0
! doslib: NONE: 1 Device: no such file

match P M
= status 0
left 00000000       5

match M LINKED
= status 1
! doslib: M: 35 Magic

match NONE M
= status 3
! doslib: NONE: 1 Device: no such file",
    )?;
    run(
        rt.alloc(),
        8,
        "\
match LINKED M
= status 3
module \"! doslib: output: 40 Device",
    )
}

#[test]
fn comparisons(rt: HostRuntime) -> Result<(), Fail> {
    run(
        rt.alloc(),
        20_000,
        "\
compare P BARE NONE
= status 0
no difference

compare LINKED LINKED M
= status 0
no difference

compare LINKED CHANGED M
= status 1
differ 00000006 A1 A3
module \"M\" \"A\"
  00000003 in \"CODE\" \"CODE\"

compare CHANGED LINKED M
= status 1
differ 00000006 A3 A1

compare LINKED P M
= status 1
differ 00000000 00 B8

compare LINKED CHANGED A M CUT M
= status 1
differ 00000006 A1 A3
module \"M\" \"A\"
  00000003 in \"CODE\" \"CODE\"
module \"M\" \"A\"
  00000003 in \"CODE\" \"CODE\"
! doslib: A: 11 SegmentIndex at place 6
! doslib: CUT: 44 Truncated at place 0

compare LINKED CHANGED NONE CUT M
= status 3
differ 00000006 A1 A3
module \"M\" \"A\"
  00000003 in \"CODE\" \"CODE\"
! doslib: NONE: 1 Device: no such file
! doslib: CUT: 44 Truncated at place 0",
    )
}

#[test]
fn programs_that_are_not_compared(rt: HostRuntime) -> Result<(), Fail> {
    run(
        rt.alloc(),
        20_000,
        "\
compare M SHORT A
= status 1
! doslib: M: 35 Magic

compare SHORT NONE A
= status 1
! doslib: SHORT: 37 Truncated

compare NONE SHORT A
= status 3
! doslib: NONE: 1 Device: no such file

compare LINKED SHORT A
= status 1
! doslib: SHORT: 37 Truncated

compare LINKED M NONE
= status 1
! doslib: M: 35 Magic

compare LINKED LOCKED A
= status 3
! doslib: LOCKED: 1 Device: no permission",
    )
}

#[test]
fn comparisons_that_are_not_printed(rt: HostRuntime) -> Result<(), Fail> {
    run(
        rt.alloc(),
        8,
        "\
compare LINKED CHANGED M
= status 3
differ 0! doslib: output: 40 Device

compare P BARE M
= status 3
no diffe! doslib: output: 40 Device",
    )
}

#[test]
fn failing_output(rt: HostRuntime) -> Result<(), Fail> {
    run(
        rt.alloc(),
        7,
        "\
list A
= status 3
module ! doslib: output: 40 Device",
    )
}

/// Words that ask for help or the version, and wrong ones, each with how what the run did begins, and a part of it.
const SAID: [(&str, &str, &str); 23] = [
    ("help", "status 0\n", "Usage: doslib <COMMAND>\n"),
    ("--help", "status 0\n", "Usage: doslib <COMMAND>\n"),
    ("help list", "status 0\n", "Usage: doslib list <FILES>...\n"),
    ("show -h", "status 0\n", "Usage: doslib show <FILES>...\n"),
    ("list -h", "status 0\n", "Exit status: 0 all is done"),
    ("--version", "status 0\ndoslib 1.0\n", ""),
    ("list", "status 2\n! ", "<FILES>..."),
    ("lst A", "status 2\n! ", "'lst'"),
    ("list --none A", "status 2\n! ", "'--none'"),
    ("program -h", "status 0\nTells what", "--image <OUT>"),
    ("program", "status 2\n! ", "<FILE>"),
    ("program P A", "status 2\n! ", "'A'"),
    ("program P --at 1000", "status 2\n! ", "'1000'"),
    ("program P --image OUT --at 100", "status 2\n! ", "'100'"),
    ("program P --image OUT --at 100G", "status 2\n! ", "'100G'"),
    ("match -h", "status 0\nTells which", "<PROGRAM> <FILES>..."),
    ("match", "status 2\n! ", "<PROGRAM>"),
    ("match P", "status 2\n! ", "<FILES>..."),
    (
        "compare -h",
        "status 0\nTells the first byte",
        "Usage: doslib compare <PROGRAM> <OTHER> <FILES>...\n",
    ),
    (
        "compare -h",
        "status 0\n",
        "  <OTHER>     The program that it is held against\n",
    ),
    (
        "compare",
        "status 2\n! ",
        "provided:\n!   <PROGRAM>\n!   <OTHER>\n!   <FILES>...\n",
    ),
    (
        "compare P",
        "status 2\n! ",
        "provided:\n!   <OTHER>\n!   <FILES>...\n",
    ),
    ("compare P P", "status 2\n! ", "provided:\n!   <FILES>...\n"),
];

#[test]
fn words_that_are_no_job(rt: HostRuntime) -> Result<(), Fail> {
    let alloc = rt.alloc();
    for (line, front, part) in SAID {
        let words = words_of(alloc, line)?;
        let pages = blank_pages(alloc, 20_000, "OTHER");
        let status = words_status(alloc, &words, &pages);
        let text = done(alloc, status, &pages)?;
        if !text.starts_with(front) || !text.contains(part) {
            same(&text, &format!(in alloc; "{line}: {front}..{part}")?)?;
        }
    }
    Ok(())
}

/// What a run of these words does with memory that refuses a growth.
fn refused<'a>(
    alloc: Global,
    memory: &Refusing<Global>,
    words: &'a [&'a str],
) -> Result<String, Fail> {
    let Ok(job) = parse_words(alloc, words) else {
        return Ok(String::from_str(alloc, "no job")?);
    };
    let pages = blank_pages(alloc, 20_000, "");
    let status = job_status(memory, &job, &pages);
    let text = done(alloc, status, &pages)?;
    match text.strip_suffix("\n") {
        Some(line) => Ok(String::from_str(alloc, line)?),
        None => Ok(text),
    }
}

/// Words, and what a run of them does.
const GROWTHS: [(&str, &str); 12] = [
    (
        "list A NONE",
        "\
status 3
module \"A\" members 1
  00000000      22 \"A\"
    offers \"y\"
! doslib: NONE: 1 Device: no such file",
    ),
    (
        "program A",
        "\
status 1
! doslib: A: 35 Magic",
    ),
    (
        "match LINKED M NONE",
        "\
status 3
module \"M\" \"A\"
  00000003      12 \"CODE\" \"CODE\"
    00000004 1234 external \"x\"
left 00000000       3
left 0000000F       1
! doslib: NONE: 1 Device: no such file",
    ),
    (
        "compare LINKED CHANGED M NONE",
        "\
status 3
differ 00000006 A1 A3
module \"M\" \"A\"
  00000003 in \"CODE\" \"CODE\"
! doslib: NONE: 1 Device: no such file",
    ),
    (
        "compare LINKED SHORT M",
        "\
status 1
! doslib: SHORT: 37 Truncated",
    ),
    (
        "compare P BARE M",
        "\
status 0
no difference",
    ),
    (
        "names A LIB",
        "\
status 1
defined twice \"y\": A and LIB(A) define it",
    ),
    (
        "make LIB A A",
        "\
status 0
! doslib: warning: LIB: \"A!\" is in \"A\" and in \"A\"
! doslib: warning: LIB: \"y\" is in \"A\" and in \"A\"",
    ),
    ("replace LIB A", "status 0"),
    ("delete LIB a", "status 0"),
    (
        "delete LIB b",
        "\
status 1
! doslib: LIB: 74 NoMember \"b\"",
    ),
    ("extract LIB A a", "status 0"),
];

/// Each growth refused in turn, a run of these words wants memory, or does what is wanted.
fn refuse_growths(alloc: Global, line: &str, wanted: &str) -> Result<(), Fail> {
    let words = words_of(alloc, line)?;
    let (_, made_do) = refuse_each(alloc, wanted, |memory| refused(alloc, memory, &words))?;
    same(&format!(in alloc; "{made_do} made do")?, "0 made do")
}

#[test]
fn refused_growths(rt: HostRuntime) -> Result<(), Fail> {
    let alloc = rt.alloc();
    for (line, wanted) in GROWTHS {
        refuse_growths(alloc, line, wanted)?;
    }
    let wanted = format!(in alloc; "status 0\n{TOLD}OUT B8 34 22 8E D8")?;
    refuse_growths(alloc, "program P --image OUT --at 1234", &wanted)
}
