//! Jobs over a world in memory.

use desk::{Count, Desk, Page, Pen};
use omf_files::BufferedSink;
use omf_frame::WriteSink;
use omf_jobs::{out_of_memory, run_job, run_words};
use omf_words::{Job, parse_words};
use refusing::Refusing;
use rows::{bytes_of, push_bytes, same};
use std::alloc::{AllocError, Global};
use std::test::*;

/// A module with five bytes of data, a fix-up of its own base, and a start.
const FIRST: [u8; 57] = [
    0x80, 0x03, 0x00, 0x01, 0x41, 0x3B, 0x96, 0x07, 0x00, 0x00, 0x04, 0x43, 0x4F, 0x44, 0x45, 0x44,
    0x98, 0x07, 0x00, 0x28, 0x05, 0x00, 0x02, 0x01, 0x01, 0x30, 0xA0, 0x09, 0x00, 0x01, 0x00, 0x00,
    0xB8, 0x00, 0x00, 0x8E, 0xD8, 0x38, 0x9C, 0x06, 0x00, 0xC8, 0x01, 0x04, 0x01, 0x01, 0x8F, 0x8A,
    0x07, 0x00, 0xC1, 0x00, 0x01, 0x01, 0x00, 0x00, 0xAC,
];

/// It with bits of MODEND that aren't looked at, which `rewrite` clears, and a closing byte of 0.
const LOOSE: [u8; 57] = [
    0x80, 0x03, 0x00, 0x01, 0x41, 0x3B, 0x96, 0x07, 0x00, 0x00, 0x04, 0x43, 0x4F, 0x44, 0x45, 0x44,
    0x98, 0x07, 0x00, 0x28, 0x05, 0x00, 0x02, 0x01, 0x01, 0x30, 0xA0, 0x09, 0x00, 0x01, 0x00, 0x00,
    0xB8, 0x00, 0x00, 0x8E, 0xD8, 0x38, 0x9C, 0x06, 0x00, 0xC8, 0x01, 0x04, 0x01, 0x01, 0x8F, 0x8A,
    0x07, 0x00, 0xFF, 0x00, 0x01, 0x01, 0x00, 0x00, 0x00,
];

/// The file of its program.
const PROGRAM: [u8; 37] = [
    0x4D, 0x5A, 0x25, 0x00, 0x01, 0x00, 0x01, 0x00, 0x02, 0x00, 0x01, 0x00, 0xFF, 0xFF, 0x00, 0x00,
    0x00, 0x00, 0x00, 0x00, 0x00, 0x00, 0x00, 0x00, 0x1C, 0x00, 0x00, 0x00, 0x01, 0x00, 0x00, 0x00,
    0xB8, 0x00, 0x00, 0x8E, 0xD8,
];

/// A module with one byte of data in the same segment.
const SECOND: [u8; 39] = [
    0x80, 0x03, 0x00, 0x01, 0x42, 0x3A, 0x96, 0x07, 0x00, 0x00, 0x04, 0x43, 0x4F, 0x44, 0x45, 0x44,
    0x98, 0x07, 0x00, 0x28, 0x01, 0x00, 0x02, 0x01, 0x01, 0x34, 0xA0, 0x05, 0x00, 0x01, 0x00, 0x00,
    0x90, 0xCA, 0x8A, 0x02, 0x00, 0x00, 0x74,
];

/// A module whose publics `x` and `X` differ in case alone.
const BOTH_CASES: [u8; 47] = [
    0x80, 0x03, 0x00, 0x01, 0x41, 0x3B, 0x96, 0x07, 0x00, 0x00, 0x04, 0x43, 0x4F, 0x44, 0x45, 0x44,
    0x98, 0x07, 0x00, 0x28, 0x02, 0x00, 0x02, 0x01, 0x01, 0x33, 0x90, 0x0D, 0x00, 0x00, 0x01, 0x01,
    0x78, 0x00, 0x00, 0x00, 0x01, 0x58, 0x01, 0x00, 0x00, 0x8F, 0x8A, 0x02, 0x00, 0x00, 0x74,
];

/// A record whose closing byte is wrong.
const WRONG: [u8; 6] = [0x80, 0x03, 0x00, 0x01, 0x41, 0x3C];

/// A sound record, and one whose closing byte is wrong.
const HALF: [u8; 12] = [
    0x80, 0x03, 0x00, 0x01, 0x41, 0x3B, 0x80, 0x03, 0x00, 0x01, 0x41, 0x3C,
];

/// Files that can be read, each a path and its bytes.
type Files<'a> = &'a [(&'a str, &'a [u8])];

const FILES: [(&str, &[u8]); 8] = [
    ("A", &FIRST),
    ("B", &SECOND),
    ("C", &FIRST),
    ("D", &BOTH_CASES),
    ("H", &HALF),
    ("L", &LOOSE),
    ("P", &PROGRAM),
    ("X", &WRONG),
];

/// How many bytes the standard output, OUT and MAP take before they fail, and the one whose place no other file takes.
#[derive(Clone, Copy)]
struct Limits {
    output: usize,
    out: usize,
    map: usize,
    stays: Option<&'static str>,
}

const NO_LIMITS: Limits = Limits {
    output: 20_000,
    out: 20_000,
    map: 20_000,
    stays: None,
};

const OUTPUT_FILLS: Limits = Limits {
    output: 2,
    out: 20_000,
    map: 20_000,
    stays: None,
};

const OUT_FILLS: Limits = Limits {
    output: 20_000,
    out: 10,
    map: 20_000,
    stays: None,
};

const MAP_FILLS: Limits = Limits {
    output: 20_000,
    out: 20_000,
    map: 10,
    stays: None,
};

const OUT_STAYS: Limits = Limits {
    output: 20_000,
    out: 20_000,
    map: 20_000,
    stays: Some("OUT"),
};

const MAP_STAYS: Limits = Limits {
    output: 20_000,
    out: 20_000,
    map: 20_000,
    stays: Some("MAP"),
};

/// The pages of a world, and how many of its files are open.
#[derive(Drop)]
struct Pages<'a> {
    output: Page<'a>,
    errors: Page<'a>,
    /// The paths that were opened.
    opened: Page<'a>,
    out: Page<'a>,
    map: Page<'a>,
    count: Count,
}

/// Pages that are blank, but for OUT and MAP, which have `old`.
fn blank_pages<'a>(alloc: Global, limits: Limits) -> Result<Pages<'a>, AllocError> {
    let out = Page::new(alloc, "OUT", b"old", limits.out)?;
    let map = Page::new(alloc, "MAP", b"old", limits.map)?;
    match limits.stays {
        Some("OUT") => out.stay(),
        Some(_) => map.stay(),
        None => {}
    }
    Ok(Pages {
        output: Page::blank(alloc, "", limits.output),
        errors: Page::blank(alloc, "", 20_000),
        opened: Page::blank(alloc, "", 20_000),
        out,
        map,
        count: Count::new(),
    })
}

/// A world of these files and pages.
fn desk_of<'f, 'p>(files: Files<'f>, pages: &'p Pages<'p>) -> Desk<'f, 'p> {
    Desk {
        files,
        folders: &[],
        devices: &[],
        locked: &[],
        links: &[],
        out: &pages.out,
        map: &pages.map,
        opened: &pages.opened,
        count: &pages.count,
    }
}

/// The status of a job, with the memory of an allocator that refuses a growth.
fn job_status<'p>(
    memory: &Refusing<Global>,
    desk: Desk<'_, 'p>,
    job: &Job<'_>,
    pages: &'p Pages<'p>,
) -> u8 {
    let mut errors = WriteSink::new(Pen::new(&pages.errors));
    match BufferedSink::new(memory, Pen::new(&pages.output)) {
        Ok(mut output) => run_job(memory, desk, job, &mut output, &mut errors),
        Err(_) => out_of_memory(&mut errors),
    }
}

/// The status of what words ask for, where no growth is refused.
fn words_status<'p>(alloc: Global, desk: Desk<'_, 'p>, words: &[&str], pages: &'p Pages<'p>) -> u8 {
    let mut errors = WriteSink::new(Pen::new(&pages.errors));
    match BufferedSink::new(alloc, Pen::new(&pages.output)) {
        Ok(mut output) => run_words(alloc, desk, words, &mut output, &mut errors),
        Err(_) => out_of_memory(&mut errors),
    }
}

/// The status of what words ask for.
fn status_of<'p>(
    alloc: Global,
    memory: &Refusing<Global>,
    desk: Desk<'_, 'p>,
    words: &[&str],
    pages: &'p Pages<'p>,
) -> u8 {
    if memory.has_refused() {
        return words_status(alloc, desk, words, pages);
    }
    match parse_words(alloc, words) {
        Ok(job) => job_status(memory, desk, &job, pages),
        Err(_) => words_status(alloc, desk, words, pages),
    }
}

/// Appends a mark and what was written, in hexadecimal digits where that is OUT.
fn push_written(text: &mut String, mark: &str, written: &[u8]) -> Result<(), Fail> {
    text.push_str(mark)?;
    if mark == "OUT" {
        push_bytes(text, written)?;
        return Ok(text.push('\n')?);
    }
    Ok(text.push_str(str::from_utf8(written)?)?)
}

/// Appends a mark and what a page has, where that isn't what it had before.
fn push_page(
    alloc: Global,
    text: &mut String,
    mark: &str,
    before: &[u8],
    page: &Page<'_>,
) -> Result<(), Fail> {
    let bytes = page.bytes(alloc)?;
    if bytes.as_slice() == before {
        return Ok(());
    }
    push_written(text, mark, &bytes)
}

/// Appends what was done: the paths that were opened, the status, how many files were open at most, and what was
/// written: the standard output, OUT and MAP, where it isn't `old`, and behind `! ` the lines of errors.
fn push_done(alloc: Global, text: &mut String, status: u8, pages: &Pages<'_>) -> Result<(), Fail> {
    push_page(alloc, text, "", b"", &pages.opened)?;
    let most = pages.count.most();
    write!(text, "status {status} open {most}\n")?;
    push_page(alloc, text, "", b"", &pages.output)?;
    push_page(alloc, text, "OUT", b"old", &pages.out)?;
    push_page(alloc, text, "MAP ", b"old", &pages.map)?;
    push_page(alloc, text, "! ", b"", &pages.errors)
}

/// What words do in a world of these files and pages.
fn done<'p>(
    alloc: Global,
    memory: &Refusing<Global>,
    files: Files<'_>,
    words: &[&str],
    pages: &'p Pages<'p>,
) -> Result<String, Fail> {
    let status = status_of(alloc, memory, desk_of(files, pages), words, pages);
    let mut text = String::new(alloc);
    push_done(alloc, &mut text, status, pages)?;
    Ok(text)
}

/// The words of a line.
fn words_of<'a>(alloc: Global, line: &'a str) -> Result<Vec<&'a str>, AllocError> {
    let mut words = Vec::new(alloc);
    for word in line.split(' ') {
        words.push(word)?;
    }
    Ok(words)
}

/// What the words of a line do.
fn told(
    alloc: Global,
    memory: &Refusing<Global>,
    files: Files<'_>,
    limits: Limits,
    line: &str,
) -> Result<String, Fail> {
    let words = words_of(alloc, line)?;
    let pages = blank_pages(alloc, limits)?;
    done(alloc, memory, files, &words, &pages)
}

/// The words of a row of a table do what is wanted of them.
fn row_runs(alloc: Global, files: Files<'_>, limits: Limits, row: &str) -> Result<(), Fail> {
    let (words, wanted) = row.split_once("\n= ").unwrap_or((row, ""));
    let memory = Refusing::nth(alloc, 0);
    let told = told(alloc, &memory, files, limits, words)?;
    same(told.strip_suffix("\n").unwrap_or("no line end"), wanted)
}

/// Those of each row do.
fn run(alloc: Global, files: Files<'_>, limits: Limits, table: &str) -> Result<(), Fail> {
    for row in table.split("\n\n") {
        row_runs(alloc, files, limits, row)?;
    }
    Ok(())
}

/// Words, and what they do.
const WORK: &str = "\
show B
= B status 0 open 1
00000000 80 THEADR      2
  name \"B\"
00000006 96 LNAMES      6
  name \"\"
  name \"CODE\"
00000010 98 SEGDEF      6
  align 1 combine 2 length 1 name 2 class 1 overlay 1
0000001A A0 LEDATA      4
  data segment 1 offset 0000 bytes 1
00000022 8A MODEND      1
  main 0 start 0

check A
= A status 0 open 1
ok

rewrite L OUT
= L status 0 open 1
OUT 80 03 00 01 41 3B 96 07 00*2 04 43 4F 44 45 44 98 07 00 28 05 00 02 01*2 30 A0 09 00 01 00*2 B8 00*2 8E D8 38 \
9C 06 00 C8 01 04 01*2 8F 8A 07 00 C1 00 01*2 00*2 AC

link -o OUT A B
= A B status 0 open 1
OUT 4D 5A 26 00 01 00 01 00 02 00 01 00 FF*2 00*10 1C 00*3 01 00*3 B8 00*2 8E D8 90

link -o OUT D
= D status 0 open 1
OUT 4D 5A 20 00 01 00*3 02 00 01 00 FF*2 00*10 1C 00*7";

#[test]
fn each_subcommand_does_its_work(rt: HostRuntime) -> Result<(), Fail> {
    run(rt.alloc(), &FILES, NO_LIMITS, WORK)
}

/// The second module, with 5,000 bytes behind its end.
const LONG_SECOND: &str = "\
80 03 00 01 42 3A 96 07 00*2 04 43 4F 44 45 44 98 07 00 28 01 00 02 01*2 34 A0 05 00 01 00*2 90 CA 8A 02 00*2 74 \
00*5000";

/// Links of the first module and that one.
const LINKS: &str = "\
link -o OUT -m MAP A B
= A B status 0 open 1
OUT 4D 5A 26 00 01 00 01 00 02 00 01 00 FF*2 00*10 1C 00*3 01 00*3 B8 00*2 8E D8 90
MAP segments
000000 000006 public   \"CODE\" \"\"
groups
publics
entry 0000:0000
stack 0000:0000
size 000006
relocations 1

link -o OUT B A
= B A status 0 open 1
OUT 4D 5A 26 00 01 00 01 00 02 00 01 00 FF*2 00*6 01 00*3 1C 00*3 02 00*3 90 B8 00*2 8E D8

link -o OUT B A B
= B A B status 0 open 1
OUT 4D 5A 27 00 01 00 01 00 02 00 01 00 FF*2 00*6 01 00*3 1C 00*3 02 00*3 90 B8 00*2 8E D8 90";

#[test]
fn inputs_are_linked_in_their_order_one_at_a_time(rt: HostRuntime) -> Result<(), Fail> {
    let second = bytes_of(rt.alloc(), LONG_SECOND)?;
    run(
        rt.alloc(),
        &[("A", &FIRST), ("B", &second)],
        NO_LIMITS,
        LINKS,
    )
}

#[test]
fn a_program_is_loaded_at_its_paragraph(rt: HostRuntime) -> Result<(), Fail> {
    run(
        rt.alloc(),
        &FILES,
        NO_LIMITS,
        "\
link -o OUT A
= A status 0 open 1
OUT 4D 5A 25 00 01 00 01 00 02 00 01 00 FF*2 00*10 1C 00*3 01 00*3 B8 00*2 8E D8

load P 1234
= P status 0 open 1
CS:IP 1234:0000 SS:SP 1234:0000
12340 B834128ED8",
    )
}

/// Words that end in a fault.
const FAULTS: &str = "\
show X
= X status 1 open 1
! omf: X: 4 Closing at record 0

check X
= X status 1 open 1
! omf: X: 4 Closing at record 0

rewrite X OUT
= X status 1 open 1
! omf: X: 4 Closing at record 0

rewrite H OUT
= H status 1 open 1
OUT 80 03 00 01 41 3B
! omf: H: 4 Closing at record 6

load A 1234
= A status 1 open 1
! omf: A: 35 Magic

link -o OUT B X A
= B X status 1 open 1
! omf: X: 4 Closing at record 0

link -o OUT A B C
= A B C status 1 open 1
! omf: C: 33 TwoStarts at record 47

link -o OUT A NO B
= A NO status 3 open 1
! omf: NO: 1 Device at record 0

link --ignore-case -o OUT D
= D status 1 open 1
! omf: link: 25 DuplicatePublic \"X\"

show NO
= NO status 3 open 0
! omf: NO: 1 Device at record 0

load NO 1234
= NO status 3 open 0
! omf: NO: 40 Device

link -o NONE A
= A status 3 open 1
! omf: NONE: 40 Device";

/// The standard output takes two bytes.
const FULL_OUTPUT: &str = "\
show A
= A status 3 open 1
00! omf: output: 40 Device

check A
= A status 3 open 1
ok! omf: output: 40 Device";

/// OUT takes ten bytes, or no other file takes its place: the older one stays, and the map isn't begun.
const NO_OUT: &str = "\
rewrite A OUT
= A status 3 open 1
! omf: OUT: 40 Device

link -o OUT -m MAP A
= A status 3 open 1
! omf: OUT: 40 Device";

/// No other file takes OUT's place, also where IN is damaged.
const OUT_IS_KEPT: &str = "\
rewrite H OUT
= H status 3 open 1
! omf: OUT: 40 Device";

/// MAP takes ten bytes, or no other file takes its place. It comes after the program, which stands whole.
const NO_MAP: &str = "\
link -o OUT -m MAP A
= A status 3 open 1
OUT 4D 5A 25 00 01 00 01 00 02 00 01 00 FF*2 00*10 1C 00*3 01 00*3 B8 00*2 8E D8
! omf: MAP: 40 Device";

#[test]
fn a_fault_is_one_line_on_standard_error(rt: HostRuntime) -> Result<(), Fail> {
    run(rt.alloc(), &FILES, NO_LIMITS, FAULTS)?;
    run(rt.alloc(), &FILES, OUTPUT_FILLS, FULL_OUTPUT)?;
    run(rt.alloc(), &FILES, OUT_FILLS, NO_OUT)?;
    run(rt.alloc(), &FILES, OUT_STAYS, NO_OUT)?;
    run(rt.alloc(), &FILES, OUT_STAYS, OUT_IS_KEPT)?;
    run(rt.alloc(), &FILES, MAP_FILLS, NO_MAP)?;
    run(rt.alloc(), &FILES, MAP_STAYS, NO_MAP)
}

/// Words that are no job.
const WRONG_WORDS: &str = "\
load A 12
= status 2 open 0
! omf: wrong words";

/// Help stands on the standard output, and nothing is written or opened but that.
fn helps(told: &str) -> Result<(), Fail> {
    match told.strip_prefix("status 0 open 0\n") {
        Some(help) if !help.is_empty() && !help.contains("! ") => Ok(()),
        _ => Err(Fail::new(format_args!("{told}"))),
    }
}

#[test]
fn wrong_words_and_help(rt: HostRuntime) -> Result<(), Fail> {
    run(rt.alloc(), &[], NO_LIMITS, WRONG_WORDS)?;
    let memory = Refusing::nth(rt.alloc(), 0);
    helps(&told(rt.alloc(), &memory, &[], NO_LIMITS, "help")?)
}

/// Whether this was want of memory.
fn is_want(told: &str) -> bool {
    told.contains("status 3 ") && told.ends_with("\n! omf: memory\n")
}

/// Whether there is a growth with this number. Refused, it ends in want of memory, or the run makes do with less and
/// does the same.
fn has_growth(alloc: Global, words: &str, number: u64, whole: &str) -> Result<bool, Fail> {
    let memory = Refusing::nth(alloc, number);
    let told = told(alloc, &memory, &FILES, NO_LIMITS, words)?;
    let has_refused = memory.has_refused();
    if !(has_refused && is_want(&told)) {
        same(&told, whole)?;
    }
    Ok(has_refused)
}

/// Each growth refused in turn.
fn refuse_each(alloc: Global, words: &str) -> Result<(), Fail> {
    let whole = told(alloc, &Refusing::nth(alloc, 0), &FILES, NO_LIMITS, words)?;
    for number in 1..1_000u64 {
        if !has_growth(alloc, words, number, &whole)? {
            return Ok(());
        }
    }
    Err(Fail::from("too many growths"))
}

#[test]
fn each_growth_refused(rt: HostRuntime) -> Result<(), Fail> {
    refuse_each(rt.alloc(), "show A")?;
    refuse_each(rt.alloc(), "check A")?;
    refuse_each(rt.alloc(), "rewrite A OUT")?;
    refuse_each(rt.alloc(), "link -o OUT -m MAP A B")
}
