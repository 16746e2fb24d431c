//! Files of a world in memory.

use desk::{Count, Desk, Page};
use doslink_files::{
    FilesFault, Folders, Found, InputFile, ReadFault, Sought, begins_as_input, find_default,
    is_one_of, is_one_place, read_sought, stands_as_input,
};
use omf_files::{FileId, World};
use rows::same;
use std::alloc::{AllocError, Global};
use std::collections::BTreeSet;
use std::test::*;

/// The files of the world: each holds its own name, but for those that begin as a module, a library or an archive does.
const FILES: [(&str, &[u8]); 19] = [
    ("A.OBJ", b"A.OBJ"),
    ("MAIN.OBJ", b"MAIN.OBJ"),
    ("small.obj", b"small.obj"),
    ("RUN.LIB", b"RUN.LIB"),
    ("LIBS/MATH.LIB", b"LIBS/MATH.LIB"),
    ("MORE/MATH.LIB", b"MORE/MATH.LIB"),
    ("OBJS/A.OBJ", b"OBJS/A.OBJ"),
    ("OBJS/PART.OBJ", b"OBJS/PART.OBJ"),
    ("OLD/PART.OBJ", b"OLD/PART.OBJ"),
    ("OBJS/unit.obj", b"OBJS/unit.obj"),
    ("OLD/unit", b"OLD/unit"),
    ("OLD/TIGHT.OBJ", b"OLD/TIGHT.OBJ"),
    ("OBJS/ONLY.LIB", b"OBJS/ONLY.LIB"),
    ("M.MAP", &[0x80, 0x03, 0x00, 0x01, 0x41, 0x3B]),
    ("L.MAP", &[0xF0, 0x0D, 0x00, 0, 0, 0, 0, 0, 0, 0]),
    ("T.MAP", b"segments\n"),
    ("BOTH.LIB", &[0xF0, 0x0D, 0x00, 0, 0, 0, 0, 0, 0, 0]),
    ("LIKE.LIB", &[0xF0, 0x0D, 0x00, 0, 0, 0, 0, 0, 0, 0]),
    ("PACK.LIB", b"!<arch>\nPACK.LIB"),
];

/// Other paths of some of them.
const LINKS: [(&str, &str); 8] = [
    ("./A.OBJ", "A.OBJ"),
    ("OTHER.LIB", "RUN.LIB"),
    ("./BOTH.LIB", "BOTH.LIB"),
    ("./PACK.LIB", "PACK.LIB"),
    ("PIPE", "ZERO"),
    ("./", "."),
    (".\\", "."),
    ("sub\\", "sub/"),
];

/// A world of these files, with folders, a device and a file that may not be opened.
fn desk_of<'p>(page: &'p Page<'p>, count: &'p Count) -> Desk<'static, 'p> {
    Desk {
        files: &FILES,
        folders: &[".", "DIR", "MAIN", "sub/"],
        devices: &["ZERO", "ZERO.LIB"],
        locked: &["SHUT.OBJ", "LIBS/SHUT.LIB", "TIGHT.OBJ", "OBJS/KEPT.OBJ"],
        links: &LINKS,
        out: page,
        map: page,
        opened: page,
        count,
    }
}

/// What a word stands for: `-l` is in front of a library.
fn sought_of(word: &str) -> Sought<'_> {
    match word.strip_prefix("-l") {
        Some(name) => Sought::Library(name),
        None => Sought::File(word),
    }
}

/// The folders in which they are looked up.
const FOLDERS: Folders<'static> = Folders {
    objects: &["OBJS", "OLD"],
    libraries: &["LIBS", "MORE"],
};

/// What words find: each file's path and its bytes, `library` where these are no text; or what isn't read and why.
fn told(alloc: Global, desk: &Desk<'_, '_>, line: &str) -> Result<String, Fail> {
    let sought = line
        .split(' ')
        .map(sought_of)
        .collect::<Vec<Sought<'_>>>(alloc)?;
    let mut text = String::new(alloc);
    match read_sought(alloc, desk, FOLDERS, &sought) {
        Ok(files) => {
            for file in &files {
                let bytes = str::from_utf8(&file.bytes).unwrap_or("library");
                write!(text, "{} {}\n", file.path, bytes)?;
            }
        }
        Err(FilesFault::Memory) => text.push_str("memory\n")?,
        Err(FilesFault::Unread(unread)) => {
            for one in &unread {
                write!(text, "{}: {}\n", one.name, one.fault)?;
            }
        }
    }
    Ok(text)
}

/// Words, and what they find.
const SOUGHT: &str = "\
A.OBJ -lMATH
= A.OBJ A.OBJ
LIBS/MATH.LIB LIBS/MATH.LIB

-lRUN MAIN small ./A.OBJ
= RUN.LIB RUN.LIB
MAIN.OBJ MAIN.OBJ
small.obj small.obj
./A.OBJ A.OBJ

A.OBJ NO.OBJ DIR SHUT.OBJ -lNONE -lSHUT B
= NO.OBJ: no such file
DIR: it is a folder
SHUT.OBJ: no permission
NONE: no such file
SHUT: no permission
B: no such file

PART.OBJ PART unit TIGHT small
= OBJS/PART.OBJ OBJS/PART.OBJ
OBJS/PART.OBJ OBJS/PART.OBJ
OBJS/unit.obj OBJS/unit.obj
OLD/TIGHT.OBJ OLD/TIGHT.OBJ
small.obj small.obj

ONLY.LIB -lOBJS/ONLY
= OBJS/ONLY.LIB OBJS/ONLY.LIB
OBJS/ONLY.LIB OBJS/ONLY.LIB

-lONLY -lPART.OBJ MATH.LIB KEPT OBJS/B
= ONLY: no such file
PART.OBJ: no such file
MATH.LIB: no such file
KEPT: no permission
OBJS/B: no such file

MAIN.LIB
= MAIN.LIB: no such file

-lBOTH A.OBJ -lBOTH BOTH.LIB ./BOTH.LIB -l./BOTH
= BOTH.LIB library
A.OBJ A.OBJ

./BOTH.LIB LIKE.LIB -lLIKE -lBOTH.LIB
= ./BOTH.LIB library
LIKE.LIB library

PACK.LIB A.OBJ -lPACK ./PACK.LIB PACK.LIB ./A.OBJ A.OBJ A
= PACK.LIB !<arch>
PACK.LIB
A.OBJ A.OBJ
./A.OBJ A.OBJ
A.OBJ A.OBJ
A.OBJ A.OBJ

-lBOTH BOTH -lNONE -lNONE
= BOTH: no such file
NONE: no such file
NONE: no such file";

/// The words of each row find what is wanted of them.
fn all_found(alloc: Global, page: &Page<'_>, count: &Count) -> Result<(), Fail> {
    let desk = desk_of(page, count);
    for row in SOUGHT.split("\n\n") {
        let (words, wanted) = row.split_once("\n= ").unwrap_or((row, ""));
        let told = told(alloc, &desk, words)?;
        same(told.strip_suffix("\n").unwrap_or("no line end"), wanted)?;
    }
    Ok(())
}

#[test]
fn all_that_is_not_read_is_told(rt: HostRuntime) -> Result<(), Fail> {
    let page = Page::blank(rt.alloc(), "", 2_000);
    all_found(rt.alloc(), &page, &Count::new())
}

/// A library is opened once, however it is spelled, and a module as often as it is wanted.
fn opened(alloc: Global, page: &Page<'_>, count: &Count) -> Result<(), Fail> {
    let desk = desk_of(page, count);
    told(
        alloc,
        &desk,
        "-lBOTH.LIB ./BOTH.LIB -lBOTH.LIB A.OBJ A.OBJ BOTH.LIB PACK.LIB -l./PACK PACK.LIB",
    )?;
    same(
        str::from_utf8(&page.bytes(alloc)?)?,
        "BOTH.LIB A.OBJ A.OBJ PACK.LIB ./PACK ",
    )
}

#[test]
fn a_library_is_opened_once(rt: HostRuntime) -> Result<(), Fail> {
    let page = Page::blank(rt.alloc(), "", 2_000);
    opened(rt.alloc(), &page, &Count::new())
}

/// How many bytes are read of a file of 70,000 that begins with this one, and has zeros behind it.
fn length_read(alloc: Global, page: &Page<'_>, count: &Count, first: u8) -> Result<usize, Fail> {
    let mut bytes = Vec::from_slice(alloc, &[first])?;
    for _ in 1..70_000 {
        bytes.push(0)?;
    }
    let desk = Desk {
        files: &[("LONG.OBJ", bytes.as_slice())],
        ..desk_of(page, count)
    };
    match read_sought(alloc, &desk, FOLDERS, &[Sought::File("LONG")]) {
        Ok(files) => match files.first() {
            Some(file) => Ok(file.bytes.len()),
            None => Err(Fail::from("left out")),
        },
        Err(_) => Err(Fail::from("unread")),
    }
}

/// A file without a module's header, that is neither a library nor an archive, is read as far as the longest record
/// reaches.
#[test]
fn of_a_foreign_file_one_record_is_read(rt: HostRuntime) -> Result<(), Fail> {
    let page = Page::blank(rt.alloc(), "", 2_000);
    let count = Count::new();
    for (first, wanted) in [
        (0x80, 70_000),
        (0x82, 70_000),
        (0xF0, 70_000),
        (0x7F, 65_538),
        (0x00, 65_538),
    ] {
        let length = length_read(rt.alloc(), &page, &count, first)?;
        is(length == wanted, true, "another length")?;
    }
    Ok(())
}

/// The files at these paths.
fn ids(
    alloc: Global,
    desk: &Desk<'_, '_>,
    paths: &[&str],
) -> Result<BTreeSet<FileId, Global>, Fail> {
    let mut ids = BTreeSet::new(alloc);
    for path in paths {
        ids.insert(desk.look(path)?.id)?;
    }
    Ok(ids)
}

/// What the default library of a name is, where this one is known.
fn default_of(
    alloc: Global,
    desk: &Desk<'_, '_>,
    name: &str,
    known: &[&str],
) -> Result<String, Fail> {
    let known = ids(alloc, desk, known)?;
    match find_default(alloc, desk, &["LIBS"], name, &known) {
        Ok(Found::New(InputFile { path, .. })) => Ok(path),
        Ok(Found::Known) => Ok(String::from_str(alloc, "known")?),
        Err(fault) => Ok(fault.to_string(alloc)?),
    }
}

/// What default libraries are, and which files were opened for them: regular ones alone.
fn defaults(alloc: Global, page: &Page<'_>, count: &Count) -> Result<(), Fail> {
    let desk = desk_of(page, count);
    for (name, known, wanted) in [
        ("RUN", "A.OBJ", "RUN.LIB"),
        ("RUN", "RUN.LIB", "known"),
        ("OTHER.LIB", "RUN.LIB", "known"),
        ("MATH", "RUN.LIB", "LIBS/MATH.LIB"),
        ("ZERO", "RUN.LIB", "it is no regular file"),
        ("DIR", "RUN.LIB", "it is a folder"),
        ("SHUT", "RUN.LIB", "no permission"),
        ("NONE", "RUN.LIB", "no such file"),
    ] {
        same(&default_of(alloc, &desk, name, &[known])?, wanted)?;
    }
    same(
        str::from_utf8(&page.bytes(alloc)?)?,
        "RUN.LIB LIBS/MATH.LIB LIBS/SHUT.LIB ",
    )
}

#[test]
fn default_libraries_are_regular_files_that_are_new(rt: HostRuntime) -> Result<(), Fail> {
    let page = Page::blank(rt.alloc(), "", 2_000);
    defaults(rt.alloc(), &page, &Count::new())
}

/// Whether a test was as it should be.
fn is(told: bool, wanted: bool, what: &str) -> Result<(), Fail> {
    if told == wanted {
        return Ok(());
    }
    Err(Fail::from(what))
}

/// What stands where a file is to be written.
fn standing(alloc: Global, page: &Page<'_>, count: &Count) -> Result<(), Fail> {
    let desk = desk_of(page, count);
    for (path, wanted) in [
        ("M.MAP", true),
        ("L.MAP", true),
        ("T.MAP", false),
        ("NONE", false),
        ("DIR", false),
        ("ZERO", false),
    ] {
        is(stands_as_input(&desk, path), wanted, path)?;
    }
    let read = ids(alloc, &desk, &["A.OBJ", "RUN.LIB", "ZERO"])?;
    for (path, wanted) in [
        ("A.OBJ", true),
        ("./A.OBJ", true),
        ("OTHER.LIB", true),
        ("MAIN.OBJ", false),
        ("NONE", false),
        ("ZERO", false),
    ] {
        is(is_one_of(&desk, path, &read), wanted, path)?;
    }
    for (one, other, wanted) in [
        ("A.OBJ", "./A.OBJ", true),
        ("A.OBJ", "MAIN.OBJ", false),
        ("NEW", "NEW", true),
        ("NEW", "./NEW", true),
        ("NEW", "sub/NEW", false),
        ("ZERO", "ZERO.LIB", false),
        ("PIPE", "ZERO", false),
        ("PIPE", "A.OBJ", false),
        ("NEW", ".\\NEW", true),
        ("sub/NEW", "sub\\NEW", true),
        ("sub/NEW", "NEW", false),
        ("./a:b", "a:b", true),
        ("a\\b", "./a\\b", true),
        ("c\\b", "b", false),
        ("NEW", "A.OBJ", false),
    ] {
        is(is_one_place(&desk, one, other), wanted, other)?;
    }
    Ok(())
}

#[test]
fn what_stands_where_a_file_is_written(rt: HostRuntime) -> Result<(), Fail> {
    let page = Page::blank(rt.alloc(), "", 2_000);
    standing(rt.alloc(), &page, &Count::new())
}

/// Files of these bytes begin as modules or libraries do, or not.
fn beginnings() -> Result<(), Fail> {
    for (front, wanted) in [
        (&[0x80u8, 0x03, 0x00, 0x01, 0x41, 0x3B][..], true),
        (&[0x82, 0x03, 0x00, 0x01, 0x41, 0x3B][..], true),
        // a .COM that begins with a comparison
        (&[0x80, 0x3E, 0x80, 0x00, 0x00, 0x74][..], false),
        (&[0xF0, 0x0D, 0x00, 0x00][..], true),
        (&[0xF0, 0xFD, 0x01][..], true),
        (&[0xF0, 0x0E, 0x00, 0x00][..], false),
        (b"!<arch>\n", true),
        (b"!<thin>\n", true),
        (b"MZ\x00\x00\x00\x00\x00\x00", false),
        (b"segments", false),
        (b"", false),
        (&[0x80][..], false),
    ] {
        is(begins_as_input(front), wanted, "a beginning")?;
    }
    Ok(())
}

#[test]
fn what_files_begin_as(_rt: HostRuntime) -> Result<(), Fail> {
    beginnings()
}
